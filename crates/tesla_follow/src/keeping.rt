//! Parts of a follower's calls.

ghost use Rattle.std.specs.Prelude.{◌≡◌, IfOk, ◌+◌, ◌^◌, ◌<◌, ◌≤◌, ◌++◌, ℕ, List, length, map, nat_lt, option_copied, option_map, slice_set, true, vec_capacity};
ghost use Rattle.std.specs.List.{AllByRecursion};
ghost use Rattle.tesla_early.specs.Early.{message_in};
ghost use Rattle.tesla_frame.specs.Shown.{shown};
ghost use Rattle.tesla_follow.specs.Followed.{FollowedEpoch, ended_in, unqueued_by};
ghost use Rattle.tesla_follow.specs.Kept.{IsCalled, IsNew, shapes_of, waits_by};
ghost use Rattle.tesla_follow.specs.Stands.{EpochsStand};
ghost use Rattle.tesla_follow.specs.declared.answers.Acceptance.TheVariants.{Queued};

use crate::Acceptance;
use crate::asking::end_all;
use crate::epoch::OpenEpoch;
use crate::queue::Queue;
use std::alloc::Global;
use tesla_base::NoMemory;
use tesla_fitting::Config;
use tesla_frame::FrameView;
use tesla_receiver::Report;

/// No counts.
pub const NOTHING: Report = Report {
    arrivals: 0,
    malformed: 0,
    foreign: 0,
    misfit: 0,
    future: 0,
    badkey: 0,
    late: 0,
    repeat: 0,
    full: 0,
    kept: 0,
    keys: 0,
    given: 0,
};

/// So many epochs of this configuration in which nothing has happened, and room for three. All memory is taken here.
pub fn open_epochs(alloc: Global, config: &Config, count: usize) -> Result<Vec<OpenEpoch>, NoMemory>
    requires count { count ≤ 3 }
    requires some { 1 ≤ config.now.quota }
    requires within { config.now.quota ≤ config.now.capacity }
    requires few { config.now.capacity ≤ 4096 }
    requires ingests { 1 ≤ config.now.ingests }
    ensures count { IfOk result (λ es. length es.items ≡ count) }
    ensures new { IfOk result (λ es. AllByRecursion (IsNew config.now) es.items) }
    ensures capacity { IfOk result (λ es. vec_capacity es ≡ 3) }
{
    let mut epochs = Vec::with_capacity(alloc, 3)?;
    for _ in 0..count {
        let setup = config.setup.copy(alloc)?;
        epochs.push_reserved(OpenEpoch::open(
            alloc,
            setup,
            config.lag,
            config.capacity,
            config.quota,
            config.ingests,
        )?);
    }
    Ok(epochs)
}

/// Lets the message of a frame wait where it was accepted, as one of the epoch of this number. It takes no memory.
pub fn wait(queue: &mut Queue, number: u32, acceptance: Acceptance, frame: Option<&FrameView<'_>>)
    requires { acceptance ≡ Queued → length queue.old.waiting < queue.old.capacity }
    ensures waiting { queue.new.waiting ≡ queue.old.waiting ++ waits_by number acceptance (message_in (option_map shown (option_copied frame.entry))) }
    ensures capacity { queue.new.capacity ≡ queue.old.capacity }
    ensures within { length queue.old.waiting ≤ queue.old.capacity → length queue.new.waiting ≤ queue.new.capacity }
{
    match acceptance {
        Acceptance::Queued => {
            if let Some(FrameView::Data(data)) = frame {
                queue.push(number, data.name(), data.payload());
            }
        }
        Acceptance::Unpromised => {}
        Acceptance::Unqueued => {}
    }
}

/// 1 for a message that was promised and found no place, and else 0.
pub fn unqueued_by(acceptance: Acceptance) -> u64
    ensures value { result ≡ unqueued_by acceptance }
    ensures few { result ≤ 1 }
{
    match acceptance {
        Acceptance::Unpromised => 0,
        Acceptance::Queued => 0,
        Acceptance::Unqueued => 1,
    }
}

/// Sets the flag at a place, if there is one.
pub fn mark(flags: &mut Vec<bool>, place: usize)
    ensures flags { flags.new.items ≡ slice_set flags.old.items place true }
    ensures capacity { vec_capacity flags.new ≡ vec_capacity flags.old }
{
    if place < flags.len() {
        flags[place] = true;
    }
}

/// Makes the end of an ingest in every epoch. It takes no memory.
pub fn end_open(epochs: &mut Vec<OpenEpoch>, ingest: u8)
    requires { (most : ℕ) × (most + 1 < 2 ^ 64) × AllByRecursion (IsCalled most) epochs.old.items }
    ensures stand { (es : List FollowedEpoch) → EpochsStand epochs.old.items es → EpochsStand epochs.new.items (map (ended_in ingest) es) }
    ensures shapes { shapes_of epochs.new.items ≡ shapes_of epochs.old.items }
    ensures calls { (most : ℕ) → AllByRecursion (IsCalled most) epochs.old.items → AllByRecursion (IsCalled (most + 1)) epochs.new.items }
    ensures capacity { vec_capacity epochs.new ≡ vec_capacity epochs.old }
{
    end_all(epochs.as_mut_slice(), ingest);
}

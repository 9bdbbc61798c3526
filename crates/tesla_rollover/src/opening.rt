//! The opening of a further epoch.

ghost use Rattle.std.specs.Prelude.{◌≡◌, ◌≢◌, ◌≤◌, ◌<◌, ◌+◌, ◌++◌, ◌∷◌, [], List, IfOk, Ok, length, vec_capacity};
ghost use Rattle.std.specs.List.{AllByRecursion};
ghost use Rattle.tesla_commit.specs.Parsing.{judged};
ghost use Rattle.tesla_commit.specs.Parts.{Parts};
ghost use Rattle.tesla_rollover.specs.Epochs.{next_judged};
ghost use Rattle.tesla_rollover.specs.Kept.{HandsOver, HasIngests, OpensEpoch, configs_of, receivers_of};
ghost use Rattle.tesla_rollover.specs.Replies.{had_memory};
ghost use Rattle.tesla_rollover.specs.declared.epoch.Epoch.{Epoch};
ghost use Rattle.tesla_state.specs.State.{State};

use crate::epoch::Epoch;
use crate::finding::epoch_of;
use crate::{Next, handover_text};
use std::alloc::Global;
use tesla_base::NoMemory;
use tesla_commit::{Setup, SetupRefusal, read_setup};
use tesla_fitting::Config;
use tesla_receiver::Receiver;

/// How many epochs are open at most.
pub const MOST: usize = 16;

/// Opens an epoch of this setup, with the rest of the configuration, and makes in it the end of each ingest that has ended
/// in the first.
fn open_epoch(
    alloc: Global,
    config: &Config,
    setup: Setup,
    first: &Receiver,
) -> Result<Epoch, NoMemory>
    requires some { 1 ≤ config.now.capacity }
    requires few { config.now.capacity ≤ 4096 }
    requires quota { config.now.quota ≡ config.now.capacity }
    requires ingests { 1 ≤ config.now.ingests }
    requires same { first.now.config.ingests ≡ config.now.ingests }
    ensures { IfOk result (λ epoch. OpensEpoch config.now first.now setup epoch) }
{
    let stream = setup.stream();
    let mut receiver = Receiver::open(
        alloc,
        setup,
        config.lag,
        config.capacity,
        config.quota,
        config.ingests,
    )?;
    for ingest in 0..config.ingests {
        if first.has_ended(ingest) {
            receiver.end(ingest);
        }
    }
    Ok(Epoch { stream, receiver })
}

/// What the payload of a packet of the epoch of that number comes to. Where it hands over to a stream of its own, the next
/// epoch is opened; else every epoch is as before. `NoMemory`: the text is a setup of a stream that no epoch has, and there
/// was none for its receiver.
pub fn hand_over(
    alloc: Global,
    config: &Config,
    epochs: &mut Vec<Epoch>,
    number: u8,
    payload: &[u8],
) -> Next
    requires some { 1 ≤ length epochs.old.items }
    requires most { length epochs.old.items ≤ 16 }
    requires room { 16 ≤ vec_capacity epochs.old }
    requires same { AllByRecursion (HasIngests config.now.ingests) epochs.old.items }
    requires capacity { 1 ≤ config.now.capacity }
    requires few { config.now.capacity ≤ 4096 }
    requires quota { config.now.quota ≡ config.now.capacity }
    requires ingests { 1 ≤ config.now.ingests }
    ensures hands { (first : State) (rest : List State) → receivers_of epochs.old.items ≡ first ∷ rest → HandsOver config.now first number payload.now epochs.old.items epochs.new.items result }
    ensures capacity { vec_capacity epochs.new ≡ vec_capacity epochs.old }
{
    let Some(text) = handover_text(payload) else {
        return Next::Plain;
    };
    let count = epochs.len();
    if usize::from(number) + 1 != count {
        return Next::Old {
            newest: (count - 1) as u8,
        };
    }
    if count == MOST {
        return Next::EpochsSpent;
    }
    open_next(alloc, config, epochs, text)
}

// Opens the next epoch, of the setup that a text spells, while there are fewer than the most.
fn open_next(alloc: Global, config: &Config, epochs: &mut Vec<Epoch>, text: &[u8]) -> Next
    requires some { 1 ≤ length epochs.old.items }
    requires most { length epochs.old.items < 16 }
    requires room { 16 ≤ vec_capacity epochs.old }
    requires same { AllByRecursion (HasIngests config.now.ingests) epochs.old.items }
    requires capacity { 1 ≤ config.now.capacity }
    requires few { config.now.capacity ≤ 4096 }
    requires quota { config.now.quota ≡ config.now.capacity }
    requires ingests { 1 ≤ config.now.ingests }
    ensures next { result ≡ next_judged (configs_of epochs.old.items) (had_memory result) (judged text.now) }
    ensures opened { (first : State) (rest : List State) → receivers_of epochs.old.items ≡ first ∷ rest → result ≡ Next.Opened →
        (setup : Parts) × (epoch : Epoch) × (judged text.now ≡ Ok setup) × (epochs.new.items ≡ epochs.old.items ++ epoch ∷ []) × OpensEpoch config.now first setup epoch }
    ensures kept { result ≢ Next.Opened → epochs.new.items ≡ epochs.old.items }
    ensures capacity { vec_capacity epochs.new ≡ vec_capacity epochs.old }
{
    let setup = match read_setup(alloc, text) {
        Ok(setup) => setup,
        Err(SetupRefusal::At { line, kind }) => return Next::BadSetup { line, kind },
        Err(SetupRefusal::NoMemory) => unreachable!(),
    };
    let stream = setup.stream();
    if epoch_of(epochs.as_slice(), stream).is_some() {
        return Next::UsedStream(stream);
    }
    match open_epoch(alloc, config, setup, &epochs[0].receiver) {
        Ok(epoch) => {
            epochs.push_reserved(epoch);
            Next::Opened
        }
        Err(_) => Next::NoMemory,
    }
}

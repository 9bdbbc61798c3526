//! An epoch of a feed that is open.

ghost use Rattle.std.specs.Prelude.{◌≡◌, ◌+◌, ◌^◌, ◌<◌, ◌≤◌, List, [], ◌∷◌, ◌++◌, IfOk, length, map, option_copied, option_map, true, if◌then◌else◌};
ghost use Rattle.tesla_frame.specs.Reading.{frame_of};
ghost use Rattle.tesla_frame.specs.Shown.{shown};
ghost use Rattle.tesla_early.specs.Early.{is_early};
ghost use Rattle.tesla_early.specs.Kept.{candidate_in, is_promised_by};
ghost use Rattle.tesla_receiver.specs.Costs.{most_evaluations};
ghost use Rattle.tesla_receiver.specs.Entries.{Entry};
ghost use Rattle.tesla_receiver.specs.Events.{waiting_in};
ghost use Rattle.tesla_receiver.specs.History.{arrivals_in};
ghost use Rattle.tesla_receiver.specs.Report.{report_of};
ghost use Rattle.tesla_receiver.specs.Stands.{Stands};
ghost use Rattle.tesla_receiver.specs.Undelivered.{undelivered_in};
ghost use Rattle.tesla_rollover.specs.Epochs.{has_stream};
ghost use Rattle.tesla_state.specs.Replies.{KeepsBehind, reply_shown};
ghost use Rattle.tesla_follow.specs.Followed.{FollowedEpoch, acceptance_with, arrival_in, arrived_in, asked_with, ended_in, most_promises, no_epoch};
ghost use Rattle.tesla_follow.specs.Kept.{config_in, ends_if, ends_of, kept_by, reply_of, room_of, set_count};
ghost use Rattle.tesla_follow.specs.Stands.{EpochStands};
ghost use Rattle.tesla_follow.specs.declared.answers.Acceptance.TheVariants.{Queued};

use crate::Acceptance;
use std::alloc::Global;
use std::marker::Model;
use std::sync::ledger::Ledger;
use tesla_base::{MOST_PAYLOAD, NoMemory, Steps, StreamId};
use tesla_commit::Setup;
use tesla_early::Promises;
use tesla_fitting::Verdict;
use tesla_frame::FrameView;
use tesla_receiver::{Receiver, Report, Take};

/// How many promises of an epoch count.
const MOST_PROMISES: u32 = 4096;

/// An epoch: the receiver of a stream, and what its packets promised. The stream's number stands beside it, so that it's
/// found without the receiver.
#[derive(Drop)]
pub struct OpenEpoch {
    stream: StreamId,
    receiver: Receiver,
    promises: Promises,
}

impl Model for OpenEpoch {
    ghost use Rattle.std.specs.Prelude.{◌≡◌};
    ghost use Rattle.tesla_follow.specs.Stands.{EpochState};

    ghost Value = { EpochState };

    ghost view = { λ e. record { receiver = e.receiver; promises = e.promises } };

    ghost invariant = { λ e. e.stream ≡ e.receiver.config.setup.stream };
}

/// The verdict on an arrival, and what becomes of its message.
#[derive(Clone, Copy, Debug, PartialEq, Eq)]
pub struct Judged {
    pub verdict: Verdict,
    pub acceptance: Acceptance,
}

/// What becomes of the message of a frame with this verdict. Only where there is room for it, its promise is used, and what
/// its payload promises is learnt.
fn accept(
    promises: &mut Promises,
    verdict: Verdict,
    frame: Option<&FrameView<'_>>,
    room: bool,
) -> Acceptance
    ensures acceptance { result ≡ acceptance_with (is_promised_by promises.old.kept (candidate_in verdict (option_map shown (option_copied frame.entry)))) room }
    ensures kept { promises.new.kept ≡ kept_by result promises.old.most promises.old.kept (candidate_in verdict (option_map shown (option_copied frame.entry))) }
    ensures most { promises.new.most ≡ promises.old.most }
    ensures reserved { promises.new.reserved ≡ promises.old.reserved }
{
    if !room {
        return if promises.is_promised(verdict, frame) {
            Acceptance::Unqueued
        } else {
            Acceptance::Unpromised
        };
    }
    if promises.accept(verdict, frame) {
        Acceptance::Queued
    } else {
        Acceptance::Unpromised
    }
}

/// Makes the end of an ingest, if its flag is set.
fn end_if(receiver: &mut Receiver, ingest: u8, flag: bool)
    requires { receiver.old.calls + 1 < 2 ^ 64 }
    ensures stands { (h : List Entry) → Stands receiver.old h → Stands receiver.new (ends_if flag ingest h) }
    ensures config { receiver.new.config ≡ receiver.old.config }
    ensures calls { receiver.new.calls ≤ receiver.old.calls + (if flag then 1 else 0) }
    ensures reserved { receiver.new.reserved ≡ receiver.old.reserved }
{
    if flag {
        receiver.end(ingest);
    }
}

/// Makes the ends of the ingests whose flags are set, in order.
fn end_each(receiver: &mut Receiver, flags: &[bool])
    requires few { length flags.now ≤ 255 }
    requires none { receiver.old.calls ≡ 0 }
    ensures stands { Stands receiver.old [] → Stands receiver.new (ends_of (length flags.now) flags.now) }
    ensures config { receiver.new.config ≡ receiver.old.config }
    ensures calls { receiver.new.calls ≤ set_count flags.now }
    ensures reserved { receiver.new.reserved ≡ receiver.old.reserved }
{
    for ingest in 0..flags.len() {
        end_if(receiver, ingest as u8, flags[ingest]);
    }
}

impl OpenEpoch {
    /// An epoch in which nothing has happened. All memory is taken here.
    pub fn open(
        alloc: Global,
        setup: Setup,
        lag: i64,
        capacity: u32,
        quota: u32,
        ingests: u8,
    ) -> Result<OpenEpoch, NoMemory>
        requires some { 1 ≤ quota }
        requires within { quota ≤ capacity }
        requires few { capacity ≤ 4096 }
        requires ingests { 1 ≤ ingests }
        ensures config { IfOk result (λ e. e.receiver.config ≡ record { setup = setup; lag = lag; capacity = capacity; quota = quota; ingests = ingests }) }
        ensures stands { IfOk result (λ e. EpochStands e (no_epoch e.receiver.config)) }
    {
        let stream = setup.stream();
        let receiver = Receiver::open(alloc, setup, lag, capacity, quota, ingests)?;
        let promises = Promises::open(alloc, MOST_PROMISES)?;
        Ok(OpenEpoch {
            stream,
            receiver,
            promises,
        })
    }

    /// Whether it's of this stream.
    pub fn has_stream(&self, stream: StreamId) -> bool
        ensures { result ≡ has_stream stream (config_in self.now) }
    {
        self.stream.0 == stream.0
    }

    /// Its stream.
    pub fn stream(&self) -> StreamId
        ensures { result ≡ self.now.receiver.config.setup.stream }
    {
        self.stream
    }

    /// Judges a datagram of an ingest, with the reading of the receiver's clock in microseconds, which was read as this frame
    /// or as none, told whether a message that is accepted may wait.
    pub fn arrive<L: Ledger>(
        &mut self,
        ingest: u8,
        reading: u64,
        bytes: &[u8],
        frame: Option<&FrameView<'_>>,
        room: bool,
        steps: &mut Steps<L>,
    ) -> Judged
        requires read { option_map shown (option_copied frame) ≡ frame_of bytes.now }
        requires calls { self.old.receiver.calls + 1 < 2 ^ 64 }
        ensures answer { (e : FollowedEpoch) → EpochStands self.old e → record { ingest = ingest; reading = reading; bytes = bytes.now; verdict = result.verdict } ≡ arrival_in e ingest reading bytes.now }
        ensures acceptance { (e : FollowedEpoch) → EpochStands self.old e → result.acceptance ≡ acceptance_with (is_early most_promises e.teaching (arrival_in e ingest reading bytes.now)) room }
        ensures stands { (e : FollowedEpoch) → EpochStands self.old e → EpochStands self.new (arrived_in e result.acceptance (arrival_in e ingest reading bytes.now)) }
        ensures placed { result.acceptance ≡ Queued → room ≡ true }
        ensures evaluations { (e : FollowedEpoch) → EpochStands self.old e → steps.new ≤ steps.old + most_evaluations e.config (arrivals_in e.history) reading bytes.now }
        ensures config { config_in self.new ≡ config_in self.old }
        ensures most { self.new.promises.most ≡ self.old.promises.most }
        ensures calls { self.new.receiver.calls ≡ self.old.receiver.calls + 1 }
        ensures room { room_of self.new ≡ room_of self.old }
    {
        let verdict = self
            .receiver
            .arrive_read(ingest, reading, bytes, frame, steps);
        Judged {
            verdict,
            acceptance: accept(&mut self.promises, verdict, frame, room),
        }
    }

    /// Gives the next released packet, whose payload is then at the front of the buffer, and learns what it promises; or says
    /// whether all ingests have ended. The rest of the buffer stays as it was.
    pub fn take(&mut self, releaser: u8, into: &mut [u8; MOST_PAYLOAD]) -> Take
        requires { self.old.receiver.calls + 1 < 2 ^ 64 }
        ensures answer { (e : FollowedEpoch) → EpochStands self.old e → reply_shown result into.new ≡ reply_of e }
        ensures stands { (e : FollowedEpoch) → EpochStands self.old e → EpochStands self.new (asked_with releaser (reply_of e) e) }
        ensures behind { KeepsBehind result into.old into.new }
        ensures config { config_in self.new ≡ config_in self.old }
        ensures most { self.new.promises.most ≡ self.old.promises.most }
        ensures calls { self.new.receiver.calls ≡ self.old.receiver.calls + 1 }
        ensures room { room_of self.new ≡ room_of self.old }
    {
        let take = self.receiver.take(releaser, into);
        match take {
            Take::Given(head) => {
                self.promises.learn_of(&into[..usize::from(head.length)]);
            }
            Take::Empty => {}
            Take::Over => {}
        }
        take
    }

    /// Ends an ingest. One at or above the number of ingests counts for nothing.
    pub fn end(&mut self, ingest: u8)
        requires { self.old.receiver.calls + 1 < 2 ^ 64 }
        ensures stands { (e : FollowedEpoch) → EpochStands self.old e → EpochStands self.new (ended_in ingest e) }
        ensures config { config_in self.new ≡ config_in self.old }
        ensures most { self.new.promises.most ≡ self.old.promises.most }
        ensures calls { self.new.receiver.calls ≡ self.old.receiver.calls + 1 }
        ensures room { room_of self.new ≡ room_of self.old }
    {
        self.receiver.end(ingest);
    }

    /// Begins anew with another setup, and makes the ends of the ingests whose flags are set. It tells how many packets were
    /// held that weren't given. It takes no memory.
    pub fn begin(&mut self, setup: Setup, flags: &[bool]) -> u32
        requires { length flags.now ≤ 255 }
        ensures dropped { (e : FollowedEpoch) → EpochStands self.old e → result ≡ undelivered_in e.config e.history }
        ensures config { config_in self.new ≡ record self.old.receiver.config { setup = setup } }
        ensures stands { self.old.promises.most ≡ most_promises → EpochStands self.new (record { config = config_in self.new; history = ends_of (length flags.now) flags.now; teaching = ends_of (length flags.now) flags.now }) }
        ensures most { self.new.promises.most ≡ self.old.promises.most }
        ensures calls { self.new.receiver.calls ≤ set_count flags.now }
        ensures room { room_of self.new ≡ room_of self.old }
    {
        self.stream = setup.stream();
        self.promises.clear();
        let dropped = self.receiver.reopen(setup);
        end_each(&mut self.receiver, flags);
        dropped
    }

    /// How many released packets wait to be taken.
    pub fn waiting(&self) -> u64
        ensures value { (e : FollowedEpoch) → EpochStands self.now e → result ≡ waiting_in e.config e.history }
        ensures few { result < 2 ^ 32 }
    {
        self.receiver.waiting()
    }

    /// The counts of the receiver's history.
    pub fn report(&self) -> Report
        ensures { (e : FollowedEpoch) → EpochStands self.now e → result ≡ report_of e.history }
    {
        self.receiver.report()
    }
}

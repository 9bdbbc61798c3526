//! The receiver's calls.

ghost use Rattle.std.specs.Prelude.{◌≡◌, ◌+◌, ◌^◌, ◌<◌, ◌≤◌, ◌++◌, ◌∷◌, [], List, if◌then◌else◌, IfOk, nat_lt, option_copied, option_map, ◌&&◌};
ghost use Rattle.tesla_frame.specs.Reading.{frame_of};
ghost use Rattle.tesla_frame.specs.Shown.{shown};
ghost use Rattle.tesla_receiver.specs.Entries.{Entry};
ghost use Rattle.tesla_receiver.specs.declared.history.Entry.TheVariants.{Arrived};
ghost use Rattle.tesla_base.specs.declared.names.ChainNo.{ChainNo};
ghost use Rattle.tesla_receiver.specs.Costs.{most_evaluations, most_offers};
ghost use Rattle.tesla_receiver.specs.History.{Arrives, Takes, Ends, arrivals_in, entry_of, has_end, reply_to, held_in};
ghost use Rattle.tesla_receiver.specs.Events.{waiting_in};
ghost use Rattle.tesla_state.specs.Kept.{CountsWithin};
ghost use Rattle.tesla_state.specs.Replies.{reply_shown, KeepsBehind};
ghost use Rattle.tesla_state.specs.Steps.{with_ingests};
ghost use Rattle.tesla_receiver.specs.Report.{report_of};
ghost use Rattle.tesla_receiver.specs.Stands.{Stands};
ghost use Rattle.tesla_receiver.specs.Undelivered.{undelivered_in};

use std::alloc::Global;
use std::marker::Model;
use std::sync::ledger::Ledger;
use tesla_base::{MOST_PAYLOAD, NoMemory, Steps};
use tesla_commit::Setup;
use tesla_fitting::Verdict;
use tesla_frame::{FrameView, read_frame};
use tesla_state::{ReceiverState, Report, Take};

/// A receiver of one stream (RFC 4082, section 3.5). It keeps what later events need and no history, in memory that is
/// all taken when it is opened.
#[derive(Drop)]
pub struct Receiver {
    // In a place of its own, since a receiver that threads share is moved at each turn.
    kept: Box<ReceiverState>,
}

impl Model for Receiver {
    ghost use Rattle.tesla_state.specs.State.{State};

    ghost Value = { State };

    ghost view = { λ r. r.kept.value };
}

impl Receiver {
    /// A receiver that stands for the empty history. The lag is in microseconds; the capacity is a
    /// number of packets, at most 65,536, and the quota one of packets of an interval, from 1 to the
    /// capacity; each ingest below `ingests`, of which there is one at least, has to end before a take
    /// answers `Over`. All memory is taken here: `reserved` tells for how many entries all tables have room, and no other
    /// call changes it. `NoMemory`: there wasn't enough.
    pub fn open(
        alloc: Global,
        setup: Setup,
        lag: i64,
        capacity: u32,
        quota: u32,
        ingests: u8,
    ) -> Result<Receiver, NoMemory>
        requires some { 1 ≤ quota }
        requires within { quota ≤ capacity }
        requires few { capacity ≤ 65536 }
        requires ingests { 1 ≤ ingests }
        ensures config { IfOk result (λ r. r.config ≡ record { setup = setup; lag = lag; capacity = capacity; quota = quota; ingests = ingests }) }
        ensures stands { IfOk result (λ r. Stands r []) }
    {
        let state = ReceiverState::open(alloc, setup, lag, capacity, quota, ingests)?;
        Ok(Receiver {
            kept: Box::new(alloc, state)?,
        })
    }

    /// Judges a datagram of an ingest, with the reading of the receiver's clock in microseconds. It takes no memory.
    ///
    /// It takes at most two counted steps for each interval from a new key down to the newest one of its chain, and two
    /// for each pair of a held packet that isn't released and a chain of its set on which a new key reaches it; none
    /// where the frame is refused before its keys are looked at; and where a key is bad at most one for each interval from
    /// a new key down to the newest one of its chain.
    pub fn arrive<L: Ledger>(
        &mut self,
        ingest: u8,
        reading: u64,
        bytes: &[u8],
        steps: &mut Steps<L>,
    ) -> Verdict
        requires { self.old.calls + 1 < 2 ^ 64 }
        ensures answer { (h : List Entry) → Stands self.old h →
            Arrived (record { ingest = ingest; reading = reading; bytes = bytes.now; verdict = result }) ≡ entry_of self.old.config h (Arrives ingest reading bytes.now) }
        ensures stands { (h : List Entry) → Stands self.old h → Stands self.new (h ++ entry_of self.old.config h (Arrives ingest reading bytes.now) ∷ []) }
        ensures evaluations { (h : List Entry) → Stands self.old h → steps.new ≤ steps.old + most_evaluations self.old.config (arrivals_in h) reading bytes.now }
        ensures badkey { (h : List Entry) → Stands self.old h → (chain : ChainNo) → result ≡ Verdict.BadKey chain → steps.new ≤ steps.old + most_offers self.old.config (arrivals_in h) bytes.now }
        ensures config { self.new.config ≡ self.old.config }
        ensures calls { self.new.calls ≡ self.old.calls + 1 }
        ensures reserved { self.new.reserved ≡ self.old.reserved }
    {
        let frame = read_frame(bytes);
        self.arrive_read(ingest, reading, bytes, frame.as_ref(), steps)
    }

    /// Judges a datagram as `arrive` does, where it was read before: as this frame, or as none. So one that a caller reads
    /// for its stream is read once.
    pub fn arrive_read<L: Ledger>(
        &mut self,
        ingest: u8,
        reading: u64,
        bytes: &[u8],
        frame: Option<&FrameView<'_>>,
        steps: &mut Steps<L>,
    ) -> Verdict
        requires read { option_map shown (option_copied frame) ≡ frame_of bytes.now }
        requires calls { self.old.calls + 1 < 2 ^ 64 }
        ensures answer { (h : List Entry) → Stands self.old h →
            Arrived (record { ingest = ingest; reading = reading; bytes = bytes.now; verdict = result }) ≡ entry_of self.old.config h (Arrives ingest reading bytes.now) }
        ensures stands { (h : List Entry) → Stands self.old h → Stands self.new (h ++ entry_of self.old.config h (Arrives ingest reading bytes.now) ∷ []) }
        ensures evaluations { (h : List Entry) → Stands self.old h → steps.new ≤ steps.old + most_evaluations self.old.config (arrivals_in h) reading bytes.now }
        ensures badkey { (h : List Entry) → Stands self.old h → (chain : ChainNo) → result ≡ Verdict.BadKey chain → steps.new ≤ steps.old + most_offers self.old.config (arrivals_in h) bytes.now }
        ensures config { self.new.config ≡ self.old.config }
        ensures calls { self.new.calls ≡ self.old.calls + 1 }
        ensures reserved { self.new.reserved ≡ self.old.reserved }
    {
        self.kept.arrive(ingest, reading, bytes, frame, steps)
    }

    /// Gives the next released packet, whose payload is then at the front of the buffer, or says whether
    /// all ingests have ended. The rest of the buffer stays as it was. It takes no memory.
    pub fn take(&mut self, releaser: u8, into: &mut [u8; MOST_PAYLOAD]) -> Take
        requires { self.old.calls + 1 < 2 ^ 64 }
        ensures answer { (h : List Entry) → Stands self.old h → reply_shown result into.new ≡ reply_to self.old.config h }
        ensures stands { (h : List Entry) → Stands self.old h → Stands self.new (h ++ entry_of self.old.config h (Takes releaser) ∷ []) }
        ensures behind { KeepsBehind result into.old into.new }
        ensures config { self.new.config ≡ self.old.config }
        ensures calls { self.new.calls ≡ self.old.calls + 1 }
        ensures reserved { self.new.reserved ≡ self.old.reserved }
    {
        let _ = releaser;
        self.kept.take(into)
    }

    /// Ends an ingest. One at or above the number of ingests counts for nothing. It takes no memory.
    pub fn end(&mut self, ingest: u8)
        requires { self.old.calls + 1 < 2 ^ 64 }
        ensures stands { (h : List Entry) → Stands self.old h → Stands self.new (h ++ entry_of self.old.config h (Ends ingest) ∷ []) }
        ensures config { self.new.config ≡ self.old.config }
        ensures calls { self.new.calls ≡ self.old.calls + 1 }
        ensures reserved { self.new.reserved ≡ self.old.reserved }
    {
        self.kept.end(ingest);
    }

    /// Keeps only the first ingests, so many of them, before anything has happened. It takes no memory, so a receiver
    /// may be opened before it is known how many ingests there are.
    pub fn limit_ingests(&mut self, ingests: u8)
        requires within { ingests ≤ self.old.config.ingests }
        requires unused { Stands self.old [] }
        ensures stands { Stands self.new [] }
        ensures config { self.new.config ≡ with_ingests self.old.config ingests }
        ensures reserved { self.new.reserved ≡ self.old.reserved }
    {
        self.kept.limit_ingests(ingests);
    }

    /// Begins anew with another setup, as if it had been opened with it and the same lag, capacity, quota and ingests: it
    /// stands for the empty history, in which no ingest has ended. It tells how many packets were held that weren't given. It
    /// takes no memory, and goes over the packets that were held.
    pub fn reopen(&mut self, setup: Setup) -> u32
        ensures dropped { (h : List Entry) → Stands self.old h → result ≡ undelivered_in self.old.config h }
        ensures stands { Stands self.new [] }
        ensures config { self.new.config ≡ record self.old.config { setup = setup } }
        ensures reserved { self.new.reserved ≡ self.old.reserved }
        ensures calls { self.new.calls ≡ 0 }
    {
        self.kept.reopen(setup)
    }

    /// Whether an ingest has ended. One at or above the number of ingests counts for nothing, and hasn't.
    pub fn has_ended(&self, ingest: u8) -> bool
        ensures { (h : List Entry) → Stands self.now h → result ≡ (nat_lt ingest self.now.config.ingests && has_end h ingest) }
    {
        self.kept.has_ended(ingest)
    }

    /// How many events the receiver has had.
    pub fn calls(&self) -> u64
        ensures { result ≡ self.now.calls }
    {
        self.kept.calls()
    }

    /// The counts of the history.
    pub fn report(&self) -> Report
        ensures value { (h : List Entry) → Stands self.now h → result ≡ report_of h }
        ensures few { CountsWithin self.now.calls result }
    {
        self.kept.report()
    }

    /// How many released packets wait to be taken.
    pub fn waiting(&self) -> u64
        ensures value { (h : List Entry) → Stands self.now h → result ≡ waiting_in self.now.config h }
        ensures few { result < 2 ^ 32 }
    {
        u64::from(self.kept.waiting())
    }

    /// How many packets are held: those kept that aren't gone. It takes no memory.
    pub fn held(&self) -> u32
        ensures value { (h : List Entry) → Stands self.now h → result ≡ held_in self.now.config h }
        ensures few { result ≤ self.now.config.capacity }
    {
        self.kept.held()
    }
}

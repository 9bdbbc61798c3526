//! A receiver with the promises that its packets taught.

ghost use Rattle.std.specs.Prelude.{◌≡◌, ◌+◌, ◌^◌, ◌<◌, ◌≤◌, ◌++◌, ◌∷◌, [], List, IfOk, option_copied, option_map};
ghost use Rattle.tesla_base.specs.declared.names.ChainNo.{ChainNo};
ghost use Rattle.tesla_frame.specs.Reading.{frame_of};
ghost use Rattle.tesla_frame.specs.Shown.{shown};
ghost use Rattle.tesla_receiver.specs.Costs.{most_evaluations, most_offers};
ghost use Rattle.tesla_receiver.specs.History.{Arrives, Takes, Ends, arrivals_in, entry_of, reply_to};
ghost use Rattle.tesla_receiver.specs.Events.{waiting_in};
ghost use Rattle.tesla_receiver.specs.Report.{report_of};
ghost use Rattle.tesla_receiver.specs.Stands.{Stands};
ghost use Rattle.tesla_receiver.specs.Entries.{Entry};
ghost use Rattle.tesla_receiver.specs.declared.history.Entry.TheVariants.{Arrived};
ghost use Rattle.tesla_state.specs.Replies.{reply_shown, KeepsBehind};
ghost use Rattle.tesla_early.specs.Early.{is_early};
ghost use Rattle.tesla_early.specs.Stands.{EarlyStands};

use crate::promises::Promises;
use std::alloc::Global;
use std::marker::Model;
use std::sync::ledger::Ledger;
use tesla_base::{MOST_PAYLOAD, NoMemory, Steps};
use tesla_frame::{FrameView, read_frame};
use tesla_receiver::{Receiver, Report, Take, Verdict};

/// The verdict on an arrival, and whether its message is accepted at once.
#[derive(Clone, Copy, Debug, PartialEq, Eq)]
pub struct EarlyVerdict {
    pub verdict: Verdict,
    /// An authentic message before promised this one: its payload is accepted, before its key is disclosed.
    pub early: bool,
}

/// A receiver that accepts a message on arrival where a message before, which was released or accepted, promised it (after
/// the immediate authentication of Perrig, Canetti, Tygar and Song, IEEE S&P 2000). It stands for a history as its receiver
/// does; which arrivals are early is told by the history.
#[derive(Drop)]
pub struct Early {
    receiver: Receiver,
    promises: Promises,
}

impl Model for Early {
    ghost use Rattle.tesla_early.specs.Stands.{EarlyState};

    ghost Value = { EarlyState };

    ghost view = { λ e. record { receiver = e.receiver; promises = e.promises } };
}

impl Early {
    /// Over a receiver that stands for the empty history, with room for so many promises: from 1 to 4,096. All memory is
    /// taken here: what the receiver took stays its own, `reserved` of the promises tells for how many entries their
    /// tables have room, and no other call changes either. `NoMemory`: there wasn't enough.
    pub fn open(alloc: Global, receiver: Receiver, promises: u32) -> Result<Early, NoMemory>
        requires stands { Stands receiver [] }
        requires some { 1 ≤ promises }
        requires few { promises ≤ 4096 }
        ensures receiver { IfOk result (λ e. e.receiver ≡ receiver) }
        ensures most { IfOk result (λ e. e.promises.most ≡ promises) }
        ensures stands { IfOk result (λ e. EarlyStands e []) }
    {
        Ok(Early {
            receiver,
            promises: Promises::open(alloc, promises)?,
        })
    }

    /// Judges a datagram of an ingest as the receiver does, with the reading of the receiver's clock in microseconds, and
    /// tells whether it's early: its verdict is Late, Repeat, Full or Kept, and one of the last promises that isn't used is
    /// of its name and its payload. The first such is used, and what the payload promises is learnt. It takes no memory, as
    /// many counted steps as the receiver, and beside them one digest of the payload at most.
    pub fn arrive<L: Ledger>(
        &mut self,
        ingest: u8,
        reading: u64,
        bytes: &[u8],
        steps: &mut Steps<L>,
    ) -> EarlyVerdict
        requires { self.old.receiver.calls + 1 < 2 ^ 64 }
        ensures answer { (h : List Entry) → EarlyStands self.old h →
            Arrived (record { ingest = ingest; reading = reading; bytes = bytes.now; verdict = result.verdict }) ≡ entry_of self.old.receiver.config h (Arrives ingest reading bytes.now) }
        ensures early { (h : List Entry) → EarlyStands self.old h →
            result.early ≡ is_early self.old.promises.most h (record { ingest = ingest; reading = reading; bytes = bytes.now; verdict = result.verdict }) }
        ensures stands { (h : List Entry) → EarlyStands self.old h → EarlyStands self.new (h ++ entry_of self.old.receiver.config h (Arrives ingest reading bytes.now) ∷ []) }
        ensures evaluations { (h : List Entry) → EarlyStands self.old h → steps.new ≤ steps.old + most_evaluations self.old.receiver.config (arrivals_in h) reading bytes.now }
        ensures badkey { (h : List Entry) → EarlyStands self.old h → (chain : ChainNo) → result.verdict ≡ Verdict.BadKey chain → steps.new ≤ steps.old + most_offers self.old.receiver.config (arrivals_in h) bytes.now }
        ensures config { self.new.receiver.config ≡ self.old.receiver.config }
        ensures calls { self.new.receiver.calls ≡ self.old.receiver.calls + 1 }
        ensures reserved { self.new.receiver.reserved ≡ self.old.receiver.reserved }
        ensures most { self.new.promises.most ≡ self.old.promises.most }
        ensures room { self.new.promises.reserved ≡ self.old.promises.reserved }
    {
        let frame = read_frame(bytes);
        self.arrive_read(ingest, reading, bytes, frame.as_ref(), steps)
    }

    /// Judges a datagram as `arrive` does, where it was read before: as this frame, or as none.
    pub fn arrive_read<L: Ledger>(
        &mut self,
        ingest: u8,
        reading: u64,
        bytes: &[u8],
        frame: Option<&FrameView<'_>>,
        steps: &mut Steps<L>,
    ) -> EarlyVerdict
        requires read { option_map shown (option_copied frame) ≡ frame_of bytes.now }
        requires calls { self.old.receiver.calls + 1 < 2 ^ 64 }
        ensures answer { (h : List Entry) → EarlyStands self.old h →
            Arrived (record { ingest = ingest; reading = reading; bytes = bytes.now; verdict = result.verdict }) ≡ entry_of self.old.receiver.config h (Arrives ingest reading bytes.now) }
        ensures early { (h : List Entry) → EarlyStands self.old h →
            result.early ≡ is_early self.old.promises.most h (record { ingest = ingest; reading = reading; bytes = bytes.now; verdict = result.verdict }) }
        ensures stands { (h : List Entry) → EarlyStands self.old h → EarlyStands self.new (h ++ entry_of self.old.receiver.config h (Arrives ingest reading bytes.now) ∷ []) }
        ensures evaluations { (h : List Entry) → EarlyStands self.old h → steps.new ≤ steps.old + most_evaluations self.old.receiver.config (arrivals_in h) reading bytes.now }
        ensures badkey { (h : List Entry) → EarlyStands self.old h → (chain : ChainNo) → result.verdict ≡ Verdict.BadKey chain → steps.new ≤ steps.old + most_offers self.old.receiver.config (arrivals_in h) bytes.now }
        ensures config { self.new.receiver.config ≡ self.old.receiver.config }
        ensures calls { self.new.receiver.calls ≡ self.old.receiver.calls + 1 }
        ensures reserved { self.new.receiver.reserved ≡ self.old.receiver.reserved }
        ensures most { self.new.promises.most ≡ self.old.promises.most }
        ensures room { self.new.promises.reserved ≡ self.old.promises.reserved }
    {
        let verdict = self
            .receiver
            .arrive_read(ingest, reading, bytes, frame, steps);
        EarlyVerdict {
            verdict,
            early: self.promises.accept(verdict, frame),
        }
    }

    /// Gives the next released packet, whose payload is then at the front of the buffer, or says whether all ingests have
    /// ended. The rest of the buffer stays as it was. What a packet that is given promises is learnt. It takes no memory.
    pub fn take(&mut self, releaser: u8, into: &mut [u8; MOST_PAYLOAD]) -> Take
        requires { self.old.receiver.calls + 1 < 2 ^ 64 }
        ensures answer { (h : List Entry) → EarlyStands self.old h → reply_shown result into.new ≡ reply_to self.old.receiver.config h }
        ensures stands { (h : List Entry) → EarlyStands self.old h → EarlyStands self.new (h ++ entry_of self.old.receiver.config h (Takes releaser) ∷ []) }
        ensures behind { KeepsBehind result into.old into.new }
        ensures config { self.new.receiver.config ≡ self.old.receiver.config }
        ensures calls { self.new.receiver.calls ≡ self.old.receiver.calls + 1 }
        ensures reserved { self.new.receiver.reserved ≡ self.old.receiver.reserved }
        ensures most { self.new.promises.most ≡ self.old.promises.most }
        ensures room { self.new.promises.reserved ≡ self.old.promises.reserved }
    {
        let take = self.receiver.take(releaser, into);
        match take {
            Take::Given(head) => {
                self.promises.learn_of(&into[..usize::from(head.length)]);
            }
            Take::Empty => {}
            Take::Over => {}
        }
        take
    }

    /// Ends an ingest. One at or above the number of ingests counts for nothing. It takes no memory.
    pub fn end(&mut self, ingest: u8)
        requires { self.old.receiver.calls + 1 < 2 ^ 64 }
        ensures stands { (h : List Entry) → EarlyStands self.old h → EarlyStands self.new (h ++ entry_of self.old.receiver.config h (Ends ingest) ∷ []) }
        ensures config { self.new.receiver.config ≡ self.old.receiver.config }
        ensures calls { self.new.receiver.calls ≡ self.old.receiver.calls + 1 }
        ensures reserved { self.new.receiver.reserved ≡ self.old.receiver.reserved }
        ensures most { self.new.promises.most ≡ self.old.promises.most }
        ensures room { self.new.promises.reserved ≡ self.old.promises.reserved }
    {
        self.receiver.end(ingest);
    }

    /// How many events the receiver has had.
    pub fn calls(&self) -> u64
        ensures { result ≡ self.now.receiver.calls }
    {
        self.receiver.calls()
    }

    /// The counts of the history.
    pub fn report(&self) -> Report
        ensures { (h : List Entry) → EarlyStands self.now h → result ≡ report_of h }
    {
        self.receiver.report()
    }

    /// How many released packets wait to be taken.
    pub fn waiting(&self) -> u64
        ensures value { (h : List Entry) → EarlyStands self.now h → result ≡ waiting_in self.now.receiver.config h }
        ensures few { result < 2 ^ 32 }
    {
        self.receiver.waiting()
    }
}

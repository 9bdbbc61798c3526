//! A receiver that judges the entries of a trace.

ghost use Rattle.std.specs.Prelude.{◌≡◌, ◌≢◌, ◌+◌, ◌^◌, ◌<◌, ◌≤◌, ◌++◌, ◌∷◌, [], List, ℕ, true, false, take, length};
ghost use Rattle.tesla_receiver.specs.Entries.{Entry};
ghost use Rattle.tesla_receiver.specs.declared.history.Entry.TheVariants.{Arrived, Taken};
ghost use Rattle.tesla_receiver.specs.History.{Arrives, Takes, entry_of, event_of};
ghost use Rattle.tesla_receiver.specs.Stands.{Stands};
ghost use Rattle.tesla_state.specs.Replies.{reply_shown};
ghost use Rattle.tesla_trace.specs.Entries.{IsEntry, entry_in};
ghost use Rattle.tesla_audit.specs.Checks.{Checks, IsShort};

use std::marker::Model;
use std::sync::ledger::Ledger;
use tesla_base::{MOST_DATAGRAM, MOST_PAYLOAD, Steps};
use tesla_fitting::Verdict;
use tesla_receiver::Receiver;
use tesla_state::Take;
use tesla_trace::{EntryBuffer, EntryKind};

/// An answer of a receiver. An end of an ingest has none.
#[derive(Clone, Copy, Debug, PartialEq, Eq)]
pub enum Answer {
    /// The verdict on an arrival.
    Verdict(Verdict),
    /// The answer to a take.
    Take(Take),
}

/// A receiver to which the events of a trace are played, and which compares their answers.
#[derive(Drop)]
pub struct Auditor {
    receiver: Receiver,
    // The payload of the packet that was given last.
    payload: [u8; MOST_PAYLOAD],
}

impl Model for Auditor {
    ghost use Rattle.tesla_state.specs.State.{State};

    ghost Value = { State };

    ghost view = { λ auditor. auditor.receiver };
}

impl Auditor {
    /// Judges by this receiver, from the history on that it stands for. It takes no memory.
    pub fn new(receiver: Receiver) -> Auditor
        ensures { result ≡ receiver }
    {
        Auditor {
            receiver,
            payload: [0; MOST_PAYLOAD],
        }
    }

    /// How many events the receiver has had.
    pub fn entries(&self) -> u64
        ensures { result ≡ self.now.calls }
    {
        self.receiver.calls()
    }

    /// Judges an entry: its event is played, and the entry is compared with that event and the receiver's answer, the
    /// verdict, or the answer to a take with all that it tells and the payload. `Err` with the right answer where they
    /// differ. It takes no memory.
    pub fn check<L: Ledger>(
        &mut self,
        entry: &EntryBuffer,
        steps: &mut Steps<L>,
    ) -> Result<(), Answer>
        requires entry { IsEntry entry.now }
        requires calls { self.old.calls + 1 < 2 ^ 64 }
        ensures checks { (h : List Entry) → Stands self.old h → Checks self.old.config h (entry_in entry.now) result }
        ensures stands { (h : List Entry) → Stands self.old h → Stands self.new (h ++ entry_of self.old.config h (event_of (entry_in entry.now)) ∷ []) }
        ensures config { self.new.config ≡ self.old.config }
        ensures calls { self.new.calls ≡ self.old.calls + 1 }
    {
        match entry.kind {
            EntryKind::Arrival => {
                let bytes = &entry.bytes[..usize::from(entry.length)];
                self.check_arrival(entry.who, entry.reading, bytes, entry.verdict, steps)
            }
            EntryKind::Take => self.check_take(entry.who, entry.reply, &entry.bytes),
            EntryKind::End => {
                self.receiver.end(entry.who);
                Ok(())
            }
        }
    }

    /// Judges an arrival.
    fn check_arrival<L: Ledger>(
        &mut self,
        ingest: u8,
        reading: u64,
        bytes: &[u8],
        verdict: Verdict,
        steps: &mut Steps<L>,
    ) -> Result<(), Answer>
        requires calls { self.old.calls + 1 < 2 ^ 64 }
        ensures checks { (h : List Entry) → Stands self.old h → Checks self.old.config h (Arrived (record { ingest = ingest; reading = reading; bytes = bytes.now; verdict = verdict })) result }
        ensures stands { (h : List Entry) → Stands self.old h → Stands self.new (h ++ entry_of self.old.config h (Arrives ingest reading bytes.now) ∷ []) }
        ensures config { self.new.config ≡ self.old.config }
        ensures calls { self.new.calls ≡ self.old.calls + 1 }
    {
        let right = self.receiver.arrive(ingest, reading, bytes, steps);
        if right == verdict {
            Ok(())
        } else {
            Err(Answer::Verdict(right))
        }
    }

    /// Judges a take with its answer, whose payload stands at the front.
    fn check_take(
        &mut self,
        releaser: u8,
        returned: Take,
        payload: &[u8; MOST_DATAGRAM],
    ) -> Result<(), Answer>
        requires calls { self.old.calls + 1 < 2 ^ 64 }
        ensures checks { (h : List Entry) → Stands self.old h → Checks self.old.config h (Taken releaser (reply_shown returned payload.now)) result }
        ensures stands { (h : List Entry) → Stands self.old h → Stands self.new (h ++ entry_of self.old.config h (Takes releaser) ∷ []) }
        ensures config { self.new.config ≡ self.old.config }
        ensures calls { self.new.calls ≡ self.old.calls + 1 }
    {
        let right = self.receiver.take(releaser, &mut self.payload);
        if right == returned && is_same_payload(right, &self.payload, payload) {
            Ok(())
        } else {
            Err(Answer::Take(right))
        }
    }
}

/// Whether both have the payload of the packet that this answer gives, if it gives one.
fn is_same_payload(reply: Take, right: &[u8; MOST_PAYLOAD], returned: &[u8; MOST_DATAGRAM]) -> bool
    requires { IsShort reply }
    ensures same { result ≡ true → reply_shown reply right.now ≡ reply_shown reply returned.now }
    ensures other { result ≡ false → reply_shown reply right.now ≢ reply_shown reply returned.now }
{
    match reply {
        Take::Given(head) => {
            let length = usize::from(head.length);
            right[..length] == returned[..length]
        }
        Take::Empty | Take::Over => true,
    }
}

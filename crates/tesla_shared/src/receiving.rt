//! Stations that answer as a receiver of one stream.

ghost use Rattle.std.specs.Prelude.{◌≡◌, ◌<◌, ◌≤◌, ◌^◌, ◌++◌, ◌∷◌, [], ℕ, List, length, take};
ghost use Rattle.tesla_capture.specs.Gathering.{gathered};
ghost use Rattle.tesla_capture.specs.Release.{release_text};
ghost use Rattle.tesla_fitting.specs.declared.config.Config.{Config};
ghost use Rattle.tesla_receiver.specs.Entries.{Entry};
ghost use Rattle.tesla_receiver.specs.History.{IsLegal};
ghost use Rattle.tesla_receiver.specs.Report.{report_of};
ghost use Rattle.tesla_receiver.specs.Stands.{Stands};
ghost use Rattle.tesla_receiver.specs.declared.history.Entry.TheVariants.{Arrived};
ghost use Rattle.tesla_shared.specs.Receiving.{yield_of};
ghost use Rattle.tesla_state.specs.Replies.{reply_shown, KeepsBehind};
ghost use Rattle.tesla_state.specs.declared.replies.Take.{Take};

use crate::station::{Gathered, Station};
use std::marker::Brand;
use std::sync::ledger::{Blank, Ledger};
use tesla_base::{Head, MOST_PAYLOAD, Steps};
use tesla_capture::Gatherer;
use tesla_receiver::{Receiver, Reply, Report, Take, Verdict};

/// A station that answers as a receiver of one stream.
pub trait Receiving: Station<Verdict = Verdict, Reply = Reply, Take = Take> {
    /// The configuration of its receiver, told its own.
    ghost receiver: { Self.Config → Config };

    /// The counts of its history.
    fn report(&self) -> Report
        ensures { (h : List Entry) → Self.stands self.now h → result ≡ report_of h };

    /// The receiver has as many ingests.
    ghost ingests_are: { (cfg : Self.Config) → Self.ingests cfg ≡ (receiver cfg).ingests };

    /// Each history that it may have is legal for the receiver.
    ghost legal_is: { (cfg : Self.Config) (h : List Entry) → Self.is_legal cfg h → IsLegal (receiver cfg) h };

    /// Its takes show what a receiver's do.
    ghost shown_is: { (answer : Take) (into : List ℕ) → Self.shown answer into ≡ reply_shown answer into };

    /// They leave of the buffer what a receiver's do.
    ghost keeps_is: { (answer : Take) (old new : List ℕ) → Self.keeps_behind answer old new → KeepsBehind answer old new };

    /// A sink gets the record of a packet that was given.
    ghost yields_are: { Self.yields ≡ yield_of };
}

impl Station for Receiver {
    ghost use Rattle.tesla_receiver.specs.History.{IsLegal};
    ghost use Rattle.tesla_shared.specs.Receiving.{yield_of};
    ghost use Rattle.tesla_state.specs.Replies.{reply_shown, KeepsBehind};

    type Verdict = Verdict;

    type Reply = Reply;

    type Take = Take;

    ghost ingests = { λ config. config.ingests };

    ghost is_legal = { IsLegal };

    ghost shown = { reply_shown };

    ghost keeps_behind = { KeepsBehind };

    ghost yields = { yield_of };

    ghost legal = { λ station h stood. stood.legal };

    fn arrive(&mut self, ingest: u8, reading: u64, bytes: &[u8]) -> Verdict {
        judge::<Brand>(self, ingest, reading, bytes, Blank::new(1))
    }

    fn take(&mut self, releaser: u8, into: &mut [u8; MOST_PAYLOAD]) -> Take {
        Receiver::take(self, releaser, into)
    }

    fn gather(take: Take, payload: &[u8; MOST_PAYLOAD], gatherer: &mut Gatherer) -> Gathered {
        match take {
            Take::Given(head) => {
                gather_release(&head, payload, gatherer);
                Gathered::Record
            }
            Take::Empty => Gathered::Nothing,
            Take::Over => Gathered::Over,
        }
    }

    fn let_go(_verdict: Verdict) {}

    fn end(&mut self, ingest: u8) {
        Receiver::end(self, ingest);
    }

    fn may_wait(&self) -> bool {
        0 < self.waiting()
    }

    fn calls(&self) -> u64 {
        Receiver::calls(self)
    }
}

// An arrival, whose evaluations of HMAC nobody counts.
fn judge<L: Ledger>(
    receiver: &mut Receiver,
    ingest: u8,
    reading: u64,
    bytes: &[u8],
    blank: Blank,
) -> Verdict
    requires name { blank.name ≡ L.name }
    requires parts { blank.parts ≡ L.parts }
    requires some { 0 < L.parts }
    requires stood { (h : List Entry) × (length h < 2 ^ 63) × Stands receiver.old h }
    requires few { length bytes.now ≤ 2048 }
    ensures stands { (h : List Entry) → length h < 2 ^ 63 → Stands receiver.old h → Stands receiver.new (h ++ Arrived (record { ingest = ingest; reading = reading; bytes = bytes.now; verdict = result }) ∷ []) }
    ensures config { receiver.new.config ≡ receiver.old.config }
{
    let mut steps = Steps::<L>::new(blank);
    receiver.arrive(ingest, reading, bytes, &mut steps)
}

// Gathers the record of a packet, whose payload is at the front of these bytes.
fn gather_release(head: &Head, payload: &[u8; MOST_PAYLOAD], gatherer: &mut Gatherer)
    requires limit { head.now.length ≤ 1200 }
    requires none { gathered gatherer.old ≡ [] }
    ensures { gathered gatherer.new ≡ gathered gatherer.old ++ release_text head.now (take head.now.length payload.now) }
{
    gatherer.add_release(head, &payload[..usize::from(head.length)]);
}

impl Receiving for Receiver {
    ghost use Rattle.std.specs.Prelude.{refl};

    ghost receiver = { λ config. config };

    ghost ingests_are = { λ cfg. refl };

    ghost legal_is = { λ cfg h legal. legal };

    ghost shown_is = { λ answer into. refl };

    ghost keeps_is = { λ answer old new keeps. keeps };

    ghost yields_are = { refl };

    fn report(&self) -> Report {
        Receiver::report(self)
    }
}

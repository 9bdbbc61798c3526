//! What workers share by turns.

ghost use Rattle.std.specs.Prelude.{◌≡◌, ◌<◌, ◌≤◌, ◌^◌, ◌++◌, ◌∷◌, [], ℕ, List, length};
ghost use Rattle.tesla_capture.specs.Gathering.{gathered};
ghost use Rattle.tesla_receiver.specs.declared.history.Entry.{Entry};
ghost use Rattle.tesla_receiver.specs.declared.history.Entry.TheVariants.{Arrived, Taken, Ended};
ghost use Rattle.tesla_shared.specs.Yields.{GathersYield, Yield};

use tesla_base::{Chronicle, MOST_PAYLOAD};
use tesla_capture::Gatherer;
use tesla_receiver::Entry;

/// What was gathered of the answer to a take.
#[derive(Clone, Copy, Debug, PartialEq, Eq)]
pub enum Gathered {
    /// A record.
    Record,
    /// There is none now.
    Nothing,
    /// There is none any more: nothing waits, and all ingests have ended.
    Over,
}

/// What threads share by turns: it judges the datagrams of ingests, and gives what it releases to releasers. What stood for
/// a history then stands for it with one entry more, which is the event with the answer that the call gives.
pub trait Station: Chronicle<Entry = Entry<Self::Verdict, Self::Reply>> + Drop {
    /// What it answers to an arrival.
    type Verdict;

    /// What it answers to a take, with the payload.
    type Reply;

    /// What it answers to a take, whose payload then stands at the front of a buffer.
    type Take;

    /// How many ingests have to end before a take yields nothing any more.
    ghost ingests: { Self.Config → ℕ };

    /// The history is one that it may have.
    ghost is_legal: { Self.Config → List (Entry Self.Verdict Self.Reply) → Type 0 };

    /// The answer to a take, with the payload that the buffer shows.
    ghost shown: { Self.Take → List ℕ → Self.Reply };

    /// What a take leaves of a buffer as it was.
    ghost keeps_behind: { Self.Take → List ℕ → List ℕ → Type 0 };

    /// What a sink gets of the answer to a take.
    ghost yields: { Self.Reply → Yield };

    /// Judges a datagram of an ingest, of at most 2,048 bytes, with the reading of the receiver's clock in microseconds.
    fn arrive(&mut self, ingest: u8, reading: u64, bytes: &[u8]) -> Self::Verdict
        requires stood { (h : List (Entry Self.Verdict Self.Reply)) × (length h < 2 ^ 63) × Self.stands self.old h }
        requires few { length bytes.now ≤ 2048 }
        ensures stands { (h : List (Entry Self.Verdict Self.Reply)) → length h < 2 ^ 63 → Self.stands self.old h → Self.stands self.new (h ++ Arrived (record { ingest = ingest; reading = reading; bytes = bytes.now; verdict = result }) ∷ []) }
        ensures config { Self.config self.new ≡ Self.config self.old };

    /// Gives the next released packet, whose payload is then at the front of the buffer, or says whether all
    /// ingests have ended.
    fn take(&mut self, releaser: u8, into: &mut [u8; MOST_PAYLOAD]) -> Self::Take
        requires { (h : List (Entry Self.Verdict Self.Reply)) × (length h < 2 ^ 63) × Self.stands self.old h }
        ensures stands { (h : List (Entry Self.Verdict Self.Reply)) → length h < 2 ^ 63 → Self.stands self.old h → Self.stands self.new (h ++ Taken releaser (shown result into.new) ∷ []) }
        ensures behind { keeps_behind result into.old into.new }
        ensures config { Self.config self.new ≡ Self.config self.old };

    /// Gathers the record of the answer to a take, whose payload is at the front of these bytes, or tells that there is none.
    /// Nothing else is gathered.
    fn gather(take: Self::Take, payload: &[u8; MOST_PAYLOAD], gatherer: &mut Gatherer) -> Gathered
        requires taken { (before : List ℕ) × keeps_behind take before payload.now }
        requires none { gathered gatherer.old ≡ [] }
        ensures { GathersYield (yields (shown take payload.now)) (gathered gatherer.old) (gathered gatherer.new) result };

    /// Lets go of a verdict, which the history has.
    fn let_go(verdict: Self::Verdict);

    /// Whether packets may wait to be taken. Nothing is claimed of it: it is for those that wait outside the turn.
    fn may_wait(&self) -> bool {
        true
    }

    /// Ends an ingest.
    fn end(&mut self, ingest: u8)
        requires { (h : List (Entry Self.Verdict Self.Reply)) × (length h < 2 ^ 63) × Self.stands self.old h }
        ensures stands { (h : List (Entry Self.Verdict Self.Reply)) → length h < 2 ^ 63 → Self.stands self.old h → Self.stands self.new (h ++ Ended ingest ∷ []) }
        ensures config { Self.config self.new ≡ Self.config self.old };

    /// How many entries its history has.
    fn calls(&self) -> u64
        ensures { (h : List (Entry Self.Verdict Self.Reply)) → Self.stands self.now h → result ≡ length h };

    /// Each history that it stands for is legal.
    ghost legal: { (station : Self) (h : List (Entry Self.Verdict Self.Reply)) → Self.stands station h → is_legal (Self.config station) h };
}

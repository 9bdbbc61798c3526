//! What is so of every history, as contracts of functions that do nothing.

ghost use Rattle.std.specs.Prelude.{◌≡◌, ◌<◌, ◌≤◌, ◌↔◌, ◌++◌, ◌∷◌, [], ℕ, List, Some, true, false, take, slice_get};
ghost use Rattle.tesla_frame.specs.declared.row.KeyRow.{KeyRow};
ghost use Rattle.tesla_keys.specs.Offers.{offer_of, IsGood};
ghost use Rattle.tesla_fitting.specs.declared.config.Config.{Config};
ghost use Rattle.tesla_receiver.specs.Entries.{Arrival, Entry};
ghost use Rattle.tesla_walks.specs.declared.release.Release.{Release};
ghost use Rattle.tesla_receiver.specs.Answer.{verdict_of};
ghost use Rattle.tesla_receiver.specs.Arrivals.{FreshAreNew, KeptAreSafe, NewAreFresh, NewAreTaken, NewestRises, ProvedAreReleased};
ghost use Rattle.tesla_receiver.specs.History.{Arrives, Event, event_of, entry_of, IsLegal, arrivals_in, given_in, held_in, held_of_interval};
ghost use Rattle.tesla_receiver.specs.Keys.{newest, is_good, takes_keys};
ghost use Rattle.tesla_receiver.specs.Refusals.{ChangesCountsAlone};
ghost use Rattle.tesla_fitting.specs.Rows.{leads_to};
ghost use Rattle.tesla_receiver.specs.Tips.{tip_of};
ghost use Rattle.tesla_receiver.specs.Packets.{released};
ghost use Rattle.tesla_receiver.specs.Events.{after_events, Finishes};

/// How a history grows by events.
pub fn events()
    // One event more adds its entry.
    ensures one { (cfg : Config) (h : List Entry) (es : List Event) (e : Event) →
        after_events cfg h (es ++ e ∷ []) ≡ after_events cfg h es ++ entry_of cfg (after_events cfg h es) e ∷ [] }
    // What was before the events stays.
    ensures prefix { (cfg : Config) (h : List Entry) (es : List Event) → (more : List Entry) × (after_events cfg h es ≡ h ++ more) }
    // Events lead from a legal history to a legal one.
    ensures legal { (cfg : Config) (h : List Entry) (es : List Event) → IsLegal cfg h → IsLegal cfg (after_events cfg h es) }
{}

/// What a history is finished with, where there is one ingest: its end, a take that gives for each
/// packet that waits, and a take that is over.
pub fn finished_takes()
    ensures { (cfg : Config) (h : List Entry) → cfg.ingests ≡ 1 → Finishes cfg h }
{}

/// What was told stays told: of the first arrivals or entries it is a prefix of what all of them tell.
pub fn prefixes()
    // What is released of the first arrivals comes first in what is released of all.
    ensures released { (cfg : Config) (xs ys : List Arrival) → (rest : List Release) × (released cfg (xs ++ ys) ≡ released cfg xs ++ rest) }
    // The newest index of a chain only rises.
    ensures newest { (cfg : Config) (xs ys : List Arrival) (chain : ℕ) → newest cfg xs chain ≤ newest cfg (xs ++ ys) chain }
    // A prefix of a legal history is legal.
    ensures legal { (cfg : Config) (h more : List Entry) → IsLegal cfg (h ++ more) → IsLegal cfg h }
    // The number of packets that were given only rises.
    ensures given { (h more : List Entry) → given_in h ≤ given_in (h ++ more) }
{}

/// Each entry of a legal history is its event with the one answer after the entries before it.
pub fn by_index()
    ensures { (cfg : Config) (h : List Entry) → IsLegal cfg h → (n : ℕ) (e : Entry) → slice_get h n ≡ Some e → e ≡ entry_of cfg (take n h) (event_of e) }
{}

/// No legal history holds more packets than the capacity, nor more of one interval than the quota.
pub fn held_fits()
    ensures capacity { (cfg : Config) (h : List Entry) → IsLegal cfg h → held_in cfg h ≤ cfg.capacity }
    ensures quota { (cfg : Config) (h : List Entry) → IsLegal cfg h → (interval : ℕ) → held_of_interval cfg h interval ≤ cfg.quota }
{}

/// An arrival that takes no keys is refused: it is malformed, foreign, a misfit or from the future, or has a bad key. It
/// changes nothing but the counts: the newest keys, the held packets, what is released and given, and the ends are as
/// before it.
pub fn refusals()
    ensures { (cfg : Config) (h : List Entry) (ingest reading : ℕ) (bytes : List ℕ) → IsLegal cfg h →
        (let verdict = verdict_of cfg (arrivals_in h) (given_in h) ingest reading bytes in
        takes_keys verdict ≡ false → ChangesCountsAlone cfg h (h ++ entry_of cfg h (Arrives ingest reading bytes) ∷ []) verdict) }
{}

/// A key that is newer than those of its chain that were taken is good exactly where it walks to the newest of
/// them, or to the commitment's where none was taken. So the answer of a verifier that holds this key decides.
pub fn offer()
    // One walk does for the walks to the commitment and to each key taken before.
    ensures good { (cfg : Config) (h : List Entry) (row : KeyRow) → IsLegal cfg h → newest cfg (arrivals_in h) row.chain.0 < row.index →
        (let tip = tip_of cfg (arrivals_in h) row.chain.0 in is_good cfg (arrivals_in h) row ≡ leads_to row tip.index tip.key) }
    // The newest key of a chain is of its newest index.
    ensures newest { (cfg : Config) (h : List Entry) (chain : ℕ) → (tip_of cfg (arrivals_in h) chain).index ≡ newest cfg (arrivals_in h) chain }
    // A verifier that holds it answers good exactly to a good key.
    ensures answer { (cfg : Config) (h : List Entry) (row : KeyRow) → IsLegal cfg h →
        (IsGood (offer_of (tip_of cfg (arrivals_in h) row.chain.0) row.index row.key) ↔ is_good cfg (arrivals_in h) row ≡ true) }
{}

/// A packet that a legal history kept was safe on each chain of its set when it came (RFC 4082, section 3.5): by the
/// bound on the sender's interval that chain's key of its interval couldn't have been disclosed, and none that reaches
/// the interval was taken.
pub fn kept()
    ensures { KeptAreSafe }
{}

/// The keys that a legal history took and that were new.
pub fn new_keys()
    // Each was carried by its arrival's frame, is of a chain and an interval of the setup, and was good.
    ensures taken { NewAreTaken }
    // The fresh keys of some arrivals are those that were new on one of them.
    ensures fresh { FreshAreNew }
    ensures all { NewAreFresh }
    // The newest index of a chain rises only by a new key.
    ensures rises { NewestRises }
{}

/// A packet that a new key proves is released then or was before, it or another packet of its name.
pub fn proved()
    ensures { ProvedAreReleased }
{}

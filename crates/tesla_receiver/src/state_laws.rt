//! What a receiver keeps is enough: its state moves without the history and stands for it, as
//! contracts of functions that do nothing.

ghost use Rattle.std.specs.Prelude.{◌≡◌, ◌≤◌, ◌+◌, ◌*◌, ◌++◌, ◌∷◌, [], ℕ, List, length, count_by};
ghost use Rattle.tesla_base.specs.declared.names.ChainNo.{ChainNo};
ghost use Rattle.tesla_fitting.specs.declared.config.Config.{Config};
ghost use Rattle.tesla_fitting.specs.declared.verdict.Verdict.TheVariants.{BadKey};
ghost use Rattle.tesla_receiver.specs.Entries.{Entry};
ghost use Rattle.tesla_receiver.specs.Answer.{verdict_of};
ghost use Rattle.tesla_receiver.specs.Consistent.{IsConsistent};
ghost use Rattle.tesla_receiver.specs.Costs.{most_evaluations, most_offers};
ghost use Rattle.tesla_state.specs.Costs.{most_by, offers_by};
ghost use Rattle.tesla_receiver.specs.History.{Arrives, Takes, Ends, entry_of, reply_to, IsLegal, arrivals_in, given_in, held_in, held_of_interval};
ghost use Rattle.tesla_receiver.specs.Events.{waiting_in};
ghost use Rattle.tesla_state.specs.State.{State};
ghost use Rattle.tesla_receiver.specs.Stands.{Stands};
ghost use Rattle.tesla_state.specs.Steps.{in_interval, opened, judged, after_arrival, reply_by, after_take, after_end};

/// The state with the commitments alone stands for the empty history.
pub fn openings()
    ensures { (cfg : Config) (reserved : ℕ) → Stands (opened cfg reserved) [] }
{}

/// A legal history has one state that stands for it. How much room its tables have is no part of the history.
pub fn states()
    ensures some { (cfg : Config) (h : List Entry) → IsLegal cfg h → (s : State) × (s.config ≡ cfg) × Stands s h }
    ensures one { (s t : State) (h : List Entry) → Stands s h → Stands t h → s.config ≡ t.config → s.reserved ≡ t.reserved → s ≡ t }
{}

/// The numbers that a state tells are those of the history.
pub fn numbers()
    ensures held { (s : State) (h : List Entry) → Stands s h → length s.held ≡ held_in s.config h }
    ensures interval { (s : State) (h : List Entry) → Stands s h → (interval : ℕ) →
        count_by (in_interval interval) s.held ≡ held_of_interval s.config h interval }
    ensures waiting { (s : State) (h : List Entry) → Stands s h → length s.waiting ≡ waiting_in s.config h }
{}

/// An arrival, by the state alone.
pub fn arrivals()
    // Its verdict is the one by the history.
    ensures verdict { (s : State) (h : List Entry) → Stands s h → (ingest reading : ℕ) (bytes : List ℕ) →
        verdict_of s.config (arrivals_in h) (given_in h) ingest reading bytes ≡ judged s reading bytes }
    // The state after it stands for the history with it.
    ensures stands { (s : State) (h : List Entry) → Stands s h → (ingest reading : ℕ) (bytes : List ℕ) →
        Stands (after_arrival s reading bytes) (h ++ entry_of s.config h (Arrives ingest reading bytes) ∷ []) }
{}

/// A take, by the state alone.
pub fn takes()
    // Its answer is the one by the history.
    ensures reply { (s : State) (h : List Entry) → Stands s h → reply_to s.config h ≡ reply_by s }
    // The state after it stands for the history with it.
    ensures stands { (s : State) (h : List Entry) → Stands s h → (releaser : ℕ) →
        Stands (after_take s) (h ++ entry_of s.config h (Takes releaser) ∷ []) }
{}

/// An end of an ingest, by the state alone: the state after it stands for the history with it.
pub fn ends()
    ensures { (s : State) (h : List Entry) → Stands s h → (ingest : ℕ) →
        Stands (after_end s ingest) (h ++ entry_of s.config h (Ends ingest) ∷ []) }
{}

/// Every state that stands for a history fits its places and quotas, keeps its packets in order and
/// none that could be let go, and has each packet that waits.
pub fn consistency()
    ensures { (s : State) (h : List Entry) → Stands s h → IsConsistent s }
{}

/// The most evaluations of HMAC that an arrival may take.
pub fn costs()
    // By the state alone they are those by the history.
    ensures same { (s : State) (h : List Entry) → Stands s h → (reading : ℕ) (bytes : List ℕ) →
        most_by s reading bytes ≡ most_evaluations s.config (arrivals_in h) reading bytes }
    // And so are those of a frame that has a bad key.
    ensures badkey { (s : State) (h : List Entry) → Stands s h → (reading : ℕ) (bytes : List ℕ) (chain : ChainNo) → judged s reading bytes ≡ BadKey chain →
        offers_by s bytes ≡ most_offers s.config (arrivals_in h) bytes }
    // However long the history is, they are within what the setup and the capacity give.
    ensures bounded { (cfg : Config) (h : List Entry) → IsLegal cfg h → (reading : ℕ) (bytes : List ℕ) →
        most_evaluations cfg (arrivals_in h) reading bytes ≤ 2 * (length cfg.setup.rows * cfg.setup.times.last) + 2 * (cfg.capacity * length cfg.setup.rows) }
{}

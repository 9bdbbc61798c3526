//! Laws about traces and the first wrong entry of a history, as contracts of functions that do nothing.

ghost use Rattle.std.specs.Prelude.{◌≡◌, ◌↔◌, List, ℕ, Some, None, true};
ghost use Rattle.tesla_base.specs.Prefix.{AreBytes};
ghost use Rattle.tesla_fitting.specs.declared.config.Config.{Config};
ghost use Rattle.tesla_receiver.specs.Entries.{Entry};
ghost use Rattle.tesla_receiver.specs.History.{IsLegal};
ghost use Rattle.tesla_trace.specs.Grammar.{IsTrace};
ghost use Rattle.tesla_audit.specs.Outline.{trace_outline};
ghost use Rattle.tesla_audit.specs.Wrong.{IsFirstWrong, first_wrong, same_entry};

/// The outline of bytes has no refused place exactly where they spell a trace, and then it has the number of ingests and the
/// history, which are the only ones that they spell.
pub fn traces()
    ensures found { (bytes : List ℕ) → AreBytes bytes → (trace_outline bytes).fault ≡ None → (ingests : ℕ) × ((trace_outline bytes).ingests ≡ Some ingests) × IsTrace bytes ingests (trace_outline bytes).entries }
    ensures only { (bytes : List ℕ) (ingests : ℕ) (history : List Entry) → IsTrace bytes ingests history → trace_outline bytes ≡ record { ingests = Some ingests; entries = history; fault = None } }
{}

/// Entries are told apart.
pub fn sameness()
    ensures { (a b : Entry) → (same_entry a b ≡ true) ↔ (a ≡ b) }
{}

/// A history is legal exactly where no entry is wrong; else the first wrong one stands behind a legal prefix, and the right
/// entry is the one answer to its event.
pub fn wrong_entries()
    ensures legal { (cfg : Config) (history : List Entry) → (first_wrong cfg history ≡ None) ↔ IsLegal cfg history }
    ensures found { (cfg : Config) (history : List Entry) (n : ℕ) (right : Entry) → first_wrong cfg history ≡ Some (n, right) → IsFirstWrong cfg history n right }
    ensures only { (cfg : Config) (history : List Entry) (n : ℕ) (right : Entry) → IsFirstWrong cfg history n right → first_wrong cfg history ≡ Some (n, right) }
{}

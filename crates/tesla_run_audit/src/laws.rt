//! Laws about the command, as contracts of functions that do nothing else.

ghost use Rattle.std.specs.Prelude.{◌≡◌, ◌⊎◌, ℕ, List, Bool, Ok, unwrap_or, length, codes};
ghost use Rattle.tesla_base.specs.Prefix.{AreBytes};
ghost use Rattle.tesla_commit.specs.Parsing.{judged};
ghost use Rattle.tesla_commit.specs.Parts.{Parts};
ghost use Rattle.tesla_desk.specs.Outside.{Told, Holds};
ghost use Rattle.tesla_fitting.specs.declared.config.Config.{Config};
ghost use Rattle.tesla_front.specs.OutcomeView.{OutcomeView, Done, Refused, Failed};
ghost use Rattle.tesla_front.specs.Command.{Performs};
ghost use Rattle.tesla_front.specs.Lines.{count_line};
ghost use Rattle.tesla_front.specs.Run.{NothingFailed};
ghost use Rattle.tesla_front.specs.declared.fault.Fault.TheVariants as faults;
ghost use Rattle.tesla_receiver.specs.History.{IsLegal};
ghost use Rattle.tesla_receiver.specs.Entries.{Entry};
ghost use Rattle.tesla_trace.specs.Grammar.{IsTrace};
ghost use Rattle.tesla_audit.specs.Outline.{trace_outline};
ghost use Rattle.tesla_audit.specs.Wrong.{IsFirstWrong};
ghost use Rattle.tesla_run_audit.specs.Arguments.{AuditArguments, config_of};
ghost use Rattle.tesla_run_audit.specs.Audit.{audit, audit_of, refuted_line};
ghost use Rattle.tesla_run_audit.specs.Arguments.{usage};

use crate::AUDIT;
use tesla_front::FormText;

/// The form of the command, as it is told: its words are those of the usage line.
pub fn form() -> FormText
    ensures { result.words.now ≡ usage }
{
    AUDIT
}

/// A run of `audit` comes to its end. Where the desk tells a setup and a trace, and no count of faults rose, it comes to what
/// the trace comes to under the setup, or to want of memory.
pub fn completeness()
    ensures { (arguments : AuditArguments) (old new : Told) (outcome : OutcomeView) (text bytes : List ℕ) (failed other : Bool) (setup : Parts) →
        Performs audit arguments old new outcome →
        old.page arguments.setup ≡ Holds text failed → judged text ≡ Ok setup →
        old.page arguments.trace ≡ Holds bytes other →
        NothingFailed old.faults new.faults →
        (outcome ≡ audit_of (config_of arguments setup) bytes) ⊎ (outcome ≡ Failed faults.NoMemory) }
{}

/// What a trace comes to under the configuration of a receiver, told the number of its ingests, which the head tells.
pub fn exact()
    // A trace of a legal history comes to the number of its entries,
    ensures legal { (cfg : ℕ → Config) (bytes : List ℕ) (ingests : ℕ) (history : List Entry) → IsTrace bytes ingests history → IsLegal (cfg ingests) history → audit_of cfg bytes ≡ Done (count_line (codes "legal") (length history)) }
    // and nothing else comes to its end.
    ensures legal_only { (cfg : ℕ → Config) (bytes lines : List ℕ) → AreBytes bytes → audit_of cfg bytes ≡ Done lines → (ingests : ℕ) × (history : List Entry) × IsTrace bytes ingests history × IsLegal (cfg ingests) history × (lines ≡ count_line (codes "legal") (length history)) }
    // The first wrong entry before the end or the refused place comes to status 8, its number and the right answer,
    ensures refuted { (cfg : ℕ → Config) (bytes : List ℕ) (n : ℕ) (right : Entry) → IsFirstWrong (cfg (unwrap_or (trace_outline bytes).ingests 0)) (trace_outline bytes).entries n right → audit_of cfg bytes ≡ Refused 8 (refuted_line (n, right)) }
    // and nothing else comes to that status.
    ensures refuted_only { (cfg : ℕ → Config) (bytes line : List ℕ) → audit_of cfg bytes ≡ Refused 8 line → (n : ℕ) × (right : Entry) × IsFirstWrong (cfg (unwrap_or (trace_outline bytes).ingests 0)) (trace_outline bytes).entries n right × (line ≡ refuted_line (n, right)) }
{}

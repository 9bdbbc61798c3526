//! Laws about the command, as contracts of functions that do nothing else.

ghost use Rattle.std.specs.Prelude.{◌≡◌, ◌⊎◌, ℕ, List, Bool, Option, None, Ok};
ghost use Rattle.tesla_capture.specs.Outline.{outline_of};
ghost use Rattle.tesla_commit.specs.Parsing.{judged};
ghost use Rattle.tesla_commit.specs.Parts.{Parts};
ghost use Rattle.tesla_convert.specs.Meaning.{Converts, HoldsNothing};
ghost use Rattle.tesla_desk.specs.Outside.{Page, Told, Holds};
ghost use Rattle.tesla_fitting.specs.declared.config.Config.{Config};
ghost use Rattle.tesla_front.specs.OutcomeView.{OutcomeView, Done, Failed};
ghost use Rattle.tesla_front.specs.Command.{Performs};
ghost use Rattle.tesla_front.specs.Run.{NothingFailed};
ghost use Rattle.tesla_front.specs.declared.fault.Fault.TheVariants as faults;
ghost use Rattle.tesla_receiver.specs.Report.{report_of};
ghost use Rattle.tesla_run_replay.specs.Arguments.{PlayedArguments};
ghost use Rattle.tesla_run_replay.specs.Replay.{history_of};
ghost use Rattle.tesla_run_replay.specs.ReportText.{report_text};
ghost use Rattle.tesla_run_replay.specs.Under.{config_of};
ghost use Rattle.tesla_run_audit.specs.trace.Trace.{meaning, trace};
ghost use Rattle.tesla_run_audit.specs.trace.Usage.{usage};

use crate::trace::TRACE;
use tesla_front::FormText;

/// The form of the command, as it is told: its words are those of the usage line.
pub fn form() -> FormText
    ensures { result.words.now ≡ usage }
{
    TRACE
}

/// A run of `trace` comes to its end. Where the desk tells a setup and a capture, and no count of faults rose, it comes to
/// the report of the one history that the capture plays, or to want of memory.
pub fn completeness()
    ensures { (arguments : PlayedArguments) (old new : Told) (outcome : OutcomeView) (text bytes : List ℕ) (failed other : Bool) (setup : Parts) →
        Performs trace arguments old new outcome →
        old.page arguments.setup ≡ Holds text failed → judged text ≡ Ok setup →
        old.page arguments.capture ≡ Holds bytes other → (outline_of bytes).fault ≡ None →
        NothingFailed old.faults new.faults →
        (outcome ≡ Done (report_text (report_of (history_of (config_of arguments setup) bytes)))) ⊎ (outcome ≡ Failed faults.NoMemory) }
{}

/// Memory is wanting before the capture is read or not at all: the output is as it was, or was opened and holds nothing.
pub fn memory_first()
    ensures { (cfg : Config) (capture before out : Page) (left : Option (List ℕ)) →
        Converts (meaning cfg) capture left before out (Failed faults.NoMemory) → (out ≡ before) ⊎ HoldsNothing capture left out }
{}

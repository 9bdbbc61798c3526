//! Laws about the command, as contracts of functions that do nothing else.

ghost use Rattle.std.specs.Prelude.{◌≡◌, ◌⊎◌};
ghost use Rattle.tesla_desk.specs.Outside.{Told};
ghost use Rattle.tesla_front.specs.OutcomeView.{OutcomeView, Done, Failed};
ghost use Rattle.tesla_front.specs.Command.{Performs};
ghost use Rattle.tesla_front.specs.declared.fault.Fault.TheVariants as faults;
ghost use Rattle.tesla_receiver.specs.Report.{report_of};
ghost use Rattle.tesla_run_replay.specs.ReportText.{report_text};
ghost use Rattle.tesla_run_stress.specs.Arguments.{StressArguments};
ghost use Rattle.tesla_run_stress.specs.Stress.{history_of, stress};
ghost use Rattle.tesla_run_stress.specs.Arguments.{usage};

use crate::STRESS;
use tesla_front::FormText;

/// The form of the command, as it is told: its words are those of the usage line.
pub fn form() -> FormText
    ensures { result.words.now ≡ usage }
{
    STRESS
}

/// A run of `stress` comes to its end: to the report of the one history that the load plays, or to want of memory. It
/// leaves the desk as it was.
pub fn completeness()
    ensures comes { (arguments : StressArguments) (old new : Told) (outcome : OutcomeView) → Performs stress arguments old new outcome →
        (outcome ≡ Done (report_text (report_of (history_of arguments)))) ⊎ (outcome ≡ Failed faults.NoMemory) }
    ensures opens { (arguments : StressArguments) (old new : Told) (outcome : OutcomeView) → Performs stress arguments old new outcome → new.openings ≡ old.openings }
{}

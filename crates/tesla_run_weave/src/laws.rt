//! Laws about the command, as contracts of functions that do nothing else.

ghost use Rattle.std.specs.Prelude.{◌≡◌, ◌⊎◌, ℕ, List, Bool, None};
ghost use Rattle.tesla_commit.specs.Parts.{Parts};
ghost use Rattle.tesla_desk.specs.Outside.{Told, Holds};
ghost use Rattle.tesla_front.specs.OutcomeView.{OutcomeView, Done, Failed};
ghost use Rattle.tesla_front.specs.Command.{Performs};
ghost use Rattle.tesla_front.specs.Run.{NothingFailed};
ghost use Rattle.tesla_front.specs.Setup.{IsSetupText};
ghost use Rattle.tesla_front.specs.declared.fault.Fault.TheVariants as faults;
ghost use Rattle.tesla_run_weave.specs.Arguments.{WeaveArguments};
ghost use Rattle.tesla_run_weave.specs.Arguments.{usage};
ghost use Rattle.tesla_run_weave.specs.Weave.{messages_line, weave, weaving};

use crate::WEAVE;
use tesla_front::FormText;

/// The form of the command: its words are those of the usage line.
pub fn form() -> FormText
    ensures { result.words.now ≡ usage }
{
    WEAVE
}

/// A run of `weave` comes to its end. Where the desk tells a setup and a script of which no place is refused, and no count
/// of faults rose, it came to the number of the messages, or to want of memory.
pub fn completeness()
    ensures { (arguments : WeaveArguments) (old new : Told) (outcome : OutcomeView) (text bytes : List ℕ) (failed last : Bool) (setup : Parts) →
        Performs weave arguments old new outcome →
        old.page arguments.setup ≡ Holds text failed → IsSetupText text setup →
        old.page arguments.script ≡ Holds bytes last → (weaving setup arguments.gap bytes).refused ≡ None →
        NothingFailed old.faults new.faults →
        (outcome ≡ Done (messages_line (weaving setup arguments.gap bytes).messages)) ⊎ (outcome ≡ Failed faults.NoMemory) }
{}

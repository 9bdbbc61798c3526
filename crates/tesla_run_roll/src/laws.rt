//! Laws about the command, as contracts of functions that do nothing else.

ghost use Rattle.std.specs.Prelude.{◌≡◌, ◌⊎◌, ℕ, List, Bool, None, Ok};
ghost use Rattle.tesla_capture.specs.Outline.{outline_of};
ghost use Rattle.tesla_commit.specs.Parsing.{judged};
ghost use Rattle.tesla_commit.specs.Parts.{Parts};
ghost use Rattle.tesla_desk.specs.Outside.{Told, Holds};
ghost use Rattle.tesla_front.specs.OutcomeView.{OutcomeView, Done, Failed};
ghost use Rattle.tesla_front.specs.Command.{Performs};
ghost use Rattle.tesla_front.specs.Run.{NothingFailed};
ghost use Rattle.tesla_front.specs.declared.fault.Fault.TheVariants as faults;
ghost use Rattle.tesla_run_roll.specs.Arguments.{RollArguments};
ghost use Rattle.tesla_run_replay.specs.Under.{config_of};
ghost use Rattle.tesla_run_roll.specs.Roll.{history_of, roll, roll_text};
ghost use Rattle.tesla_run_roll.specs.Usage.{usage};

use crate::ROLL;
use tesla_front::FormText;

/// The form of the command, as it is told: its words are those of the usage line.
pub fn form() -> FormText
    ensures { result.words.now ≡ usage }
{
    ROLL
}

/// A run of `roll` comes to its end. Where the desk tells a setup and a capture, and no count of faults rose, it comes to
/// the counts of the one history that the capture plays, or to want of memory.
pub fn completeness()
    ensures { (arguments : RollArguments) (old new : Told) (outcome : OutcomeView) (text bytes : List ℕ) (failed other : Bool) (setup : Parts) →
        Performs roll arguments old new outcome →
        old.page arguments.setup ≡ Holds text failed → judged text ≡ Ok setup →
        old.page arguments.capture ≡ Holds bytes other → (outline_of bytes).fault ≡ None →
        NothingFailed old.faults new.faults →
        (outcome ≡ Done (roll_text (history_of (config_of arguments setup) bytes))) ⊎ (outcome ≡ Failed faults.NoMemory) }
{}

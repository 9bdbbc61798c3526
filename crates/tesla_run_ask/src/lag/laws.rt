//! Laws about the command, as contracts of functions that do nothing else.

ghost use Rattle.std.specs.Prelude.{◌≡◌, ◌⊎◌, ℕ, List, Bool};
ghost use Rattle.tesla_desk.specs.Outside.{Told, Holds};
ghost use Rattle.tesla_front.specs.OutcomeView.{OutcomeView, Failed};
ghost use Rattle.tesla_front.specs.Command.{Performs};
ghost use Rattle.tesla_front.specs.Run.{NothingFailed};
ghost use Rattle.tesla_front.specs.declared.fault.Fault.TheVariants as faults;
ghost use Rattle.tesla_run_ask.specs.lag.Arguments.{LagArguments};
ghost use Rattle.tesla_run_ask.specs.lag.Lag.{lag, lag_outcome};
ghost use Rattle.tesla_run_ask.specs.lag.Arguments.{usage};

use crate::lag::LAG;
use tesla_front::FormText;

/// The form of the command, as it is told: its words are those of the usage line.
pub fn form() -> FormText
    ensures { result.words.now ≡ usage }
{
    LAG
}

/// A run of `lag` comes to its end. Where the desk tells all three texts, and no count of faults rose, it came to what
/// they come to, or to want of memory.
pub fn completeness()
    ensures { (arguments : LagArguments) (old new : Told) (outcome : OutcomeView) (ask reply key : List ℕ) (failed others more : Bool) →
        Performs lag arguments old new outcome →
        old.page arguments.ask ≡ Holds ask failed → old.page arguments.reply ≡ Holds reply others → old.page arguments.key ≡ Holds key more →
        NothingFailed old.faults new.faults →
        (outcome ≡ lag_outcome arguments.drift ask reply key) ⊎ (outcome ≡ Failed faults.NoMemory) }
{}

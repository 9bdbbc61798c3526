//! Laws about the commands, as contracts of functions that do nothing else.

ghost use Rattle.std.specs.Prelude.{◌≡◌, ◌⊎◌, ℕ, List, Bool, map};
ghost use Rattle.tesla_base.specs.declared.names.Key.{Key};
ghost use Rattle.tesla_desk.specs.Outside.{Told, Holds};
ghost use Rattle.tesla_front.specs.OutcomeView.{OutcomeView, Done, Failed};
ghost use Rattle.tesla_front.specs.Command.{Performs};
ghost use Rattle.tesla_front.specs.Run.{NothingFailed};
ghost use Rattle.tesla_front.specs.declared.fault.Fault.TheVariants as faults;
ghost use Rattle.tesla_sync.specs.Ask.{IsAsk};
ghost use Rattle.tesla_sync.specs.KeyText.{IsKeyText};
ghost use Rattle.tesla_run_ask.specs.Arguments.{AskArguments, ReplyArguments};
ghost use Rattle.tesla_run_ask.specs.Asking.{ask, asked_line};
ghost use Rattle.tesla_run_ask.specs.Replying.{reply, replied_line};
ghost use Rattle.tesla_run_ask.specs.Arguments.{usages};

use crate::{ASK, REPLY};
use tesla_front::FormText;

/// The forms of both commands, in the order in which they are told: their words are those of the usage lines.
pub fn forms() -> [FormText; 2]
    ensures { map (λ form. form.words.now) result ≡ usages }
{
    [ASK, REPLY]
}

/// A run of `ask` or of `reply` comes to its end. Where no count of faults rose, and for `reply` the desk tells an ask and
/// a key, it came to the line of the reading, or to want of memory.
pub fn completeness()
    ensures asks { (arguments : AskArguments) (old new : Told) (outcome : OutcomeView) →
        Performs ask arguments old new outcome →
        NothingFailed old.faults new.faults →
        (outcome ≡ Done (asked_line arguments.reading)) ⊎ (outcome ≡ Failed faults.NoMemory) }
    ensures replies { (arguments : ReplyArguments) (old new : Told) (outcome : OutcomeView) (text shared : List ℕ) (failed other : Bool) (t_r : ℕ) (key : Key) →
        Performs reply arguments old new outcome →
        old.page arguments.ask ≡ Holds text failed → IsAsk text t_r →
        old.page arguments.key ≡ Holds shared other → IsKeyText shared key →
        NothingFailed old.faults new.faults →
        (outcome ≡ Done (replied_line arguments.reading)) ⊎ (outcome ≡ Failed faults.NoMemory) }
{}

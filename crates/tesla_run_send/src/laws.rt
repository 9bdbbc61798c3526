//! Laws about the command, as contracts of functions that do nothing else.

ghost use Rattle.std.specs.Prelude.{◌≡◌, ◌⊎◌, ℕ, List, Bool, None, length};
ghost use Rattle.tesla_base.specs.declared.names.Key.{Key};
ghost use Rattle.tesla_commit.specs.Parts.{Parts};
ghost use Rattle.tesla_desk.specs.Outside.{Told, Holds};
ghost use Rattle.tesla_front.specs.OutcomeView.{OutcomeView, Done, Failed};
ghost use Rattle.tesla_front.specs.Command.{Performs};
ghost use Rattle.tesla_front.specs.Run.{NothingFailed};
ghost use Rattle.tesla_front.specs.Seeds.{IsSeedsText};
ghost use Rattle.tesla_front.specs.Setup.{IsSetupText};
ghost use Rattle.tesla_front.specs.declared.fault.Fault.TheVariants as faults;
ghost use Rattle.tesla_run_send.specs.Arguments.{SendArguments};
ghost use Rattle.tesla_run_send.specs.Script.{sending};
ghost use Rattle.tesla_run_send.specs.Send.{frames_line, send};
ghost use Rattle.tesla_run_send.specs.Sender.{wrong_line};
ghost use Rattle.tesla_run_send.specs.Arguments.{usage};

use crate::SEND;
use tesla_front::FormText;

/// The form of the command: its words are those of the usage line.
pub fn form() -> FormText
    ensures { result.words.now ≡ usage }
{
    SEND
}

/// A run of `send` comes to its end. Where the desk tells a setup, the seeds that are wanted, of which each gives the
/// setup's key, and a script of which no record is refused, and no count of faults rose, it came to the number of the
/// frames, or to want of memory.
pub fn completeness()
    ensures { (arguments : SendArguments) (old new : Told) (outcome : OutcomeView) (text secret bytes : List ℕ) (failed other last : Bool) (setup : Parts) (seeds : List Key) →
        Performs send arguments old new outcome →
        old.page arguments.setup ≡ Holds text failed → IsSetupText text setup →
        old.page arguments.secret ≡ Holds secret other → IsSeedsText (length setup.rows) secret seeds →
        wrong_line (record { setup = setup; seeds = seeds }) ≡ None →
        old.page arguments.script ≡ Holds bytes last → (sending (record { setup = setup; seeds = seeds }) bytes).refused ≡ None →
        NothingFailed old.faults new.faults →
        (outcome ≡ Done (frames_line (length (sending (record { setup = setup; seeds = seeds }) bytes).sent))) ⊎ (outcome ≡ Failed faults.NoMemory) }
{}

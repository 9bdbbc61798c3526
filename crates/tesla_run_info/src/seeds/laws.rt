//! Laws about the command, as contracts of functions that do nothing else.

ghost use Rattle.std.specs.Prelude.{◌≡◌, ◌⊎◌, ◌*◌, ◌≤◌, ℕ, List, Bool, length};
ghost use Rattle.tesla_base.specs.declared.names.Key.{Key};
ghost use Rattle.tesla_desk.specs.Outside.{Told, Holds};
ghost use Rattle.tesla_front.specs.OutcomeView.{OutcomeView, Done, Failed};
ghost use Rattle.tesla_front.specs.Command.{Performs};
ghost use Rattle.tesla_front.specs.Run.{NothingFailed};
ghost use Rattle.tesla_front.specs.declared.fault.Fault.TheVariants as faults;
ghost use Rattle.tesla_seeds.specs.Weak.{AreSound};
ghost use Rattle.tesla_run_info.specs.seeds.Arguments.{SeedsArguments, random, usage};
ghost use Rattle.tesla_run_info.specs.seeds.Drawn.{AreDrawn};
ghost use Rattle.tesla_run_info.specs.seeds.Drawing.{seeds, seeds_line};

use crate::seeds::SEEDS;
use tesla_front::FormText;

/// The form of the command, as it is told: its words are those of the usage line.
pub fn form() -> FormText
    ensures { result.words.now ≡ usage }
{
    SEEDS
}

/// A run of `seeds` comes to its end. Where the source tells bytes for all seeds, none of these seeds gives its chain no
/// safety, and no count of faults rose, it came to the number of the seeds, or to want of memory.
pub fn completeness()
    ensures { (arguments : SeedsArguments) (old new : Told) (outcome : OutcomeView) (bytes : List ℕ) (failed : Bool) (drawn : List Key) →
        Performs seeds arguments old new outcome →
        old.page random ≡ Holds bytes failed → 32 * arguments.count ≤ length bytes →
        AreDrawn arguments.count bytes drawn → AreSound drawn →
        NothingFailed old.faults new.faults →
        (outcome ≡ Done (seeds_line arguments.count)) ⊎ (outcome ≡ Failed faults.NoMemory) }
{}

//! Laws about the commands, as contracts of functions that do nothing else.

ghost use Rattle.std.specs.Prelude.{◌≡◌, ◌⊎◌, ℕ, List, Bool, length, map};
ghost use Rattle.tesla_base.specs.declared.names.Key.{Key};
ghost use Rattle.tesla_desk.specs.Outside.{Told, Holds};
ghost use Rattle.tesla_front.specs.OutcomeView.{OutcomeView, Done, Failed};
ghost use Rattle.tesla_front.specs.Command.{Performs};
ghost use Rattle.tesla_front.specs.Run.{NothingFailed};
ghost use Rattle.tesla_front.specs.Seeds.{IsSeedsText};
ghost use Rattle.tesla_front.specs.declared.fault.Fault.TheVariants as faults;
ghost use Rattle.tesla_run_chain.specs.Arguments.{ChainArguments};
ghost use Rattle.tesla_run_chain.specs.Chain.{chain, chains_line};
ghost use Rattle.tesla_run_chain.specs.Usage.{usages};

use crate::{CHAIN, CHAIN_TWO};
use tesla_front::FormText;

/// The forms of both commands, in the order in which they are told: their words are those of the usage lines.
pub fn forms() -> [FormText; 2]
    ensures { map (λ form. form.words.now) result ≡ usages }
{
    [CHAIN, CHAIN_TWO]
}

/// A run of `chain` or `chain2` comes to its end. Where the desk tells the seeds that are wanted, and no count of faults
/// rose, it came to the number of the chains, or to want of memory.
pub fn completeness()
    ensures { (arguments : ChainArguments) (old new : Told) (outcome : OutcomeView) (text : List ℕ) (failed : Bool) (seeds : List Key) →
        Performs chain arguments old new outcome →
        old.page arguments.secret ≡ Holds text failed → IsSeedsText (length arguments.parameters.delays) text seeds →
        NothingFailed old.faults new.faults →
        (outcome ≡ Done (chains_line (length arguments.parameters.delays))) ⊎ (outcome ≡ Failed faults.NoMemory) }
{}

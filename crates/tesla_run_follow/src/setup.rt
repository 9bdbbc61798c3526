//! The setup that a follower trusts, and a follower under it.

ghost use Rattle.std.specs.Prelude.{◌≡◌, ◌≤◌, [], ◌∷◌, ℕ, List, IfErr, IfOk};
ghost use Rattle.tesla_commit.specs.Parts.{Parts};
ghost use Rattle.tesla_desk.specs.Outside.{OfSource};
ghost use Rattle.tesla_follow.specs.Stands.{FollowStands};
ghost use Rattle.tesla_front.specs.OutcomeView.{stop_view};
ghost use Rattle.tesla_front.specs.Openings.{Opens, OpensSome};
ghost use Rattle.tesla_front.specs.Refusal.{StopCauses};
ghost use Rattle.tesla_run_follow.specs.Follow.{IsDistinctSetupIn, IsNoDistinctSetup};
ghost use Rattle.tesla_run_receive.specs.Arguments.{AreFew, arguments_of};
ghost use Rattle.tesla_run_receive.specs.Receive.{config_of};

use std::alloc::Global;
use tesla_base::NoMemory;
use tesla_commit::Setup;
use tesla_desk::Environment;
use tesla_follow::Follower;
use tesla_front::{Fault, Stop, setup_under};
use tesla_run_info::info::unequal;
use tesla_run_receive::Arguments;

// The setup under a name, in which no two commitments are equal. The file is opened, read and closed, and then judged.
// `Refused` as `setup_under` refuses, or with the line of the first chain whose commitment a chain before has,
// `EqualCommitments`; `Failed` as `setup_under` fails.
fn distinct_setup_under<D: Environment>(
    alloc: Global,
    name: &str,
    desk: &mut D,
) -> Result<Setup, Stop>
    ensures found { IfOk result (λ setup. IsDistinctSetupIn ((D.told desk.old).page name.now) setup) }
    ensures refused { IfErr result (λ stop. IsNoDistinctSetup ((D.told desk.old).page name.now) (stop_view stop)) }
    ensures opened { IfOk result (λ _. Opens (OfSource name.now ∷ []) 1 (D.told desk.old) (D.told desk.new)) }
    ensures opens { OpensSome (OfSource name.now ∷ []) (D.told desk.old) (D.told desk.new) }
    ensures pages { (n : List ℕ) → (D.told desk.new).page n ≡ (D.told desk.old).page n }
    ensures live { (D.told desk.new).live ≡ (D.told desk.old).live }
    ensures causes { StopCauses result (D.told desk.old).faults (D.told desk.new).faults }
{
    match setup_under(alloc, name, desk) {
        Ok(setup) => match unequal(&setup) {
            Ok(()) => Ok(setup),
            Err(stop) => Err(stop),
        },
        Err(stop) => Err(stop),
    }
}

// A follower with no history, under the setup and what the words ask for.
fn new_follower(
    alloc: Global,
    setup: Setup,
    arguments: &Arguments<'_>,
) -> Result<Follower, NoMemory>
    requires few { AreFew (arguments_of arguments.now) }
    requires capacity { arguments.now.limits.capacity ≤ 4096 }
    ensures stands { IfOk result (λ follower. FollowStands follower []) }
    ensures config { IfOk result (λ follower. follower.config ≡ config_of (arguments_of arguments.now) setup) }
{
    let limits = arguments.limits;
    Follower::open(
        alloc,
        setup,
        arguments.lag,
        limits.capacity,
        limits.quota,
        arguments.links.len() as u8,
    )
}

/// A follower with no history, under the setup and what the words ask for. SETUP is read and judged, and all memory of the
/// follower is taken. `Refused`: SETUP is no setup, or two of its commitments are equal. `Failed`: its opening or a read
/// failed, or there wasn't enough memory.
pub(crate) fn follower_under<D: Environment>(
    alloc: Global,
    arguments: &Arguments<'_>,
    desk: &mut D,
) -> Result<Follower, Stop>
    requires few { AreFew (arguments_of arguments.now) }
    requires capacity { arguments.now.limits.capacity ≤ 4096 }
    ensures stands { IfOk result (λ it. FollowStands it []) }
    ensures found { IfOk result (λ it. (setup : Parts) × IsDistinctSetupIn ((D.told desk.old).page arguments.now.setup.now) setup × (it.config ≡ config_of (arguments_of arguments.now) setup)) }
    ensures refused { IfErr result (λ stop. IsNoDistinctSetup ((D.told desk.old).page arguments.now.setup.now) (stop_view stop)) }
    ensures opened { IfOk result (λ _. Opens (OfSource arguments.now.setup.now ∷ []) 1 (D.told desk.old) (D.told desk.new)) }
    ensures opens { OpensSome (OfSource arguments.now.setup.now ∷ []) (D.told desk.old) (D.told desk.new) }
    ensures pages { (n : List ℕ) → (D.told desk.new).page n ≡ (D.told desk.old).page n }
    ensures live { (D.told desk.new).live ≡ (D.told desk.old).live }
    ensures causes { StopCauses result (D.told desk.old).faults (D.told desk.new).faults }
{
    match distinct_setup_under(alloc, arguments.setup, desk) {
        Ok(setup) => match new_follower(alloc, setup, arguments) {
            Ok(follower) => Ok(follower),
            Err(_) => Err(Stop::Failed(Fault::NoMemory)),
        },
        Err(stop) => Err(stop),
    }
}

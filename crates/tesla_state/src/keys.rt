//! New keys are taken: what they prove is released, and what is needed no more is let go.

ghost use Rattle.std.specs.Prelude.{◌≡◌, ◌+◌, ◌*◌, ◌≤◌, All, ℕ, length, map, vec_capacity};
ghost use Rattle.tesla_frame.specs.Frame.{ChainsRise};
ghost use Rattle.tesla_walks.specs.Proved.{RiseBy};
ghost use Rattle.tesla_state.specs.Gathering.{order_of};
ghost use Rattle.tesla_walks.specs.Offered.{IsOfChains, AreGood};
ghost use Rattle.tesla_state.specs.Kept.{AreTaken};
ghost use Rattle.tesla_state.specs.Stored.{holding_at, AreNeeded};
ghost use Rattle.tesla_walks.specs.Walking.{rows_of, IsAbove, left, pairs};

use crate::Store;
use crate::newest::Newest;
use crate::reach::reach_of;
use std::sync::ledger::Ledger;
use tesla_base::Steps;
use tesla_fitting::Config;
use tesla_keys::Verifier;
use tesla_walks::{Proved, Walk, raise};

/// Takes the keys of walks, which are good: each is the newest of its chain from then on. The held packets that they
/// prove are released in order of arrival, one of each name, and what is needed no more is let go. Without keys nothing
/// is done. It takes no memory: the batch has room for all that is held. The counted steps are those that the walks still
/// take, and at most two for each held packet that isn't released and each chain on which it is tried.
pub fn take_keys<L: Ledger>(
    config: &Config,
    tips: &mut [Verifier],
    store: &mut Store,
    walks: &mut [Walk],
    batch: &mut Vec<Proved>,
    steps: &mut Steps<L>,
)
    requires tips { length tips.old ≡ length config.now.setup.rows }
    requires chains { store.old.chains ≡ length config.now.setup.rows }
    requires orders { RiseBy order_of (map holding_at store.old.held) }
    requires needed { AreNeeded config.now tips.old store.old.held }
    requires of_chains { All (IsOfChains (length tips.old)) (rows_of walks.old) }
    requires rise { ChainsRise (rows_of walks.old) }
    requires good { AreGood tips.old (rows_of walks.old) }
    requires above { (interval : ℕ) → All (IsAbove interval) walks.old }
    requires room { store.old.capacity ≤ vec_capacity batch.old }
    ensures taken { AreTaken config.now tips.old tips.new (rows_of walks.old) store.old store.new }
    ensures room { vec_capacity batch.new ≡ vec_capacity batch.old }
    ensures cost { steps.new ≤ steps.old + left tips.old walks.old + 2 * pairs config.now tips.old (rows_of walks.old) (map holding_at store.old.held) }
{
    if walks.is_empty() || store.held() == 0 {
        raise(tips, walks);
        return;
    }
    let reach = reach_of(config, tips, walks);
    batch.clear();
    store.prove_held(&Newest { config, tips }, walks, &reach, batch, steps);
    raise(tips, walks);
    store.release_all(batch);
    store.let_go(config, tips, walks, &reach);
}

//! The intervals that new keys are the first of their chains to reach.

ghost use Rattle.std.specs.Prelude.{◌≡◌, ◌≤◌, All, length};
ghost use Rattle.tesla_walks.specs.ReachedIntervals.{AreIndices, IsHighest, index_at, is_reached};
ghost use Rattle.tesla_walks.specs.Offered.{IsOfChains};
ghost use Rattle.tesla_walks.specs.Walking.{rows_of};

use crate::walk::Walk;
use tesla_fitting::Config;
use tesla_keys::Verifier;

/// The indices of the newest keys, chain by chain, with zeros behind them.
pub fn indices(config: &Config, tips: &[Verifier]) -> [u32; 8]
    requires { length tips.now ≡ length config.now.setup.rows }
    ensures newest { AreIndices tips.now result }
    ensures few { length tips.now ≤ 8 }
{
    let mut indices = [0; 8];
    for chain in 0..config.setup.count() {
        indices[usize::from(chain)] = tips[usize::from(chain)].newest().0;
    }
    indices
}

/// The highest interval above `low`, up to `high`, that a new key is the first of its chain to reach, where the newest
/// keys had these indices.
pub fn highest_reached(indices: &[u32; 8], walks: &[Walk], low: u32, high: u32) -> Option<u32>
    requires { All (IsOfChains 8) (rows_of walks.now) }
    ensures { IsHighest (is_reached (index_at indices.now) (rows_of walks.now)) low high result }
{
    let mut highest = low;
    for walking in walks {
        let row = walking.row();
        let reached = row.index.min(high);
        if indices[usize::from(row.chain.0)] < reached {
            highest = highest.max(reached);
        }
    }
    if highest == low {
        return None;
    }
    Some(highest)
}

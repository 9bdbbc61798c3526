//! What new keys reach.

ghost use Rattle.std.specs.Prelude.{◌≡◌, ◌≤◌, All, length};
ghost use Rattle.tesla_walks.specs.ReachedIntervals.{AreIndices, Spans};
ghost use Rattle.tesla_walks.specs.Offered.{IsOfChains};
ghost use Rattle.tesla_walks.specs.Walking.{rows_of};

use tesla_fitting::Config;
use tesla_keys::Verifier;
use tesla_walks::{Walk, indices, span};

/// What new keys reach: of each chain the intervals after the newest key before them, and all of these among the
/// intervals above `low`, up to `high`.
#[derive(Clone, Copy, Debug)]
pub struct Reach {
    /// The index of the newest key of each chain before the new ones, with zeros behind them.
    pub indices: [u32; 8],
    /// No interval up to this one is reached.
    pub low: u32,
    /// No interval above this one is reached.
    pub high: u32,
}

/// What the keys of walks reach, which aren't taken yet.
pub fn reach_of(config: &Config, tips: &[Verifier], walks: &[Walk]) -> Reach
    requires tips { length tips.now ≡ length config.now.setup.rows }
    requires chains { All (IsOfChains (length tips.now)) (rows_of walks.now) }
    ensures indices { AreIndices tips.now result.indices }
    ensures few { length tips.now ≤ 8 }
    ensures spans { Spans tips.now (rows_of walks.now) result.low result.high }
{
    let (low, high) = span(tips, walks);
    Reach {
        indices: indices(config, tips),
        low,
        high,
    }
}

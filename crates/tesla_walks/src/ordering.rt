//! The order of what new keys prove.

ghost use Rattle.std.specs.Prelude.{◌≡◌, All, List, length, map};
ghost use Rattle.std.specs.List.Sorted.{IsPermutation};
ghost use Rattle.tesla_walks.specs.declared.release.Release.{Release};
ghost use Rattle.tesla_walks.specs.Proved.{RiseBy, arrival_number, release_in};
ghost use Rattle.tesla_walks.specs.ReachedIntervals.{Spans, highest, lowest};
ghost use Rattle.tesla_walks.specs.Offered.{IsOfChains};
ghost use Rattle.tesla_walks.specs.Walking.{rows_of};

use crate::Release;
use crate::walk::Walk;
use tesla_base::Place;
use tesla_keys::Verifier;

/// A packet that new keys prove.
#[derive(Clone, Copy, Debug)]
pub struct Proved {
    /// What is told of it.
    pub release: Release,
    /// Its place in the buffer.
    pub place: Place,
}

/// Puts proved packets into order of arrival. There is one such order, since no two have the same place among all
/// arrivals.
pub fn sort(proved: &mut [Proved])
    ensures order { (releases : List Release) → RiseBy arrival_number releases → IsPermutation releases (map release_in proved.old) → map release_in proved.new ≡ releases }
    ensures same { IsPermutation proved.old proved.new }
{
    proved.sort_unstable_by_key(|one| one.release.place);
}

/// The least and the greatest interval index that new keys span: the least index of the newest keys of their chains,
/// and the greatest of theirs. Packets of the intervals after the least, up to the greatest, are those that they may
/// prove. Without new keys there is no such interval.
pub fn span(tips: &[Verifier], walks: &[Walk]) -> (u32, u32)
    requires { All (IsOfChains (length tips.now)) (rows_of walks.now) }
    ensures low { result.0 ≡ lowest tips.now (rows_of walks.now) }
    ensures high { result.1 ≡ highest (rows_of walks.now) }
    ensures spans { Spans tips.now (rows_of walks.now) result.0 result.1 }
{
    let mut low = u32::MAX;
    let mut high = 0;
    for walking in walks {
        let row = walking.row();
        low = low.min(tips[usize::from(row.chain.0)].newest().0);
        high = high.max(row.index);
    }
    (low, high)
}

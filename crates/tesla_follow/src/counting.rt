//! The counts of several epochs together.

ghost use Rattle.std.specs.Prelude.{◌≡◌, List};
ghost use Rattle.tesla_follow.specs.Counted.{added, report_over};
ghost use Rattle.tesla_follow.specs.Followed.{FollowedEpoch};
ghost use Rattle.tesla_follow.specs.History.{FollowEntry, followed};
ghost use Rattle.tesla_follow.specs.Kept.{counts_with};
ghost use Rattle.tesla_follow.specs.Stands.{EpochsStand, FollowStands};

use crate::epoch::OpenEpoch;
use crate::follower::Follower;
use tesla_receiver::Report;

/// The counts of two together. Each stands still at 2^64 - 1.
pub fn joined(a: &Report, b: &Report) -> Report
    ensures { result ≡ added a.now b.now }
{
    Report {
        arrivals: a.arrivals.saturating_add(b.arrivals),
        malformed: a.malformed.saturating_add(b.malformed),
        foreign: a.foreign.saturating_add(b.foreign),
        misfit: a.misfit.saturating_add(b.misfit),
        future: a.future.saturating_add(b.future),
        badkey: a.badkey.saturating_add(b.badkey),
        late: a.late.saturating_add(b.late),
        repeat: a.repeat.saturating_add(b.repeat),
        full: a.full.saturating_add(b.full),
        kept: a.kept.saturating_add(b.kept),
        keys: a.keys.saturating_add(b.keys),
        given: a.given.saturating_add(b.given),
    }
}

/// The counts of these epochs, added to those.
fn report_with(so_far: Report, epochs: &[OpenEpoch]) -> Report
    ensures { (es : List FollowedEpoch) → EpochsStand epochs.now es → result ≡ counts_with so_far es }
{
    let Some((first, rest)) = epochs.split_first() else {
        return so_far;
    };
    report_with(joined(&so_far, &first.report()), rest)
}

impl Follower {
    /// The counts of all epochs together. Each stands still at 2^64 - 1.
    pub fn report(&self) -> Report
        ensures { (h : List FollowEntry) → FollowStands self.now h → result ≡ report_over (followed self.now.config h).epochs }
    {
        report_with(self.closed, self.epochs.as_slice())
    }
}

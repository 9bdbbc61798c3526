//! The lines that tell what a follower came to.

ghost use Rattle.std.specs.Prelude.{◌≡◌, List};
ghost use Rattle.tesla_follow.specs.History.{FollowEntry, followed};
ghost use Rattle.tesla_follow_station.specs.Stands.{CountedStands};
ghost use Rattle.tesla_run_follow.specs.Text.{follow_text};

use tesla_follow_station::CountedFollower;
use tesla_front::{Lines, add_count};
use tesla_run_replay::add_report;

/// The lines of what the history made. They take no memory.
#[tactic(auto, unfolding(crate::specs::Text::follow_text))]
pub(crate) fn lines_of(station: &CountedFollower) -> Lines
    ensures { (h : List FollowEntry) → CountedStands station.now h → result.bytes ≡ follow_text (followed station.now.follower.config h) }
{
    let mut lines = Lines::new();
    add_count(&mut lines, "epochs", station.epochs());
    add_report(&mut lines, &station.report());
    add_count(&mut lines, "early", station.early());
    add_count(&mut lines, "unqueued", station.unqueued());
    add_count(&mut lines, "dropped", station.dropped());
    lines
}

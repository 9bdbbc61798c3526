//! The lines that tell what a feed came to.

ghost use Rattle.std.specs.Prelude.{◌≡◌};
ghost use Rattle.tesla_front.specs.OutcomeView.{result_view, stop_view};
ghost use Rattle.tesla_run_feed.specs.Lines.{lines_of, outcome_with, streams_over};

use tesla_feeds::{FeedsCounts, FeedsEnd};
use tesla_front::{Fault, Lines, Stop, add_count, refused};

// The lines of the counts, told whether there are several streams.
fn lines_of(several: bool, counts: FeedsCounts) -> Lines
    ensures { result.bytes ≡ lines_of several counts }
{
    let FeedsCounts {
        feed: counts,
        handovers,
    } = counts;
    let mut lines = Lines::new();
    add_count(&mut lines, "messages", counts.messages);
    add_count(&mut lines, "disclosures", counts.disclosures);
    if several {
        add_count(&mut lines, "handovers", handovers);
    }
    add_count(&mut lines, "toolong", counts.too_long);
    add_count(&mut lines, "early", counts.early);
    add_count(&mut lines, "over", counts.over);
    add_count(&mut lines, "backward", counts.backward);
    add_count(&mut lines, "full", counts.full);
    add_count(&mut lines, "unread", counts.unread);
    lines
}

/// What a feed came to, told whether there are several streams, whether STATUS failed, and what a lacking sender comes to: `Failed`
/// with `Read` where the link failed, else with `Write` where a post or STATUS did, else what a sender comes to that was lacking, and
/// else the lines of the counts. It takes no memory.
pub fn lines_after(
    several: bool,
    end: FeedsEnd,
    status_failed: bool,
    lack: Stop,
) -> Result<Lines, Stop>
    ensures { result_view result ≡ outcome_with several end status_failed (stop_view lack) }
{
    if end.link_failed {
        return Err(Stop::Failed(Fault::Read));
    }
    if end.post_failed || status_failed {
        return Err(Stop::Failed(Fault::Write));
    }
    if end.lacking {
        return Err(lack);
    }
    Ok(lines_of(several, end.counts))
}

/// What streams that are all over when their feed is opened come to: `Refused` as a setup. It takes no memory.
pub fn streams_over() -> Stop
    ensures { stop_view result ≡ streams_over }
{
    Stop::Refused(refused(2, "setup", 0, "Over"))
}

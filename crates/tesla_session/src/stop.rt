//! Why the workers of a station came to no end.

ghost use Rattle.std.specs.Prelude.{◌≡◌, ◌||◌};
ghost use Rattle.std.specs.Option.{option_map};
ghost use Rattle.tesla_front.specs.OutcomeView.{stop_view};
ghost use Rattle.tesla_session.specs.Session.{spent_line, any_link_ended, any_sink_ended, stop_by, stop_of, workers_of};

use crate::worker::{LinkWorker, SinkWorker};
use tesla_desk::{Clock, Gate, Link, Output};
use tesla_front::{Fault, Lines, Refusal, Stop};
use tesla_shared::{LinkEnd, SinkEnd, Station};

/// The status where calls were spent.
const SPENT: u8 = 11;

// Whether one of these links ended so.
fn any_link<V: Station, K: Link, C: Clock, G: Gate>(
    workers: &[LinkWorker<V, K, C, G>],
    end: LinkEnd,
) -> bool
    ensures { result ≡ any_link_ended end workers.now }
{
    match workers {
        [worker, workers @ ..] => worker.end == end || any_link(workers, end),
        [] => false,
    }
}

// Whether one of these sinks ended so.
fn any_sink<V: Station, C: Clock, S: Output, G: Gate>(
    workers: &[SinkWorker<V, C, S, G>],
    end: SinkEnd,
) -> bool
    ensures { result ≡ any_sink_ended end workers.now }
{
    match workers {
        [worker, workers @ ..] => worker.end == end || any_sink(workers, end),
        [] => false,
    }
}

// The refusal where calls were spent.
fn spent() -> Refusal
    ensures { (result.status ≡ 11) × (result.line.bytes ≡ spent_line) }
{
    let mut line = Lines::new();
    line.push_str("calls spent\n");
    Refusal {
        status: SPENT,
        line,
    }
}

// What comes of a link that failed, or else of a sink that did, or else of calls that were spent.
fn stop_where(read: bool, write: bool, link_spent: bool, sink_spent: bool) -> Option<Stop>
    ensures { option_map stop_view result ≡ stop_by read write (link_spent || sink_spent) }
{
    if read {
        return Some(Stop::Failed(Fault::Read));
    }
    if write {
        return Some(Stop::Failed(Fault::Write));
    }
    if link_spent || sink_spent {
        return Some(Stop::Refused(spent()));
    }
    None
}

/// Why the workers came to no end: a link failed, or else a sink, or else the calls of one were spent.
pub fn stop_in<V: Station, K: Link, C: Clock, S: Output, G: Gate>(
    links: &[LinkWorker<V, K, C, G>],
    sinks: &[SinkWorker<V, C, S, G>],
) -> Option<Stop>
    ensures { option_map stop_view result ≡ stop_of (workers_of links.now sinks.now) }
{
    let read = any_link(links, LinkEnd::Failed);
    let write = any_sink(sinks, SinkEnd::Failed);
    let link_spent = any_link(links, LinkEnd::Spent);
    let sink_spent = any_sink(sinks, SinkEnd::Spent);
    stop_where(read, write, link_spent, sink_spent)
}

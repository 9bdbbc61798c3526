//! The opening of a feed over a list.

ghost use Rattle.std.specs.Prelude.{◌≡◌, ◌+◌, ◌≤◌, ◌*◌, [], IfOk, List, length, nat_lt, true};
ghost use Rattle.std.specs.List.{list_all};
ghost use Rattle.tesla_clock.specs.Schedule.{Times};
ghost use Rattle.tesla_feed.specs.Fed.{has_ended};
ghost use Rattle.tesla_feeds.specs.Fed.{lasting};
ghost use Rattle.tesla_feeds.specs.Later.{AreOf, OpensFeeds, OpensWith};
ghost use Rattle.tesla_feeds.specs.Opening.{first_setup};
ghost use Rattle.tesla_feeds.specs.Steps.{HandsOver};
ghost use Rattle.tesla_sender.specs.Made.{Stream};
ghost use Rattle.tesla_sender.specs.Stands.{Stands};

use crate::later::{LaterStream, later_streams};
use crate::{Feeders, FeedsCounts, Handover, ListedFeeder};
use std::alloc::Global;
use std::sync::ledger::Ledger;
use tesla_base::{NoMemory, Steps};
use tesla_clock::Schedule;
use tesla_commit::Setup;
use tesla_feed::{FeedCounts, Feeder, has_ended};
use tesla_sender::Sender;

/// How many intervals a feed may be opened behind the end of the last one and the delay of a chain.
const LATEST_OPENING: u64 = 64;

/// The sender of a stream of a list, and how it hands over to the stream behind it.
#[derive(Drop)]
pub struct ListedSender {
    /// It has accepted no call.
    pub sender: Sender,
    /// `None` where the stream is the last one.
    pub handover: Option<Handover>,
}

/// A feed over a list, and the reading of the clock at which it was opened, in microseconds.
#[derive(Drop)]
pub struct OpenFeeds {
    /// The feeders of the streams in front, whose senders are there. It has room for those of all.
    pub feeders: Feeders,
    /// The streams behind them, whose senders aren't there yet, in their order.
    pub later: Vec<LaterStream>,
    pub opening: u64,
}

/// Whether a feed over a stream of this setup is over where it is opened at this reading, as `has_ended` of `tesla_feed` tells
/// it of a sender of that stream.
pub fn has_setup_ended(setup: &Setup, opening: u64) -> bool
    ensures { (stream : Stream) → stream.setup ≡ setup.now → length stream.seeds ≡ length setup.now.rows → result ≡ has_ended stream opening }
{
    for chain in 0..setup.count() {
        if !has_chain_ended(setup.schedule(), setup.row(chain).delay, opening) {
            return false;
        }
    }
    true
}

// The same of a chain of this delay.
fn has_chain_ended(schedule: Schedule, delay: u16, opening: u64) -> bool
    ensures { let times : Times = schedule in result ≡ nat_lt (times.start + (times.last + 1 + delay + 64) * times.length) opening }
{
    let intervals = u128::from(schedule.last())
        + 1
        + u128::from(delay)
        + u128::from(LATEST_OPENING);
    let end = u128::from(schedule.start()) + intervals * u128::from(schedule.length());
    end < u128::from(opening)
}

/// Those of these setups from the first one on whose stream isn't over at this reading.
pub fn lasting_setups(setups: &[Setup], opening: u64) -> &[Setup]
    ensures { (streams : List Stream) → AreOf streams setups.now → AreOf (lasting opening streams) result.now }
{
    let Some((setup, behind)) = setups.split_first() else {
        return setups;
    };
    if has_setup_ended(setup, opening) {
        return lasting_setups(behind, opening);
    }
    setups
}

/// Opens a feed over a list at this reading of the clock, told the sender of the first stream, and the setups of those behind it,
/// whose senders aren't there yet. Those in front that are over by then are left out; `None` where all are.
pub fn open_feeds<L: Ledger>(
    alloc: Global,
    first: ListedSender,
    behind: &[Setup],
    opening: u64,
    steps: &mut Steps<L>,
) -> Result<Option<OpenFeeds>, NoMemory>
    requires fresh { Stands first.sender [] }
    requires hands { HandsOver first.handover first.sender.stream (first_setup behind.now) }
    ensures { (streams : List Stream) → AreOf streams behind.now → IfOk result (OpensFeeds opening first.sender.stream streams) }
{
    let mut feeders = Vec::new(alloc);
    let ListedSender { sender, handover } = first;
    if has_ended(&sender, opening) {
        let left = lasting_setups(behind, opening);
        if left.is_empty() {
            return Ok(None);
        }
        let opened = open_with(alloc, feeders, left, opening)?;
        return Ok(Some(opened));
    }
    feeders.push(ListedFeeder {
        feeder: Feeder::open(sender, opening, steps),
        handover,
        handed: 0,
    })?;
    let opened = open_with(alloc, feeders, behind, opening)?;
    Ok(Some(opened))
}

// A feed of these feeders, with room for those of the streams behind them.
fn open_with(
    alloc: Global,
    mut feeders: Vec<ListedFeeder>,
    behind: &[Setup],
    opening: u64,
) -> Result<OpenFeeds, NoMemory>
    ensures { IfOk result (OpensWith feeders.items behind.now opening) }
{
    let later = later_streams(alloc, behind)?;
    feeders.reserve(later.len())?;
    let counts = FeedsCounts {
        feed: FeedCounts::new(),
        handovers: 0,
    };
    Ok(OpenFeeds {
        feeders: Feeders {
            feeders,
            counts,
            reading: opening,
        },
        later,
        opening,
    })
}

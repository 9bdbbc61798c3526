//! The streams of a list whose senders are brought while it is fed.

ghost use Rattle.std.specs.Prelude.{◌≡◌, [], IfOk, List, length, true};
ghost use Rattle.tesla_sender.specs.Made.{Stream, interval_at};
ghost use Rattle.tesla_feeds.specs.Later.{AreLater, AreOf, PutsLater};
ghost use Rattle.tesla_feeds.specs.Opening.{begins_by, some_begun};
ghost use Rattle.tesla_feeds.specs.Waits.{until_first};

use crate::Handover;
use crate::listed::until_behind;
use std::alloc::Global;
use tesla_base::NoMemory;
use tesla_clock::Schedule;
use tesla_commit::Setup;
use tesla_feed::is_unread;
use tesla_sender::Sender;

/// Brings the senders of the later streams of a list, one after another, in their order.
pub trait LaterSenders {
    ghost use Rattle.std.specs.Prelude.{Bool, List};
    ghost use Rattle.tesla_feeds.specs.Later.{Brings};
    ghost use Rattle.tesla_sender.specs.Made.{Stream};

    /// The streams whose senders weren't brought yet, in their order.
    ghost left: { Self → List Stream };

    /// The seeds of a stream are right.
    ghost is_right: { Stream → Bool };

    /// Waits until the next sender is there, and gives it: it has accepted no call, and the seeds of its stream are right.
    /// `None`: it can't be opened, or none is left.
    fn bring(&mut self) -> Option<Sender>
        ensures { Brings is_right (left self.old) (left self.new) result };

    /// Whether one of them can't be opened, as far as that is known. Nothing is claimed of it.
    fn lacks_one(&self) -> bool;
}

/// No stream is behind those whose senders are there.
#[derive(Drop)]
pub struct NoLater;

impl LaterSenders for NoLater {
    ghost left = { λ _. [] };

    ghost is_right = { λ _. true };

    fn bring(&mut self) -> Option<Sender> {
        None
    }

    fn lacks_one(&self) -> bool {
        false
    }
}

/// A stream of a list whose sender isn't there yet.
#[derive(Drop)]
pub struct LaterStream {
    /// The intervals of the stream.
    pub schedule: Schedule,
    /// How it hands over to the stream behind it. `None` where it is the last one.
    pub handover: Option<Handover>,
}

impl LaterStream {
    // The interval of a reading of the clock, in microseconds: 0 before the start.
    fn interval_at(&self, reading: u64) -> u64
        ensures { result ≡ interval_at self.now.schedule reading }
    {
        self.schedule.interval_at(reading).unwrap_or(0)
    }

    // Whether the interval behind that of the opening has begun by a reading.
    fn has_begun(&self, opening: u64, reading: u64) -> bool
        ensures { (stream : Stream) → self.now.schedule ≡ stream.setup.times → result ≡ begins_by opening reading stream }
    {
        !is_unread(reading) && self.interval_at(opening) < self.interval_at(reading)
    }
}

/// Whether the first interval of one of these streams has begun by a reading, told the opening: the interval behind that of it.
/// Where the clock couldn't be read none has.
pub fn has_later_begun(later: &[LaterStream], opening: u64, reading: u64) -> bool
    ensures { (streams : List Stream) → AreLater later.now streams → result ≡ some_begun streams opening reading }
{
    let Some((stream, behind)) = later.split_first() else {
        return false;
    };
    stream.has_begun(opening, reading) || has_later_begun(behind, opening, reading)
}

/// How many microseconds after a reading the interval behind that of `before` begins of one of these streams, the least of all.
pub fn until_later(later: &[LaterStream], before: u64, reading: u64) -> u64
    ensures { (streams : List Stream) → AreLater later.now streams → result ≡ until_first streams before reading }
{
    let Some((stream, behind)) = later.split_first() else {
        return u64::MAX;
    };
    until_behind(stream.schedule, stream.interval_at(before), reading).min(until_later(
        behind, before, reading,
    ))
}

/// The streams of these setups, whose senders aren't there yet, each with its handover to the one behind it.
pub fn later_streams(alloc: Global, setups: &[Setup]) -> Result<Vec<LaterStream>, NoMemory>
    ensures later { IfOk result (λ later. (streams : List Stream) → AreOf streams setups.now → AreLater later.items streams) }
    ensures many { IfOk result (λ later. length later.items ≡ length setups.now) }
{
    let mut later = Vec::with_capacity(alloc, setups.len())?;
    put_later(alloc, setups, &mut later)?;
    Ok(later)
}

// Puts the streams of these setups behind those that are there.
fn put_later(alloc: Global, setups: &[Setup], later: &mut Vec<LaterStream>) -> Result<(), NoMemory>
    ensures { IfOk result (λ _. PutsLater later.old.items later.new.items setups.now) }
{
    let Some((setup, behind)) = setups.split_first() else {
        return Ok(());
    };
    let handover = match behind.first() {
        Some(next) => Some(Handover::new(alloc, setup, next)?),
        None => None,
    };
    later.push(LaterStream {
        schedule: setup.schedule(),
        handover,
    })?;
    put_later(alloc, behind, later)
}

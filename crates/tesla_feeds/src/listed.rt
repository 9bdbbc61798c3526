//! One stream of a list while it is fed: its feeder, and how it hands over to the next stream.

ghost use Rattle.std.specs.Prelude.{◌≡◌, ◌+◌, ◌≤◌, ◌&&◌, [], false, IfOk, IfSome, nat_lt};
ghost use Rattle.tesla_sender.specs.Made.{Disclose, Message, interval_at};
ghost use Rattle.tesla_feed.specs.Fed.{is_unread};
ghost use Rattle.tesla_feed.specs.Steps.{until_begin};
ghost use Rattle.tesla_feeds.specs.Fed.{Part, disclosed, handed_over, said};
ghost use Rattle.tesla_feeds.specs.Order.{is_in_window};
ghost use Rattle.tesla_feeds.specs.Steps.{DoesPart, FeedsPart, HandsPart, HandsTo, calls_made, refused_by, size_said};
ghost use Rattle.tesla_feeds.specs.Waits.{tells_no_more};

use crate::order::{greatest_delay, is_in_window};
use std::alloc::Global;
use std::sync::ledger::Ledger;
use tesla_base::{NoMemory, Steps};
use tesla_clock::Schedule;
use tesla_commit::{Setup, write_setup};
use tesla_feed::Feeder;
use tesla_rollover::HANDOVER_MARK;
use tesla_sender::SendRefusal;

/// How a stream hands over to the next one.
#[derive(Drop)]
pub struct Handover {
    /// The greatest delay of the stream's chains, in intervals.
    pub delay: u16,
    /// The intervals of the next stream.
    pub next: Schedule,
    /// The payload that names the next stream's setup.
    pub payload: Vec<u8>,
}

impl Handover {
    /// How a stream of this setup hands over to one of the next setup: by the mark of a handover, and the text of that setup.
    pub fn new(alloc: Global, setup: &Setup, next: &Setup) -> Result<Handover, NoMemory>
        ensures { IfOk result (λ handover. HandsTo handover setup.now next.now) }
    {
        let text = write_setup(alloc, next)?;
        let mut payload = Vec::new(alloc);
        payload.extend_from_slice(HANDOVER_MARK)?;
        payload.extend_from_slice(text.as_slice())?;
        Ok(Handover {
            delay: greatest_delay(setup),
            next: next.schedule(),
            payload,
        })
    }
}

/// A stream of a list while it is fed.
#[derive(Drop)]
pub struct ListedFeeder {
    pub feeder: Feeder,
    /// How it hands over to the stream behind it. `None` where it is the last one.
    pub handover: Option<Handover>,
    /// The interval of its last handover, 0 where there is none.
    pub handed: u64,
}

impl ListedFeeder {
    /// Whether the last interval of the stream has ended by a reading of the clock, in microseconds.
    pub fn is_past(&self, reading: u64) -> bool
        ensures { let times = self.now.feeder.sender.stream.setup.times in
            result ≡ nat_lt times.last (interval_at times reading) }
    {
        u64::from(self.feeder.schedule().last()) < self.feeder.interval_at(reading)
    }

    /// Whether it tells no more keys: its last interval has ended by a reading of the clock, another stream follows, and the key
    /// of that interval was disclosed on every chain.
    pub fn tells_no_more(&self, reading: u64) -> bool
        ensures { (part : Part) → FeedsPart self.now part → result ≡ tells_no_more part reading }
    {
        self.handover.is_some() && self.is_past(reading) && self.feeder.has_disclosed_last()
    }

    /// How many microseconds after a reading the interval behind that of `before` begins, 0 where it has begun. A begin behind
    /// 2^64 - 1 counts as that.
    pub fn until_after(&self, before: u64, reading: u64) -> u64
        ensures { let times = self.now.feeder.sender.stream.setup.times in
            result ≡ until_begin times (interval_at times before + 1) reading }
    {
        until_behind(
            self.feeder.schedule(),
            self.feeder.interval_at(before),
            reading,
        )
    }

    /// Makes the frame of a message that came at this reading, where it is sent, and gives its length.
    pub fn say<L: Ledger>(
        &mut self,
        reading: u64,
        payload: &[u8],
        steps: &mut Steps<L>,
    ) -> Result<usize, SendRefusal>
        ensures does { (part : Part) → FeedsPart self.old part → DoesPart (said reading payload.now part) (calls_made (size_said result) (Message reading payload.now)) (refused_by result) self.new (size_said result) }
        ensures room { IfOk result (λ length. length ≤ 2048) }
    {
        self.feeder.say(reading, payload, steps)
    }

    /// Makes the frame of a disclosure at this reading, where one is due, and gives its length. The clock could be read.
    pub fn disclose<L: Ledger>(&mut self, reading: u64, steps: &mut Steps<L>) -> Option<usize>
        requires read { is_unread reading ≡ false }
        ensures does { (part : Part) → FeedsPart self.old part → DoesPart (disclosed reading part) (calls_made result (Disclose reading)) [] self.new result }
        ensures room { IfSome result (λ length. length ≤ 2048) }
    {
        self.feeder.disclose(reading, steps)
    }

    /// Makes the frame of the handover to the next stream at this reading, where one is due, and gives its length. The
    /// clock could be read.
    pub fn hand_over<L: Ledger>(&mut self, reading: u64, steps: &mut Steps<L>) -> Option<usize>
        ensures hands { (part : Part) → FeedsPart self.old part → HandsPart (handed_over reading part) self.new result }
        ensures room { IfSome result (λ length. length ≤ 2048) }
    {
        let interval = self.feeder.interval_at(reading);
        let schedule = self.feeder.schedule();
        let Some(handover) = &self.handover else {
            return None;
        };
        if !may_hand_over(handover, schedule, self.handed, interval) {
            return None;
        }
        match self.feeder.say(reading, handover.payload.as_slice(), steps) {
            Ok(length) => {
                self.handed = interval;
                Some(length)
            }
            Err(_) => None,
        }
    }
}

// Whether an interval is one for a handover, told that of the last one: it is in the window, and behind that.
fn may_hand_over(handover: &Handover, schedule: Schedule, handed: u64, interval: u64) -> bool
    ensures { result ≡ (nat_lt handed interval && is_in_window schedule handover.now.delay handover.now.next interval) }
{
    handed < interval && is_in_window(schedule, handover.delay, handover.next, interval)
}

/// How many microseconds after a reading the interval behind this one begins, 0 where it has begun. A begin behind 2^64 - 1
/// counts as that.
pub fn until_behind(schedule: Schedule, interval: u64, reading: u64) -> u64
    ensures { result ≡ until_begin schedule (interval + 1) reading }
{
    let next = u128::from(interval) + 1;
    let begin = u128::from(schedule.start()) + next * u128::from(schedule.length());
    let begin = begin.min(u128::from(u64::MAX)) as u64;
    begin.saturating_sub(reading)
}

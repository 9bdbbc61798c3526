//! The sender of a feed: which calls are made of it, and what it refuses.

ghost use Rattle.std.specs.Prelude.{◌≡◌, ◌+◌, ◌≤◌, [], false, IfOk, IfSome};
ghost use Rattle.tesla_sender.specs.Made.{interval_at};
ghost use Rattle.tesla_sender.specs.Stands.{Stands};
ghost use Rattle.tesla_feed.specs.Fed.{Feeding, after_none, first_interval, is_unread, nothing_fed};
ghost use Rattle.tesla_feed.specs.Steps.{Makes, Says, StandsFor, is_due_after, is_disclosed_after};
ghost use Rattle.tesla_desk.specs.declared.link.Letter.TheVariants as letters;

use crate::FeedCounts;
use std::sync::ledger::Ledger;
use tesla_base::{MOST_DATAGRAM, Steps};
use tesla_clock::Schedule;
use tesla_sender::{SendRefusal, Sender};

/// A sender with its room for a frame, and what a feed remembers of the calls that it made.
#[derive(Drop)]
pub struct Feeder {
    sender: Sender,
    /// The frame that was made last stands at its start.
    pub frame: [u8; MOST_DATAGRAM],
    // The first interval in which a call is made.
    first: u64,
    // The intervals of the last call and of the last message, 0 where there is none.
    latest: u64,
    message: u64,
    counts: FeedCounts,
}

impl Feeder {
    /// The feeder of a sender that has accepted no call, opened at this reading of the clock: it makes its calls after
    /// the interval of that. The keys up to that of its first interval are made.
    pub fn open<L: Ledger>(mut sender: Sender, opening: u64, steps: &mut Steps<L>) -> Feeder
        requires { Stands sender [] }
        ensures stands { StandsFor sender.stream (first_interval sender.stream.setup.times opening) result nothing_fed }
    {
        let first = sender.interval_at(opening) + 1;
        sender.begin_at(first, steps);
        Feeder {
            sender,
            frame: [0; MOST_DATAGRAM],
            first,
            latest: 0,
            message: 0,
            counts: FeedCounts::new(),
        }
    }

    /// What was counted.
    pub fn counts(&self) -> FeedCounts
        ensures { result ≡ self.now.counts }
    {
        self.counts
    }

    /// When the intervals of the stream begin, and how many there are.
    pub fn schedule(&self) -> Schedule
        ensures { result ≡ self.now.sender.stream.setup.times }
    {
        self.sender.schedule()
    }

    /// The interval of a reading of the clock, in microseconds: 0 before the start.
    pub fn interval_at(&self, reading: u64) -> u64
        ensures { result ≡ interval_at self.now.sender.stream.setup.times reading }
    {
        self.sender.interval_at(reading)
    }

    /// Judges a message that came at this reading, makes its frame where it is sent, and gives the length of that. Else it
    /// is counted as refused, and no frame is made.
    pub fn say<L: Ledger>(
        &mut self,
        reading: u64,
        payload: &[u8],
        steps: &mut Steps<L>,
    ) -> Result<usize, SendRefusal>
        ensures says { (made : Feeding) → StandsFor self.old.sender.stream self.old.first self.old made → Says self.old.sender.stream self.old.first made reading payload.now self.new result }
        ensures room { IfOk result (λ length. length ≤ 2048) }
    {
        match self
            .sender
            .message(reading, payload, &mut self.frame, steps)
        {
            Ok(length) => {
                self.latest = self.sender.interval_at(reading);
                self.message = self.latest;
                self.counts.messages = self.counts.messages.saturating_add(1);
                Ok(length)
            }
            Err(refusal) => {
                self.counts.refuse(refusal);
                Err(refusal)
            }
        }
    }

    /// Makes the frame of a disclosure at this reading, where one is due, and gives its length. `None`: none is due. The
    /// clock could be read.
    pub fn disclose<L: Ledger>(&mut self, reading: u64, steps: &mut Steps<L>) -> Option<usize>
        requires read { is_unread reading ≡ false }
        ensures makes { (made : Feeding) → StandsFor self.old.sender.stream self.old.first self.old made → Makes self.old.sender.stream self.old.first made (after_none self.old.sender.stream self.old.first made reading) self.new result }
        ensures room { IfSome result (λ length. length ≤ 2048) }
    {
        let interval = self.sender.interval_at(reading);
        if !self.is_due(interval) {
            return None;
        }
        // One that is due is accepted.
        let Ok(length) = self.sender.disclose(reading, &mut self.frame, steps) else {
            return None;
        };
        self.latest = interval;
        self.counts.disclosures = self.counts.disclosures.saturating_add(1);
        Some(length)
    }

    // Whether a disclosure in an interval would tell a newer key.
    fn is_due(&self, interval: u64) -> bool
        ensures { result ≡ is_due_after self.now.sender.stream self.now.first self.now.latest interval }
    {
        self.first <= interval
            && self.latest <= interval
            && self.sender.tells_newer(self.latest, interval)
    }

    /// Whether the key of the last message was disclosed on every chain.
    pub fn has_disclosed_all(&self) -> bool
        ensures { result ≡ is_disclosed_after self.now.sender.stream self.now.message self.now.latest }
    {
        self.sender.tells_all(self.message, self.latest)
    }

    /// Whether the key of the last interval was disclosed on every chain: then no call tells a newer one.
    pub fn has_disclosed_last(&self) -> bool
        ensures { let stream = self.now.sender.stream in result ≡ is_disclosed_after stream stream.setup.times.last self.now.latest }
    {
        let last = u64::from(self.sender.schedule().last());
        self.sender.tells_all(last, self.latest)
    }

    /// Makes the keys of the next interval, before it begins. Nothing is changed that the next calls answer.
    pub fn make_next<L: Ledger>(&mut self, steps: &mut Steps<L>)
        ensures { (made : Feeding) → StandsFor self.old.sender.stream self.old.first self.old made → StandsFor self.old.sender.stream self.old.first self.new made }
    {
        self.sender.make_next(steps);
    }
}

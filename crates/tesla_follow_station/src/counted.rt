//! A follower, with its counts beside it.

ghost use Rattle.std.specs.Prelude.{◌≡◌, ◌<◌, ◌^◌, ◌++◌, ◌∷◌, [], List, Option, ℕ, IfOk, length};
ghost use Rattle.tesla_counters.specs.Counts.{NoneFalls, no_counts};
ghost use Rattle.tesla_follow.specs.Counted.{report_over};
ghost use Rattle.tesla_follow.specs.History.{FollowEntry, followed};
ghost use Rattle.tesla_follow.specs.Stands.{FollowStands};
ghost use Rattle.tesla_follow_station.specs.Counts.{chain_in, counts_of, counts_with, epoch_counts};
ghost use Rattle.tesla_recorder.specs.watched.Watched.{counts_in};
ghost use Rattle.tesla_follow_station.specs.Stands.{CountedStands};

use crate::by_chain::{CHAINS, by_chain_with};
use std::alloc::Global;
use std::marker::Model;
use tesla_base::{Chronicle, NoMemory};
use tesla_counters::{Counters, Reader, Writer};
use tesla_follow::{FollowReply, FollowVerdict, Follower};
use tesla_receiver::{Config, Entry, Report};

/// How many counts there are: those of a report but for its arrivals, in the order of its lines; one for each of eight
/// chains; and then the number of the newest epoch, how many epochs are open, how many records were of messages that were
/// accepted on arrival, how many promised messages found no place, and how many packets were dropped. None of them falls.
pub const FOLLOW_COUNTS: usize = 24;

// How many of them are neither of a report nor by chain.
const EPOCH_COUNTS: usize = 5;

/// A follower, and the counts of its history, which another thread may read at any time.
#[derive(Drop)]
pub struct CountedFollower {
    pub(super) follower: Follower,
    counts: Writer<FOLLOW_COUNTS>,
}

/// What a follower is set up with, and which counts are those of its history.
pub struct CountedConfig {
    /// The configuration of the epoch of the trusted setup.
    pub config: Config,
    /// The counts that are read.
    pub counters: Counters<FOLLOW_COUNTS>,
}

impl Model for CountedFollower {
    ghost use Rattle.tesla_follow_station.specs.Stands.{CountedState};

    ghost Value = { CountedState };

    ghost view = { λ c. record { follower = c.follower; counters = c.counts.counters; counts = c.counts.counts } };
}

impl Chronicle for CountedFollower {
    ghost use Rattle.tesla_follow_station.specs.Stands.{CountedStands};

    type Entry = Entry<FollowVerdict, FollowReply>;

    type Config = CountedConfig;

    ghost config = { λ counted. record { config = counted.follower.config; counters = counted.counters } };

    ghost stands = { CountedStands };
}

// The counts of a report but for its arrivals, in the order of its lines, then those by chain, and then those of epochs.
fn joined(
    report: &Report,
    by_chain: &[u64; CHAINS],
    epochs: &[u64; EPOCH_COUNTS],
) -> [u64; FOLLOW_COUNTS]
    ensures { result ≡ counts_in report.now ++ by_chain.now ++ epochs.now }
{
    let [first, second, third, fourth, fifth, sixth, seventh, eighth] = *by_chain;
    let [newest, open, early, unqueued, dropped] = *epochs;
    [
        report.malformed,
        report.foreign,
        report.misfit,
        report.future,
        report.badkey,
        report.late,
        report.repeat,
        report.full,
        report.kept,
        report.keys,
        report.given,
        first,
        second,
        third,
        fourth,
        fifth,
        sixth,
        seventh,
        eighth,
        newest,
        open,
        early,
        unqueued,
        dropped,
    ]
}

// The counts of a follower that aren't of its report.
fn epoch_counts(follower: &Follower) -> [u64; EPOCH_COUNTS]
    requires { (h : List FollowEntry) × FollowStands follower.now h }
    ensures { (h : List FollowEntry) → FollowStands follower.now h → result ≡ epoch_counts (followed follower.now.config h) }
{
    [
        follower.epochs() - 1,
        u64::from(follower.open_count()),
        follower.early(),
        follower.unqueued(),
        follower.dropped(),
    ]
}

impl CountedFollower {
    /// Counts from now on what this follower answers, which has had no event. The reader has the counts as they stand at any
    /// time. `NoMemory`: there wasn't enough.
    pub fn open(
        alloc: Global,
        follower: Follower,
    ) -> Result<(CountedFollower, Reader<FOLLOW_COUNTS>), NoMemory>
        requires { FollowStands follower [] }
        ensures stands { IfOk result (λ it. CountedStands it.0 []) }
        ensures follower { IfOk result (λ it. it.0.follower ≡ follower) }
        ensures counters { IfOk result (λ it. it.1.counters ≡ it.0.counters) }
        ensures zero { IfOk result (λ it. it.1.counts ≡ no_counts 24) }
    {
        let (counts, reader) = Counters::open(alloc)?;
        let mut counted = CountedFollower { follower, counts };
        counted.set(&[0; CHAINS]);
        Ok((counted, reader))
    }

    /// The counts of the whole history.
    pub fn counts(&self) -> [u64; FOLLOW_COUNTS]
        ensures { (h : List FollowEntry) → CountedStands self.now h → result ≡ counts_of self.now.follower.config h }
    {
        *self.counts.counts()
    }

    /// Takes the reader back. What it read last is not above the counts.
    pub fn compare(&mut self, reader: Reader<FOLLOW_COUNTS>)
        requires { reader.counters ≡ self.old.counters }
        ensures below { NoneFalls reader.counts self.old.counts }
        ensures same { self.new ≡ self.old }
    {
        self.counts.compare(reader);
    }

    /// The counts of all epochs together.
    pub fn report(&self) -> Report
        ensures { (h : List FollowEntry) → CountedStands self.now h → result ≡ report_over (followed self.now.follower.config h).epochs }
    {
        self.follower.report()
    }

    /// How many epochs were opened: 1 at least.
    pub fn epochs(&self) -> u64
        ensures { (h : List FollowEntry) → CountedStands self.now h → result ≡ length (followed self.now.follower.config h).epochs }
    {
        self.follower.epochs()
    }

    /// How many records were of messages that were accepted on arrival.
    pub fn early(&self) -> u64
        ensures { (h : List FollowEntry) → CountedStands self.now h → result ≡ (followed self.now.follower.config h).early }
    {
        self.follower.early()
    }

    /// How many messages were promised and found no place.
    pub fn unqueued(&self) -> u64
        ensures { (h : List FollowEntry) → CountedStands self.now h → result ≡ (followed self.now.follower.config h).unqueued }
    {
        self.follower.unqueued()
    }

    /// How many packets were held, and not given, in epochs when these were closed.
    pub fn dropped(&self) -> u64
        ensures { (h : List FollowEntry) → CountedStands self.now h → result ≡ (followed self.now.follower.config h).dropped }
    {
        self.follower.dropped()
    }

    // Sets the counts to those of what the follower stands for now, told those by chain.
    fn set(&mut self, by_chain: &[u64; CHAINS])
        requires { (h : List FollowEntry) × FollowStands self.old.follower h × NoneFalls self.old.counts (counts_with (followed self.old.follower.config h) by_chain.now) }
        ensures counts { (h : List FollowEntry) → FollowStands self.old.follower h → self.new.counts ≡ counts_with (followed self.old.follower.config h) by_chain.now }
        ensures same { (self.new.follower ≡ self.old.follower) × (self.new.counters ≡ self.old.counters) }
    {
        let counts = joined(
            &self.follower.report(),
            by_chain,
            &epoch_counts(&self.follower),
        );
        self.counts.set(&counts);
    }

    // Sets the counts behind an event, to those of the history that the follower stands for now, told the chain on which the
    // packet was released that was given.
    pub(super) fn count(&mut self, chain: Option<u8>)
        requires { (h : List FollowEntry) × (entry : FollowEntry) × (length h < 2 ^ 63) × FollowStands self.old.follower (h ++ entry ∷ []) × (self.old.counts ≡ counts_of self.old.follower.config h) × (chain_in entry ≡ chain) }
        ensures stands { (h : List FollowEntry) (entry : FollowEntry) → FollowStands self.old.follower (h ++ entry ∷ []) → self.old.counts ≡ counts_of self.old.follower.config h → chain_in entry ≡ chain → CountedStands self.new (h ++ entry ∷ []) }
        ensures same { (self.new.follower ≡ self.old.follower) × (self.new.counters ≡ self.old.counters) }
    {
        let by_chain = by_chain_with(self.counts.counts(), chain);
        self.set(&by_chain);
    }
}

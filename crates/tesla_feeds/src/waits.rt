//! Until when nothing is due of the streams of a list, and whether all keys are told.

ghost use Rattle.std.specs.Prelude.{◌≡◌, List, vec_capacity};
ghost use Rattle.tesla_feed.specs.Steps.{noted};
ghost use Rattle.tesla_feeds.specs.Events.{FeedsAll};
ghost use Rattle.tesla_feeds.specs.Fed.{Fed, Part};
ghost use Rattle.tesla_feeds.specs.Later.{are_past};
ghost use Rattle.tesla_feeds.specs.Opening.{begins_by, some_begun, streams_fed, streams_of};
ghost use Rattle.tesla_feeds.specs.Steps.{FeedParts, FeedsPart};
ghost use Rattle.tesla_feeds.specs.Waits.{are_told, until_first, until_more, until_next};

use crate::{Feeders, ListedFeeder};
use std::sync::ledger::Ledger;
use tesla_base::Steps;
use tesla_feed::is_unread;

impl Feeders {
    /// Notes a reading of the clock, unless that couldn't be read.
    pub fn note(&mut self, reading: u64)
        ensures { self.new ≡ record self.old { reading = noted self.old.reading reading } }
    {
        let before = self.reading;
        self.reading = if is_unread(reading) { before } else { reading };
    }

    /// Whether the first interval of one of the streams has begun by a reading, told the opening: the interval behind that of
    /// it. Where the clock couldn't be read none has.
    pub fn has_begun(&self, opening: u64, reading: u64) -> bool
        ensures { result ≡ some_begun (streams_fed self.now) opening reading }
    {
        has_begun(self.feeders.as_slice(), opening, reading)
    }

    /// How many microseconds after the last reading the first interval of one of the streams begins, told the opening.
    pub fn until_first(&self, opening: u64) -> u64
        ensures { result ≡ until_first (streams_fed self.now) opening self.now.reading }
    {
        until_first(self.feeders.as_slice(), opening, self.reading)
    }

    /// How many microseconds after the last reading the next interval of one of the streams begins, but for those that tell no
    /// more keys.
    pub fn until_next(&self) -> u64
        ensures { (fed : Fed) → FeedsAll self.now fed → result ≡ until_next fed.parts self.now.reading }
    {
        until_next(self.feeders.as_slice(), self.reading)
    }

    /// Whether the key of the last message of each stream, a handover too, was disclosed on every chain.
    pub fn have_told_all(&self) -> bool
        ensures { (fed : Fed) → FeedsAll self.now fed → result ≡ are_told fed.parts }
    {
        have_told_all(self.feeders.as_slice())
    }

    /// Whether the last interval of each stream has ended by a reading.
    pub fn are_past(&self, reading: u64) -> bool
        ensures { result ≡ are_past (streams_fed self.now) reading }
    {
        are_past(self.feeders.as_slice(), reading)
    }

    /// Makes the keys of the next interval of each stream, before it begins. Nothing is changed that the next calls answer.
    pub fn make_next<L: Ledger>(&mut self, steps: &mut Steps<L>)
        ensures makes { (fed : Fed) → FeedsAll self.old fed → FeedsAll self.new fed }
        ensures room { vec_capacity self.new.feeders ≡ vec_capacity self.old.feeders }
    {
        make_next(self.feeders.as_mut_slice(), steps);
    }
}

fn has_begun(feeders: &[ListedFeeder], opening: u64, reading: u64) -> bool
    ensures { result ≡ some_begun (streams_of feeders.now) opening reading }
{
    let Some((feeder, behind)) = feeders.split_first() else {
        return false;
    };
    has_one_begun(feeder, opening, reading) || has_begun(behind, opening, reading)
}

// Whether the interval behind that of the opening has begun by a reading.
fn has_one_begun(feeder: &ListedFeeder, opening: u64, reading: u64) -> bool
    ensures { result ≡ begins_by opening reading feeder.now.feeder.sender.stream }
{
    !is_unread(reading) && feeder.feeder.interval_at(opening) < feeder.feeder.interval_at(reading)
}

fn until_first(feeders: &[ListedFeeder], opening: u64, reading: u64) -> u64
    ensures { result ≡ until_first (streams_of feeders.now) opening reading }
{
    let Some((feeder, behind)) = feeders.split_first() else {
        return u64::MAX;
    };
    feeder
        .until_after(opening, reading)
        .min(until_first(behind, opening, reading))
}

// How many microseconds after a reading the next interval of a stream begins that tells more keys.
fn until_more(feeder: &ListedFeeder, reading: u64) -> u64
    ensures { (part : Part) → FeedsPart feeder.now part → result ≡ until_more part reading }
{
    if feeder.tells_no_more(reading) {
        return u64::MAX;
    }
    feeder.until_after(reading, reading)
}

fn until_next(feeders: &[ListedFeeder], reading: u64) -> u64
    ensures { (parts : List Part) → FeedParts feeders.now parts → result ≡ until_next parts reading }
{
    let Some((feeder, behind)) = feeders.split_first() else {
        return u64::MAX;
    };
    until_more(feeder, reading).min(until_next(behind, reading))
}

fn have_told_all(feeders: &[ListedFeeder]) -> bool
    ensures { (parts : List Part) → FeedParts feeders.now parts → result ≡ are_told parts }
{
    let Some((feeder, behind)) = feeders.split_first() else {
        return true;
    };
    feeder.feeder.has_disclosed_all() && have_told_all(behind)
}

fn are_past(feeders: &[ListedFeeder], reading: u64) -> bool
    ensures { result ≡ are_past (streams_of feeders.now) reading }
{
    let Some((feeder, behind)) = feeders.split_first() else {
        return true;
    };
    feeder.is_past(reading) && are_past(behind, reading)
}

fn make_next<L: Ledger>(feeders: &mut [ListedFeeder], steps: &mut Steps<L>)
    ensures { (parts : List Part) → FeedParts feeders.old parts → FeedParts feeders.new parts }
{
    let Some((feeder, behind)) = feeders.split_first_mut() else {
        return;
    };
    feeder.feeder.make_next(steps);
    make_next(behind, steps)
}

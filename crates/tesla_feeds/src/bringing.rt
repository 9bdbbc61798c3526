//! An open feed over a list, and the senders that are brought to it.

ghost use Rattle.std.specs.Prelude.{◌≡◌, ◌≤◌, ◌++◌, ◌<◌, List, false, not, true, vec_len};
ghost use Rattle.tesla_sender.specs.Made.{Stream};
ghost use Rattle.tesla_feeds.specs.Fed.{Fed};
ghost use Rattle.tesla_feeds.specs.Later.{AreLater, BringsMore, HasRoom, StandsAll, is_one_needed};
ghost use Rattle.tesla_feeds.specs.Opening.{some_begun, streams_fed};
ghost use Rattle.tesla_feeds.specs.Waits.{are_told, until_first, until_next};

use crate::later::{LaterSenders, LaterStream, has_later_begun, until_later};
use crate::{ListedFeeder, OpenFeeds};
use std::sync::ledger::Ledger;
use tesla_base::Steps;
use tesla_feed::{Feeder, is_unread};

impl OpenFeeds {
    /// Whether the first interval of one of the streams has begun by a reading: the interval behind that of the opening. Where
    /// the clock couldn't be read none has.
    pub fn has_begun(&self, reading: u64) -> bool
        ensures { (left : List Stream) → AreLater self.now.later.items left → result ≡ some_begun (streams_fed self.now.feeders ++ left) self.now.opening reading }
    {
        self.feeders.has_begun(self.opening, reading)
            || has_later_begun(self.later.as_slice(), self.opening, reading)
    }

    /// How many microseconds after the last reading the first interval of one of the streams begins.
    pub fn until_first(&self) -> u64
        ensures { (left : List Stream) → AreLater self.now.later.items left → result ≡ until_first (streams_fed self.now.feeders ++ left) self.now.opening self.now.feeders.reading }
    {
        let behind = until_later(self.later.as_slice(), self.opening, self.feeders.reading);
        self.feeders.until_first(self.opening).min(behind)
    }

    /// How many microseconds after the last reading the next interval of one of the streams begins, but for those that tell no
    /// more keys. It may be less.
    pub fn until_next(&self) -> u64
        ensures { (left : List Stream) (fed : Fed) → StandsAll left self.now fed → result ≤ until_next fed.parts self.now.feeders.reading }
    {
        let reading = self.feeders.reading;
        let behind = until_later(self.later.as_slice(), reading, reading);
        self.feeders.until_next().min(behind)
    }

    /// Whether the key of the last message of each stream, a handover too, was disclosed on every chain. Nothing was made of
    /// those whose senders aren't there.
    pub fn have_told_all(&self) -> bool
        ensures { (left : List Stream) (fed : Fed) → StandsAll left self.now fed → result ≡ are_told fed.parts }
    {
        self.feeders.have_told_all()
    }

    // Whether one of the streams whose senders aren't there is needed at a reading: the first interval of one of them has begun,
    // or the last one of all others has ended. Where the clock couldn't be read none is.
    fn needs(&self, reading: u64) -> bool
        ensures some { result ≡ true → 0 < vec_len self.now.later }
        ensures is { (left : List Stream) → AreLater self.now.later.items left → result ≡ is_one_needed (streams_fed self.now.feeders) left self.now.opening reading }
    {
        if self.later.is_empty() || is_unread(reading) {
            return false;
        }
        let later = self.later.as_slice();
        self.feeders.are_past(reading) || has_later_begun(later, self.opening, reading)
    }
}

// Brings the next sender, and tells whether it could be had.
fn bring_one<L: Ledger, Y: LaterSenders>(
    feeds: &mut OpenFeeds,
    later: &mut Y,
    steps: &mut Steps<L>,
) -> bool
    requires room { HasRoom feeds.old }
    requires later { AreLater feeds.old.later.items (Y.left later.old) }
    ensures brings { BringsMore Y.is_right feeds.old feeds.new (Y.left later.old) (Y.left later.new) }
    ensures fewer { result ≡ true → vec_len feeds.new.later < vec_len feeds.old.later }
    ensures no_more { vec_len feeds.new.later ≤ vec_len feeds.old.later }
    ensures none { result ≡ false → (feeds.new ≡ feeds.old) × (Y.left later.new ≡ Y.left later.old) }
{
    let Some(sender) = later.bring() else {
        return false;
    };
    let LaterStream { handover, .. } = feeds.later.remove(0);
    feeds.feeders.feeders.push_reserved(ListedFeeder {
        feeder: Feeder::open(sender, feeds.opening, steps),
        handover,
        handed: 0,
    });
    true
}

/// Brings one sender after another as long as one of the streams whose senders aren't there is needed at a reading, and tells
/// whether each could be had that is. It waits for them.
pub fn bring_needed<L: Ledger, Y: LaterSenders>(
    feeds: &mut OpenFeeds,
    reading: u64,
    later: &mut Y,
    steps: &mut Steps<L>,
) -> bool
    requires room { HasRoom feeds.old }
    requires later { AreLater feeds.old.later.items (Y.left later.old) }
    ensures brings { BringsMore Y.is_right feeds.old feeds.new (Y.left later.old) (Y.left later.new) }
    ensures needed { is_one_needed (streams_fed feeds.new.feeders) (Y.left later.new) feeds.new.opening reading ≡ not result }
    ensures no_more { vec_len feeds.new.later ≤ vec_len feeds.old.later }
    ensures some { result ≡ false → 0 < vec_len feeds.old.later }
{
    while feeds.needs(reading) {
        if !bring_one(feeds, later, steps) {
            return false;
        }
    }
    true
}

/// Brings what is needed at the last reading, unless a sender is known to be lacking, and tells whether each could be had. It
/// waits for them. Where no stream is left, each could.
pub fn is_ready<L: Ledger, Y: LaterSenders>(
    feeds: &mut OpenFeeds,
    later: &mut Y,
    steps: &mut Steps<L>,
) -> bool
    requires room { HasRoom feeds.old }
    requires later { AreLater feeds.old.later.items (Y.left later.old) }
    ensures brings { BringsMore Y.is_right feeds.old feeds.new (Y.left later.old) (Y.left later.new) }
    ensures no_more { vec_len feeds.new.later ≤ vec_len feeds.old.later }
    ensures some { result ≡ false → 0 < vec_len feeds.old.later }
{
    if feeds.later.is_empty() {
        return true;
    }
    if later.lacks_one() {
        return false;
    }
    bring_needed(feeds, feeds.feeders.reading, later, steps)
}

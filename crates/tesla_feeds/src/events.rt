//! One event of a feed over a list of streams.

ghost use Rattle.std.specs.Prelude.{◌≡◌, ◌+◌, ◌-◌, ◌^◌, List, Some, false, length, map, min, vec_capacity};
ghost use Rattle.tesla_relay.specs.Posts.{PostSeen};
ghost use Rattle.tesla_feed.specs.Fed.{is_unread};
ghost use Rattle.tesla_feeds.specs.Fed.{Fed, after_handover, after_keys, after_message};
ghost use Rattle.tesla_feeds.specs.Events.{FeedsAll, MayStage, TakesAll, after_said, frames_handed, frames_said, frames_told};
ghost use Rattle.tesla_feeds.specs.Steps.{many_where};

use crate::disclosing::disclose_all;
use crate::listed::ListedFeeder;
use crate::stepping::{hand_over_on, say_on};
use std::sync::ledger::Ledger;
use tesla_base::Steps;
use tesla_desk::Post;
use tesla_feed::FeedCounts;
use tesla_sender::SendRefusal;

/// What a feed over a list counts.
#[derive(Clone, Copy, Debug, PartialEq, Eq)]
pub struct FeedsCounts {
    /// The calls of all streams but for handovers, and why messages were refused.
    pub feed: FeedCounts,
    /// Handovers that were sent. It stands still at 2^64 - 1.
    pub handovers: u64,
}

impl FeedsCounts {
    // Counts a handover, where one was sent.
    fn count_handover(&mut self, sent: bool)
        ensures { self.new ≡ record { feed = self.old.feed; handovers = min (self.old.handovers + many_where sent) (2 ^ 64 - 1) } }
    {
        let before = self.handovers;
        if sent {
            self.handovers = before.saturating_add(1);
        }
    }

    // Counts a message that was sent or refused, or none.
    fn count_message(&mut self, said: Result<bool, SendRefusal>)
        ensures { self.new ≡ record { feed = after_said self.old.feed said; handovers = self.old.handovers } }
    {
        match said {
            Ok(true) => self.feed.messages = self.feed.messages.saturating_add(1),
            Ok(false) => {}
            Err(refusal) => self.feed.refuse(refusal),
        }
    }

    /// Counts a message that came while the clock couldn't be read.
    pub fn count_unread(&mut self)
        ensures { self.new ≡ record { feed = record self.old.feed { unread = min (self.old.feed.unread + 1) (2 ^ 64 - 1) }; handovers = self.old.handovers } }
    {
        self.feed.unread = self.feed.unread.saturating_add(1);
    }
}

/// The feeders of a list, in its order, and what was counted of all.
#[derive(Drop)]
pub struct Feeders {
    pub feeders: Vec<ListedFeeder>,
    pub counts: FeedsCounts,
    /// The last reading of the clock that could be had, in microseconds.
    pub reading: u64,
}

/// Makes the handover that is due, and counts it. The clock could be read.
pub fn hand_over<L: Ledger, P: Post>(
    feeders: &mut Feeders,
    reading: u64,
    posts: &mut [P],
    failed: &mut [bool],
    steps: &mut Steps<L>,
)
    requires each { length failed.old ≡ length posts.old }
    requires may { let seen : P → PostSeen = λ post. record { name = P.name post; sent = P.sent post; faults = P.faults post } in
        MayStage seen P.may_send feeders.old (frames_handed reading) posts.old failed.old }
    ensures takes { let seen : List P → List PostSeen = λ posts. map (λ post. record { name = P.name post; sent = P.sent post; faults = P.faults post }) posts in
        (fed : Fed) → FeedsAll feeders.old fed → TakesAll (after_handover reading fed) (frames_handed reading fed) feeders.new (seen posts.old) (seen posts.new) failed.old failed.new }
    ensures each { (length posts.new ≡ length posts.old) × (length failed.new ≡ length failed.old) }
    ensures room { vec_capacity feeders.new.feeders ≡ vec_capacity feeders.old.feeders }
{
    let sent = hand_over_on(
        feeders.feeders.as_mut_slice(),
        reading,
        posts,
        failed,
        steps,
    );
    feeders.counts.count_handover(sent);
}

/// Makes the disclosures that are due, and counts them. The clock could be read.
pub fn disclose<L: Ledger, P: Post>(
    feeders: &mut Feeders,
    reading: u64,
    posts: &mut [P],
    failed: &mut [bool],
    steps: &mut Steps<L>,
)
    requires read { is_unread reading ≡ false }
    requires each { length failed.old ≡ length posts.old }
    requires may { let seen : P → PostSeen = λ post. record { name = P.name post; sent = P.sent post; faults = P.faults post } in
        MayStage seen P.may_send feeders.old (frames_told reading) posts.old failed.old }
    ensures takes { let seen : List P → List PostSeen = λ posts. map (λ post. record { name = P.name post; sent = P.sent post; faults = P.faults post }) posts in
        (fed : Fed) → FeedsAll feeders.old fed → TakesAll (after_keys reading fed) (frames_told reading fed) feeders.new (seen posts.old) (seen posts.new) failed.old failed.new }
    ensures each { (length posts.new ≡ length posts.old) × (length failed.new ≡ length failed.old) }
    ensures room { vec_capacity feeders.new.feeders ≡ vec_capacity feeders.old.feeders }
{
    disclose_all(
        feeders.feeders.as_mut_slice(),
        reading,
        &mut feeders.counts.feed,
        posts,
        failed,
        steps,
    )
}

/// Judges a message that came, and counts it.
pub fn say<L: Ledger, P: Post>(
    feeders: &mut Feeders,
    reading: u64,
    payload: &[u8],
    posts: &mut [P],
    failed: &mut [bool],
    steps: &mut Steps<L>,
)
    requires each { length failed.old ≡ length posts.old }
    requires may { let seen : P → PostSeen = λ post. record { name = P.name post; sent = P.sent post; faults = P.faults post } in
        MayStage seen P.may_send feeders.old (frames_said reading (Some payload.now)) posts.old failed.old }
    ensures takes { let seen : List P → List PostSeen = λ posts. map (λ post. record { name = P.name post; sent = P.sent post; faults = P.faults post }) posts in
        (fed : Fed) → FeedsAll feeders.old fed → TakesAll (after_message reading (Some payload.now) fed) (frames_said reading (Some payload.now) fed) feeders.new (seen posts.old) (seen posts.new) failed.old failed.new }
    ensures each { (length posts.new ≡ length posts.old) × (length failed.new ≡ length failed.old) }
    ensures room { vec_capacity feeders.new.feeders ≡ vec_capacity feeders.old.feeders }
{
    let said = say_on(
        feeders.feeders.as_mut_slice(),
        reading,
        payload,
        posts,
        failed,
        steps,
    );
    feeders.counts.count_message(said);
}

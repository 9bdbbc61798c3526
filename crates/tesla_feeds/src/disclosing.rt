//! The disclosures of all streams of a list.

ghost use Rattle.std.specs.Prelude.{◌≡◌, [], List, false, length, map};
ghost use Rattle.tesla_relay.specs.Posts.{PostSeen};
ghost use Rattle.tesla_feed.specs.Fed.{Feeding, counts_of, is_unread};
ghost use Rattle.tesla_feeds.specs.Fed.{Part, disclosed, done_each};
ghost use Rattle.tesla_feeds.specs.Steps.{DoesAll, DoesOne, FeedParts, FeedsPart, MayDo, MayDoOne, with_calls};

use crate::listed::ListedFeeder;
use std::sync::ledger::Ledger;
use tesla_base::Steps;
use tesla_desk::Post;
use tesla_feed::{FeedCounts, hand};

// Sends the disclosure of a stream, where one is due, and counts it. The clock could be read.
fn disclose_one<L: Ledger, P: Post>(
    feeder: &mut ListedFeeder,
    reading: u64,
    counts: &mut FeedCounts,
    posts: &mut [P],
    failed: &mut [bool],
    steps: &mut Steps<L>,
)
    requires read { is_unread reading ≡ false }
    requires each { length failed.old ≡ length posts.old }
    requires may { let seen : P → PostSeen = λ post. record { name = P.name post; sent = P.sent post; faults = P.faults post } in
        MayDoOne seen P.may_send feeder.old (disclosed reading) posts.old failed.old }
    ensures does { let seen : List P → List PostSeen = λ posts. map (λ post. record { name = P.name post; sent = P.sent post; faults = P.faults post }) posts in
        (part : Part) → FeedsPart feeder.old part → DoesOne (disclosed reading part) feeder.new (seen posts.old) (seen posts.new) failed.old failed.new }
    ensures counts { (part : Part) (whole : Feeding) → FeedsPart feeder.old part → counts.old ≡ counts_of whole
        → counts.new ≡ counts_of (with_calls whole (disclosed reading part).calls) }
    ensures each { (length posts.new ≡ length posts.old) × (length failed.new ≡ length failed.old) }
{
    let Some(length) = feeder.disclose(reading, steps) else {
        return;
    };
    counts.disclosures = counts.disclosures.saturating_add(1);
    hand(&feeder.feeder.frame[..length], posts, failed);
}

/// Sends the disclosures of all streams that are due, in their order, and counts them. The clock could be read.
pub fn disclose_all<L: Ledger, P: Post>(
    feeders: &mut [ListedFeeder],
    reading: u64,
    counts: &mut FeedCounts,
    posts: &mut [P],
    failed: &mut [bool],
    steps: &mut Steps<L>,
)
    requires read { is_unread reading ≡ false }
    requires each { length failed.old ≡ length posts.old }
    requires may { let seen : P → PostSeen = λ post. record { name = P.name post; sent = P.sent post; faults = P.faults post } in
        MayDo seen P.may_send feeders.old (done_each (disclosed reading)) posts.old failed.old }
    ensures does { let seen : List P → List PostSeen = λ posts. map (λ post. record { name = P.name post; sent = P.sent post; faults = P.faults post }) posts in
        (parts : List Part) → FeedParts feeders.old parts → DoesAll (done_each (disclosed reading) parts) (done_each (disclosed reading) parts).calls [] feeders.new (seen posts.old) (seen posts.new) failed.old failed.new }
    ensures counts { (parts : List Part) (whole : Feeding) → FeedParts feeders.old parts → counts.old ≡ counts_of whole
        → counts.new ≡ counts_of (with_calls whole (done_each (disclosed reading) parts).calls) }
    ensures each { (length posts.new ≡ length posts.old) × (length failed.new ≡ length failed.old) }
{
    let Some((feeder, behind)) = feeders.split_first_mut() else {
        return;
    };
    disclose_one(feeder, reading, counts, posts, failed, steps);
    disclose_all(behind, reading, counts, posts, failed, steps)
}

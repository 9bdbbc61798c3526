//! One event of a feed over a list of streams, whole.

ghost use Rattle.std.specs.Prelude.{◌≡◌, List, length, map, vec_capacity};
ghost use Rattle.tesla_relay.specs.Posts.{PostSeen};
ghost use Rattle.tesla_feed.specs.Steps.{bytes_in};
ghost use Rattle.tesla_feeds.specs.Fed.{Fed, after_item, after_message, after_missed};
ghost use Rattle.tesla_feeds.specs.Events.{FeedsAll, MayStage, TakesAll, frames_item, frames_said};

use crate::Feeders;
use crate::events::{disclose, hand_over, say};
use std::sync::ledger::Ledger;
use tesla_base::Steps;
use tesla_desk::Post;
use tesla_feed::is_unread;

// Judges a message, where one came.
fn say_item<L: Ledger, P: Post>(
    feeders: &mut Feeders,
    reading: u64,
    payload: Option<&[u8]>,
    posts: &mut [P],
    failed: &mut [bool],
    steps: &mut Steps<L>,
)
    requires each { length failed.old ≡ length posts.old }
    requires may { let seen : P → PostSeen = λ post. record { name = P.name post; sent = P.sent post; faults = P.faults post } in
        MayStage seen P.may_send feeders.old (frames_said reading (bytes_in payload)) posts.old failed.old }
    ensures takes { let seen : List P → List PostSeen = λ posts. map (λ post. record { name = P.name post; sent = P.sent post; faults = P.faults post }) posts in
        (fed : Fed) → FeedsAll feeders.old fed → TakesAll (after_message reading (bytes_in payload.entry) fed) (frames_said reading (bytes_in payload.entry) fed) feeders.new (seen posts.old) (seen posts.new) failed.old failed.new }
    ensures each { (length posts.new ≡ length posts.old) × (length failed.new ≡ length failed.old) }
    ensures room { vec_capacity feeders.new.feeders ≡ vec_capacity feeders.old.feeders }
{
    if let Some(payload) = payload {
        say(feeders, reading, payload, posts, failed, steps);
    }
}

// Counts a message that came while the clock couldn't be read.
fn miss(feeders: &mut Feeders, payload: Option<&[u8]>)
    ensures misses { (fed : Fed) → FeedsAll feeders.old fed → FeedsAll feeders.new (after_missed (bytes_in payload.entry) fed) }
    ensures room { vec_capacity feeders.new.feeders ≡ vec_capacity feeders.old.feeders }
{
    if payload.is_some() {
        feeders.counts.count_unread();
    }
}

/// Does what an event at this reading of the clock asks for: a message came, or none did. A handover that is due is sent, the
/// message is judged, both by the stream that is on, and the disclosures of all streams that are due are made. Where the clock
/// couldn't be read nothing is sent, and a message that came is counted. Each frame is handed to every post that hasn't
/// failed, which may send it.
pub fn take_event<L: Ledger, P: Post>(
    feeders: &mut Feeders,
    reading: u64,
    payload: Option<&[u8]>,
    posts: &mut [P],
    failed: &mut [bool],
    steps: &mut Steps<L>,
)
    requires each { length failed.old ≡ length posts.old }
    requires may { let seen : P → PostSeen = λ post. record { name = P.name post; sent = P.sent post; faults = P.faults post } in
        MayStage seen P.may_send feeders.old (frames_item reading (bytes_in payload)) posts.old failed.old }
    ensures takes { let seen : List P → List PostSeen = λ posts. map (λ post. record { name = P.name post; sent = P.sent post; faults = P.faults post }) posts in
        (fed : Fed) → FeedsAll feeders.old fed → TakesAll (after_item reading (bytes_in payload.entry) fed) (frames_item reading (bytes_in payload.entry) fed) feeders.new (seen posts.old) (seen posts.new) failed.old failed.new }
    ensures each { (length posts.new ≡ length posts.old) × (length failed.new ≡ length failed.old) }
    ensures room { vec_capacity feeders.new.feeders ≡ vec_capacity feeders.old.feeders }
{
    if is_unread(reading) {
        miss(feeders, payload);
        return;
    }
    hand_over(feeders, reading, posts, failed, steps);
    say_item(feeders, reading, payload, posts, failed, steps);
    disclose(feeders, reading, posts, failed, steps)
}

//! What is done with the streams of a list at one reading, each frame of which is handed to every post.

ghost use Rattle.std.specs.Prelude.{◌≡◌, [], List, length, map};
ghost use Rattle.tesla_relay.specs.Posts.{PostSeen};
ghost use Rattle.tesla_sender.specs.Made.{Message};
ghost use Rattle.tesla_feeds.specs.Fed.{Part, done_on, handed_over, is_on, said};
ghost use Rattle.tesla_feeds.specs.Steps.{DoesAll, FeedParts, FeedsPart, HandsAll, MayDo, calls_sent, refused_by};

use crate::listed::ListedFeeder;
use std::sync::ledger::Ledger;
use tesla_base::Steps;
use tesla_desk::Post;
use tesla_feed::hand;
use tesla_sender::SendRefusal;

// Whether a stream is on at a reading, told which are behind it: it isn't past, or the last one.
fn is_on(feeder: &ListedFeeder, behind: &[ListedFeeder], reading: u64) -> bool
    ensures { (part : Part) (parts : List Part) → FeedsPart feeder.now part → FeedParts behind.now parts → result ≡ is_on reading part parts }
{
    behind.is_empty() || !feeder.is_past(reading)
}

/// Sends the handover of the stream that is on, where one is due, and tells whether it did. The clock could be read.
pub fn hand_over_on<L: Ledger, P: Post>(
    feeders: &mut [ListedFeeder],
    reading: u64,
    posts: &mut [P],
    failed: &mut [bool],
    steps: &mut Steps<L>,
) -> bool
    requires each { length failed.old ≡ length posts.old }
    requires may { let seen : P → PostSeen = λ post. record { name = P.name post; sent = P.sent post; faults = P.faults post } in
        MayDo seen P.may_send feeders.old (done_on (handed_over reading) reading) posts.old failed.old }
    ensures does { let seen : List P → List PostSeen = λ posts. map (λ post. record { name = P.name post; sent = P.sent post; faults = P.faults post }) posts in
        (parts : List Part) → FeedParts feeders.old parts → HandsAll (done_on (handed_over reading) reading parts) result feeders.new (seen posts.old) (seen posts.new) failed.old failed.new }
    ensures each { (length posts.new ≡ length posts.old) × (length failed.new ≡ length failed.old) }
{
    let Some((feeder, behind)) = feeders.split_first_mut() else {
        return false;
    };
    if !is_on(feeder, behind, reading) {
        return hand_over_on(behind, reading, posts, failed, steps);
    }
    let Some(length) = feeder.hand_over(reading, steps) else {
        return false;
    };
    hand(&feeder.feeder.frame[..length], posts, failed);
    true
}

/// Sends a message of the stream that is on, and tells whether one was, or why it was refused: none is where there is no
/// stream.
pub fn say_on<L: Ledger, P: Post>(
    feeders: &mut [ListedFeeder],
    reading: u64,
    payload: &[u8],
    posts: &mut [P],
    failed: &mut [bool],
    steps: &mut Steps<L>,
) -> Result<bool, SendRefusal>
    requires each { length failed.old ≡ length posts.old }
    requires may { let seen : P → PostSeen = λ post. record { name = P.name post; sent = P.sent post; faults = P.faults post } in
        MayDo seen P.may_send feeders.old (done_on (said reading payload.now) reading) posts.old failed.old }
    ensures does { let seen : List P → List PostSeen = λ posts. map (λ post. record { name = P.name post; sent = P.sent post; faults = P.faults post }) posts in
        (parts : List Part) → FeedParts feeders.old parts → DoesAll (done_on (said reading payload.now) reading parts) (calls_sent result (Message reading payload.now)) (refused_by result) feeders.new (seen posts.old) (seen posts.new) failed.old failed.new }
    ensures each { (length posts.new ≡ length posts.old) × (length failed.new ≡ length failed.old) }
{
    let Some((feeder, behind)) = feeders.split_first_mut() else {
        return Ok(false);
    };
    if !is_on(feeder, behind, reading) {
        return say_on(behind, reading, payload, posts, failed, steps);
    }
    match feeder.say(reading, payload, steps) {
        Ok(length) => {
            hand(&feeder.feeder.frame[..length], posts, failed);
            Ok(true)
        }
        Err(refusal) => Err(refusal),
    }
}

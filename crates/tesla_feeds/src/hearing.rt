//! The wait of a feed over a list for its first interval, and the two loops behind it: while the link brings items, and
//! afterwards.

ghost use Rattle.std.specs.Prelude.{◌≡◌, ◌<◌, ◌≤◌, ◌++◌, ◌∷◌, [], ℕ, List, false, length, map, true, vec_capacity, vec_len};
ghost use Rattle.std.specs.List.{list_all};
ghost use Rattle.tesla_desk.specs.Faults.{HasCause};
ghost use Rattle.tesla_relay.specs.Posts.{PostSeen};
ghost use Rattle.tesla_feed.specs.Feed.{has_failed};
ghost use Rattle.tesla_feed.specs.Steps.{StopsHearing, bytes_in, lacks_sender};
ghost use Rattle.tesla_feeds.specs.Events.{FeedsAll, MayStage, TakesAll, frames_item};
ghost use Rattle.tesla_feeds.specs.Fed.{Fed, after_item};
ghost use Rattle.tesla_feeds.specs.Going.{EndsHearing, EndsResting, EndsWaiting, Goes, GoesOn, NotesOn};
ghost use Rattle.tesla_feeds.specs.Later.{StandsAll};
ghost use Rattle.tesla_feeds.specs.Notes.{Note};
ghost use Rattle.tesla_feeds.specs.Opening.{opened_at, streams_fed};
ghost use Rattle.tesla_feeds.specs.Waits.{are_told};
ghost use Rattle.tesla_sender.specs.Made.{Stream};

use crate::bringing::{bring_needed, is_ready};
use crate::later::LaterSenders;
use crate::taking::take_event;
use crate::{Feeders, Notes, OpenFeeds};
use std::sync::Wait;
use std::sync::ledger::Ledger;
use tesla_base::{MOST_DATAGRAM, Steps};
use tesla_desk::{Clock, Gate, Got, Link, Post};
use tesla_feed::{Hearing, Instruments, have_all_failed};

// Tells the counts at this reading, and gives how many microseconds later they are to be told again at the latest.
fn tell<N: Notes>(feeders: &Feeders, reading: u64, notes: &mut N) -> u64
    requires permitted { N.may_note notes.old (record { reading = reading; counts = feeders.now.counts }) }
    ensures told { (before : List Note) → N.was_told notes.old before → N.was_told notes.new (before ++ record { reading = reading; counts = feeders.now.counts } ∷ []) }
    ensures fixed { N.fixed notes.new ≡ N.fixed notes.old }
{
    notes.note(reading, &feeders.counts)
}

/// Reads the clock until the first interval of one of the streams has begun, or the gate tells that the run was asked to end;
/// true where one has begun. The gate rests between two readings, and the counts, which are all 0, are told at each reading
/// before that. No sender is brought.
pub fn wait_to_begin<R: Wait, C: Clock, G: Gate, N: Notes, Y: LaterSenders>(
    rt: &R,
    feeds: &mut OpenFeeds,
    instruments: &mut Instruments<C, G, N, Y>,
) -> bool
    requires stands { let left = Y.left instruments.old.later in StandsAll left feeds.old (opened_at feeds.old.opening (streams_fed feeds.old.feeders ++ left)) }
    requires noting { let streams = streams_fed feeds.old.feeders ++ Y.left instruments.old.later in NotesOn Y.is_right N.was_told N.may_note C.gave C.read_for streams 0 (opened_at feeds.old.opening streams) instruments.old.notes }
    ensures waits { EndsWaiting G.over result (streams_fed feeds.old.feeders ++ Y.left instruments.old.later) feeds.old.opening feeds.old feeds.new (C.told instruments.old.clock) (C.told instruments.new.clock) (N.was_told instruments.old.notes) (N.was_told instruments.new.notes) }
    ensures fixed { N.fixed instruments.new.notes ≡ N.fixed instruments.old.notes }
    ensures noting { let streams = streams_fed feeds.old.feeders ++ Y.left instruments.old.later in NotesOn Y.is_right N.was_told N.may_note C.gave C.read_for streams 0 (opened_at feeds.old.opening streams) instruments.new.notes }
    ensures left { Y.left instruments.new.later ≡ Y.left instruments.old.later }
{
    for _ in rt.forever() {
        let reading = instruments.clock.now();
        feeds.feeders.note(reading);
        if feeds.has_begun(reading) {
            return true;
        }
        instruments.rest = tell(&feeds.feeders, reading, &mut instruments.notes);
        if instruments.gate.is_over() {
            return false;
        }
        instruments
            .gate
            .rest_for(feeds.until_first().min(instruments.rest));
    }
    unreachable!()
}

// Notes a reading, and does what an event at it asks for: a message came, or none did.
fn take_noted<L: Ledger, P: Post>(
    feeders: &mut Feeders,
    reading: u64,
    payload: Option<&[u8]>,
    posts: &mut [P],
    failed: &mut [bool],
    steps: &mut Steps<L>,
)
    requires each { length failed.old ≡ length posts.old }
    requires may { let seen : P → PostSeen = λ post. record { name = P.name post; sent = P.sent post; faults = P.faults post } in
        MayStage seen P.may_send feeders.old (frames_item reading (bytes_in payload)) posts.old failed.old }
    ensures takes { let seen : List P → List PostSeen = λ posts. map (λ post. record { name = P.name post; sent = P.sent post; faults = P.faults post }) posts in
        (fed : Fed) → FeedsAll feeders.old fed → TakesAll (after_item reading (bytes_in payload.entry) fed) (frames_item reading (bytes_in payload.entry) fed) feeders.new (seen posts.old) (seen posts.new) failed.old failed.new }
    ensures each { (length posts.new ≡ length posts.old) × (length failed.new ≡ length failed.old) }
    ensures room { vec_capacity feeders.new.feeders ≡ vec_capacity feeders.old.feeders }
{
    feeders.note(reading);
    take_event(feeders, reading, payload, posts, failed, steps);
}

/// Takes one item after another off the link, and does what it asks for at one reading of the clock, until the link ends or
/// fails, all posts have failed, or the sender of a later stream is lacking. Where no message came the keys of the next intervals
/// are made. It waits for the link, and for the senders that are needed: where one can't be had that an item needs, nothing is
/// made of that item. The clock is asked for each datagram that came, and only what is due is sent. The counts are told behind
/// each item.
pub fn hear_all<R: Wait, L: Ledger, K: Link, C: Clock, P: Post, G: Gate, N: Notes, Y: LaterSenders>(
    rt: &R,
    feeds: &mut OpenFeeds,
    link: &mut K,
    instruments: &mut Instruments<C, G, N, Y>,
    posts: &mut [P],
    failed: &mut [bool],
    steps: &mut Steps<L>,
) -> Hearing
    requires each { length failed.old ≡ length posts.old }
    requires asks { (number : ℕ) (bytes : List ℕ) → K.brought number bytes ≡ true → C.may_ask number bytes ≡ true }
    requires any_link { (link : K) → K.may_ask link ≡ true }
    requires none { K.has_brought link.old 0 ≡ true }
    requires going { let seen : P → PostSeen = λ post. record { name = P.name post; sent = P.sent post; faults = P.faults post } in
        GoesOn Y.is_right seen P.may_send N.was_told N.may_note C.gave C.read_for (streams_fed feeds.old.feeders ++ Y.left instruments.old.later) 0 (Y.left instruments.old.later) feeds.old posts.old failed.old instruments.old.notes }
    ensures hears { let seen : List P → List PostSeen = λ posts. map (λ post. record { name = P.name post; sent = P.sent post; faults = P.faults post }) posts in
        (fed : Fed) (first_posts : List PostSeen) → Goes Y.is_right (Y.left instruments.old.later) fed first_posts feeds.old (seen posts.old) failed.old
        → EndsHearing result Y.is_right (streams_fed feeds.old.feeders ++ Y.left instruments.old.later) feeds.old.opening (Y.left instruments.new.later) fed first_posts feeds.new failed.new (K.left link.old) (K.left link.new) (C.told instruments.old.clock) (C.told instruments.new.clock) (seen posts.new) (N.was_told instruments.old.notes) (N.was_told instruments.new.notes) }
    ensures going { let seen : P → PostSeen = λ post. record { name = P.name post; sent = P.sent post; faults = P.faults post } in
        (number : ℕ) × GoesOn Y.is_right seen P.may_send N.was_told N.may_note C.gave C.read_for (streams_fed feeds.old.feeders ++ Y.left instruments.old.later) number (Y.left instruments.new.later) feeds.new posts.new failed.new instruments.new.notes }
    ensures opening { feeds.new.opening ≡ feeds.old.opening }
    ensures fixed { N.fixed instruments.new.notes ≡ N.fixed instruments.old.notes }
    ensures stops { StopsHearing result failed.new (K.left link.new) }
    ensures some { lacks_sender result ≡ true → 0 < vec_len feeds.old.later }
    ensures no_more { vec_len feeds.new.later ≤ vec_len feeds.old.later }
    ensures cause { HasCause (K.faults link.old) (K.faults link.new) (result ≡ Hearing.LinkFailed) }
    ensures name { K.name link.new ≡ K.name link.old }
    ensures each { (length posts.new ≡ length posts.old) × (length failed.new ≡ length failed.old) }
{
    let mut buffer = [0; MOST_DATAGRAM];
    for _ in rt.forever() {
        if have_all_failed(failed) {
            return Hearing::Unheard;
        }
        if !is_ready(feeds, &mut instruments.later, steps) {
            return Hearing::Lacking;
        }
        link.wait_at_most(feeds.until_next().min(instruments.rest));
        match link.next(&mut buffer) {
            Got::Datagram(length) => {
                let datagram = &buffer[..length];
                let reading = instruments.clock.now_for(datagram);
                if !bring_needed(feeds, reading, &mut instruments.later, steps) {
                    return Hearing::Lost;
                }
                take_noted(
                    &mut feeds.feeders,
                    reading,
                    Some(datagram),
                    posts,
                    failed,
                    steps,
                );
                instruments.rest = tell(&feeds.feeders, reading, &mut instruments.notes);
            }
            Got::Quiet => {
                let reading = instruments.clock.now();
                if !bring_needed(feeds, reading, &mut instruments.later, steps) {
                    return Hearing::Lost;
                }
                take_noted(&mut feeds.feeders, reading, None, posts, failed, steps);
                instruments.rest = tell(&feeds.feeders, reading, &mut instruments.notes);
                feeds.feeders.make_next(steps);
            }
            Got::End => return Hearing::Ended,
            Got::Failed => return Hearing::LinkFailed,
        }
    }
    unreachable!()
}

/// Lets the gate rest until the next interval begins, and does what is due then, until the key of the last message of each
/// stream, a handover too, was told on every chain or all posts have failed. Only what is due is sent. The counts are told
/// behind each rest. It waits for the senders that are needed; false where one can't be had: nothing is made of the last rest.
pub fn tell_rest<R: Wait, L: Ledger, C: Clock, P: Post, G: Gate, N: Notes, Y: LaterSenders>(
    rt: &R,
    feeds: &mut OpenFeeds,
    instruments: &mut Instruments<C, G, N, Y>,
    posts: &mut [P],
    failed: &mut [bool],
    steps: &mut Steps<L>,
) -> bool
    requires each { length failed.old ≡ length posts.old }
    requires going { let seen : P → PostSeen = λ post. record { name = P.name post; sent = P.sent post; faults = P.faults post } in
        (number : ℕ) × GoesOn Y.is_right seen P.may_send N.was_told N.may_note C.gave C.read_for (streams_fed feeds.old.feeders ++ Y.left instruments.old.later) number (Y.left instruments.old.later) feeds.old posts.old failed.old instruments.old.notes }
    ensures rests { let seen : List P → List PostSeen = λ posts. map (λ post. record { name = P.name post; sent = P.sent post; faults = P.faults post }) posts in
        (fed : Fed) (first_posts : List PostSeen) → Goes Y.is_right (Y.left instruments.old.later) fed first_posts feeds.old (seen posts.old) failed.old
        → EndsResting result Y.is_right (streams_fed feeds.old.feeders ++ Y.left instruments.old.later) feeds.old.opening (Y.left instruments.new.later) fed first_posts feeds.new failed.new (C.told instruments.old.clock) (C.told instruments.new.clock) (seen posts.new) (N.was_told instruments.old.notes) (N.was_told instruments.new.notes) }
    ensures going { let seen : P → PostSeen = λ post. record { name = P.name post; sent = P.sent post; faults = P.faults post } in
        (number : ℕ) × GoesOn Y.is_right seen P.may_send N.was_told N.may_note C.gave C.read_for (streams_fed feeds.old.feeders ++ Y.left instruments.old.later) number (Y.left instruments.new.later) feeds.new posts.new failed.new instruments.new.notes }
    ensures fixed { N.fixed instruments.new.notes ≡ N.fixed instruments.old.notes }
    ensures some { result ≡ false → 0 < vec_len feeds.old.later }
    ensures stays { list_all has_failed failed.old ≡ true → failed.new ≡ failed.old }
    ensures ends { (left : List Stream) (fed : Fed) → StandsAll left feeds.new fed → result ≡ true → list_all has_failed failed.new ≡ false → are_told fed.parts ≡ true }
{
    for _ in rt.forever() {
        if have_all_failed(failed) {
            return true;
        }
        if feeds.have_told_all() {
            return true;
        }
        instruments
            .gate
            .rest_for(feeds.until_next().min(instruments.rest));
        let reading = instruments.clock.now();
        if !bring_needed(feeds, reading, &mut instruments.later, steps) {
            return false;
        }
        take_noted(&mut feeds.feeders, reading, None, posts, failed, steps);
        instruments.rest = tell(&feeds.feeders, reading, &mut instruments.notes);
        feeds.feeders.make_next(steps);
    }
    unreachable!()
}

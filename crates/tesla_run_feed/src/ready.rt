//! A feed that was opened, and what it goes on with.

ghost use Rattle.std.specs.Prelude.{◌≡◌, ◌∷◌, ◌<◌, ◌≤◌, [], IfErr, IfOk, List, length, map, true, vec_capacity};
ghost use Rattle.tesla_feeds.specs.Later.{AreOf, OpensFeeds};
ghost use Rattle.tesla_feeds.specs.Opening.{first_setup};
ghost use Rattle.tesla_feeds.specs.Steps.{HandsOver};
ghost use Rattle.tesla_front.specs.OutcomeView.{stop_view};
ghost use Rattle.tesla_relay.specs.Opening.{name_of};
ghost use Rattle.tesla_relay.specs.Posts.{PostSeen};
ghost use Rattle.tesla_run_feed.specs.Listing.{HaveSeeds, IsFirstRight, all_times, streams_in};
ghost use Rattle.tesla_run_feed.specs.Steps.{IsUnready, OpensFirst, OpensNoFeeding, OpensReady};
ghost use Rattle.tesla_sender.specs.Made.{Stream};
ghost use Rattle.tesla_sender.specs.Stands.{Stands};

use crate::lines::streams_over;
use crate::senders::{FirstSender, ListParts, keep_last, open_first};
use std::alloc::Global;
use std::marker::Brand;
use std::sync::Wait;
use std::sync::ledger::{Blank, Ledger};
use std::thread::Threads;
use tesla_base::{NoMemory, Steps};
use tesla_clock::Schedule;
use tesla_commit::Setup;
use tesla_desk::Environment;
use tesla_feed::first_reading;
use tesla_feeds::{ListedSender, OpenFeeds, open_feeds};
use tesla_front::{Fault, Stop};
use tesla_relay::open_posts;

/// A feed that was opened, with the clock and the gate that it goes on with.
#[derive(Drop)]
pub struct ReadyFeed<C, G> {
    pub opened: OpenFeeds,
    pub clock: C,
    pub gate: G,
}

/// The same, with what the senders of its later streams are opened with, and the intervals of all streams of its list, also of those
/// that are over.
#[derive(Drop)]
pub struct ReadyList<C, G> {
    pub feed: ReadyFeed<C, G>,
    pub later: ListParts,
    pub schedules: Vec<Schedule>,
}

/// Opens the sender of the first of a list of setups and seeds, then a feed over the list with the next clock and a gate, and
/// then a post under each of the names. The posts that are there afterwards were opened, and the caller closes them.
///
/// `Refused` where a seed of the first doesn't give the key of its setup, or where all streams are over by that clock: no post
/// was opened. `Failed` with `Open` where the opening of a post was refused, or with `NoMemory`.
pub fn open_ready<R: Threads + Wait + Sync, D: Environment>(
    rt: &R,
    parts: ListParts,
    names: &[&str],
    desk: &mut D,
    posts: &mut Vec<D::Port>,
) -> Result<ReadyList<D::Time, D::Pause>, Stop>
    requires some { 1 ≤ length parts.list.setups.items }
    requires size { length parts.list.setups.items ≤ 16 }
    requires each { length parts.list.seeds.items ≡ length parts.list.setups.items }
    requires have { HaveSeeds (streams_in parts.list) }
    requires empty { posts.old.items ≡ [] }
    requires room { length names.now ≤ vec_capacity posts.old }
    ensures ready { let seen : List D.Port → List PostSeen = λ posts. map (λ post. record { name = D.Port.name post; sent = D.Port.sent post; faults = D.Port.faults post }) posts in
        IfOk result (λ ready. OpensReady (streams_in parts.list) (map name_of names.now) ready.feed.opened ready.later.list (D.Time.told ready.feed.clock) (seen posts.new.items) (D.told desk.old) (D.told desk.new)) }
    ensures right { IfOk result (λ _. IsFirstRight (streams_in parts.list)) }
    ensures schedules { IfOk result (λ ready. ready.schedules.items ≡ all_times (streams_in parts.list)) }
    ensures opening { IfOk result (λ ready. D.Time.gave ready.feed.opened.opening ≡ true) }
    ensures size { IfOk result (λ ready. length posts.new.items ≡ length names.now) }
    ensures refused { let seen : List D.Port → List PostSeen = λ posts. map (λ post. record { name = D.Port.name post; sent = D.Port.sent post; faults = D.Port.faults post }) posts in
        IfErr result (λ stop. IsUnready (streams_in parts.list) (map name_of names.now) (seen posts.new.items) (D.told desk.old) (D.told desk.new) (stop_view stop)) }
{
    let senders = open_first(rt, parts)?;
    open_feeding(rt, senders, names, desk, posts)
}

// Opens a feed over the streams of a sender and those behind it with the next clock and a gate, and then a post under each of the
// names.
fn open_feeding<R: Wait, D: Environment>(
    rt: &R,
    senders: FirstSender,
    names: &[&str],
    desk: &mut D,
    posts: &mut Vec<D::Port>,
) -> Result<ReadyList<D::Time, D::Pause>, Stop>
    requires first { OpensFirst (senders.first.sender.stream ∷ streams_in senders.behind.list) senders.first senders.behind.list }
    requires empty { posts.old.items ≡ [] }
    requires room { length names.now ≤ vec_capacity posts.old }
    ensures ready { let seen : List D.Port → List PostSeen = λ posts. map (λ post. record { name = D.Port.name post; sent = D.Port.sent post; faults = D.Port.faults post }) posts in
        IfOk result (λ ready. OpensReady (senders.first.sender.stream ∷ streams_in senders.behind.list) (map name_of names.now) ready.feed.opened ready.later.list (D.Time.told ready.feed.clock) (seen posts.new.items) (D.told desk.old) (D.told desk.new)) }
    ensures schedules { IfOk result (λ ready. ready.schedules ≡ senders.schedules) }
    ensures opening { IfOk result (λ ready. D.Time.gave ready.feed.opened.opening ≡ true) }
    ensures size { IfOk result (λ ready. length posts.new.items ≡ length names.now) }
    ensures refused { let seen : List D.Port → List PostSeen = λ posts. map (λ post. record { name = D.Port.name post; sent = D.Port.sent post; faults = D.Port.faults post }) posts in
        IfErr result (λ stop. OpensNoFeeding (senders.first.sender.stream ∷ streams_in senders.behind.list) (map name_of names.now) (seen posts.new.items) (D.told desk.old) (D.told desk.new) (stop_view stop)) }
{
    let FirstSender {
        first,
        behind,
        schedules,
    } = senders;
    let ListParts { alloc, mut list } = behind;
    let mut clock = desk.clock();
    let mut gate = desk.gate();
    let opening = first_reading(rt, &mut clock, &mut gate);
    let opened = match open_counted::<Brand>(
        alloc,
        first,
        list.setups.as_slice(),
        opening,
        Blank::new(1),
    ) {
        Ok(Some(opened)) => opened,
        Ok(None) => return Err(streams_over()),
        Err(_) => return Err(Stop::Failed(Fault::NoMemory)),
    };
    open_posts(desk, names, posts)?;
    keep_last(&mut list, opened.later.len());
    let feed = ReadyFeed {
        opened,
        clock,
        gate,
    };
    let later = ListParts { alloc, list };
    Ok(ReadyList {
        feed,
        later,
        schedules,
    })
}

// Opens a feed at this reading, with a ledger of its own for the evaluations of HMAC.
fn open_counted<L: Ledger>(
    alloc: Global,
    first: ListedSender,
    behind: &[Setup],
    opening: u64,
    blank: Blank,
) -> Result<Option<OpenFeeds>, NoMemory>
    requires name { blank.name ≡ L.name }
    requires parts { blank.parts ≡ L.parts }
    requires some { 0 < L.parts }
    requires fresh { Stands first.sender [] }
    requires hands { HandsOver first.handover first.sender.stream (first_setup behind.now) }
    ensures { (streams : List Stream) → AreOf streams behind.now → IfOk result (OpensFeeds opening first.sender.stream streams) }
{
    let mut steps = Steps::<L>::new(blank);
    open_feeds(alloc, first, behind, opening, &mut steps)
}

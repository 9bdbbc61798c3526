//! A feed, and the opening of the senders of its later streams beside it.

ghost use Rattle.std.specs.Prelude.{◌≡◌, ◌++◌, ◌<◌, ◌≤◌, ℕ, [], IfErr, IfSome, List, MatchOption, None, false, length, map, true};
ghost use Rattle.std.specs.List.{list_all};
ghost use Rattle.std.specs.Thread.{IsSend, IsSync};
ghost use Rattle.tesla_desk.specs.Faults.{HasCause};
ghost use Rattle.tesla_feed.specs.Due.{AreUnsent};
ghost use Rattle.tesla_feeds.specs.Due.{MayNoteAll, MaySendDue};
ghost use Rattle.tesla_feeds.specs.Later.{IsOpenFeed};
ghost use Rattle.tesla_feeds.specs.Opening.{streams_fed};
ghost use Rattle.tesla_front.specs.OutcomeView.{stop_view};
ghost use Rattle.tesla_relay.specs.Opened.{post_name};
ghost use Rattle.tesla_relay.specs.Posts.{PostSeen};
ghost use Rattle.tesla_run_feed.specs.Feeding.{LackSenders};
ghost use Rattle.tesla_run_feed.specs.Listing.{HaveSeeds, is_right_stream, streams_in};
ghost use Rattle.tesla_run_feed.specs.Steps.{FeedsHeld, MayFeed};

use crate::later::{Later, Shared};
use crate::ready::ReadyFeed;
use crate::senders::{ListParts, open_later};
use std::marker::Brand;
use std::sync::Wait;
use std::sync::ledger::{Blank, Ledger};
use std::thread::{Threads, join_mut};
use tesla_base::Steps;
use tesla_desk::{Clock, Gate, Link, Post};
use tesla_feed::Instruments;
use tesla_feeds::{FeedsEnd, LaterSenders, Notes, feeds};
use tesla_front::{Fault, Stop};
use tesla_sender::Sender;

/// The most streams of a list.
const MOST_STREAMS: usize = 16;

// Takes the senders of the later streams from whoever opens them.
#[derive(Drop)]
struct Taking<'a, R, X: Later> {
    rt: &'a R,
    shared: &'a Shared<X>,
    taken: usize,
}

impl<'a, R: Wait, X: Later> LaterSenders for Taking<'a, R, X> {
    ghost use Rattle.std.specs.Prelude.{drop};
    ghost use Rattle.tesla_run_feed.specs.Listing.{is_right_stream};

    ghost left = { λ it. drop it.taken X.streams };

    ghost is_right = { is_right_stream };

    fn bring(&mut self) -> Option<Sender> {
        if self.taken >= MOST_STREAMS {
            return None;
        }
        let Some(sender) = self.shared.take(self.rt, self.taken) else {
            return None;
        };
        self.taken += 1;
        Some(sender)
    }

    fn lacks_one(&self) -> bool {
        self.shared.has_failed(self.rt)
    }
}

/// What a feed came to, whom it told of its counts, and what a lacking sender comes to.
pub struct FedBeside<N> {
    pub end: FeedsEnd,
    pub notes: N,
    pub lack: Stop,
}

/// Feeds an open link to open posts, with the clock and the gate of the feed, and with whoever is told of its counts. Meanwhile the
/// senders of the later streams are opened, and the feed runs in a thread of its own; where none can be made it runs behind that.
/// Each post is sent only what is due.
pub fn feed_beside<
    X: Later + Send + Sync,
    R: Threads + Wait + Sync,
    K: Link + Send,
    C: Clock + Send + Drop,
    P: Post + Send,
    G: Gate + Send + Drop,
    N: Notes + Send,
>(
    rt: &R,
    ready: ReadyFeed<C, G>,
    later: ListParts,
    notes: N,
    link: &mut K,
    posts: &mut Vec<P>,
) -> FedBeside<N>
    requires by { X.streams ≡ streams_in later.list }
    requires few { length X.streams ≤ 16 }
    requires each { length later.list.seeds.items ≡ length later.list.setups.items }
    requires have { HaveSeeds (streams_in later.list) }
    requires open { IsOpenFeed ready.opened X.streams }
    requires right { list_all is_right_stream (streams_fed ready.opened.feeders) ≡ true }
    requires few_posts { length posts.old.items ≤ 32 }
    requires opening { C.gave ready.opened.opening ≡ true }
    requires unsent { let seen : P → PostSeen = λ post. record { name = P.name post; sent = P.sent post; faults = P.faults post } in
        AreUnsent (map seen posts.old.items) }
    requires due { let seen : P → PostSeen = λ post. record { name = P.name post; sent = P.sent post; faults = P.faults post } in
        MaySendDue is_right_stream seen P.may_send C.gave C.read_for (map post_name (map seen posts.old.items)) (streams_fed ready.opened.feeders ++ X.streams) }
    requires untold { N.was_told notes [] }
    requires noting { MayNoteAll is_right_stream N.was_told N.may_note C.gave C.read_for (streams_fed ready.opened.feeders ++ X.streams) }
    requires none { K.has_brought link.old 0 ≡ true }
    requires asks { (number : ℕ) (bytes : List ℕ) → K.brought number bytes ≡ true → C.may_ask number bytes ≡ true }
    requires any_link { (link : K) → K.may_ask link ≡ true }
    ensures feeds { let seen : List P → List PostSeen = λ posts. map (λ post. record { name = P.name post; sent = P.sent post; faults = P.faults post }) posts in
        FeedsHeld is_right_stream G.over C.gave C.read_for ready.opened X.streams result.end (K.left link.old) (K.left link.new) (C.told ready.clock) (seen posts.old.items) (seen posts.new.items) (N.was_told result.notes) }
    ensures lacks { result.end.lacking ≡ true → LackSenders X.streams (stop_view result.lack) }
    ensures fixed { N.fixed result.notes ≡ N.fixed notes }
    ensures cause { HasCause (K.faults link.old) (K.faults link.new) (result.end.link_failed ≡ true) }
    ensures link { K.name link.new ≡ K.name link.old }
{
    let shared = Shared::<X>::new(later.alloc);
    let mut later = later;
    if later.list.setups.is_empty() {
        let (end, notes) = feed_alone(rt, ready, notes, link, posts, &shared);
        let lack = Stop::Failed(Fault::NoMemory);
        return FedBeside { end, notes, lack };
    }
    let ((end, notes), came) = feed_and_open(rt, ready, notes, link, posts, &mut later, &shared);
    match came {
        Err(lack) => FedBeside { end, notes, lack },
        Ok(()) => {
            let lack = Stop::Failed(Fault::NoMemory);
            FedBeside { end, notes, lack }
        }
    }
}

// Feeds an open link to open posts in a thread of its own, and opens the senders of the later streams in this one. Where no thread
// can be made all are opened first.
fn feed_and_open<
    X: Later + Send + Sync,
    R: Threads + Wait + Sync,
    K: Link + Send,
    C: Clock + Send + Drop,
    P: Post + Send,
    G: Gate + Send + Drop,
    N: Notes + Send,
>(
    rt: &R,
    ready: ReadyFeed<C, G>,
    notes: N,
    link: &mut K,
    posts: &mut Vec<P>,
    later: &mut ListParts,
    shared: &Shared<X>,
) -> ((FeedsEnd, N), Result<(), Stop>)
    requires by { X.streams ≡ streams_in later.old.list }
    requires few { length X.streams ≤ 16 }
    requires each { length later.old.list.seeds.items ≡ length later.old.list.setups.items }
    requires have { HaveSeeds (streams_in later.old.list) }
    requires may { let seen : P → PostSeen = λ post. record { name = P.name post; sent = P.sent post; faults = P.faults post } in
        MayFeed is_right_stream seen P.may_send N.was_told N.may_note C.gave C.read_for ready.opened X.streams posts.old.items notes }
    requires none { K.has_brought link.old 0 ≡ true }
    requires asks { (number : ℕ) (bytes : List ℕ) → K.brought number bytes ≡ true → C.may_ask number bytes ≡ true }
    requires any_link { (link : K) → K.may_ask link ≡ true }
    ensures feeds { let seen : List P → List PostSeen = λ posts. map (λ post. record { name = P.name post; sent = P.sent post; faults = P.faults post }) posts in
        FeedsHeld is_right_stream G.over C.gave C.read_for ready.opened X.streams result.0.0 (K.left link.old) (K.left link.new) (C.told ready.clock) (seen posts.old.items) (seen posts.new.items) (N.was_told result.0.1) }
    ensures lacks { IfErr result.1 (λ stop. LackSenders X.streams (stop_view stop)) }
    ensures fixed { N.fixed result.0.1 ≡ N.fixed notes }
    ensures cause { HasCause (K.faults link.old) (K.faults link.new) (result.0.0.link_failed ≡ true) }
    ensures link { K.name link.new ≡ K.name link.old }
{
    let mut held = Some(ready);
    let mut told = Some(notes);
    let both = run_both(rt, &mut held, &mut told, link, posts, later, shared);
    match told {
        None => {}
        Some(_) => unreachable!(),
    }
    both
}

// The same of what is taken from where it is held.
fn run_both<
    X: Later + Send + Sync,
    R: Threads + Wait + Sync,
    K: Link + Send,
    C: Clock + Send + Drop,
    P: Post + Send,
    G: Gate + Send + Drop,
    N: Notes + Send,
>(
    rt: &R,
    held: &mut Option<ReadyFeed<C, G>>,
    notes: &mut Option<N>,
    link: &mut K,
    posts: &mut Vec<P>,
    later: &mut ListParts,
    shared: &Shared<X>,
) -> ((FeedsEnd, N), Result<(), Stop>)
    requires by { X.streams ≡ streams_in later.old.list }
    requires few { length X.streams ≤ 16 }
    requires each { length later.old.list.seeds.items ≡ length later.old.list.setups.items }
    requires have { HaveSeeds (streams_in later.old.list) }
    requires may { MatchOption held.old ⊥ (λ ready. MatchOption notes.old ⊥ (MayFeed is_right_stream (λ (post : P). record { name = P.name post; sent = P.sent post; faults = P.faults post }) P.may_send N.was_told N.may_note C.gave C.read_for ready.opened X.streams posts.old.items)) }
    requires none { K.has_brought link.old 0 ≡ true }
    requires asks { (number : ℕ) (bytes : List ℕ) → K.brought number bytes ≡ true → C.may_ask number bytes ≡ true }
    requires any_link { (link : K) → K.may_ask link ≡ true }
    ensures feeds { let seen : List P → List PostSeen = λ posts. map (λ post. record { name = P.name post; sent = P.sent post; faults = P.faults post }) posts in
        IfSome held.old (λ ready. IfSome notes.old (λ notes. FeedsHeld is_right_stream G.over C.gave C.read_for ready.opened X.streams result.0.0 (K.left link.old) (K.left link.new) (C.told ready.clock) (seen posts.old.items) (seen posts.new.items) (N.was_told result.0.1) × (N.fixed result.0.1 ≡ N.fixed notes))) }
    ensures taken { notes.new ≡ None }
    ensures lacks { IfErr result.1 (λ stop. LackSenders X.streams (stop_view stop)) }
    ensures cause { HasCause (K.faults link.old) (K.faults link.new) (result.0.0.link_failed ≡ true) }
    ensures link { K.name link.new ≡ K.name link.old }
{
    let mut feed = || -> (FeedsEnd, N)
        requires { IsSync R.row × IsSend K.row × IsSend C.row × IsSend P.row × IsSend G.row × IsSend N.row × MatchOption held.now ⊥ (λ ready. MatchOption notes.now ⊥ (MayFeed is_right_stream (λ (post : P). record { name = P.name post; sent = P.sent post; faults = P.faults post }) P.may_send N.was_told N.may_note C.gave C.read_for ready.opened X.streams posts.now.items)) × (K.has_brought link.now 0 ≡ true) × ((number : ℕ) (bytes : List ℕ) → K.brought number bytes ≡ true → C.may_ask number bytes ≡ true) × ((link : K) → K.may_ask link ≡ true) }
        ensures { IfSome held.entry.now (λ ready. IfSome notes.entry.now (λ notes. FeedsHeld is_right_stream G.over C.gave C.read_for ready.opened X.streams result.0 (K.left link.entry.now) (K.left link.exit.now) (C.told ready.clock) (map (λ (post : P). record { name = P.name post; sent = P.sent post; faults = P.faults post }) posts.entry.now.items) (map (λ (post : P). record { name = P.name post; sent = P.sent post; faults = P.faults post }) posts.exit.now.items) (N.was_told result.1) × (N.fixed result.1 ≡ N.fixed notes))) × (notes.exit.now ≡ None) × HasCause (K.faults link.entry.now) (K.faults link.exit.now) (result.0.link_failed ≡ true) × (K.name link.exit.now ≡ K.name link.entry.now) }
    { feed_held(rt, held, notes, link, posts, shared) };
    let mut open = || -> Result<(), Stop>
        requires { IsSync R.row × (length later.now.list.seeds.items ≡ length later.now.list.setups.items) × HaveSeeds (streams_in later.now.list) × (length X.streams ≤ 16) × (X.streams ≡ streams_in later.now.list) }
        ensures { IfErr result (λ stop. LackSenders X.streams (stop_view stop)) }
    { open_rest(rt, later, shared) };
    join_mut(rt, &mut feed, &mut open)
}

// Opens the senders of all later streams, and hands them over.
fn open_rest<R: Threads + Wait + Sync, X: Later>(
    rt: &R,
    later: &mut ListParts,
    shared: &Shared<X>,
) -> Result<(), Stop>
    requires by { X.streams ≡ streams_in later.old.list }
    requires few { length X.streams ≤ 16 }
    requires each { length later.old.list.seeds.items ≡ length later.old.list.setups.items }
    requires have { HaveSeeds (streams_in later.old.list) }
    ensures { IfErr result (λ stop. LackSenders X.streams (stop_view stop)) }
{
    open_later(rt, later.alloc, &mut later.list, 0, shared)
}

// Feeds an open link to open posts with what is taken from where it is held.
fn feed_held<X: Later, R: Wait, K: Link, C: Clock + Drop, P: Post, G: Gate + Drop, N: Notes>(
    rt: &R,
    held: &mut Option<ReadyFeed<C, G>>,
    notes: &mut Option<N>,
    link: &mut K,
    posts: &mut Vec<P>,
    shared: &Shared<X>,
) -> (FeedsEnd, N)
    requires may { MatchOption held.old ⊥ (λ ready. MatchOption notes.old ⊥ (MayFeed is_right_stream (λ (post : P). record { name = P.name post; sent = P.sent post; faults = P.faults post }) P.may_send N.was_told N.may_note C.gave C.read_for ready.opened X.streams posts.old.items)) }
    requires none { K.has_brought link.old 0 ≡ true }
    requires asks { (number : ℕ) (bytes : List ℕ) → K.brought number bytes ≡ true → C.may_ask number bytes ≡ true }
    requires any_link { (link : K) → K.may_ask link ≡ true }
    ensures feeds { let seen : List P → List PostSeen = λ posts. map (λ post. record { name = P.name post; sent = P.sent post; faults = P.faults post }) posts in
        IfSome held.old (λ ready. IfSome notes.old (λ notes. FeedsHeld is_right_stream G.over C.gave C.read_for ready.opened X.streams result.0 (K.left link.old) (K.left link.new) (C.told ready.clock) (seen posts.old.items) (seen posts.new.items) (N.was_told result.1) × (N.fixed result.1 ≡ N.fixed notes))) }
    ensures taken { notes.new ≡ None }
    ensures cause { HasCause (K.faults link.old) (K.faults link.new) (result.0.link_failed ≡ true) }
    ensures link { K.name link.new ≡ K.name link.old }
{
    let Some(ready) = held.take() else {
        unreachable!();
    };
    let Some(told) = notes.take() else {
        unreachable!();
    };
    feed_alone(rt, ready, told, link, posts, shared)
}

// Feeds an open link to open posts, and tells that no more senders are wanted.
fn feed_alone<X: Later, R: Wait, K: Link, C: Clock + Drop, P: Post, G: Gate + Drop, N: Notes>(
    rt: &R,
    ready: ReadyFeed<C, G>,
    notes: N,
    link: &mut K,
    posts: &mut Vec<P>,
    shared: &Shared<X>,
) -> (FeedsEnd, N)
    requires may { let seen : P → PostSeen = λ post. record { name = P.name post; sent = P.sent post; faults = P.faults post } in
        MayFeed is_right_stream seen P.may_send N.was_told N.may_note C.gave C.read_for ready.opened X.streams posts.old.items notes }
    requires none { K.has_brought link.old 0 ≡ true }
    requires asks { (number : ℕ) (bytes : List ℕ) → K.brought number bytes ≡ true → C.may_ask number bytes ≡ true }
    requires any_link { (link : K) → K.may_ask link ≡ true }
    ensures feeds { let seen : List P → List PostSeen = λ posts. map (λ post. record { name = P.name post; sent = P.sent post; faults = P.faults post }) posts in
        FeedsHeld is_right_stream G.over C.gave C.read_for ready.opened X.streams result.0 (K.left link.old) (K.left link.new) (C.told ready.clock) (seen posts.old.items) (seen posts.new.items) (N.was_told result.1) }
    ensures none_left { X.streams ≡ [] → result.0.lacking ≡ false }
    ensures fixed { N.fixed result.1 ≡ N.fixed notes }
    ensures cause { HasCause (K.faults link.old) (K.faults link.new) (result.0.link_failed ≡ true) }
    ensures link { K.name link.new ≡ K.name link.old }
{
    let taking = Taking {
        rt,
        shared,
        taken: 0,
    };
    let blank = Blank::new(1);
    let fed = feed_counted::<Brand, X, R, K, C, P, G, N>(ready, notes, link, posts, taking, blank);
    shared.end(rt);
    fed
}

// Feeds an open link to open posts, with a ledger for the evaluations of HMAC.
fn feed_counted<
    L: Ledger,
    X: Later,
    R: Wait,
    K: Link,
    C: Clock + Drop,
    P: Post,
    G: Gate + Drop,
    N: Notes,
>(
    ready: ReadyFeed<C, G>,
    notes: N,
    link: &mut K,
    posts: &mut Vec<P>,
    taking: Taking<'_, R, X>,
    blank: Blank,
) -> (FeedsEnd, N)
    requires none_taken { taking.taken ≡ 0 }
    requires name { blank.name ≡ L.name }
    requires parts { blank.parts ≡ L.parts }
    requires some { 0 < L.parts }
    requires may { let seen : P → PostSeen = λ post. record { name = P.name post; sent = P.sent post; faults = P.faults post } in
        MayFeed is_right_stream seen P.may_send N.was_told N.may_note C.gave C.read_for ready.opened X.streams posts.old.items notes }
    requires none { K.has_brought link.old 0 ≡ true }
    requires asks { (number : ℕ) (bytes : List ℕ) → K.brought number bytes ≡ true → C.may_ask number bytes ≡ true }
    requires any_link { (link : K) → K.may_ask link ≡ true }
    ensures feeds { let seen : List P → List PostSeen = λ posts. map (λ post. record { name = P.name post; sent = P.sent post; faults = P.faults post }) posts in
        FeedsHeld is_right_stream G.over C.gave C.read_for ready.opened X.streams result.0 (K.left link.old) (K.left link.new) (C.told ready.clock) (seen posts.old.items) (seen posts.new.items) (N.was_told result.1) }
    ensures none_left { X.streams ≡ [] → result.0.lacking ≡ false }
    ensures fixed { N.fixed result.1 ≡ N.fixed notes }
    ensures cause { HasCause (K.faults link.old) (K.faults link.new) (result.0.link_failed ≡ true) }
    ensures link { K.name link.new ≡ K.name link.old }
{
    let ReadyFeed {
        opened,
        clock,
        gate,
    } = ready;
    let rt = taking.rt;
    let mut instruments = Instruments::new(clock, gate, notes, taking);
    let mut steps = Steps::<L>::new(blank);
    let end = feeds(
        rt,
        opened,
        link,
        &mut instruments,
        posts.as_mut_slice(),
        &mut steps,
    );
    let Instruments {
        clock: _,
        gate: _,
        notes,
        later: _,
        rest: _,
    } = instruments;
    (end, notes)
}

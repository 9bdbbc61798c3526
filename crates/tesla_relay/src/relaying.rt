//! The relay of a link to posts.

ghost use Rattle.std.specs.Prelude.{◌≡◌, ◌≤◌, [], ℕ, List, IfOk, MatchResult, OnErr, map, length, true, vec_capacity};
ghost use Rattle.tesla_desk.specs.Faults.{HasCause};
ghost use Rattle.tesla_relay.specs.Due.{IsNextRelayed};
ghost use Rattle.tesla_relay.specs.Offers.{MayAskNext};
ghost use Rattle.tesla_relay.specs.Posts.{PostSeen};
ghost use Rattle.tesla_relay.specs.Queues.{AreNew};
ghost use Rattle.tesla_relay.specs.Relay.{Relays};
ghost use Rattle.tesla_relay.specs.declared.relayed.RelayEnd.TheVariants.{Failed};

use crate::basis::Based;
use crate::feed::Feed;
use crate::post_queues::PostQueues;
use crate::queues::{Queue, give_back, new_queues, take_in};
use crate::relayed::Relayed;
use crate::server::Server;
use crate::serving::run_all;
use crate::tally::PostSide;
use arrayvec::ArrayVec;
use std::alloc::Global;
use std::marker::Brand;
use std::sync::Wait;
use std::thread::Threads;
use tesla_base::NoMemory;
use tesla_desk::{Gate, Link, Post};

// All that a run needs beside the link and the posts.
struct Rooms<X: Based, P: Post, G: Gate> {
    queues: Vec<Queue<X>>,
    feeds: Vec<Feed<X>>,
    servers: Vec<Server<X, P, G>>,
}

// Takes all memory that a run needs.
fn make_rooms<X: Based, P: Post, G: Gate>(
    alloc: Global,
    sides: &[PostSide<G>],
    capacity: usize,
) -> Result<Rooms<X, P, G>, NoMemory>
    requires { (1 ≤ capacity) × (capacity ≤ 4096) }
    ensures queues { IfOk result (λ it. AreNew capacity it.queues.items × (length it.queues.items ≡ length sides.now)) }
    ensures none { IfOk result (λ it. (it.feeds.items ≡ []) × (it.servers.items ≡ [])) }
    ensures space { IfOk result (λ it. (length sides.now ≤ vec_capacity it.feeds) × (length sides.now ≤ vec_capacity it.servers)) }
{
    let count = sides.len();
    let mut queues = Vec::with_capacity(alloc, count)?;
    new_queues(alloc, sides, capacity, &mut queues)?;
    let feeds = Vec::with_capacity(alloc, count)?;
    let servers = Vec::with_capacity(alloc, count)?;
    Ok(Rooms {
        queues,
        feeds,
        servers,
    })
}

// Relays the link with these rooms.
fn relay_in<
    R: Threads + Wait + Sync,
    X: Based + Send + Sync,
    Q: PostQueues,
    K: Link,
    P: Post + Send,
    G: Gate + Send,
>(
    rt: &R,
    link: &mut K,
    gate: &mut G,
    posts: &mut Vec<P>,
    sides: &mut Vec<PostSide<G>>,
    rooms: Rooms<X, P, G>,
) -> Relayed
    requires some { (1 ≤ length posts.old.items) × (length posts.old.items ≤ 32) × (length sides.old.items ≡ length posts.old.items) }
    requires rooms { (rooms.feeds.items ≡ []) × (rooms.servers.items ≡ []) × (length rooms.queues.items ≡ length posts.old.items) × (length posts.old.items ≤ vec_capacity rooms.feeds) × (length posts.old.items ≤ vec_capacity rooms.servers) }
    requires new { (capacity : ℕ) × AreNew capacity rooms.queues.items × MayAskNext (Q.was_put K.brought) (Q.was_full K.brought) K.has_brought K.may_ask capacity (length posts.old.items) }
    requires link { (K.has_brought link.old 0 ≡ true) × (X.basis.brought ≡ K.brought) }
    requires posts { X.basis.posts ≡ map (λ post. record { name = P.name post; sent = P.sent post; faults = P.faults post }) posts.old.items }
    requires due { (post : P) (datagram : List ℕ) → IsNextRelayed X.basis (record { name = P.name post; sent = P.sent post; faults = P.faults post }) datagram → P.may_send post datagram ≡ true }
    ensures relays { (capacity : ℕ) → AreNew capacity rooms.queues.items → Relays capacity (K.left link.old) (K.left link.new) (map (λ post. record { name = P.name post; sent = P.sent post; faults = P.faults post }) posts.old.items) (map (λ post. record { name = P.name post; sent = P.sent post; faults = P.faults post }) posts.new.items) result.end result.counts.items }
    ensures cause { HasCause (K.faults link.old) (K.faults link.new) (result.end ≡ Failed) }
    ensures name { K.name link.new ≡ K.name link.old }
{
    let Rooms {
        mut queues,
        mut feeds,
        mut servers,
    } = rooms;
    take_in(&mut queues, posts, sides, &mut feeds, &mut servers);
    let end = run_all::<R, X, Q, K, G, Server<X, P, G>>(
        rt,
        link,
        gate,
        feeds.as_mut_slice(),
        servers.as_mut_slice(),
    );
    let mut counts = ArrayVec::new();
    give_back(&mut feeds, &mut servers, posts, sides, &mut counts);
    servers.destroy_empty();
    Relayed::new(end, counts)
}

// Relays the link, on this basis.
fn relay_based<
    R: Threads + Wait + Sync,
    X: Based + Send + Sync,
    Q: PostQueues,
    K: Link,
    P: Post + Send,
    G: Gate + Send,
>(
    rt: &R,
    alloc: Global,
    link: &mut K,
    gate: &mut G,
    posts: &mut Vec<P>,
    sides: &mut Vec<PostSide<G>>,
    capacity: u32,
) -> Result<Relayed, NoMemory>
    requires some { (1 ≤ length posts.old.items) × (length posts.old.items ≤ 32) }
    requires sides { length sides.old.items ≡ length posts.old.items }
    requires capacity { (1 ≤ capacity) × (capacity ≤ 4096) }
    requires link { (K.has_brought link.old 0 ≡ true) × (X.basis.brought ≡ K.brought) }
    requires next { MayAskNext (Q.was_put K.brought) (Q.was_full K.brought) K.has_brought K.may_ask capacity (length posts.old.items) }
    requires posts { X.basis.posts ≡ map (λ post. record { name = P.name post; sent = P.sent post; faults = P.faults post }) posts.old.items }
    requires due { (post : P) (datagram : List ℕ) → IsNextRelayed X.basis (record { name = P.name post; sent = P.sent post; faults = P.faults post }) datagram → P.may_send post datagram ≡ true }
    ensures relays { IfOk result (λ it. Relays capacity (K.left link.old) (K.left link.new) (map (λ post. record { name = P.name post; sent = P.sent post; faults = P.faults post }) posts.old.items) (map (λ post. record { name = P.name post; sent = P.sent post; faults = P.faults post }) posts.new.items) it.end it.counts.items) }
    ensures unread { OnErr result (K.left link.new ≡ K.left link.old) }
    ensures untouched { OnErr result (posts.new.items ≡ posts.old.items) }
    ensures cause { HasCause (K.faults link.old) (K.faults link.new) (MatchResult result (λ it. it.end ≡ Failed) (λ _. ⊥)) }
    ensures name { K.name link.new ≡ K.name link.old }
{
    match make_rooms::<X, P, G>(alloc, sides.as_slice(), capacity as usize) {
        Ok(rooms) => Ok(relay_in::<R, X, Q, K, P, G>(rt, link, gate, posts, sides, rooms)),
        Err(refusal) => Err(refusal),
    }
}

/// Hands each datagram of the link on to all posts, until the link ends or fails and all that was kept for the posts is
/// sent. Before each post stands a queue of `capacity` datagrams; one that finds it full is dropped for that post, and so is
/// any behind the first 2^62 - 2 of the link.
///
/// Each post may send what comes next for it: datagrams that the link brought, in order and each once. Nothing else is
/// sent, whether the run ends or not. The link may be asked for its next letter once each datagram that it brought was put
/// into the queue of each post, or found `capacity` items there, or lies behind the first 2^62 - 2 (`MayAskNext`).
///
/// The caller reads the link, with `gate` around each datagram that it puts into the queues, and around the end. Each post
/// sends in a thread of its own, with the gate of its side around each datagram; where so many threads can't be made, the
/// caller sends what is in the queues behind each datagram. A post that failed sends no more, and the others go on. The posts
/// and their sides are given back in their order. The tally of a side is raised where a count of its post rises, so that
/// others may read it while the relay runs; nothing is claimed of what they read.
///
/// `Err`: there was no memory, and nothing was read. It waits for the link, and nothing is promised of when it ends.
pub fn relay<R: Threads + Wait + Sync, Q: PostQueues, K: Link, P: Post + Send, G: Gate + Send>(
    rt: &R,
    alloc: Global,
    link: &mut K,
    gate: &mut G,
    posts: &mut Vec<P>,
    sides: &mut Vec<PostSide<G>>,
    capacity: u32,
) -> Result<Relayed, NoMemory>
    requires some { (1 ≤ length posts.old.items) × (length posts.old.items ≤ 32) }
    requires sides { length sides.old.items ≡ length posts.old.items }
    requires capacity { (1 ≤ capacity) × (capacity ≤ 4096) }
    requires new { K.has_brought link.old 0 ≡ true }
    requires next { MayAskNext (Q.was_put K.brought) (Q.was_full K.brought) K.has_brought K.may_ask capacity (length posts.old.items) }
    requires due { let seen : P → PostSeen = λ post. record { name = P.name post; sent = P.sent post; faults = P.faults post } in
        (post : P) (datagram : List ℕ) → IsNextRelayed (record { brought = K.brought; posts = map seen posts.old.items }) (seen post) datagram → P.may_send post datagram ≡ true }
    ensures relays { IfOk result (λ it. Relays capacity (K.left link.old) (K.left link.new) (map (λ post. record { name = P.name post; sent = P.sent post; faults = P.faults post }) posts.old.items) (map (λ post. record { name = P.name post; sent = P.sent post; faults = P.faults post }) posts.new.items) it.end it.counts.items) }
    ensures unread { OnErr result (K.left link.new ≡ K.left link.old) }
    ensures untouched { OnErr result (posts.new.items ≡ posts.old.items) }
    ensures cause { HasCause (K.faults link.old) (K.faults link.new) (MatchResult result (λ it. it.end ≡ Failed) (λ _. ⊥)) }
    ensures name { K.name link.new ≡ K.name link.old }
{
    relay_based::<R, Brand, Q, K, P, G>(rt, alloc, link, gate, posts, sides, capacity)
}

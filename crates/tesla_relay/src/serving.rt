//! The servers, each in a thread of its own where threads can be made.

ghost use Rattle.std.specs.Prelude.{◌≡◌, ◌<◌, All, length, map, true};
ghost use Rattle.std.specs.Thread.{IsSend, IsSync};
ghost use Rattle.tesla_relay.specs.Lists.{AreFeeding, AreServing, Each, HaveCome, HearsLink, MayServe, ServesAll};
ghost use Rattle.tesla_relay.specs.Offers.{MayHear};

use crate::basis::Based;
use crate::feed::Feed;
use crate::hearing::hear_all;
use crate::post_queues::PostQueues;
use crate::relayed::RelayEnd;
use crate::server::Serve;
use std::sync::Wait;
use std::sync::atomic::AtomicU64;
use std::sync::atomic::Ordering::SeqCst;
use std::thread;
use std::thread::{Threads, for_each_mut, join_mut};
use tesla_desk::{Gate, Link};

// Rests until the word isn't 0.
fn await_word<R: Wait>(rt: &R, word: &AtomicU64) {
    for _ in rt.forever() {
        if word.load(SeqCst) != 0 {
            return;
        }
        word.park(rt, 0);
    }
}

/// Whether so many threads can be made, as far as that can be told before they are needed: they are made, all at once, and
/// end.
fn can_make<R: Threads + Wait + Sync>(rt: &R, threads: usize) -> bool {
    let word = AtomicU64::new(0);
    let shared = &word;
    thread::scope(thread::scope_env(), rt, |scope| {
        let mut all = true;
        for _ in 0..threads {
            if all && scope.spawn(move || await_word(rt, shared)).is_err() {
                all = false;
            }
        }
        shared.store(1, SeqCst);
        shared.wake_all();
        all
    })
}

// Serves each queue to its end, in so many threads at most. With one it is this thread, and one queue after another.
fn serve_all<R: Threads + Wait + Sync, W: Serve + Send>(rt: &R, servers: &mut [W], threads: usize)
    requires some { 0 < threads }
    requires serving { All (λ server. MayServe W.basis (W.seen server)) servers.old }
    ensures { Each ServesAll (map W.seen servers.old) (map W.seen servers.new) }
{
    let serve = |_place: usize, server: &mut W|
        requires { MayServe W.basis (W.seen server.now) }
        ensures { ServesAll (W.seen server.entry.now) (W.seen server.exit.now) }
    { server.serve_on(rt) };
    for_each_mut(rt, servers, threads, &serve);
}

// Hears the link, where all queues are served elsewhere.
fn hear_alone<
    R: Threads + Wait + Sync,
    X: Based + Send + Sync,
    Q: PostQueues,
    K: Link,
    G: Gate,
    W: Serve + Send,
>(rt: &R, link: &mut K, gate: &mut G, feeds: &mut [Feed<X>]) -> RelayEnd
    requires link { (K.has_brought link.old 0 ≡ true) × (X.basis.brought ≡ K.brought) }
    requires next { MayHear (Q.was_put K.brought) (Q.was_full K.brought) K.has_brought K.may_ask feeds.old }
    requires feeding { AreFeeding feeds.old × HaveCome 0 feeds.old }
    ensures { HearsLink result (K.left link.old) (K.left link.new) (K.faults link.old) (K.faults link.new) (K.name link.old) (K.name link.new) feeds.old feeds.new }
{
    let none: &mut [W] = &mut [];
    hear_all::<R, X, Q, K, G, W>(rt, link, gate, feeds, none)
}

// Hears the link here, and serves the queues in threads of their own.
fn run_apart<
    R: Threads + Wait + Sync,
    X: Based + Send + Sync,
    Q: PostQueues,
    K: Link,
    G: Gate,
    W: Serve + Send,
>(rt: &R, link: &mut K, gate: &mut G, feeds: &mut [Feed<X>], servers: &mut [W]) -> RelayEnd
    requires some { 0 < length servers.old }
    requires link { (K.has_brought link.old 0 ≡ true) × (X.basis.brought ≡ K.brought) }
    requires next { MayHear (Q.was_put K.brought) (Q.was_full K.brought) K.has_brought K.may_ask feeds.old }
    requires feeding { AreFeeding feeds.old × HaveCome 0 feeds.old }
    requires serving { All (λ server. MayServe W.basis (W.seen server)) servers.old }
    ensures hears { HearsLink result (K.left link.old) (K.left link.new) (K.faults link.old) (K.faults link.new) (K.name link.old) (K.name link.new) feeds.old feeds.new }
    ensures serves { Each ServesAll (map W.seen servers.old) (map W.seen servers.new) }
{
    let threads = servers.len();
    let mut serve = ||
        requires { IsSync R.row × IsSend W.row × (0 < threads) × All (λ server. MayServe W.basis (W.seen server)) servers.now }
        ensures { Each ServesAll (map W.seen servers.entry.now) (map W.seen servers.exit.now) }
    { serve_all(rt, servers, threads) };
    let mut hear = || -> RelayEnd
        requires { (K.has_brought link.now 0 ≡ true) × (X.basis.brought ≡ K.brought) × (MayHear (Q.was_put K.brought) (Q.was_full K.brought) K.has_brought K.may_ask feeds.now) × (AreFeeding feeds.now × HaveCome 0 feeds.now) }
        ensures { HearsLink result (K.left link.entry.now) (K.left link.exit.now) (K.faults link.entry.now) (K.faults link.exit.now) (K.name link.entry.now) (K.name link.exit.now) feeds.entry.now feeds.exit.now }
    { hear_alone::<R, X, Q, K, G, W>(rt, link, gate, feeds) };
    join_mut(rt, &mut serve, &mut hear).1
}

/// Hears the link to its end and serves all queues to theirs: each in a thread of its own, or, where so many threads
/// can't be made, here behind each datagram.
pub fn run_all<
    R: Threads + Wait + Sync,
    X: Based + Send + Sync,
    Q: PostQueues,
    K: Link,
    G: Gate,
    W: Serve + Send,
>(rt: &R, link: &mut K, gate: &mut G, feeds: &mut [Feed<X>], servers: &mut [W]) -> RelayEnd
    requires some { 0 < length servers.old }
    requires link { (K.has_brought link.old 0 ≡ true) × (X.basis.brought ≡ K.brought) }
    requires next { MayHear (Q.was_put K.brought) (Q.was_full K.brought) K.has_brought K.may_ask feeds.old }
    requires feeding { AreFeeding feeds.old × HaveCome 0 feeds.old }
    requires serving { AreServing W.basis (map W.seen servers.old) }
    ensures hears { HearsLink result (K.left link.old) (K.left link.new) (K.faults link.old) (K.faults link.new) (K.name link.old) (K.name link.new) feeds.old feeds.new }
    ensures serves { Each ServesAll (map W.seen servers.old) (map W.seen servers.new) }
{
    if can_make(rt, servers.len()) {
        run_apart::<R, X, Q, K, G, W>(rt, link, gate, feeds, servers)
    } else {
        let end = hear_all::<R, X, Q, K, G, W>(rt, link, gate, feeds, servers);
        serve_all(rt, servers, 1);
        end
    }
}

//! The link, whose datagrams are put into all queues.

ghost use Rattle.std.specs.Prelude.{All, ◌≡◌, ◌<◌, ◌≤◌, ◌-◌, ◌^◌, ◌∷◌, [], ℕ, List, IfSome, take, length, map, true};
ghost use Rattle.tesla_desk.specs.Faults.{HasCause};
ghost use Rattle.tesla_relay.specs.Feeding.{IsFeeding, ServesOn};
ghost use Rattle.tesla_relay.specs.Lists.{AreFeeding, AreServing, Each, FeedsAll, HaveCome, HearsLink, HearsOn, MayServe};
ghost use Rattle.tesla_relay.specs.Offers.{MayHear, Offers};

use crate::basis::Based;
use crate::feed::Feed;
use crate::post_queues::PostQueues;
use crate::relayed::RelayEnd;
use crate::server::Serve;
use std::sync::Wait;
use std::thread::{Threads, for_each_mut};
use tesla_base::MOST_DATAGRAM;
use tesla_desk::{Gate, Got, Link};

// Puts a datagram, which stands at the start of these bytes, into each queue that has room, one after another.
fn offer_all<R: Wait, X: Based, Q: PostQueues>(
    rt: &R,
    feeds: &mut [Feed<X>],
    length: u16,
    bytes: &[u8; MOST_DATAGRAM],
)
    requires feeding { AreFeeding feeds.old }
    requires brought { (number : ℕ) × HaveCome number feeds.old × (X.basis.brought number (take length bytes.now) ≡ true) }
    ensures { Each (Offers (Q.was_put X.basis.brought) (Q.was_full X.basis.brought) (take length bytes.now)) feeds.old feeds.new }
{
    let Some((feed, others)) = feeds.split_first_mut() else {
        return;
    };
    feed.offer::<R, Q>(rt, length, bytes);
    offer_all::<R, X, Q>(rt, others, length, bytes);
}

// Puts the end into each queue. All is done in this thread.
fn close_all<R: Threads + Wait + Sync, X: Based + Send + Sync>(rt: &R, feeds: &mut [Feed<X>])
    requires feeding { All IsFeeding feeds.old }
    ensures { Each (FeedsAll []) feeds.old feeds.new }
{
    let close = |_place: usize, feed: &mut Feed<X>|
        requires { IsFeeding feed.now }
        ensures { FeedsAll [] feed.entry.now feed.exit.now }
    { feed.close(rt) };
    for_each_mut(rt, feeds, 1, &close);
}

// Sends what stands in the queues of these servers. All is done in this thread.
fn empty_all<R: Threads + Wait + Sync, W: Serve + Send>(rt: &R, servers: &mut [W])
    requires serving { All (λ server. MayServe W.basis (W.seen server)) servers.old }
    ensures { Each ServesOn (map W.seen servers.old) (map W.seen servers.new) }
{
    let empty = |_place: usize, server: &mut W|
        requires { MayServe W.basis (W.seen server.now) }
        ensures { ServesOn (W.seen server.entry.now) (W.seen server.exit.now) }
    { server.serve_now(rt) };
    for_each_mut(rt, servers, 1, &empty);
}

// Puts a datagram into the queues, with the gate around it, and serves those that stand here.
fn hand_on<
    R: Threads + Wait + Sync,
    X: Based + Send + Sync,
    Q: PostQueues,
    G: Gate,
    W: Serve + Send,
>(
    rt: &R,
    gate: &mut G,
    feeds: &mut [Feed<X>],
    here: &mut [W],
    length: usize,
    bytes: &[u8; MOST_DATAGRAM],
)
    requires few { length ≤ 2048 }
    requires brought { (number : ℕ) × HaveCome number feeds.old × (X.basis.brought number (take length bytes.now) ≡ true) }
    requires feeding { AreFeeding feeds.old }
    requires serving { AreServing W.basis (map W.seen here.old) }
    ensures feeds { Each (Offers (Q.was_put X.basis.brought) (Q.was_full X.basis.brought) (take length bytes.now)) feeds.old feeds.new }
    ensures here { Each ServesOn (map W.seen here.old) (map W.seen here.new) }
{
    gate.before();
    offer_all::<R, X, Q>(rt, feeds, length as u16, bytes);
    gate.released();
    gate.after();
    empty_all(rt, here);
}

// Puts each datagram of the link into the queues, until the link ends or fails.
fn hear<
    R: Threads + Wait + Sync,
    X: Based + Send + Sync,
    Q: PostQueues,
    K: Link,
    G: Gate,
    W: Serve + Send,
>(rt: &R, link: &mut K, gate: &mut G, feeds: &mut [Feed<X>], here: &mut [W]) -> RelayEnd
    requires link { (K.has_brought link.old 0 ≡ true) × (X.basis.brought ≡ K.brought) }
    requires next { MayHear (Q.was_put K.brought) (Q.was_full K.brought) K.has_brought K.may_ask feeds.old }
    requires feeding { AreFeeding feeds.old × HaveCome 0 feeds.old }
    requires serving { AreServing W.basis (map W.seen here.old) }
    ensures hears { HearsOn (K.left link.old) (K.left link.new) feeds.old feeds.new }
    ensures ended { result ≡ RelayEnd.Ended → IfSome (K.left link.new) (λ rest. rest ≡ []) }
    ensures here { Each ServesOn (map W.seen here.old) (map W.seen here.new) }
    ensures cause { HasCause (K.faults link.old) (K.faults link.new) (result ≡ RelayEnd.Failed) }
    ensures name { K.name link.new ≡ K.name link.old }
{
    let mut buffer = [0; MOST_DATAGRAM];
    for _ in rt.forever() {
        match link.next(&mut buffer) {
            Got::Datagram(length) => hand_on::<R, X, Q, G, W>(
                rt, gate, feeds, here, length, &buffer,
            ),
            Got::Quiet => {}
            Got::End => return RelayEnd::Ended,
            Got::Failed => return RelayEnd::Failed,
        }
    }
    unreachable!()
}

#[tactic(auto, using(crate::proofs::Heard::hears_end, crate::proofs::Heard::are_feeding))]
/// Puts each datagram of the link into the queues, until the link ends or fails, and then the end. The servers that stand
/// here are served behind each datagram. It waits for the link.
pub fn hear_all<
    R: Threads + Wait + Sync,
    X: Based + Send + Sync,
    Q: PostQueues,
    K: Link,
    G: Gate,
    W: Serve + Send,
>(rt: &R, link: &mut K, gate: &mut G, feeds: &mut [Feed<X>], here: &mut [W]) -> RelayEnd
    requires link { (K.has_brought link.old 0 ≡ true) × (X.basis.brought ≡ K.brought) }
    requires next { MayHear (Q.was_put K.brought) (Q.was_full K.brought) K.has_brought K.may_ask feeds.old }
    requires feeding { AreFeeding feeds.old × HaveCome 0 feeds.old }
    requires serving { AreServing W.basis (map W.seen here.old) }
    ensures hears { HearsLink result (K.left link.old) (K.left link.new) (K.faults link.old) (K.faults link.new) (K.name link.old) (K.name link.new) feeds.old feeds.new }
    ensures here { Each ServesOn (map W.seen here.old) (map W.seen here.new) }
{
    let end = hear::<R, X, Q, K, G, W>(rt, link, gate, feeds, here);
    gate.before();
    close_all(rt, feeds);
    gate.released();
    gate.after();
    end
}

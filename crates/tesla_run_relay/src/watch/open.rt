//! A relay whose link and posts are open, with something beside it.

ghost use Rattle.std.specs.Prelude.{◌≡◌, ◌≤◌, ℕ, List, length, map, true};
ghost use Rattle.std.specs.Thread.{IsSync};
ghost use Rattle.tesla_relay.specs.Due.{IsNextRelayed};
ghost use Rattle.tesla_relay.specs.Offers.{MayAskNext};
ghost use Rattle.tesla_relay.specs.Posts.{PostSeen};
ghost use Rattle.tesla_run_relay.specs.Steps.{RelaysOpen};

use std::alloc::Global;
use std::sync::Wait;
use std::thread::{Threads, join_mut};
use tesla_base::NoMemory;
use tesla_desk::{Gate, Link, Post};
use tesla_relay::{PostQueues, PostSide, Relayed, relay};
use tesla_status::Ended;

/// What runs beside a relay until that has ended.
pub(crate) trait Beside {
    /// It may run.
    ghost may_run: { Self → Type 0 };

    /// What a run did, of it before and afterwards.
    ghost did: { Self → Self → Type 0 };

    /// Runs until the relay has ended.
    fn run<R: Wait>(&mut self, rt: &R, ended: &Ended)
        requires { may_run self.old }
        ensures { did self.old self.new };
}

/// What is open of a relay, with what else it takes.
pub(crate) struct OpenRelay<K, P, G> {
    pub(crate) alloc: Global,
    pub(crate) capacity: u32,
    pub(crate) link: K,
    pub(crate) gate: G,
    pub(crate) posts: Vec<P>,
    pub(crate) sides: Vec<PostSide<G>>,
}

/// Relays the link to the posts, and runs something beside that in a thread of its own, or behind it where no thread can be
/// made.
pub(crate) fn relay_beside<
    R: Threads + Wait + Sync,
    Q: PostQueues,
    K: Link,
    P: Post + Send,
    G: Gate + Send,
    B: Beside + Send,
>(rt: &R, opened: &mut OpenRelay<K, P, G>, beside: &mut B) -> Result<Relayed, NoMemory>
    requires some { (1 ≤ length opened.old.posts.items) × (length opened.old.posts.items ≤ 32) }
    requires sides { length opened.old.sides.items ≡ length opened.old.posts.items }
    requires capacity { (1 ≤ opened.old.capacity) × (opened.old.capacity ≤ 4096) }
    requires new { K.has_brought opened.old.link 0 ≡ true }
    requires asks { MayAskNext (Q.was_put K.brought) (Q.was_full K.brought) K.has_brought K.may_ask opened.old.capacity (length opened.old.posts.items) }
    requires due { let seen : P → PostSeen = λ post. record { name = P.name post; sent = P.sent post; faults = P.faults post } in
        (post : P) (datagram : List ℕ) → IsNextRelayed (record { brought = K.brought; posts = map seen opened.old.posts.items }) (seen post) datagram → P.may_send post datagram ≡ true }
    requires beside { B.may_run beside.old }
    ensures relays { RelaysOpen opened.old.capacity (K.left opened.old.link) (K.left opened.new.link) (K.faults opened.old.link) (K.faults opened.new.link) (K.name opened.old.link) (K.name opened.new.link) (map (λ post. record { name = P.name post; sent = P.sent post; faults = P.faults post }) opened.old.posts.items) (map (λ post. record { name = P.name post; sent = P.sent post; faults = P.faults post }) opened.new.posts.items) result }
    ensures beside { B.did beside.old beside.new }
{
    let OpenRelay {
        alloc,
        capacity,
        link,
        gate,
        posts,
        sides,
    } = opened;
    let (alloc, capacity) = (*alloc, *capacity);
    let ended = Ended::new();
    let flag = &ended;
    let mut run_relay = || -> Result<Relayed, NoMemory>
        requires { IsSync R.row × ((1 ≤ length posts.now.items) × (length posts.now.items ≤ 32)) × (length sides.now.items ≡ length posts.now.items) × ((1 ≤ capacity) × (capacity ≤ 4096)) × (K.has_brought link.now 0 ≡ true) × (MayAskNext (Q.was_put K.brought) (Q.was_full K.brought) K.has_brought K.may_ask capacity (length posts.now.items)) × (let seen : P → PostSeen = λ post. record { name = P.name post; sent = P.sent post; faults = P.faults post } in (post : P) (datagram : List ℕ) → IsNextRelayed (record { brought = K.brought; posts = map seen posts.now.items }) (seen post) datagram → P.may_send post datagram ≡ true) }
        ensures { RelaysOpen capacity (K.left link.entry.now) (K.left link.exit.now) (K.faults link.entry.now) (K.faults link.exit.now) (K.name link.entry.now) (K.name link.exit.now) (map (λ post. record { name = P.name post; sent = P.sent post; faults = P.faults post }) posts.entry.now.items) (map (λ post. record { name = P.name post; sent = P.sent post; faults = P.faults post }) posts.exit.now.items) result }
    {
        let relayed = relay::<R, Q, K, P, G>(rt, alloc, link, gate, posts, sides, capacity);
        flag.set();
        relayed
    };
    let mut run_other = ||
        requires { IsSync R.row × B.may_run beside.now }
        ensures { B.did beside.entry.now beside.exit.now }
    { beside.run(rt, flag) };
    join_mut(rt, &mut run_other, &mut run_relay).1
}

//! The queues before the posts, from their making to the counts.

ghost use Rattle.std.specs.Prelude.{◌≡◌, ◌<◌, ◌≤◌, ◌+◌, ◌++◌, [], ℕ, List, IfOk, length, map, true, vec_len, vec_capacity};
ghost use Rattle.std.specs.Arc.{arc_value};
ghost use Rattle.tesla_relay.specs.Due.{IsNextRelayed};
ghost use Rattle.tesla_relay.specs.Posts.{PostSeen};
ghost use Rattle.tesla_relay.specs.Lists.{Ends};
ghost use Rattle.tesla_relay.specs.Offers.{AreNumbered};
ghost use Rattle.tesla_relay.specs.Queues.{Adds, AreNew, Ending, GivesBack, IsEnding, IsNew, Starting};
ghost use Rattle.tesla_relay.specs.Relay.{RelaysPost, RelaysPosts};

use crate::basis::Based;
use crate::buffers::{FreeBuffers, new_buffers};
use crate::feed::Feed;
use crate::line::{Line, LinePass, new_line, settle};
use crate::relayed::{MOST, PostCount};
use crate::server::Server;
use crate::tally::{PostSide, PostTally};
use arrayvec::ArrayVec;
use std::alloc::Global;
use std::sync::Arc;
use tesla_base::NoMemory;
use tesla_desk::{Gate, Post};

/// A queue: the feed that puts in, and the end at which a server takes out.
#[derive(Drop)]
pub struct Queue<X: Based> {
    pub feed: Feed<X>,
    pub line: Arc<Line<X>>,
    pub pass: LinePass,
    pub free: FreeBuffers,
}

// Two owners of a value.
fn shared<T: Drop>(alloc: Global, value: T) -> Result<(Arc<T>, Arc<T>), NoMemory>
    ensures { IfOk result (λ both. (arc_value both.0 ≡ value) × (arc_value both.1 ≡ value)) }
{
    let one = Arc::new(alloc, value)?;
    let other = Arc::try_clone(&one)?;
    Ok((one, other))
}

// A queue for so many datagrams, with two buffers more than it has places: one datagram may be on its way in, and one on its
// way out.
fn new_queue<X: Based>(
    alloc: Global,
    capacity: usize,
    tally: &Arc<PostTally>,
) -> Result<Queue<X>, NoMemory>
    requires { (1 ≤ capacity) × (capacity ≤ 4096) }
    ensures { IfOk result (λ queue. IsNew capacity queue) }
{
    let (free, same) = new_buffers(alloc, capacity + 3)?;
    let (line, put, popped) = new_line(alloc, capacity + 1)?;
    let (line, other) = shared(alloc, line)?;
    let tally = Arc::try_clone(tally)?;
    Ok(Queue {
        feed: Feed::new(line, put, free, capacity, tally),
        line: other,
        pass: popped,
        free: same,
    })
}

/// Makes a queue for so many datagrams for each post that has a side here, in their order.
pub fn new_queues<X: Based, G>(
    alloc: Global,
    sides: &[PostSide<G>],
    capacity: usize,
    queues: &mut Vec<Queue<X>>,
) -> Result<(), NoMemory>
    requires capacity { (1 ≤ capacity) × (capacity ≤ 4096) }
    requires space { vec_len queues.old + length sides.now ≤ vec_capacity queues.old }
    requires new { AreNew capacity queues.old.items }
    ensures { IfOk result (λ _. AreNew capacity queues.new.items × (length queues.new.items ≡ length queues.old.items + length sides.now)) }
{
    let [side, sides @ ..] = sides else {
        return Ok(());
    };
    let queue = new_queue(alloc, capacity, &side.tally)?;
    queues.push_reserved(queue);
    new_queues(alloc, sides, capacity, queues)
}

/// Makes a server of each post with its side, at a queue of its own. The feeds and the servers stand in the order of the
/// posts from the last to the first.
pub fn take_in<X: Based, P: Post, G: Gate>(
    queues: &mut Vec<Queue<X>>,
    posts: &mut Vec<P>,
    sides: &mut Vec<PostSide<G>>,
    feeds: &mut Vec<Feed<X>>,
    servers: &mut Vec<Server<X, P, G>>,
)
    requires same { (length queues.old.items ≡ length posts.old.items) × (length sides.old.items ≡ length posts.old.items) }
    requires space { (vec_len feeds.old + length posts.old.items ≤ vec_capacity feeds.old) × (vec_len servers.old + length posts.old.items ≤ vec_capacity servers.old) }
    requires due { (post : P) (datagram : List ℕ) → IsNextRelayed X.basis (record { name = P.name post; sent = P.sent post; faults = P.faults post }) datagram → P.may_send post datagram ≡ true }
    ensures starting { (capacity : ℕ) → AreNew capacity queues.old.items → Adds (Starting capacity) (map (λ post. record { name = P.name post; sent = P.sent post; faults = P.faults post }) posts.old.items) feeds.old.items feeds.new.items servers.old.items servers.new.items }
    ensures numbered { (own : List (Feed X)) × (feeds.new.items ≡ feeds.old.items ++ own) × AreNumbered own × (length own ≡ length posts.old.items) }
    ensures empty { (posts.new.items ≡ []) × (sides.new.items ≡ []) }
    ensures capacity { (vec_capacity posts.new ≡ vec_capacity posts.old) × (vec_capacity sides.new ≡ vec_capacity sides.old) }
{
    let Some(post) = posts.pop() else {
        return;
    };
    let Some(side) = sides.pop() else {
        unreachable!()
    };
    let Some(queue) = queues.pop() else {
        unreachable!()
    };
    let Queue {
        mut feed,
        line,
        pass,
        free,
    } = queue;
    feed.post = posts.len();
    feeds.push_reserved(feed);
    servers.push_reserved(Server::new(post, side, line, pass, free));
    take_in(queues, posts, sides, feeds, servers);
}

// What a feed and a server come to: the post, its side, and what became of the datagrams for it.
fn settle_one<X: Based, P: Post, G: Gate>(
    feed: Feed<X>,
    server: Server<X, P, G>,
) -> (P, (PostSide<G>, PostCount))
    requires { IsEnding feed server }
    ensures { (capacity : ℕ) (arrived : List (List ℕ)) (start : PostSeen) → Ends capacity arrived start feed server → RelaysPost capacity arrived start (record { name = P.name result.0; sent = P.sent result.0; faults = P.faults result.0 }) result.1.1 }
{
    let Feed {
        line,
        pass: mut put,
        free: _,
        post: _,
        capacity: _,
        came: _,
        dropped,
        tally: _,
    } = feed;
    let Server {
        post,
        side,
        line: _,
        pass: popped,
        free: _,
        sent,
        failed,
        permit: _,
    } = server;
    settle(&line, &mut put, popped);
    let count = PostCount {
        sent,
        dropped,
        failed,
    };
    (post, (side, count))
}

/// Gives the posts and their sides back, in their order, and puts what became of the datagrams for each behind the counts.
pub fn give_back<X: Based, P: Post, G: Gate>(
    feeds: &mut Vec<Feed<X>>,
    servers: &mut Vec<Server<X, P, G>>,
    posts: &mut Vec<P>,
    sides: &mut Vec<PostSide<G>>,
    counts: &mut ArrayVec<PostCount, MOST>,
)
    requires ending { (capacity : ℕ) × (arrived : List (List ℕ)) × (starts : List PostSeen) × Ending capacity arrived starts feeds.old.items servers.old.items }
    requires space { (vec_len posts.old + length servers.old.items ≤ vec_capacity posts.old) × (vec_len sides.old + length servers.old.items ≤ vec_capacity sides.old) }
    requires room { length counts.old.items + length servers.old.items ≤ 32 }
    ensures given { (capacity : ℕ) (arrived : List (List ℕ)) (starts : List PostSeen) → Ending capacity arrived starts feeds.old.items servers.old.items → GivesBack (RelaysPosts capacity arrived) starts (map (λ post. record { name = P.name post; sent = P.sent post; faults = P.faults post }) posts.old.items) (map (λ post. record { name = P.name post; sent = P.sent post; faults = P.faults post }) posts.new.items) counts.old.items counts.new.items }
    ensures empty { servers.new.items ≡ [] }
{
    let Some(server) = servers.pop() else {
        return;
    };
    let Some(feed) = feeds.pop() else {
        unreachable!()
    };
    let (post, (side, count)) = settle_one(feed, server);
    posts.push_reserved(post);
    sides.push_reserved(side);
    counts.push(count);
    give_back(feeds, servers, posts, sides, counts);
}

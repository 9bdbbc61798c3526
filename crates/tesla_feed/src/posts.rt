//! The posts of a feed, to each of which a datagram is handed. One that has failed is left out.

ghost use Rattle.std.specs.Prelude.{◌≡◌, ◌≤◌, List, false, length, map, true};
ghost use Rattle.std.specs.List.{list_all, list_any};
ghost use Rattle.tesla_relay.specs.Posts.{PostSeen};
ghost use Rattle.tesla_feed.specs.Feed.{has_failed};
ghost use Rattle.tesla_feed.specs.Steps.{HandsPost, HandPosts, MayHand};

use tesla_desk::{Post, PostStep};

// Hands a datagram to a post, unless it has failed. True: it has failed, before or now.
fn hand_one<P: Post>(datagram: &[u8], post: &mut P, failed: bool) -> bool
    requires limit { length datagram.now ≤ 2048 }
    requires permitted { failed ≡ false → P.may_send post.old datagram.now ≡ true }
    ensures { HandsPost datagram.now (record { name = P.name post.old; sent = P.sent post.old; faults = P.faults post.old }) (record { name = P.name post.new; sent = P.sent post.new; faults = P.faults post.new }) failed result }
{
    failed || post.send(datagram) == PostStep::Failed
}

/// Hands a datagram to each post that hasn't failed, in their order, and marks those that fail. All those may send it.
pub fn hand<P: Post>(datagram: &[u8], posts: &mut [P], failed: &mut [bool])
    requires limit { length datagram.now ≤ 2048 }
    requires each { length failed.old ≡ length posts.old }
    requires permitted { MayHand P.may_send datagram.now posts.old failed.old }
    ensures hands { let seen : List P → List PostSeen = λ posts. map (λ post. record { name = P.name post; sent = P.sent post; faults = P.faults post }) posts in
        HandPosts datagram.now (seen posts.old) (seen posts.new) failed.old failed.new }
    ensures each { (length posts.new ≡ length posts.old) × (length failed.new ≡ length failed.old) }
{
    let Some((post, posts)) = posts.split_first_mut() else {
        return;
    };
    let Some((mark, failed)) = failed.split_first_mut() else {
        return;
    };
    *mark = hand_one(datagram, post, *mark);
    hand(datagram, posts, failed)
}

/// Whether all posts have failed.
pub fn have_all_failed(failed: &[bool]) -> bool
    ensures { result ≡ list_all has_failed failed.now }
{
    failed.iter().all(|failed| *failed)
}

/// Whether a post has failed.
pub fn has_one_failed(failed: &[bool]) -> bool
    ensures { result ≡ list_any has_failed failed.now }
{
    failed.iter().any(|failed| *failed)
}

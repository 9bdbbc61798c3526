//! A whole feed over a list of streams.

ghost use Rattle.std.specs.Prelude.{◌≡◌, ◌≤◌, ◌++◌, ◌||◌, ℕ, [], List, length, map, not, true, false};
ghost use Rattle.std.specs.List.{list_all};
ghost use Rattle.tesla_desk.specs.Faults.{HasCause};
ghost use Rattle.tesla_relay.specs.Opened.{post_name};
ghost use Rattle.tesla_relay.specs.Posts.{PostSeen};
ghost use Rattle.tesla_feed.specs.Due.{AreUnsent};
ghost use Rattle.tesla_feed.specs.Steps.{lacks_sender};
ghost use Rattle.tesla_feeds.specs.Due.{IsWholeGiven, MayNoteAll, MaySendDue};
ghost use Rattle.tesla_feeds.specs.Feeds.{ComesTo};
ghost use Rattle.tesla_feeds.specs.Later.{IsOpenFeed};
ghost use Rattle.tesla_feeds.specs.Opening.{streams_fed};

use crate::hearing::{hear_all, tell_rest, wait_to_begin};
use crate::later::LaterSenders;
use crate::{FeedsCounts, Notes, OpenFeeds};
use std::sync::Wait;
use std::sync::ledger::Ledger;
use tesla_base::Steps;
use tesla_desk::{Clock, Gate, Link, Post};
use tesla_feed::{Hearing, Instruments, MOST_POSTS, has_one_failed};

/// What a feed over a list came to.
#[derive(Clone, Copy, Debug, PartialEq, Eq)]
pub struct FeedsEnd {
    /// Whether the link failed.
    pub link_failed: bool,
    /// Whether a post failed.
    pub post_failed: bool,
    /// Whether the sender of a later stream couldn't be had.
    pub lacking: bool,
    /// What was counted.
    pub counts: FeedsCounts,
}

/// Feeds what comes over the link to the posts: each datagram is a message of the stream that is on, at the reading of the
/// clock when it came. Each stream but the last hands over to the next one in its window, and the keys of all streams are
/// disclosed when they are due, also where nothing comes. Each frame is handed to each post, in their order. Where the clock
/// can't be read nothing is sent, and a message that came then is counted.
///
/// The feed makes no call of a stream in the interval of its opening or an earlier one, and asks the link for nothing before an
/// interval behind that has begun of some stream. After the link's end or failure it goes on until the keys of all messages and
/// handovers were disclosed on every chain of their streams. A post that fails sends no more; where all have failed the feed
/// ends. It waits for the clock and for the link, and takes no memory. Where the gate tells before the first interval that the
/// run was asked to end it ends there, and has made nothing.
///
/// It waits for the sender of a later stream where that is needed: its first interval has begun, or the last one of each stream in
/// front has ended. Where a sender is known to be lacking, or is needed before an item is taken and can't be had, it takes nothing
/// more off the link, and goes on as behind its end; where an item or a rest needs one that can't be had it makes nothing of that,
/// and ends there. Nothing is made of a stream whose seeds aren't right.
///
/// The counts are told behind each event, at its reading, and before the first interval at each reading. The link is asked to
/// wait, and the gate to rest, at most until the next interval begins of a stream that tells more keys and until the counts are
/// to be told again.
///
/// Also in a run that never returns, each post is sent only what is due: the frames of one feed over the list, in order and
/// each once, made of all datagrams that the link brought, at readings that the clock gave when it was asked for them, and of
/// handovers and keys that are due at readings that it gave. And only the counts of these are told, at such readings.
pub fn feeds<R: Wait, L: Ledger, K: Link, C: Clock, P: Post, G: Gate, N: Notes, Y: LaterSenders>(
    rt: &R,
    opened: OpenFeeds,
    link: &mut K,
    instruments: &mut Instruments<C, G, N, Y>,
    posts: &mut [P],
    steps: &mut Steps<L>,
) -> FeedsEnd
    requires open { IsOpenFeed opened (Y.left instruments.old.later) }
    requires right { list_all Y.is_right (streams_fed opened.feeders) ≡ true }
    requires few { length posts.old ≤ 32 }
    requires opening { C.gave opened.opening ≡ true }
    requires none { K.has_brought link.old 0 ≡ true }
    requires unsent { let seen : P → PostSeen = λ post. record { name = P.name post; sent = P.sent post; faults = P.faults post } in
        AreUnsent (map seen posts.old) }
    requires asks { (number : ℕ) (bytes : List ℕ) → K.brought number bytes ≡ true → C.may_ask number bytes ≡ true }
    requires any_link { (link : K) → K.may_ask link ≡ true }
    requires due { let seen : P → PostSeen = λ post. record { name = P.name post; sent = P.sent post; faults = P.faults post } in
        MaySendDue Y.is_right seen P.may_send C.gave C.read_for (map post_name (map seen posts.old)) (streams_fed opened.feeders ++ Y.left instruments.old.later) }
    requires untold { N.was_told instruments.old.notes [] }
    requires notes { MayNoteAll Y.is_right N.was_told N.may_note C.gave C.read_for (streams_fed opened.feeders ++ Y.left instruments.old.later) }
    ensures feeds { let seen : List P → List PostSeen = λ posts. map (λ post. record { name = P.name post; sent = P.sent post; faults = P.faults post }) posts in
        ComesTo Y.is_right G.over (streams_fed opened.feeders ++ Y.left instruments.old.later) opened.opening result (K.left link.old) (K.left link.new) (C.told instruments.old.clock) (C.told instruments.new.clock) (seen posts.old) (seen posts.new) (N.was_told instruments.new.notes) }
    ensures given { IsWholeGiven Y.is_right C.gave C.read_for (streams_fed opened.feeders ++ Y.left instruments.old.later) result.counts (N.was_told instruments.new.notes) }
    ensures fixed { N.fixed instruments.new.notes ≡ N.fixed instruments.old.notes }
    ensures cause { HasCause (K.faults link.old) (K.faults link.new) (result.link_failed ≡ true) }
    ensures name { K.name link.new ≡ K.name link.old }
    ensures some { Y.left instruments.old.later ≡ [] → result.lacking ≡ false }
{
    let mut feeds = opened;
    if !wait_to_begin(rt, &mut feeds, instruments) {
        return FeedsEnd {
            link_failed: false,
            post_failed: false,
            lacking: false,
            counts: feeds.feeders.counts,
        };
    }
    let mut marks = [false; MOST_POSTS];
    let failed = &mut marks[..posts.len()];
    let hearing = hear_all(rt, &mut feeds, link, instruments, posts, failed, steps);
    if hearing == Hearing::Lost {
        return FeedsEnd {
            link_failed: false,
            post_failed: has_one_failed(failed),
            lacking: true,
            counts: feeds.feeders.counts,
        };
    }
    let told = tell_rest(rt, &mut feeds, instruments, posts, failed, steps);
    FeedsEnd {
        link_failed: hearing == Hearing::LinkFailed,
        post_failed: has_one_failed(failed),
        lacking: is_lacking(hearing, told),
        counts: feeds.feeders.counts,
    }
}

// Whether a sender was lacking, told why the feed heard no more, and whether the rests came to their end.
fn is_lacking(hearing: Hearing, told: bool) -> bool
    ensures { result ≡ (lacks_sender hearing || not told) }
{
    hearing.lacks_sender() || !told
}

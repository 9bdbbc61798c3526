//! A run of the command `relay`.

ghost use Rattle.std.specs.Prelude.{◌≡◌, ◌≤◌, [], ℕ, List, IfOk, MatchResult, OnErr, length, map, string_bytes, true, vec_capacity};
ghost use Rattle.tesla_desk.specs.Faults.{HasCause};
ghost use Rattle.tesla_front.specs.OutcomeView.{outcome_view};
ghost use Rattle.tesla_front.specs.Command.{Performs, RunsAs};
ghost use Rattle.tesla_relay.specs.Due.{IsNextRelayed};
ghost use Rattle.tesla_relay.specs.Offers.{MayAskNext};
ghost use Rattle.tesla_relay.specs.Posts.{PostSeen};
ghost use Rattle.tesla_relay.specs.Relay.{Relays};
ghost use Rattle.tesla_relay.specs.declared.relayed.RelayEnd.TheVariants as ends;
ghost use Rattle.tesla_run_relay.specs.Arguments.{IsRelayForm, arguments_of};
ghost use Rattle.tesla_run_relay.specs.Due.{IsDue, IsNextUnder, MayAskForWords};
ghost use Rattle.tesla_run_relay.specs.Relay.{relay};
ghost use Rattle.tesla_run_relay.specs.Steps.{RunsLinked, RunsPosts};

use crate::arguments::Arguments;
use crate::form::arguments_in;
use crate::lines::outcome_of;
use crate::room::{Room, give_back, room_for};
use std::alloc::Global;
use std::sync::Wait;
use std::thread::Threads;
use tesla_base::NoMemory;
use tesla_desk::Environment;
use tesla_front::{Fault, Outcome};
use tesla_relay::{PostQueues, Relayed, close_posts, open_posts, relay};

/// Runs the words as those of `relay`: hands each datagram that leaves LINK on to all POSTS, before each of which stands a
/// queue of CAPACITY datagrams; one that finds it full is dropped for that post. All memory but that of the openings is asked
/// for before the first datagram. LINK is opened first, and then the posts in order, until an opening is refused.
///
/// `Done` with a line for each post of how many datagrams it sent and how many were dropped: LINK has ended, and no post
/// failed. `Usage` exactly where the words are no form, and then nothing was opened. `Failed` with `Read`: LINK failed, and
/// what came before was relayed; with `Write`: LINK has ended, and a post failed; with `Open` or `NoMemory`: nothing was
/// relayed. `Read`, `Write` and `Open` come only where the desk's count of that rose. It waits for the link.
///
/// While it runs each of POSTS may send what comes next for it: datagrams that LINK brought, in order and each once.
/// LINK may be asked for its next letter once each datagram that it brought was put into the queue of each of POSTS, or
/// found CAPACITY items there, or lies behind the first 2^62 - 2. Nothing else is sent or asked for, whether the run ends
/// or not.
pub fn run_relay<R: Threads + Wait + Sync, D: Environment + PostQueues>(
    rt: &R,
    alloc: Global,
    words: &[String],
    desk: &mut D,
) -> Outcome
    requires asks { MayAskForWords (D.was_put D.Wire.brought) (D.was_full D.Wire.brought) D.Wire.has_brought D.Wire.may_ask (map string_bytes words.now) }
    requires due { (post : D.Port) (datagram : List ℕ) → IsDue D.Wire.brought (map string_bytes words.now) (D.Port.name post) (D.Port.sent post) datagram → D.Port.may_send post datagram ≡ true }
    ensures { RunsAs (relay (D.told desk.old).live (D.told desk.new).live) (map string_bytes words.now) (D.told desk.old) (D.told desk.new) (outcome_view result) }
{
    match arguments_in(words) {
        Some(arguments) => perform(rt, alloc, &arguments, desk),
        None => Outcome::Usage,
    }
}

// Does what the words ask for: takes the room, opens the link, and relays it to the posts.
fn perform<R: Threads + Wait + Sync, D: Environment + PostQueues>(
    rt: &R,
    alloc: Global,
    arguments: &Arguments<'_>,
    desk: &mut D,
) -> Outcome
    requires form { (spelled : List (List ℕ)) × IsRelayForm (arguments_of arguments.now) spelled }
    requires asks { MayAskNext (D.was_put D.Wire.brought) (D.was_full D.Wire.brought) D.Wire.has_brought D.Wire.may_ask arguments.now.capacity (length arguments.now.posts) }
    requires due { (post : D.Port) (datagram : List ℕ) → IsNextUnder D.Wire.brought arguments.now.posts (D.Port.name post) (D.Port.sent post) datagram → D.Port.may_send post datagram ≡ true }
    ensures { Performs (relay (D.told desk.old).live (D.told desk.new).live) (arguments_of arguments.now) (D.told desk.old) (D.told desk.new) (outcome_view result) }
{
    let Ok(room) = room_for(alloc, arguments.posts.len(), desk) else {
        return Outcome::Failed(Fault::NoMemory);
    };
    match desk.open_link(arguments.link) {
        Ok(link) => run_linked(rt, alloc, arguments, room, link, desk),
        Err(refusal) => {
            give_back(room);
            Outcome::Failed(Fault::from(refusal))
        }
    }
}

// Opens the posts, relays an open link to them, and closes them and the link.
fn run_linked<R: Threads + Wait + Sync, D: Environment + PostQueues>(
    rt: &R,
    alloc: Global,
    arguments: &Arguments<'_>,
    mut room: Room<D>,
    mut link: D::Wire,
    desk: &mut D,
) -> Outcome
    requires some { (1 ≤ length arguments.now.posts) × (length arguments.now.posts ≤ 32) }
    requires posts { (room.posts.items ≡ []) × (length arguments.now.posts ≤ vec_capacity room.posts) }
    requires sides { length room.sides.items ≡ length arguments.now.posts }
    requires fresh { (D.Wire.faults link ≡ 0) × (D.Wire.has_brought link 0 ≡ true) }
    requires asks { MayAskNext (D.was_put D.Wire.brought) (D.was_full D.Wire.brought) D.Wire.has_brought D.Wire.may_ask arguments.now.capacity (length arguments.now.posts) }
    requires due { (post : D.Port) (datagram : List ℕ) → IsNextUnder D.Wire.brought arguments.now.posts (D.Port.name post) (D.Port.sent post) datagram → D.Port.may_send post datagram ≡ true }
    ensures { RunsLinked arguments.now.capacity arguments.now.posts (D.Wire.name link) (D.Wire.left link) (D.told desk.old) (D.told desk.new) (outcome_view result) }
{
    let outcome = run_posts(rt, alloc, arguments, &mut room, &mut link, desk);
    close_posts(desk, &mut room.posts);
    give_back(room);
    desk.close_link(link);
    outcome
}

// Opens the posts, and relays an open link to them.
fn run_posts<R: Threads + Wait + Sync, D: Environment + PostQueues>(
    rt: &R,
    alloc: Global,
    arguments: &Arguments<'_>,
    room: &mut Room<D>,
    link: &mut D::Wire,
    desk: &mut D,
) -> Outcome
    requires some { (1 ≤ length arguments.now.posts) × (length arguments.now.posts ≤ 32) }
    requires posts { (room.old.posts.items ≡ []) × (length arguments.now.posts ≤ vec_capacity room.old.posts) }
    requires sides { length room.old.sides.items ≡ length arguments.now.posts }
    requires new { D.Wire.has_brought link.old 0 ≡ true }
    requires asks { MayAskNext (D.was_put D.Wire.brought) (D.was_full D.Wire.brought) D.Wire.has_brought D.Wire.may_ask arguments.now.capacity (length arguments.now.posts) }
    requires due { (post : D.Port) (datagram : List ℕ) → IsNextUnder D.Wire.brought arguments.now.posts (D.Port.name post) (D.Port.sent post) datagram → D.Port.may_send post datagram ≡ true }
    ensures runs { RunsPosts arguments.now.capacity arguments.now.posts (D.Wire.left link.old) (D.Wire.left link.new) (D.Wire.faults link.old) (D.Wire.faults link.new) (D.told desk.old) (D.told desk.new) (map (λ post. record { name = D.Port.name post; sent = D.Port.sent post; faults = D.Port.faults post }) room.new.posts.items) (outcome_view result) }
    ensures name { D.Wire.name link.new ≡ D.Wire.name link.old }
{
    match open_posts(desk, arguments.posts.as_slice(), &mut room.posts) {
        Ok(()) => match relay_opened(rt, alloc, arguments.capacity, link, room) {
            Ok(relayed) => outcome_of(&relayed, arguments.posts.len() as u8),
            Err(_) => Outcome::Failed(Fault::NoMemory),
        },
        Err(fault) => Outcome::Failed(fault),
    }
}

/// Relays an open link to open posts.
pub(crate) fn relay_opened<R: Threads + Wait + Sync, D: Environment + PostQueues>(
    rt: &R,
    alloc: Global,
    capacity: u32,
    link: &mut D::Wire,
    room: &mut Room<D>,
) -> Result<Relayed, NoMemory>
    requires some { (1 ≤ length room.old.posts.items) × (length room.old.posts.items ≤ 32) }
    requires sides { length room.old.sides.items ≡ length room.old.posts.items }
    requires capacity { (1 ≤ capacity) × (capacity ≤ 4096) }
    requires new { D.Wire.has_brought link.old 0 ≡ true }
    requires asks { MayAskNext (D.was_put D.Wire.brought) (D.was_full D.Wire.brought) D.Wire.has_brought D.Wire.may_ask capacity (length room.old.posts.items) }
    requires due { let seen : D.Port → PostSeen = λ post. record { name = D.Port.name post; sent = D.Port.sent post; faults = D.Port.faults post } in
        (post : D.Port) (datagram : List ℕ) → IsNextRelayed (record { brought = D.Wire.brought; posts = map seen room.old.posts.items }) (seen post) datagram → D.Port.may_send post datagram ≡ true }
    ensures relays { IfOk result (λ it. Relays capacity (D.Wire.left link.old) (D.Wire.left link.new) (map (λ post. record { name = D.Port.name post; sent = D.Port.sent post; faults = D.Port.faults post }) room.old.posts.items) (map (λ post. record { name = D.Port.name post; sent = D.Port.sent post; faults = D.Port.faults post }) room.new.posts.items) it.end it.counts.items) }
    ensures unread { OnErr result (D.Wire.left link.new ≡ D.Wire.left link.old) }
    ensures untouched { OnErr result (room.new.posts.items ≡ room.old.posts.items) }
    ensures cause { HasCause (D.Wire.faults link.old) (D.Wire.faults link.new) (MatchResult result (λ it. it.end ≡ ends.Failed) (λ _. ⊥)) }
    ensures name { D.Wire.name link.new ≡ D.Wire.name link.old }
{
    let Room { posts, sides, gate } = room;
    relay::<R, D, D::Wire, D::Port, D::Pause>(rt, alloc, link, gate, posts, sides, capacity)
}

//! A run of the command `watch-relay`.

ghost use Rattle.std.specs.Prelude.{◌≡◌, ◌≤◌, ◌||◌, [], ℕ, Bool, List, None, Some, Ok, Err, IfErr, IfOk, OnErr, length, map, string_bytes, true, vec_capacity};
ghost use Rattle.std.specs.List.{list_any};
ghost use Rattle.tesla_desk.specs.Outside.{ClosesSink};
ghost use Rattle.tesla_front.specs.OutcomeView.{Failed, outcome_view};
ghost use Rattle.tesla_front.specs.Command.{Performs, RunsAs};
ghost use Rattle.tesla_front.specs.declared.fault.Fault.{Fault};
ghost use Rattle.tesla_front.specs.declared.fault.Fault.TheVariants as faults;
ghost use Rattle.tesla_relay.specs.Due.{IsNextRelayed};
ghost use Rattle.tesla_relay.specs.Offers.{MayAskNext};
ghost use Rattle.tesla_relay.specs.Posts.{PostSeen};
ghost use Rattle.tesla_run_relay.specs.Due.{IsNextUnder};
ghost use Rattle.tesla_run_relay.specs.Lines.{has_failed, outcome_with};
ghost use Rattle.tesla_run_relay.specs.watch.Allowed.{MayTellForWords, MayWriteTallies};
ghost use Rattle.tesla_run_relay.specs.watch.Arguments.{IsWatchForm, arguments_of};
ghost use Rattle.tesla_run_relay.specs.watch.Due.{IsDue, MayAskForWords};
ghost use Rattle.tesla_run_relay.specs.watch.Steps.{EndsTold, LacksStatus, OpensTold, RunsLinked, RunsOpened, RunsPosts};
ghost use Rattle.tesla_run_relay.specs.watch.Watch.{unless_failed, watch_relay};
ghost use Rattle.tesla_run_relay.specs.watch.Written.{HasTold};

use crate::lines::outcome_beside;
use crate::room::{Room, give_back, room_for};
use crate::watch::arguments::Arguments;
use crate::watch::form::arguments_in;
use crate::watch::monitor::{Monitor, monitor_over, tallies_of};
use crate::watch::open::{OpenRelay, relay_beside};
use std::alloc::Global;
use std::sync::Wait;
use std::thread::Threads;
use tesla_base::NoMemory;
use tesla_desk::{Environment, Observed};
use tesla_front::{Fault, Outcome};
use tesla_relay::{PostQueues, Relayed, close_posts, open_posts};
use tesla_status::Status;

/// What writes the counts while a relay runs over a desk.
type DeskMonitor<D> = Monitor<
    <D as Environment>::Pieces,
    <D as Environment>::Time,
    <D as Observed>::Events,
>;

/// A relay over a desk whose link and posts are open.
type DeskRelay<D> = OpenRelay<
    <D as Environment>::Wire,
    <D as Environment>::Port,
    <D as Environment>::Pause,
>;

/// Runs the words as those of `watch-relay`: does what `run_relay` does under CAPACITY, LINK and POSTS, and opens STATUS behind
/// the posts. While the relay runs, a monitor in a thread of its own appends a line to STATUS every EVERY seconds, by a clock
/// of its own; where no thread can be made, only the last line is written. It holds up nothing. When the relay has ended,
/// whatever it came to, the last line is written, with the numbers of the counts that it came to. A STATUS that fails gets no
/// further line, and stops nothing.
///
/// Of the numbers of the other lines nothing is claimed but that no number of a post falls from line to line.
///
/// `Done` with the lines of `run_relay`: LINK has ended, and neither a post nor STATUS failed. `Usage` exactly where the words
/// are no form, and then nothing was opened. `Failed` with `Read`: LINK failed, and what came before was relayed; with `Write`:
/// LINK didn't fail, and a post or STATUS did; with `Open` or `NoMemory`: nothing was relayed. It waits for the link.
///
/// While it runs POSTS and LINK are asked for no more than by `run_relay`, and STATUS is asked for whole lines alone, each at a
/// reading that a clock gave (`IsNextTally`): nothing behind the last one, whether the run ends or not.
pub fn run_watch_relay<R: Threads + Wait + Sync, D: Observed + PostQueues>(
    rt: &R,
    alloc: Global,
    words: &[String],
    desk: &mut D,
) -> Outcome
    requires asks { MayAskForWords (D.was_put D.Wire.brought) (D.was_full D.Wire.brought) D.Wire.has_brought D.Wire.may_ask (map string_bytes words.now) }
    requires due { (post : D.Port) (datagram : List ℕ) → IsDue D.Wire.brought (map string_bytes words.now) (D.Port.name post) (D.Port.sent post) datagram → D.Port.may_send post datagram ≡ true }
    requires tallies { MayTellForWords D.Pieces.name D.Pieces.written D.Pieces.may_write D.Time.gave (map string_bytes words.now) }
    ensures { RunsAs (watch_relay (D.told desk.old).live (D.told desk.new).live) (map string_bytes words.now) (D.told desk.old) (D.told desk.new) (outcome_view result) }
{
    match arguments_in(words) {
        Some(arguments) => perform(rt, alloc, &arguments, desk),
        None => Outcome::Usage,
    }
}

// Does what the words ask for: takes the room, opens the link, and relays it to the posts.
fn perform<R: Threads + Wait + Sync, D: Observed + PostQueues>(
    rt: &R,
    alloc: Global,
    arguments: &Arguments<'_>,
    desk: &mut D,
) -> Outcome
    requires form { (spelled : List (List ℕ)) × IsWatchForm (arguments_of arguments.now) spelled }
    requires asks { MayAskNext (D.was_put D.Wire.brought) (D.was_full D.Wire.brought) D.Wire.has_brought D.Wire.may_ask arguments.now.relay.capacity (length arguments.now.relay.posts) }
    requires due { (post : D.Port) (datagram : List ℕ) → IsNextUnder D.Wire.brought arguments.now.relay.posts (D.Port.name post) (D.Port.sent post) datagram → D.Port.may_send post datagram ≡ true }
    requires tallies { MayWriteTallies D.Pieces.name D.Pieces.written D.Pieces.may_write D.Time.gave arguments.now.status.now (length arguments.now.relay.posts) }
    ensures { Performs (watch_relay (D.told desk.old).live (D.told desk.new).live) (arguments_of arguments.now) (D.told desk.old) (D.told desk.new) (outcome_view result) }
{
    let Ok(room) = room_for(alloc, arguments.relay.posts.len(), desk) else {
        return Outcome::Failed(Fault::NoMemory);
    };
    match desk.open_link(arguments.relay.link) {
        Ok(link) => {
            let Room { posts, sides, gate } = room;
            let opened = OpenRelay {
                alloc,
                capacity: arguments.relay.capacity,
                link,
                gate,
                posts,
                sides,
            };
            run_linked(rt, arguments, opened, desk)
        }
        Err(refusal) => {
            give_back(room);
            Outcome::Failed(Fault::from(refusal))
        }
    }
}

// Opens the posts and STATUS, relays an open link to the posts, and closes all.
fn run_linked<R: Threads + Wait + Sync, D: Observed + PostQueues>(
    rt: &R,
    arguments: &Arguments<'_>,
    mut opened: DeskRelay<D>,
    desk: &mut D,
) -> Outcome
    requires some { (1 ≤ length arguments.now.relay.posts) × (length arguments.now.relay.posts ≤ 32) }
    requires capacity { opened.capacity ≡ arguments.now.relay.capacity }
    requires posts { (opened.posts.items ≡ []) × (length arguments.now.relay.posts ≤ vec_capacity opened.posts) }
    requires sides { length opened.sides.items ≡ length arguments.now.relay.posts }
    requires fresh { (D.Wire.faults opened.link ≡ 0) × (D.Wire.has_brought opened.link 0 ≡ true) }
    requires asks { MayAskNext (D.was_put D.Wire.brought) (D.was_full D.Wire.brought) D.Wire.has_brought D.Wire.may_ask arguments.now.relay.capacity (length arguments.now.relay.posts) }
    requires due { (post : D.Port) (datagram : List ℕ) → IsNextUnder D.Wire.brought arguments.now.relay.posts (D.Port.name post) (D.Port.sent post) datagram → D.Port.may_send post datagram ≡ true }
    requires tallies { MayWriteTallies D.Pieces.name D.Pieces.written D.Pieces.may_write D.Time.gave arguments.now.status.now (length arguments.now.relay.posts) }
    ensures { RunsLinked arguments.now.relay.capacity arguments.now.relay.posts arguments.now.status.now (D.Wire.name opened.link) (D.Wire.left opened.link) (D.told desk.old) (D.told desk.new) (outcome_view result) }
{
    let outcome = run_posts(rt, arguments, &mut opened, desk);
    let OpenRelay {
        alloc: _,
        capacity: _,
        link,
        gate: _,
        mut posts,
        sides: _,
    } = opened;
    close_posts(desk, &mut posts);
    posts.destroy_empty();
    desk.close_link(link);
    outcome
}

// Opens the posts and STATUS, and relays an open link to the posts.
fn run_posts<R: Threads + Wait + Sync, D: Observed + PostQueues>(
    rt: &R,
    arguments: &Arguments<'_>,
    opened: &mut DeskRelay<D>,
    desk: &mut D,
) -> Outcome
    requires some { (1 ≤ length arguments.now.relay.posts) × (length arguments.now.relay.posts ≤ 32) }
    requires capacity { opened.old.capacity ≡ arguments.now.relay.capacity }
    requires posts { (opened.old.posts.items ≡ []) × (length arguments.now.relay.posts ≤ vec_capacity opened.old.posts) }
    requires sides { length opened.old.sides.items ≡ length arguments.now.relay.posts }
    requires new { D.Wire.has_brought opened.old.link 0 ≡ true }
    requires asks { MayAskNext (D.was_put D.Wire.brought) (D.was_full D.Wire.brought) D.Wire.has_brought D.Wire.may_ask arguments.now.relay.capacity (length arguments.now.relay.posts) }
    requires due { (post : D.Port) (datagram : List ℕ) → IsNextUnder D.Wire.brought arguments.now.relay.posts (D.Port.name post) (D.Port.sent post) datagram → D.Port.may_send post datagram ≡ true }
    requires tallies { MayWriteTallies D.Pieces.name D.Pieces.written D.Pieces.may_write D.Time.gave arguments.now.status.now (length arguments.now.relay.posts) }
    ensures runs { RunsPosts arguments.now.relay.capacity arguments.now.relay.posts arguments.now.status.now (D.Wire.left opened.old.link) (D.Wire.left opened.new.link) (D.Wire.faults opened.old.link) (D.Wire.faults opened.new.link) (D.told desk.old) (D.told desk.new) (map (λ post. record { name = D.Port.name post; sent = D.Port.sent post; faults = D.Port.faults post }) opened.new.posts.items) (outcome_view result) }
    ensures name { D.Wire.name opened.new.link ≡ D.Wire.name opened.old.link }
{
    match open_posts(desk, arguments.relay.posts.as_slice(), &mut opened.posts) {
        Ok(()) => run_opened(rt, arguments, opened, desk),
        Err(fault) => Outcome::Failed(fault),
    }
}

// Opens STATUS, and relays an open link to open posts.
fn run_opened<R: Threads + Wait + Sync, D: Observed + PostQueues>(
    rt: &R,
    arguments: &Arguments<'_>,
    opened: &mut DeskRelay<D>,
    desk: &mut D,
) -> Outcome
    requires some { (1 ≤ length arguments.now.relay.posts) × (length arguments.now.relay.posts ≤ 32) }
    requires capacity { opened.old.capacity ≡ arguments.now.relay.capacity }
    requires posts { length opened.old.posts.items ≡ length arguments.now.relay.posts }
    requires sides { length opened.old.sides.items ≡ length arguments.now.relay.posts }
    requires new { D.Wire.has_brought opened.old.link 0 ≡ true }
    requires asks { MayAskNext (D.was_put D.Wire.brought) (D.was_full D.Wire.brought) D.Wire.has_brought D.Wire.may_ask arguments.now.relay.capacity (length arguments.now.relay.posts) }
    requires due { let seen : D.Port → PostSeen = λ post. record { name = D.Port.name post; sent = D.Port.sent post; faults = D.Port.faults post } in
        (post : D.Port) (datagram : List ℕ) → IsNextRelayed (record { brought = D.Wire.brought; posts = map seen opened.old.posts.items }) (seen post) datagram → D.Port.may_send post datagram ≡ true }
    requires tallies { MayWriteTallies D.Pieces.name D.Pieces.written D.Pieces.may_write D.Time.gave arguments.now.status.now (length arguments.now.relay.posts) }
    ensures runs { RunsOpened arguments.now.relay.capacity arguments.now.status.now (D.Wire.left opened.old.link) (D.Wire.left opened.new.link) (D.Wire.faults opened.old.link) (D.Wire.faults opened.new.link) (D.told desk.old) (D.told desk.new) (map (λ post. record { name = D.Port.name post; sent = D.Port.sent post; faults = D.Port.faults post }) opened.old.posts.items) (map (λ post. record { name = D.Port.name post; sent = D.Port.sent post; faults = D.Port.faults post }) opened.new.posts.items) (outcome_view result) }
    ensures name { D.Wire.name opened.new.link ≡ D.Wire.name opened.old.link }
{
    match monitor_for(arguments, opened, desk) {
        Ok(mut monitor) => {
            let relayed = relay_beside::<R, D, D::Wire, D::Port, D::Pause, DeskMonitor<D>>(
                rt,
                opened,
                &mut monitor,
            );
            end_status(relayed, arguments.relay.posts.len() as u8, monitor, desk)
        }
        Err(fault) => Outcome::Failed(fault),
    }
}

// Opens STATUS, with a monitor over it that reads the tallies of the posts.
fn monitor_for<D: Observed>(
    arguments: &Arguments<'_>,
    opened: &DeskRelay<D>,
    desk: &mut D,
) -> Result<DeskMonitor<D>, Fault>
    requires few { length opened.now.sides.items ≤ 32 }
    ensures told { IfOk result (λ it. HasTold (length opened.now.sides.items) it.told.items (D.Pieces.written it.status.sink) (D.Pieces.faults it.status.sink) it.status.failed) }
    ensures name { IfOk result (λ it. D.Pieces.name it.status.sink ≡ arguments.now.status.now) }
    ensures opens { IfOk result (λ it. OpensTold arguments.now.status.now (D.told desk.old) (D.told desk.new)) }
    ensures lacks { IfErr result (λ fault. LacksStatus arguments.now.status.now (D.told desk.old) (D.told desk.new) fault) }
{
    let Ok(tallies) = tallies_of(opened.alloc, opened.sides.as_slice()) else {
        return Err(Fault::NoMemory);
    };
    match desk.open_output(arguments.status) {
        Ok(sink) => Ok(monitor_over(sink, tallies, arguments.every, desk)),
        Err(refusal) => Err(Fault::from(refusal)),
    }
}

// Closes STATUS, and tells whether it failed.
fn close_status<D: Observed>(monitor: DeskMonitor<D>, desk: &mut D) -> bool
    ensures failed { result ≡ monitor.status.failed }
    ensures closes { ClosesSink (D.Pieces.name monitor.status.sink) (D.Pieces.written monitor.status.sink) (D.Pieces.faults monitor.status.sink) (D.told desk.old) (D.told desk.new) }
{
    let Status { sink, failed } = monitor.into_status();
    desk.close_output(sink);
    failed
}

// Writes the last line, where the relay came to counts, and closes STATUS.
fn end_status<D: Observed>(
    relayed: Result<Relayed, NoMemory>,
    posts: u8,
    mut monitor: DeskMonitor<D>,
    desk: &mut D,
) -> Outcome
    requires posts { IfOk relayed (λ it. posts ≡ length it.counts.items) }
    requires few { posts ≤ 32 }
    requires may { HasTold posts monitor.told.items (D.Pieces.written monitor.status.sink) (D.Pieces.faults monitor.status.sink) monitor.status.failed × MayWriteTallies D.Pieces.name D.Pieces.written D.Pieces.may_write D.Time.gave (D.Pieces.name monitor.status.sink) posts }
    ensures relayed { IfOk relayed (λ it. (failed : Bool) × EndsTold (D.Pieces.name monitor.status.sink) posts (Some it.counts.items) failed (D.told desk.old) (D.told desk.new) × (outcome_view result ≡ outcome_with it.end (failed || list_any has_failed it.counts.items) it.counts.items)) }
    ensures nothing { OnErr relayed ((failed : Bool) × EndsTold (D.Pieces.name monitor.status.sink) posts None failed (D.told desk.old) (D.told desk.new) × (outcome_view result ≡ unless_failed failed (Failed faults.NoMemory))) }
{
    match relayed {
        Ok(relayed) => {
            monitor.end(&relayed, posts);
            let failed = close_status(monitor, desk);
            outcome_beside(&relayed, posts, failed)
        }
        Err(_) => match close_status(monitor, desk) {
            true => Outcome::Failed(Fault::Write),
            false => Outcome::Failed(Fault::NoMemory),
        },
    }
}

//! A run of the command `feed`.

ghost use Rattle.std.specs.Prelude.{◌≡◌, ◌≤◌, ℕ, [], List, length, map, option_map, string_bytes, true, vec_capacity};
ghost use Rattle.tesla_front.specs.OutcomeView.{result_view, outcome_view};
ghost use Rattle.tesla_front.specs.Command.{Performs, RunsAs};
ghost use Rattle.tesla_relay.specs.Opening.{name_of};
ghost use Rattle.tesla_relay.specs.Posts.{PostSeen};
ghost use Rattle.tesla_run_feed.specs.Arguments.{IsFeedForm, arguments_of, status_of};
ghost use Rattle.tesla_run_feed.specs.Due.{IsCountedFor, IsCountedFrom, IsFedFor, IsFedFrom, MaySendLasting, MayWriteLasting};
ghost use Rattle.tesla_run_feed.specs.Feeding.{feed};
ghost use Rattle.tesla_run_feed.specs.Listing.{HaveSeeds, streams_in};
ghost use Rattle.tesla_run_feed.specs.Steps.{FeedsFiles, RunsLinked, TriesToFeed};

use crate::arguments::{Arguments, StatusWords};
use crate::counted::feed_open;
use crate::form::arguments_in;
use crate::listing::{SeededSetups, read_list};
use crate::ready::open_ready;
use crate::senders::ListParts;
use std::alloc::Global;
use std::sync::Wait;
use std::thread::Threads;
use tesla_desk::Observed;
use tesla_front::{Fault, Lines, Outcome, Stop, outcome_of};
use tesla_relay::close_posts;

/// Runs the words as those of `feed`: each datagram that leaves LINK is a message of the first of the streams of SETUPS
/// that hasn't ended, with the seeds in SECRETS, at the reading of the clock when it came, and its frame is sent by each of
/// POSTS in their order. Each stream but the last hands over to the next one in time. Keys are sent when they are due, also
/// while nothing comes, and after the end of LINK until the keys of the last messages and handovers were sent. Each of
/// SECRETS is opened after the setup at its place was judged, and LINK after all were read and room for the posts was
/// taken; so what comes while the key chains of the first stream are opened waits in LINK. Its sender is opened with its
/// seeds once LINK is open, and then the next clock is made, and read until it can be. Unless all streams are over at that
/// reading, the posts are opened in order, until an opening is refused, and behind them STATUS, where there is one: it gets
/// a line of the counts every EVERY seconds by that clock, and one at the end. A STATUS that fails gets no further line, and
/// stops nothing. Where the gate tells before the first interval that the run was asked to end, nothing is sent.
///
/// The senders of the later streams are opened while the feed runs, in a thread of its own where one can be made. Where one
/// is needed before it is there, the feed waits for it, and messages wait in LINK. Where one can't be opened, nothing more
/// is taken from LINK once that is known, and the feed ends when the keys of the last messages were sent, or where it
/// needs that stream.
///
/// `Done` with the lines of how many messages and disclosures were sent, how many handovers, where there are several
/// streams, how many messages were refused by each cause, and how many came while the clock couldn't be read: LINK has
/// ended, and no post failed, nor STATUS; or the run was asked to end before the first interval. `Usage` exactly where the
/// words are no form, and then nothing was opened. `Refused` as `read_list` tells, where no file behind what is wrong was
/// opened; or with the line of the first seed of the first stream that doesn't give the key of its setup; or with
/// `setup 0 Over`, where all streams are over: that reading lies behind the end of the last interval of each by more than
/// the greatest delay and 64 intervals, as where the start was written in seconds. In both of these LINK was opened,
/// nothing left it, and no post was opened. Or, behind what was fed, with the line of such a seed of a later stream, where
/// LINK and all outputs are sound. `Failed` with `Read`: a setup or seeds were not read, or LINK failed; with `Write`: a post or STATUS failed,
/// and LINK didn't; with `Open`: nothing was fed; with `NoMemory`: nothing was, or a later stream had no sender. `Read`, `Write` and `Open` come only where the desk's count
/// of that rose. It waits for the clock and for LINK.
///
/// Also in a run that never returns, POSTS alone are sent anything, and each only what is due: the frames of one feed over
/// those streams that weren't over at a reading of the clock, in order and each once, made of all datagrams that LINK
/// brought, at readings that the clock gave when it was asked for them, and of handovers and keys that are due at readings
/// that it gave. And STATUS alone is written: the lines of the counts of such datagrams at such readings.
pub fn run_feed<R: Threads + Wait + Sync, D: Observed>(
    rt: &R,
    alloc: Global,
    words: &[String],
    desk: &mut D,
) -> Outcome
    requires asks { (number : ℕ) (bytes : List ℕ) → D.Wire.brought number bytes ≡ true → D.Time.may_ask number bytes ≡ true }
    requires any_link { (link : D.Wire) → D.Wire.may_ask link ≡ true }
    requires due { (post : D.Port) (datagram : List ℕ)
        → IsFedFrom D.Time.gave D.Time.read_for (map string_bytes words.now) (D.told desk.old) (D.Port.name post) (D.Port.sent post) datagram
        → D.Port.may_send post datagram ≡ true }
    requires counted { (it : D.Pieces) (piece : List ℕ)
        → IsCountedFrom D.Time.gave D.Time.read_for (map string_bytes words.now) (D.told desk.old) (D.Pieces.name it) (D.Pieces.written it) piece
        → D.Pieces.may_write it piece ≡ true }
    ensures { RunsAs (feed D.Pause.over (D.told desk.old).live (D.told desk.new).live) (map string_bytes words.now) (D.told desk.old) (D.told desk.new) (outcome_view result) }
{
    match arguments_in(words) {
        Some(arguments) => outcome_of(perform(rt, alloc, &arguments, desk)),
        None => Outcome::Usage,
    }
}

// Does what the words ask for.
fn perform<R: Threads + Wait + Sync, D: Observed>(
    rt: &R,
    alloc: Global,
    arguments: &Arguments<'_>,
    desk: &mut D,
) -> Result<Lines, Stop>
    requires form { (spelled : List (List ℕ)) × IsFeedForm (arguments_of arguments.now) spelled }
    requires asks { (number : ℕ) (bytes : List ℕ) → D.Wire.brought number bytes ≡ true → D.Time.may_ask number bytes ≡ true }
    requires any_link { (link : D.Wire) → D.Wire.may_ask link ≡ true }
    requires due { (post : D.Port) (datagram : List ℕ)
        → IsFedFor D.Time.gave D.Time.read_for (arguments_of arguments.now) (D.told desk.old) (D.Port.name post) (D.Port.sent post) datagram
        → D.Port.may_send post datagram ≡ true }
    requires counted { (it : D.Pieces) (piece : List ℕ)
        → IsCountedFor D.Time.gave D.Time.read_for (arguments_of arguments.now) (D.told desk.old) (D.Pieces.name it) (D.Pieces.written it) piece
        → D.Pieces.may_write it piece ≡ true }
    ensures { Performs (feed D.Pause.over (D.told desk.old).live (D.told desk.new).live) (arguments_of arguments.now) (D.told desk.old) (D.told desk.new) (result_view result) }
{
    let list = read_list(alloc, arguments, desk)?;
    feed_files(rt, alloc, list, arguments, desk)
}

// Takes room for the posts, opens the link, and feeds it to the posts.
fn feed_files<R: Threads + Wait + Sync, D: Observed>(
    rt: &R,
    alloc: Global,
    list: SeededSetups,
    arguments: &Arguments<'_>,
    desk: &mut D,
) -> Result<Lines, Stop>
    requires form { (spelled : List (List ℕ)) × IsFeedForm (arguments_of arguments.now) spelled }
    requires some { 1 ≤ length list.setups.items }
    requires each { length list.seeds.items ≡ length list.setups.items }
    requires size { length list.setups.items ≤ 16 }
    requires have { HaveSeeds (streams_in list) }
    requires asks { (number : ℕ) (bytes : List ℕ) → D.Wire.brought number bytes ≡ true → D.Time.may_ask number bytes ≡ true }
    requires any_link { (link : D.Wire) → D.Wire.may_ask link ≡ true }
    requires due { let seen : D.Port → PostSeen = λ post. record { name = D.Port.name post; sent = D.Port.sent post; faults = D.Port.faults post } in
        MaySendLasting seen D.Port.may_send D.Time.gave D.Time.read_for (arguments_of arguments.now).posts (streams_in list) }
    requires counted { MayWriteLasting D.Pieces.name D.Pieces.written D.Pieces.may_write D.Time.gave D.Time.read_for (arguments_of arguments.now).status (streams_in list) }
    ensures { FeedsFiles D.Pause.over (streams_in list) (arguments_of arguments.now) (D.told desk.old) (D.told desk.new) (result_view result) }
{
    let Ok(posts) = Vec::with_capacity(alloc, arguments.posts.len()) else {
        return Err(Stop::Failed(Fault::NoMemory));
    };
    match desk.open_link(arguments.link) {
        Ok(link) => {
            let parts = ListParts { alloc, list };
            let outputs = Outputs {
                names: arguments.posts.as_slice(),
                status: &arguments.status,
            };
            run_linked(rt, parts, outputs, link, desk, posts)
        }
        Err(refusal) => {
            posts.destroy_empty();
            Err(Stop::Failed(Fault::from(refusal)))
        }
    }
}

// What a feed goes to: the posts under these names, and the file of its counts, where there is one.
#[derive(Clone, Copy)]
struct Outputs<'a> {
    names: &'a [&'a str],
    status: &'a Option<StatusWords<'a>>,
}

// Feeds an open link to the posts under these names, writes the counts to STATUS meanwhile, and closes all.
fn run_linked<R: Threads + Wait + Sync, D: Observed>(
    rt: &R,
    parts: ListParts,
    outputs: Outputs<'_>,
    mut link: D::Wire,
    desk: &mut D,
    mut posts: Vec<D::Port>,
) -> Result<Lines, Stop>
    requires some { 1 ≤ length parts.list.setups.items }
    requires each { length parts.list.seeds.items ≡ length parts.list.setups.items }
    requires size { length parts.list.setups.items ≤ 16 }
    requires have { HaveSeeds (streams_in parts.list) }
    requires few { length outputs.names.now ≤ 32 }
    requires fresh { D.Wire.faults link ≡ 0 }
    requires none { D.Wire.has_brought link 0 ≡ true }
    requires empty { posts.items ≡ [] }
    requires room { length outputs.names.now ≤ vec_capacity posts }
    requires asks { (number : ℕ) (bytes : List ℕ) → D.Wire.brought number bytes ≡ true → D.Time.may_ask number bytes ≡ true }
    requires any_link { (link : D.Wire) → D.Wire.may_ask link ≡ true }
    requires due { let seen : D.Port → PostSeen = λ post. record { name = D.Port.name post; sent = D.Port.sent post; faults = D.Port.faults post } in
        MaySendLasting seen D.Port.may_send D.Time.gave D.Time.read_for (map name_of outputs.names.now) (streams_in parts.list) }
    requires counted { MayWriteLasting D.Pieces.name D.Pieces.written D.Pieces.may_write D.Time.gave D.Time.read_for (option_map status_of outputs.status.now) (streams_in parts.list) }
    ensures { RunsLinked D.Pause.over (streams_in parts.list) (map name_of outputs.entry.names.now) (option_map status_of outputs.entry.status.now) (D.Wire.name link) (D.Wire.left link) (D.told desk.old) (D.told desk.new) (result_view result) }
{
    let outcome = try_to_feed(rt, parts, outputs, &mut link, desk, &mut posts);
    close_posts(desk, &mut posts);
    posts.destroy_empty();
    desk.close_link(link);
    outcome
}

// Opens the first sender, a feed over the list and the posts, and feeds an open link to them, with STATUS, where there is one.
fn try_to_feed<R: Threads + Wait + Sync, D: Observed>(
    rt: &R,
    parts: ListParts,
    outputs: Outputs<'_>,
    link: &mut D::Wire,
    desk: &mut D,
    posts: &mut Vec<D::Port>,
) -> Result<Lines, Stop>
    requires some { 1 ≤ length parts.list.setups.items }
    requires each { length parts.list.seeds.items ≡ length parts.list.setups.items }
    requires size { length parts.list.setups.items ≤ 16 }
    requires have { HaveSeeds (streams_in parts.list) }
    requires few { length outputs.names.now ≤ 32 }
    requires empty { posts.old.items ≡ [] }
    requires room { length outputs.names.now ≤ vec_capacity posts.old }
    requires none { D.Wire.has_brought link.old 0 ≡ true }
    requires asks { (number : ℕ) (bytes : List ℕ) → D.Wire.brought number bytes ≡ true → D.Time.may_ask number bytes ≡ true }
    requires any_link { (link : D.Wire) → D.Wire.may_ask link ≡ true }
    requires due { let seen : D.Port → PostSeen = λ post. record { name = D.Port.name post; sent = D.Port.sent post; faults = D.Port.faults post } in
        MaySendLasting seen D.Port.may_send D.Time.gave D.Time.read_for (map name_of outputs.names.now) (streams_in parts.list) }
    requires counted { MayWriteLasting D.Pieces.name D.Pieces.written D.Pieces.may_write D.Time.gave D.Time.read_for (option_map status_of outputs.status.now) (streams_in parts.list) }
    ensures tries { TriesToFeed D.Pause.over (streams_in parts.list) (map name_of outputs.entry.names.now) (option_map status_of outputs.entry.status.now) (D.Wire.left link.old) (D.Wire.left link.new) (D.Wire.faults link.old) (D.Wire.faults link.new) (D.told desk.old) (D.told desk.new) (map (λ post. record { name = D.Port.name post; sent = D.Port.sent post; faults = D.Port.faults post }) posts.new.items) (result_view result) }
    ensures name { D.Wire.name link.new ≡ D.Wire.name link.old }
{
    let ready = open_ready(rt, parts, outputs.names, desk, posts)?;
    feed_open(rt, ready, outputs.status, link, desk, posts)
}

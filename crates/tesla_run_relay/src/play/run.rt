//! A run of the command `play`.

ghost use Rattle.std.specs.Prelude.{◌≡◌, ◌≤◌, ℕ, [], List, length, map, string_bytes, true, vec_capacity};
ghost use Rattle.tesla_desk.specs.Faults.{HasCause};
ghost use Rattle.tesla_front.specs.OutcomeView.{outcome_view};
ghost use Rattle.tesla_front.specs.Command.{Performs, RunsAs};
ghost use Rattle.tesla_relay.specs.Due.{AreFirstOf, IsNextPlayed};
ghost use Rattle.tesla_relay.specs.Opening.{name_of};
ghost use Rattle.tesla_relay.specs.Posts.{PostSeen};
ghost use Rattle.tesla_run_relay.specs.play.Arguments.{IsPlayForm, arguments_of};
ghost use Rattle.tesla_run_relay.specs.play.Due.{AreFirstIn, IsDue, IsNextUnder};
ghost use Rattle.tesla_run_relay.specs.play.Playing.{outcome_with, play};
ghost use Rattle.tesla_run_relay.specs.play.Steps.{OpensAndPlays, PlaysMade, RunsOpened};

use crate::play::form::{Arguments, arguments_in};
use std::alloc::Global;
use std::sync::Wait;
use tesla_base::Kind;
use tesla_desk::Environment;
use tesla_front::{Fault, Lines, Outcome, add_count, refused};
use tesla_relay::{PlayEnd, close_posts, open_posts, play};

/// Runs the words as those of `play`: the arrivals of CAPTURE are sent, each to all of POSTS in their order, once the next clock
/// gives the arrival's reading. Takes are skipped. Room for the posts is taken first, then CAPTURE is opened, and then the posts.
///
/// `Done` with the line of how many arrivals there were. `Refused` where CAPTURE is no capture, with the first place that is
/// refused, and then the arrivals before it were sent. `Usage` exactly where the words are no form, and then nothing was
/// opened. `Failed` with what went wrong first, `Read`, `Write` and `Open` only where the desk's count of that rose: after a
/// failed read, or a post that failed, nothing is sent. It waits for the clock.
///
/// While it runs each of POSTS may send what comes next for it: the arrivals of CAPTURE, in order and each once, each
/// once a clock gave its reading or a later one. Nothing else is sent, whether the run ends or not.
pub fn run_play<R: Wait, D: Environment>(
    rt: &R,
    alloc: Global,
    words: &[String],
    desk: &mut D,
) -> Outcome
    requires due { (post : D.Port) (datagram : List ℕ) → IsDue D.Time.gave (D.told desk.old) (map string_bytes words.now) (D.Port.name post) (D.Port.sent post) datagram → D.Port.may_send post datagram ≡ true }
    ensures { RunsAs (play (D.told desk.old).live (D.told desk.new).live) (map string_bytes words.now) (D.told desk.old) (D.told desk.new) (outcome_view result) }
{
    match arguments_in(words) {
        Some(arguments) => perform(rt, alloc, &arguments, desk),
        None => Outcome::Usage,
    }
}

// Does what the words ask for: takes room for the posts, opens the capture, and plays it.
fn perform<R: Wait, D: Environment>(
    rt: &R,
    alloc: Global,
    arguments: &Arguments<'_>,
    desk: &mut D,
) -> Outcome
    requires form { (spelled : List (List ℕ)) × IsPlayForm (arguments_of arguments.now) spelled }
    requires due { (post : D.Port) (datagram : List ℕ) → IsNextUnder D.Time.gave (AreFirstIn ((D.told desk.old).page (arguments_of arguments.now).capture)) (arguments_of arguments.now).posts (D.Port.name post) (D.Port.sent post) datagram → D.Port.may_send post datagram ≡ true }
    ensures { Performs (play (D.told desk.old).live (D.told desk.new).live) (arguments_of arguments.now) (D.told desk.old) (D.told desk.new) (outcome_view result) }
{
    let Ok(posts) = Vec::with_capacity(alloc, arguments.posts.len()) else {
        return Outcome::Failed(Fault::NoMemory);
    };
    match desk.open_source(arguments.capture) {
        Ok(source) => run_opened(rt, arguments.posts.as_slice(), source, desk, posts),
        Err(refusal) => {
            posts.destroy_empty();
            Outcome::Failed(Fault::from(refusal))
        }
    }
}

// Plays an open capture to the posts under these names, and closes all.
fn run_opened<R: Wait, D: Environment>(
    rt: &R,
    names: &[&str],
    mut source: D::In,
    desk: &mut D,
    mut posts: Vec<D::Port>,
) -> Outcome
    requires fresh { D.In.faults source ≡ 0 }
    requires empty { posts.items ≡ [] }
    requires room { length names.now ≤ vec_capacity posts }
    requires due { (post : D.Port) (datagram : List ℕ) → IsNextUnder D.Time.gave (AreFirstOf (D.In.left source)) (map name_of names.now) (D.Port.name post) (D.Port.sent post) datagram → D.Port.may_send post datagram ≡ true }
    ensures { RunsOpened (map name_of names.now) (D.In.name source) (D.In.left source) (D.told desk.old) (D.told desk.new) (outcome_view result) }
{
    let outcome = open_and_play(rt, names, &mut source, desk, &mut posts);
    close_posts(desk, &mut posts);
    posts.destroy_empty();
    desk.close_source(source);
    outcome
}

// Opens the posts, and plays the capture to them.
fn open_and_play<R: Wait, D: Environment>(
    rt: &R,
    names: &[&str],
    source: &mut D::In,
    desk: &mut D,
    posts: &mut Vec<D::Port>,
) -> Outcome
    requires empty { posts.old.items ≡ [] }
    requires room { length names.now ≤ vec_capacity posts.old }
    requires due { (post : D.Port) (datagram : List ℕ) → IsNextUnder D.Time.gave (AreFirstOf (D.In.left source.old)) (map name_of names.now) (D.Port.name post) (D.Port.sent post) datagram → D.Port.may_send post datagram ≡ true }
    ensures plays { OpensAndPlays (map name_of names.now) (D.In.left source.old) (D.In.left source.new) (D.In.faults source.old) (D.In.faults source.new) (D.told desk.old) (D.told desk.new) (map (λ post. record { name = D.Port.name post; sent = D.Port.sent post; faults = D.Port.faults post }) posts.new.items) (outcome_view result) }
    ensures name { D.In.name source.new ≡ D.In.name source.old }
{
    match open_posts(desk, names, posts) {
        Ok(()) => outcome_of(play_made(rt, source, desk, posts)),
        Err(fault) => Outcome::Failed(fault),
    }
}

// Plays the capture to open posts, with a new clock and a new gate.
fn play_made<R: Wait, D: Environment>(
    rt: &R,
    source: &mut D::In,
    desk: &mut D,
    posts: &mut Vec<D::Port>,
) -> PlayEnd
    requires due { let seen : D.Port → PostSeen = λ post. record { name = D.Port.name post; sent = D.Port.sent post; faults = D.Port.faults post } in
        (post : D.Port) (datagram : List ℕ) → IsNextPlayed D.Time.gave (D.In.left source.old) (map seen posts.old.items) (seen post) datagram → D.Port.may_send post datagram ≡ true }
    ensures plays { let seen : List D.Port → List PostSeen = λ posts. map (λ post. record { name = D.Port.name post; sent = D.Port.sent post; faults = D.Port.faults post }) posts in
        PlaysMade result (D.In.left source.old) (D.In.left source.new) (seen posts.old.items) (seen posts.new.items) (D.told desk.old) (D.told desk.new) }
    ensures cause { HasCause (D.In.faults source.old) (D.In.faults source.new) (result ≡ PlayEnd.ReadFault) }
    ensures name { D.In.name source.new ≡ D.In.name source.old }
{
    let mut clock = desk.clock();
    let mut gate = desk.gate();
    play(rt, source, &mut clock, posts.as_mut_slice(), &mut gate)
}

// What a play comes to.
fn outcome_of(end: PlayEnd) -> Outcome
    ensures { outcome_view result ≡ outcome_with end }
{
    match end {
        PlayEnd::Ended { sent } => {
            let mut lines = Lines::new();
            add_count(&mut lines, "played", sent);
            Outcome::Done(lines)
        }
        PlayEnd::Refused { place, kind } => {
            Outcome::Refused(refused(3, "capture", place, kind.name()))
        }
        PlayEnd::ReadFault => Outcome::Failed(Fault::Read),
        PlayEnd::PostFault => Outcome::Failed(Fault::Write),
    }
}

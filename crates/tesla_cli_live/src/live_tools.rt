//! The live tools: their forms, which word names each, and one run of them.

ghost use Rattle.std.specs.Prelude.{◌≡◌, None, true, false, map, string_bytes, List, Option, ℕ};
ghost use Rattle.tesla_front.specs.OutcomeView.{OutcomeView, Usage, outcome_view, status_of};
ghost use Rattle.tesla_front.specs.Command.{RunsAs};
ghost use Rattle.tesla_front.specs.Run.{HasStatusCauses};
ghost use Rattle.tesla_desk.specs.Outside.{Told};
ghost use Rattle.tesla_front.specs.Table.{OpensConsole};
ghost use Rattle.tesla_cli_live.specs.Allowed.{AllowsLiveTools};
ghost use Rattle.tesla_cli_live.specs.Commands.{IsLiveTool, LeavesHistory, RunsLiveTools, followed_in, live_tool_of, watched_in};

use std::alloc::Global;
use std::sync::Wait;
use std::thread::Threads;
use tesla_desk::Observed;
use tesla_follow_station::CountedFollower;
use tesla_front::{
    FormText, LiveRun, Outcome, is_named, open_console, report_run, without_history,
};
use tesla_recorder::watched::Watched;
use tesla_relay::PostQueues;
use tesla_run_capture::{CAPTURE, run_capture};
use tesla_run_feed::{FEED, FEED_STATUS, run_feed};
use tesla_run_follow::{FOLLOW, run_follow};
use tesla_run_receive::watch::{WATCH, run_watch};
use tesla_run_relay::watch::{WATCH_RELAY, run_watch_relay};
use tesla_turn::Last;

/// The forms of the tools, in the order in which they are told.
pub const FORMS: [FormText; 6] = [CAPTURE, FEED, FEED_STATUS, WATCH, WATCH_RELAY, FOLLOW];

/// Whether the words are for this table: the first of them names one of its tools.
pub fn is_live_tool(words: &[String]) -> bool
    ensures yes { result ≡ true → IsLiveTool (map string_bytes words.now) }
    ensures no { result ≡ false → IsLiveTool (map string_bytes words.now) → ⊥ }
{
    is_named(
        words,
        &["capture", "feed", "watch", "watch-relay", "follow"],
    )
}

/// The whole history of a tool that leaves one.
#[derive(Drop)]
pub enum ToolLast {
    /// That of `watch`.
    Watched(Last<Watched>),
    /// That of `follow`.
    Followed(Last<CountedFollower>),
}

// A run of `watch`, with its history as that of a tool.
fn of_watch(run: LiveRun<Last<Watched>>) -> LiveRun<ToolLast>
    ensures outcome { result.outcome ≡ run.outcome }
    ensures last { watched_in result.last ≡ run.last }
    ensures none { run.last ≡ None → result.last ≡ None }
{
    let LiveRun { outcome, last } = run;
    let last = match last {
        Some(last) => Some(ToolLast::Watched(last)),
        None => None,
    };
    LiveRun { outcome, last }
}

// A run of `follow`, with its history as that of a tool.
fn of_follow(run: LiveRun<Last<CountedFollower>>) -> LiveRun<ToolLast>
    ensures outcome { result.outcome ≡ run.outcome }
    ensures last { followed_in result.last ≡ run.last }
    ensures none { run.last ≡ None → result.last ≡ None }
{
    let LiveRun { outcome, last } = run;
    let last = match last {
        Some(last) => Some(ToolLast::Followed(last)),
        None => None,
    };
    LiveRun { outcome, last }
}

// Runs the words as those of the tool that the first of them names. `Usage` where it names none, or there is no word,
// and then nothing was opened. There is a history behind `watch` and `follow` alone.
fn run_words<R: Threads + Wait + Sync, D: Observed + PostQueues>(
    rt: &R,
    alloc: Global,
    words: &[String],
    desk: &mut D,
) -> LiveRun<ToolLast>
    requires { AllowsLiveTools D.Pieces.name D.Pieces.written D.Pieces.may_write D.Port.name D.Port.sent D.Port.may_send D.Wire.brought D.Wire.may_ask D.Time.may_ask D.Time.gave D.Time.read_for D.Wire.has_brought D.was_put D.was_full (map string_bytes words.now) (D.told desk.old) }
    ensures runs { RunsAs (live_tool_of D.Pause.over (D.told desk.old).live (D.told desk.new).live result.last (map string_bytes words.now)) (map string_bytes words.now) (D.told desk.old) (D.told desk.new) (outcome_view result.outcome) }
    ensures none { outcome_view result.outcome ≡ Usage → result.last ≡ None }
    ensures others { (LeavesHistory (map string_bytes words.now) → ⊥) → result.last ≡ None }
{
    match words {
        [] => without_history(Outcome::Usage),
        [word, ..] if word.as_str() == "capture" => {
            without_history(run_capture(rt, words, desk))
        }
        [word, ..] if word.as_str() == "feed" => without_history(run_feed(rt, alloc, words, desk)),
        [word, ..] if word.as_str() == "watch" => of_watch(run_watch(rt, alloc, words, desk)),
        [word, ..] if word.as_str() == "watch-relay" => {
            without_history(run_watch_relay(rt, alloc, words, desk))
        }
        [word, ..] if word.as_str() == "follow" => of_follow(run_follow(rt, alloc, words, desk)),
        _ => without_history(Outcome::Usage),
    }
}

// Opens the console, runs the words, tells the console what they came to, and closes it.
fn run_told<R: Threads + Wait + Sync, D: Observed + PostQueues>(
    rt: &R,
    alloc: Global,
    words: &[String],
    desk: &mut D,
) -> LiveRun<ToolLast>
    requires allowed { (told : Told) (before : Option (List ℕ)) → OpensConsole (D.told desk.old) told before → AllowsLiveTools D.Pieces.name D.Pieces.written D.Pieces.may_write D.Port.name D.Port.sent D.Port.may_send D.Wire.brought D.Wire.may_ask D.Time.may_ask D.Time.gave D.Time.read_for D.Wire.has_brought D.was_put D.was_full (map string_bytes words.now) told }
    ensures { RunsLiveTools D.Pause.over (map string_bytes words.now) (D.told desk.old) (D.told desk.new) result.last (outcome_view result.outcome) }
{
    match open_console(desk) {
        Ok(console) => {
            let run = run_words(rt, alloc, words, desk);
            report_run(console, desk, &FORMS, run)
        }
        Err(fault) => without_history(Outcome::Failed(fault)),
    }
}

/// What a run of a live tool came to.
#[derive(Drop)]
pub struct LiveToolsDone {
    /// The status that the program ends with.
    pub status: u8,
    /// The whole history of `watch` or `follow`, where its links and outputs were opened and its workers ran; `None` of every
    /// other tool. It takes no bytes.
    pub last: Option<ToolLast>,
}

/// Runs the words as those of the live tool that the first of them names, over the desk.
///
/// The console is opened first, and then what the tool opens, each once, in the order of its form and as far as it
/// comes. What the tool came to is told on the console. It waits for links, for the turns of workers, and for the
/// readings of clocks.
///
/// 0: it came to its end, and its lines were told. 1: the words are no form of a tool. 2: SETUP isn't a setup. 3:
/// SECRET isn't seeds of it. 4: a link, or a read of SETUP or SECRET, failed. 5: a write or a post failed. 6: there was
/// no memory, and nothing was received. 7: something wasn't opened. 11: the calls of a worker were spent.
pub fn run_live_tools<R: Threads + Wait + Sync, D: Observed + PostQueues>(
    rt: &R,
    alloc: Global,
    words: &[String],
    desk: &mut D,
) -> LiveToolsDone
    requires allowed { (told : Told) (before : Option (List ℕ)) → OpensConsole (D.told desk.old) told before → AllowsLiveTools D.Pieces.name D.Pieces.written D.Pieces.may_write D.Port.name D.Port.sent D.Port.may_send D.Wire.brought D.Wire.may_ask D.Time.may_ask D.Time.gave D.Time.read_for D.Wire.has_brought D.was_put D.was_full (map string_bytes words.now) told }
    ensures outcome { (reported : OutcomeView) × (result.status ≡ status_of reported) × RunsLiveTools D.Pause.over (map string_bytes words.now) (D.told desk.old) (D.told desk.new) result.last reported }
    ensures causes { HasStatusCauses result.status (D.told desk.old).faults (D.told desk.new).faults }
{
    let run = run_told(rt, alloc, words, desk);
    LiveToolsDone {
        status: run.outcome.status(),
        last: run.last,
    }
}

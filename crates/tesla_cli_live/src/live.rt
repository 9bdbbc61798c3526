//! The live commands: their forms, which word names each, and one run of them.

ghost use Rattle.std.specs.Prelude.{◌≡◌, None, true, false, map, string_bytes, List, Option, ℕ};
ghost use Rattle.tesla_front.specs.OutcomeView.{OutcomeView, Usage, outcome_view, status_of};
ghost use Rattle.tesla_front.specs.Command.{RunsAs};
ghost use Rattle.tesla_front.specs.Run.{HasStatusCauses};
ghost use Rattle.tesla_desk.specs.Outside.{Told};
ghost use Rattle.tesla_front.specs.Table.{OpensConsole};
ghost use Rattle.tesla_cli_live.specs.Allowed.{AllowsLive};
ghost use Rattle.tesla_cli_live.specs.Commands.{IsLive, IsReceive, RunsLive, live_of};

use std::alloc::Global;
use std::sync::Wait;
use std::thread::Threads;
use tesla_desk::Environment;
use tesla_front::{
    FormText, LiveRun, Outcome, is_named, open_console, report_run, without_history,
};
use tesla_receiver::Receiver;
use tesla_relay::PostQueues;
use tesla_run_receive::{RECEIVE, run_receive};
use tesla_run_relay::play::{PLAY, run_play};
use tesla_run_relay::{RELAY, run_relay};
use tesla_turn::Last;

/// The forms of the commands, in the order in which they are told.
pub const FORMS: [FormText; 3] = [RECEIVE, RELAY, PLAY];

/// Whether the words are for this table: the first of them names one of its commands.
pub fn is_live(words: &[String]) -> bool
    ensures yes { result ≡ true → IsLive (map string_bytes words.now) }
    ensures no { result ≡ false → IsLive (map string_bytes words.now) → ⊥ }
{
    is_named(words, &["receive", "relay", "play"])
}

// Runs the words as those of the command that the first of them names. `Usage` where it names none, or there is no
// word, and then nothing was opened. There is a history behind `receive` alone.
fn run_words<R: Threads + Wait + Sync, D: Environment + PostQueues>(
    rt: &R,
    alloc: Global,
    words: &[String],
    desk: &mut D,
) -> LiveRun<Last<Receiver>>
    requires { AllowsLive D.Pieces.name D.Pieces.written D.Pieces.may_write D.Port.name D.Port.sent D.Port.may_send D.Wire.brought D.Wire.may_ask D.Time.may_ask D.Time.gave D.Time.read_for D.Wire.has_brought D.was_put D.was_full (map string_bytes words.now) (D.told desk.old) }
    ensures runs { RunsAs (live_of (D.told desk.old).live (D.told desk.new).live result.last (map string_bytes words.now)) (map string_bytes words.now) (D.told desk.old) (D.told desk.new) (outcome_view result.outcome) }
    ensures none { outcome_view result.outcome ≡ Usage → result.last ≡ None }
    ensures others { (IsReceive (map string_bytes words.now) → ⊥) → result.last ≡ None }
{
    match words {
        [word, ..] if word.as_str() == "receive" => run_receive(rt, alloc, words, desk),
        [word, ..] if word.as_str() == "relay" => without_history(run_relay(
            rt, alloc, words, desk,
        )),
        [word, ..] if word.as_str() == "play" => without_history(run_play(rt, alloc, words, desk)),
        _ => without_history(Outcome::Usage),
    }
}

// Opens the console, runs the words, tells the console what they came to, and closes it.
fn run_told<R: Threads + Wait + Sync, D: Environment + PostQueues>(
    rt: &R,
    alloc: Global,
    words: &[String],
    desk: &mut D,
) -> LiveRun<Last<Receiver>>
    requires allowed { (told : Told) (before : Option (List ℕ)) → OpensConsole (D.told desk.old) told before → AllowsLive D.Pieces.name D.Pieces.written D.Pieces.may_write D.Port.name D.Port.sent D.Port.may_send D.Wire.brought D.Wire.may_ask D.Time.may_ask D.Time.gave D.Time.read_for D.Wire.has_brought D.was_put D.was_full (map string_bytes words.now) told }
    ensures { RunsLive (map string_bytes words.now) (D.told desk.old) (D.told desk.new) result.last (outcome_view result.outcome) }
{
    match open_console(desk) {
        Ok(console) => {
            let run = run_words(rt, alloc, words, desk);
            report_run(console, desk, &FORMS, run)
        }
        Err(fault) => without_history(Outcome::Failed(fault)),
    }
}

/// What a run of a live command came to.
#[derive(Drop)]
pub struct Done {
    /// The status that the program ends with.
    pub status: u8,
    /// The whole history of `receive`, where its links and sinks were opened and its workers ran; `None` of every other
    /// command. It takes no bytes.
    pub last: Option<Last<Receiver>>,
}

/// Runs the words as those of the command that the first of them names, over the desk.
///
/// The console is opened first, and then what the command opens, each once, in the order of its form and as far as it
/// comes. What the command came to is told on the console. It waits for links, for the turns of its workers, and for
/// the readings of clocks.
///
/// 0: it came to its end, and the report was told. 1: the words are no form of a command. 2: SETUP isn't a setup. 3:
/// CAPTURE is no capture, and the arrivals before the place that is refused were sent. 4: a link, or a read of SETUP or
/// CAPTURE, failed. 5: a write or a post failed. 6: there was no memory, and nothing was received or sent. 7: something
/// wasn't opened. 11: the calls of a worker were spent.
pub fn run_live<R: Threads + Wait + Sync, D: Environment + PostQueues>(
    rt: &R,
    alloc: Global,
    words: &[String],
    desk: &mut D,
) -> Done
    requires allowed { (told : Told) (before : Option (List ℕ)) → OpensConsole (D.told desk.old) told before → AllowsLive D.Pieces.name D.Pieces.written D.Pieces.may_write D.Port.name D.Port.sent D.Port.may_send D.Wire.brought D.Wire.may_ask D.Time.may_ask D.Time.gave D.Time.read_for D.Wire.has_brought D.was_put D.was_full (map string_bytes words.now) told }
    ensures outcome { (reported : OutcomeView) × (result.status ≡ status_of reported) × RunsLive (map string_bytes words.now) (D.told desk.old) (D.told desk.new) result.last reported }
    ensures causes { HasStatusCauses result.status (D.told desk.old).faults (D.told desk.new).faults }
{
    let run = run_told(rt, alloc, words, desk);
    Done {
        status: run.outcome.status(),
        last: run.last,
    }
}

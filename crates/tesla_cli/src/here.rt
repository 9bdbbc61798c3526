//! The commands over files: their forms, which word names each, and one run of them.

ghost use Rattle.std.specs.Prelude.{◌≡◌, map, string_bytes};
ghost use Rattle.tesla_front.specs.OutcomeView.{OutcomeView, outcome_view, status_of};
ghost use Rattle.tesla_front.specs.Command.{RunsAs};
ghost use Rattle.tesla_front.specs.Run.{HasStatusCauses, Runs};
ghost use Rattle.tesla_front.specs.Usage.{usage_of};
ghost use Rattle.tesla_cli.specs.Commands.{command_of, usage};

use std::alloc::Global;
use tesla_desk::Desk;
use tesla_front::{FormText, LiveRun, Outcome, run_table};
use tesla_run_ask::lag::{LAG, run_lag};
use tesla_run_audit::trace::{TRACE, run_trace};
use tesla_run_audit::{AUDIT, run_audit};
use tesla_run_chain::{CHAIN, CHAIN_TWO, run_chain};
use tesla_run_early::{EARLY, run_early};
use tesla_run_replay::{REPLAY, run_replay};
use tesla_run_roll::{ROLL, run_roll};
use tesla_run_send::{SEND, run_send};
use tesla_run_stress::{STRESS, run_stress};
use tesla_run_weave::{WEAVE, run_weave};

/// The forms of the commands, in the order in which they are told.
pub const FORMS: [FormText; 11] = [
    REPLAY, CHAIN, CHAIN_TWO, SEND, LAG, STRESS, ROLL, WEAVE, EARLY, TRACE, AUDIT,
];

// Runs the words as those of the command that the first of them names. `Usage` where it names none, or there is no
// word, and then nothing was opened.
fn run_words<D: Desk>(alloc: Global, words: &[String], desk: &mut D) -> Outcome
    ensures runs { RunsAs (command_of (map string_bytes words.now)) (map string_bytes words.now) (D.told desk.old) (D.told desk.new) (outcome_view result) }
    ensures live { (D.told desk.new).live ≡ (D.told desk.old).live }
{
    match words {
        [word, ..] if word.as_str() == "replay" => run_replay(alloc, words, desk),
        [word, ..] if word.as_str() == "chain" => run_chain(alloc, words, desk),
        [word, ..] if word.as_str() == "chain2" => run_chain(alloc, words, desk),
        [word, ..] if word.as_str() == "send" => run_send(alloc, words, desk),
        [word, ..] if word.as_str() == "lag" => run_lag(alloc, words, desk),
        [word, ..] if word.as_str() == "stress" => run_stress(alloc, words, desk),
        [word, ..] if word.as_str() == "roll" => run_roll(alloc, words, desk),
        [word, ..] if word.as_str() == "weave" => run_weave(alloc, words, desk),
        [word, ..] if word.as_str() == "early" => run_early(alloc, words, desk),
        [word, ..] if word.as_str() == "trace" => run_trace(alloc, words, desk),
        [word, ..] if word.as_str() == "audit" => run_audit(alloc, words, desk),
        _ => Outcome::Usage,
    }
}

/// Runs the words as those of the command that the first of them names, over the desk, and gives its status.
///
/// The console is opened first, and then the files of the command, each once, in the order of its form and as far as it
/// comes. What the command came to is told on the console: it is the first thing that went wrong.
///
/// 0: it came to its end, and its lines were told. 1: the words are no form of a command. 2: SETUP isn't a setup. 3:
/// CAPTURE isn't a capture, or SCRIPT isn't a script or has a record that the sender refuses, and what stands before
/// the refused place was played or sent, and written; or SECRET doesn't have the seeds that are wanted; or ASK isn't an
/// ask, or KEY isn't a key; or TRACE isn't a trace, and all entries before the refused place are right. 4: a read
/// failed. 5: a write failed. 6: there was no memory. 7: something wasn't opened. 8: an entry of TRACE is wrong. 9: the
/// lag is too large. 10: REPLY is refused.
///
/// At 0 to 3 and 6 to 10 no read and no write of a file failed, at 5 no read, and at 4 a write only while what was made
/// before was written. No link, post or clock is made.
pub fn run_here<D: Desk>(alloc: Global, words: &[String], desk: &mut D) -> u8
    ensures outcome { (reported : OutcomeView) × (result ≡ status_of reported) × Runs (command_of (map string_bytes words.now)) usage (map string_bytes words.now) (D.told desk.old) (D.told desk.new) reported }
    ensures live { (D.told desk.new).live ≡ (D.told desk.old).live }
    ensures causes { HasStatusCauses result (D.told desk.old).faults (D.told desk.new).faults }
{
    let run = run_table(
        words,
        desk,
        forms(),
        move |words: &[String], desk: &mut D|
            ensures runs { RunsAs (command_of (map string_bytes words.now)) (map string_bytes words.now) (D.told desk.old) (D.told desk.new) (outcome_view result.outcome) }
            ensures live { (D.told desk.new).live ≡ (D.told desk.old).live }
        {
            LiveRun {
                outcome: run_words(alloc, words, desk),
                last: None::<()>,
            }
        },
    );
    run.outcome.status()
}

// The forms of the commands, in the order in which they are told.
fn forms() -> &'static [FormText]
    ensures { usage_of result.now ≡ usage }
{
    &FORMS
}

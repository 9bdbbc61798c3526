//! The tools beside the protocol, of an exchange of times, of traces and for an operator: their forms, which word names
//! each, and one run of them.

ghost use Rattle.std.specs.Prelude.{◌≡◌, true, false, map, string_bytes};
ghost use Rattle.tesla_front.specs.OutcomeView.{OutcomeView, outcome_view, status_of};
ghost use Rattle.tesla_front.specs.Command.{RunsAs};
ghost use Rattle.tesla_front.specs.Printing.{RunsPrinting};
ghost use Rattle.tesla_front.specs.Run.{HasStatusCauses, Runs};
ghost use Rattle.tesla_front.specs.Usage.{usage_of};
ghost use Rattle.tesla_run_audit.specs.show.Show.{show};
ghost use Rattle.tesla_cli.specs.Commands.{IsTool, KeepsLive, RunsTool, names_show, tool_of, tool_usage};

use std::alloc::Global;
use tesla_desk::Desk;
use tesla_front::{FormText, LiveRun, Outcome, is_named, open_console, run_table, tell_printed};
use tesla_run_ask::{ASK, REPLY, run_ask, run_reply};
use tesla_run_audit::show::{SHOW, run_show};
use tesla_run_info::info::{INFO, run_info};
use tesla_run_info::seeds::{SEEDS, run_seeds};

/// The forms of the tools, in the order in which they are told.
pub const TOOLS: [FormText; 5] = [ASK, REPLY, SHOW, SEEDS, INFO];

/// Whether the words are for this table: the first of them names one of its tools.
pub fn is_tool(words: &[String]) -> bool
    ensures yes { result ≡ true → IsTool (map string_bytes words.now) }
    ensures no { result ≡ false → IsTool (map string_bytes words.now) → ⊥ }
{
    is_named(words, &["ask", "reply", "show", "seeds", "info"])
}

// Whether the first of the words names `show`, which prints lines while it goes.
fn is_show(words: &[String]) -> bool
    ensures { result ≡ names_show (map string_bytes words.now) }
{
    match words {
        [word, ..] => word.as_str() == "show",
        [] => false,
    }
}

// Runs the words as those of the tool that the first of them names, other than `show`. `Usage` where it names none, or
// there is no word, and then nothing was opened.
fn run_words<D: Desk>(alloc: Global, words: &[String], desk: &mut D) -> Outcome
    ensures runs { RunsAs (tool_of (D.told desk.old).live (D.told desk.new).live (map string_bytes words.now)) (map string_bytes words.now) (D.told desk.old) (D.told desk.new) (outcome_view result) }
    ensures live { KeepsLive (map string_bytes words.now) (D.told desk.old).live (D.told desk.new).live }
{
    match words {
        [word, ..] if word.as_str() == "ask" => run_ask(words, desk),
        [word, ..] if word.as_str() == "reply" => run_reply(alloc, words, desk),
        [word, ..] if word.as_str() == "seeds" => run_seeds(alloc, words, desk),
        [word, ..] if word.as_str() == "info" => run_info(alloc, words, desk),
        _ => Outcome::Usage,
    }
}

/// Runs the words as those of the tool that the first of them names, over the desk, and gives its status.
///
/// The console is opened first, and then the files of the command, each once, in the order of its form and as far as it
/// comes. What the command came to is told on the console: it is the first thing that went wrong. `show` prints its
/// lines before that, while it reads; once a write of them failed nothing more is written.
///
/// 0: it came to its end, and its lines were told. 1: the words are no form of a tool. 2: SETUP isn't a setup, or two of
/// its chains have the same commitment. 3: ASK isn't an ask, or KEY isn't a key, or the random bytes ended early or give
/// a seed that is all zeros or stands twice, and no output was opened; or TRACE is refused, behind the lines of the
/// entries before. 4: a read failed. 5: a write failed. 6: there was no memory. 7: something wasn't opened.
///
/// At 0 to 3, 6 and 7 no read and no write of a file failed, at 5 no read, and at 4 no write. No link or post is made,
/// and a clock by `info` alone, once its setup was judged.
pub fn run_tools<D: Desk>(alloc: Global, words: &[String], desk: &mut D) -> u8
    ensures outcome { (reported : OutcomeView) × (result ≡ status_of reported) × RunsTool (map string_bytes words.now) (D.told desk.old) (D.told desk.new) reported }
    ensures live { KeepsLive (map string_bytes words.now) (D.told desk.old).live (D.told desk.new).live }
    ensures causes { HasStatusCauses result (D.told desk.old).faults (D.told desk.new).faults }
{
    run_reported(alloc, words, desk).status()
}

// The same, with what it came to as it was told.
fn run_reported<D: Desk>(alloc: Global, words: &[String], desk: &mut D) -> Outcome
    ensures runs { RunsTool (map string_bytes words.now) (D.told desk.old) (D.told desk.new) (outcome_view result) }
    ensures live { KeepsLive (map string_bytes words.now) (D.told desk.old).live (D.told desk.new).live }
{
    if is_show(words) {
        run_printing(words, desk)
    } else {
        run_silently(alloc, words, desk)
    }
}

// Runs the words as those of a tool that prints nothing before its end.
fn run_silently<D: Desk>(alloc: Global, words: &[String], desk: &mut D) -> Outcome
    ensures runs { Runs (tool_of (D.told desk.old).live (D.told desk.new).live (map string_bytes words.now)) tool_usage (map string_bytes words.now) (D.told desk.old) (D.told desk.new) (outcome_view result) }
    ensures live { KeepsLive (map string_bytes words.now) (D.told desk.old).live (D.told desk.new).live }
{
    let run = run_table(
        words,
        desk,
        forms(),
        move |words: &[String], desk: &mut D|
            ensures runs { RunsAs (tool_of (D.told desk.old).live (D.told desk.new).live (map string_bytes words.now)) (map string_bytes words.now) (D.told desk.old) (D.told desk.new) (outcome_view result.outcome) }
            ensures live { KeepsLive (map string_bytes words.now) (D.told desk.old).live (D.told desk.new).live }
        {
            LiveRun {
                outcome: run_words(alloc, words, desk),
                last: None::<()>,
            }
        },
    );
    run.outcome
}

// Runs the words as those of `show`, which prints its lines on the console.
fn run_printing<D: Desk>(words: &[String], desk: &mut D) -> Outcome
    ensures runs { RunsPrinting show tool_usage (map string_bytes words.now) (D.told desk.old) (D.told desk.new) (outcome_view result) }
    ensures live { (D.told desk.new).live ≡ (D.told desk.old).live }
{
    match open_console(desk) {
        Ok(mut console) => {
            let printed = run_show(words, &mut console, desk);
            let reported = tell_printed(&mut console, forms(), printed);
            desk.close_sink(console);
            reported
        }
        Err(fault) => Outcome::Failed(fault),
    }
}

// The forms of the tools, in the order in which they are told.
fn forms() -> &'static [FormText]
    ensures { usage_of result.now ≡ tool_usage }
{
    &TOOLS
}

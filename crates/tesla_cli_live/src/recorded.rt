//! The command `record`: its form, which word names it, and one run of it.

ghost use Rattle.std.specs.Prelude.{◌≡◌, true, false, map, string_bytes, List, Option, ℕ};
ghost use Rattle.tesla_front.specs.OutcomeView.{OutcomeView, outcome_view, status_of};
ghost use Rattle.tesla_front.specs.Run.{HasStatusCauses};
ghost use Rattle.tesla_desk.specs.Outside.{Told};
ghost use Rattle.tesla_front.specs.Table.{OpensConsole};
ghost use Rattle.tesla_cli_live.specs.Allowed.{AllowsRecorded};
ghost use Rattle.tesla_cli_live.specs.Commands.{IsRecorded, RunsRecorded};

use std::alloc::Global;
use std::sync::Wait;
use std::thread::Threads;
use tesla_desk::Environment;
use tesla_front::{
    FormText, LiveRun, Outcome, is_named, open_console, report_run, without_history,
};
use tesla_recorder::Recorded;
use tesla_run_receive::record::{RECORD, run_record};
use tesla_turn::Last;

/// The form of the command, as it is told.
pub const FORMS: [FormText; 1] = [RECORD];

/// Whether the words are for this call: the first of them is `record`.
pub fn is_recorded(words: &[String]) -> bool
    ensures yes { result ≡ true → IsRecorded (map string_bytes words.now) }
    ensures no { result ≡ false → IsRecorded (map string_bytes words.now) → ⊥ }
{
    is_named(words, &["record"])
}

// Opens the console, runs the words, tells the console what they came to, and closes it.
fn run_told<R: Threads + Wait + Sync, D: Environment>(
    rt: &R,
    alloc: Global,
    words: &[String],
    desk: &mut D,
) -> LiveRun<Last<Recorded>>
    requires allowed { (told : Told) (before : Option (List ℕ)) → OpensConsole (D.told desk.old) told before → AllowsRecorded D.Pieces.name D.Pieces.written D.Pieces.may_write D.Port.name D.Port.sent D.Port.may_send D.Wire.brought D.Wire.may_ask D.Time.may_ask D.Time.gave D.Time.read_for (map string_bytes words.now) told }
    ensures { RunsRecorded (map string_bytes words.now) (D.told desk.old) (D.told desk.new) result.last (outcome_view result.outcome) }
{
    match open_console(desk) {
        Ok(console) => {
            let run = run_record(rt, alloc, words, desk);
            report_run(console, desk, &FORMS, run)
        }
        Err(fault) => without_history(Outcome::Failed(fault)),
    }
}

/// What a run of `record` came to.
#[derive(Drop)]
pub struct RecordedDone {
    /// The status that the program ends with.
    pub status: u8,
    /// The whole history, where all was opened and the workers ran. It takes no bytes.
    pub last: Option<Last<Recorded>>,
}

/// Runs the words as those of `record`, over the desk.
///
/// The console is opened first, and then what the words name, each once, in the order of the form and as far as it
/// comes. What the command came to is told on the console. It waits for links and for the turns of its workers.
///
/// 0: it came to its end, and the report was told. 1: the words are not the form. 2: SETUP isn't a setup. 4: a link, or
/// a read of SETUP, failed. 5: a write failed. 6: there was no memory, and nothing was received. 7: something wasn't
/// opened. 11: the calls of a worker were spent.
pub fn run_recorded<R: Threads + Wait + Sync, D: Environment>(
    rt: &R,
    alloc: Global,
    words: &[String],
    desk: &mut D,
) -> RecordedDone
    requires allowed { (told : Told) (before : Option (List ℕ)) → OpensConsole (D.told desk.old) told before → AllowsRecorded D.Pieces.name D.Pieces.written D.Pieces.may_write D.Port.name D.Port.sent D.Port.may_send D.Wire.brought D.Wire.may_ask D.Time.may_ask D.Time.gave D.Time.read_for (map string_bytes words.now) told }
    ensures outcome { (reported : OutcomeView) × (result.status ≡ status_of reported) × RunsRecorded (map string_bytes words.now) (D.told desk.old) (D.told desk.new) result.last reported }
    ensures causes { HasStatusCauses result.status (D.told desk.old).faults (D.told desk.new).faults }
{
    let run = run_told(rt, alloc, words, desk);
    RecordedDone {
        status: run.outcome.status(),
        last: run.last,
    }
}

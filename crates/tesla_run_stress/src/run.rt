//! A run of `stress`.

ghost use Rattle.std.specs.Prelude.{◌≡◌, map, string_bytes};
ghost use Rattle.tesla_front.specs.OutcomeView.{result_view, outcome_view};
ghost use Rattle.tesla_front.specs.Command.{RunsAs};
ghost use Rattle.tesla_run_stress.specs.Arguments.{arguments_of};
ghost use Rattle.tesla_run_stress.specs.Stress.{IsReport, stress};

use crate::arguments::Arguments;
use crate::form::arguments_in;
use crate::play_load;
use std::alloc::Global;
use tesla_desk::Desk;
use tesla_front::{Fault, Lines, Outcome, Stop, outcome_of};
use tesla_run_replay::report_lines;

/// Runs the words as those of `stress`: makes the load of SEED and COUNT, and plays it to a receiver. Nothing is opened,
/// read or written.
///
/// `Done` with the lines of the receiver's report, once all was played. `Usage` exactly where the words are no form.
/// `Failed` only for want of memory, and then before the first message.
pub fn run_stress<D: Desk>(alloc: Global, words: &[String], desk: &mut D) -> Outcome
    ensures runs { RunsAs stress (map string_bytes words.now) (D.told desk.old) (D.told desk.new) (outcome_view result) }
    ensures live { (D.told desk.new).live ≡ (D.told desk.old).live }
{
    let _ = &desk;
    match arguments_in(words) {
        Some(arguments) => outcome_of(perform(alloc, arguments)),
        None => Outcome::Usage,
    }
}

// Does what the words ask for.
fn perform(alloc: Global, arguments: Arguments) -> Result<Lines, Stop>
    ensures { IsReport (arguments_of arguments) (result_view result) }
{
    match play_load(alloc, arguments.seed, arguments.count) {
        Ok(report) => Ok(report_lines(&report)),
        Err(_) => Err(Stop::Failed(Fault::NoMemory)),
    }
}

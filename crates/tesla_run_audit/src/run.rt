//! A run of `audit`.

ghost use Rattle.std.specs.Prelude.{◌≡◌, [], map, string_bytes};
ghost use Rattle.tesla_desk.specs.Faults.{HasCause};
ghost use Rattle.tesla_front.specs.OutcomeView.{Failed, result_view, outcome_view};
ghost use Rattle.tesla_front.specs.Command.{Performs, RunsAs};
ghost use Rattle.tesla_front.specs.Openings.{AreFiles};
ghost use Rattle.tesla_front.specs.declared.fault.Fault.TheVariants as faults;
ghost use Rattle.tesla_receiver.specs.Stands.{Stands};
ghost use Rattle.tesla_state.specs.Steps.{with_ingests};
ghost use Rattle.tesla_run_audit.specs.Arguments.{arguments_of, files_of_audit};
ghost use Rattle.tesla_run_audit.specs.Audit.{AuditsBetween, audit};
ghost use Rattle.tesla_run_audit.specs.Files.{AuditsFile};

use crate::arguments::Arguments;
use crate::form::arguments_in;
use crate::judging::{audit_trace, open};
use std::alloc::Global;
use tesla_base::NoMemory;
use tesla_desk::Desk;
use tesla_front::{Fault, Lines, Outcome, Stop, outcome_of, setup_under};
use tesla_receiver::Receiver;

/// Runs the words as those of `audit`.
///
/// SETUP is read and judged, and where it is refused no other file is opened. Then the receiver's memory is taken, and
/// then TRACE is opened. Entry after entry is judged; nothing is read behind the first one whose answer is wrong.
///
/// `Done` with the number of entries: TRACE spells a legal history. `Usage` exactly where the words are no form, and then
/// nothing was opened. `Refused` with status 8 and the first wrong entry with the right answer, or with status 3 and the
/// first refused place of TRACE where no entry before it is wrong, or with status 2 for SETUP. `Failed` with what went wrong
/// first, `Read` and `Open` exactly where the desk's count of that rose, `NoMemory` before TRACE was opened. Nothing is
/// written.
pub fn run_audit<D: Desk>(alloc: Global, words: &[String], desk: &mut D) -> Outcome
    ensures runs { RunsAs audit (map string_bytes words.now) (D.told desk.old) (D.told desk.new) (outcome_view result) }
    ensures live { (D.told desk.new).live ≡ (D.told desk.old).live }
{
    match arguments_in(words) {
        Some(arguments) => outcome_of(perform(alloc, &arguments, desk)),
        None => Outcome::Usage,
    }
}

// Does what the words ask for.
fn perform<D: Desk>(alloc: Global, arguments: &Arguments<'_>, desk: &mut D) -> Result<Lines, Stop>
    requires files { AreFiles (files_of_audit (arguments_of arguments.now)) }
    ensures performs { Performs audit (arguments_of arguments.now) (D.told desk.old) (D.told desk.new) (result_view result) }
    ensures live { (D.told desk.new).live ≡ (D.told desk.old).live }
{
    match setup_under(alloc, arguments.setup, desk) {
        Ok(setup) => match open(alloc, setup, arguments) {
            Ok(receiver) => audit_file(receiver, arguments.trace, desk),
            Err(NoMemory) => Err(Stop::Failed(Fault::NoMemory)),
        },
        Err(stop) => Err(stop),
    }
}

// Opens the trace, audits it by a receiver in which nothing has happened, and closes it.
fn audit_file<D: Desk>(receiver: Receiver, trace: &str, desk: &mut D) -> Result<Lines, Stop>
    requires most { receiver.config.ingests ≡ 255 }
    requires unused { Stands receiver [] }
    ensures audits { AuditsFile (with_ingests receiver.config) trace.now (D.told desk.old) (D.told desk.new) (result_view result) }
    ensures live { (D.told desk.new).live ≡ (D.told desk.old).live }
{
    match desk.open_source(trace) {
        Ok(mut source) => {
            let outcome = audit_trace(receiver, &mut source);
            desk.close_source(source);
            outcome
        }
        Err(refusal) => Err(Stop::Failed(Fault::from(refusal))),
    }
}

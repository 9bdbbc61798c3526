//! A run of the command `trace`.

ghost use Rattle.std.specs.Prelude.{◌≡◌, map, string_bytes};
ghost use Rattle.tesla_front.specs.OutcomeView.{outcome_view};
ghost use Rattle.tesla_front.specs.Command.{RunsAs};
ghost use Rattle.tesla_run_audit.specs.trace.Trace.{trace};

use crate::trace::target::TraceTarget;
use std::alloc::Global;
use tesla_desk::Desk;
use tesla_front::Outcome;
use tesla_run_replay::run_played;

/// Runs the words as those of `trace`.
///
/// SETUP is read and judged, then CAPTURE and TRACE are opened, and then the receiver's memory is taken. Each record of
/// CAPTURE before its first refused place is played, and where there is none the end; the entries of that history are
/// written to TRACE behind its head. `Done` tells the counts. `NoMemory` comes only before a byte of CAPTURE is read.
pub fn run_trace<D: Desk>(alloc: Global, words: &[String], desk: &mut D) -> Outcome
    ensures runs { RunsAs trace (map string_bytes words.now) (D.told desk.old) (D.told desk.new) (outcome_view result) }
    ensures live { (D.told desk.new).live ≡ (D.told desk.old).live }
{
    run_played::<TraceTarget, D>(alloc, words, desk)
}

//! A run of the command `early`.

ghost use Rattle.std.specs.Prelude.{◌≡◌, map, string_bytes};
ghost use Rattle.tesla_front.specs.OutcomeView.{outcome_view};
ghost use Rattle.tesla_front.specs.Command.{RunsAs};
ghost use Rattle.tesla_run_early.specs.Early.{early};

use crate::target::EarlyTarget;
use std::alloc::Global;
use tesla_desk::Desk;
use tesla_front::Outcome;
use tesla_run_replay::run_played;

/// Runs the words as those of `early`.
///
/// SETUP is read and judged, then CAPTURE and OUT are opened, and then the memory of the receiver and of its promises is
/// taken. Each record of CAPTURE before its first refused place is played, and where there is none the end; what the takes
/// give and the messages that are accepted on arrival are written to OUT, in the order of the records. `Done` tells the
/// counts. `NoMemory` comes only before a byte of CAPTURE is read.
pub fn run_early<D: Desk>(alloc: Global, words: &[String], desk: &mut D) -> Outcome
    ensures runs { RunsAs early (map string_bytes words.now) (D.told desk.old) (D.told desk.new) (outcome_view result) }
    ensures live { (D.told desk.new).live ≡ (D.told desk.old).live }
{
    run_played::<EarlyTarget, D>(alloc, words, desk)
}

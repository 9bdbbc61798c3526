//! The command `replay`.

ghost use Rattle.std.specs.Prelude.{◌≡◌, map, string_bytes};
ghost use Rattle.tesla_front.specs.OutcomeView.{outcome_view};
ghost use Rattle.tesla_front.specs.Command.{RunsAs};
ghost use Rattle.tesla_run_replay.specs.Replay.{replay};

use crate::run::run_played;
use crate::target::ReceiverTarget;
use std::alloc::Global;
use tesla_desk::Desk;
use tesla_front::Outcome;

/// Runs the words as those of `replay`.
///
/// SETUP is read and judged, then CAPTURE and OUT are opened, and then the receiver's memory is taken. Each record of
/// CAPTURE before its first refused place is played, and where there is none the end; what the takes give is written to
/// OUT. `Done` tells the counts. `NoMemory` comes only before a byte of CAPTURE is read.
pub fn run_replay<D: Desk>(alloc: Global, words: &[String], desk: &mut D) -> Outcome
    ensures runs { RunsAs replay (map string_bytes words.now) (D.told desk.old) (D.told desk.new) (outcome_view result) }
    ensures live { (D.told desk.new).live ≡ (D.told desk.old).live }
{
    run_played::<ReceiverTarget, D>(alloc, words, desk)
}

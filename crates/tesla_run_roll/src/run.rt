//! A run of the command `roll`.

ghost use Rattle.std.specs.Prelude.{◌≡◌, map, string_bytes};
ghost use Rattle.tesla_front.specs.OutcomeView.{outcome_view};
ghost use Rattle.tesla_front.specs.Command.{RunsAs};
ghost use Rattle.tesla_run_roll.specs.Roll.{roll};

use crate::target::RolloverTarget;
use std::alloc::Global;
use tesla_desk::Desk;
use tesla_front::Outcome;
use tesla_run_replay::run_played;

/// Runs the words as those of `roll`.
///
/// SETUP is read and judged, then CAPTURE and OUT are opened, and then the memory of the first epoch is taken. Each record
/// of CAPTURE before its first refused place is played, and where there is none the end; what the takes give is written
/// to OUT, each record behind the number of its epoch. `Done` tells how many epochs there are and how many packets were
/// given. `NoMemory` comes before a byte of CAPTURE is read, or where a packet should open an epoch, behind its record.
pub fn run_roll<D: Desk>(alloc: Global, words: &[String], desk: &mut D) -> Outcome
    ensures runs { RunsAs roll (map string_bytes words.now) (D.told desk.old) (D.told desk.new) (outcome_view result) }
    ensures live { (D.told desk.new).live ≡ (D.told desk.old).live }
{
    run_played::<RolloverTarget, D>(alloc, words, desk)
}

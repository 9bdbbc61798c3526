//! A run of the command `follow`.

ghost use Rattle.std.specs.Prelude.{◌≡◌, ◌≤◌, length, [], ℕ, List, None, Some, map, string_bytes};
ghost use Rattle.tesla_follow.specs.Stands.{FollowStands};
ghost use Rattle.tesla_follow_station.specs.declared.counted.CountedConfig.{CountedConfig};
ghost use Rattle.tesla_front.specs.OutcomeView.{Usage, result_view, outcome_view};
ghost use Rattle.tesla_front.specs.Command.{Performs, RunsAs};
ghost use Rattle.tesla_session.specs.Allowed.{MayAsk, MayAskLinks, MayReleaseAll};
ghost use Rattle.tesla_shared.specs.Due.{IsDue};
ghost use Rattle.tesla_run_follow.specs.Allowed.{MayWriteCounts, MayWriteFollowed};
ghost use Rattle.tesla_run_follow.specs.Arguments.{IsFollow};
ghost use Rattle.tesla_run_follow.specs.Follow.{following, following_with};
ghost use Rattle.tesla_run_follow.specs.Status.{HoldsStatus};
ghost use Rattle.tesla_run_receive.specs.Arguments.{AreFew, workers_wanted};
ghost use Rattle.tesla_run_receive.specs.OutputArguments.{OutputArguments, arguments_of};
ghost use Rattle.tesla_run_receive.specs.Running.{RunsStation};

use crate::monitoring::Monitoring;
use crate::setup::follower_under;
use crate::words::words_in;
use std::alloc::Global;
use std::sync::Wait;
use std::thread::Threads;
use tesla_desk::Observed;
use tesla_follow::{FollowReply, FollowTake, FollowVerdict, Follower};
use tesla_follow_station::CountedFollower;
use tesla_front::{Fault, LiveRun, Outcome, Stop, outcome_of, without_history};
use tesla_receiver::Entry;
use tesla_run_receive::{OutputWords, StationResult, run_station};
use tesla_turn::Last;

/// Runs the words as those of `follow`.
///
/// SETUP is read and judged, and all memory is taken; then the links are opened in order, each with the next clock, the
/// sinks, and STATUS. Then a worker runs for each link and each sink, as those of `receive` do, and a monitor beside them writes
/// the counts of the follower to STATUS, every EVERY seconds, and once more when all workers have ended. `Done` tells the
/// counts. It waits for the links.
pub fn run_follow<R: Threads + Wait + Sync, D: Observed>(
    rt: &R,
    alloc: Global,
    words: &[String],
    desk: &mut D,
) -> LiveRun<Last<CountedFollower>>
    requires asked { MayAsk D.Wire.brought D.Time.may_ask }
    requires any_link { MayAskLinks D.Wire.may_ask }
    requires released { (arguments : OutputArguments) → IsFollow arguments (map string_bytes words.now) → MayWriteFollowed D.Pieces.name D.Pieces.written D.Pieces.may_write D.Time.read_for arguments.receive (D.told desk.old) }
    requires output { (arguments : OutputArguments) → IsFollow arguments (map string_bytes words.now) → MayWriteCounts D.Pieces.name D.Pieces.written D.Pieces.may_write D.Time.gave arguments }
    ensures runs { RunsAs (following (D.told desk.old).live (D.told desk.new).live result.last) (map string_bytes words.now) (D.told desk.old) (D.told desk.new) (outcome_view result.outcome) }
    ensures none { outcome_view result.outcome ≡ Usage → result.last ≡ None }
{
    match words_in(words) {
        Some(arguments) => {
            let (outcome, last) = perform(rt, alloc, &arguments, desk);
            LiveRun {
                outcome: outcome_of(outcome),
                last,
            }
        }
        None => without_history(Outcome::Usage),
    }
}

// Does what the words of `follow` ask for.
fn perform<R: Threads + Wait + Sync, D: Observed>(
    rt: &R,
    alloc: Global,
    arguments: &OutputWords<'_>,
    desk: &mut D,
) -> StationResult<CountedFollower>
    requires form { (spelled : List (List ℕ)) × IsFollow (arguments_of arguments.now) spelled }
    requires asked { MayAsk D.Wire.brought D.Time.may_ask }
    requires any_link { MayAskLinks D.Wire.may_ask }
    requires released { MayWriteFollowed D.Pieces.name D.Pieces.written D.Pieces.may_write D.Time.read_for (arguments_of arguments.now).receive (D.told desk.old) }
    requires output { MayWriteCounts D.Pieces.name D.Pieces.written D.Pieces.may_write D.Time.gave (arguments_of arguments.now) }
    ensures { Performs (following (D.told desk.old).live (D.told desk.new).live result.1) (arguments_of arguments.now) (D.told desk.old) (D.told desk.new) (result_view result.0) }
{
    match follower_under(alloc, &arguments.receive, desk) {
        Ok(follower) => run_followed(rt, alloc, arguments, follower, desk),
        Err(stop) => (Err(stop), None),
    }
}

// Runs the workers over this follower, and writes its counts.
fn run_followed<R: Threads + Wait + Sync, D: Observed>(
    rt: &R,
    alloc: Global,
    arguments: &OutputWords<'_>,
    follower: Follower,
    desk: &mut D,
) -> StationResult<CountedFollower>
    requires few { AreFew (arguments_of arguments.now).receive }
    requires every { arguments.now.number ≤ 3600 }
    requires stands { FollowStands follower [] }
    requires ingests { follower.config.ingests ≡ length (arguments_of arguments.now).receive.links }
    requires asked { MayAsk D.Wire.brought D.Time.may_ask }
    requires any_link { MayAskLinks D.Wire.may_ask }
    requires released { MayReleaseAll D.Pieces.name D.Pieces.written D.Pieces.may_write (following_with follower.config).yields (IsDue (following_with follower.config).yields (following_with follower.config).IsLegal follower.config.ingests D.Time.read_for) 0 (arguments_of arguments.now).receive.sinks }
    requires output { MayWriteCounts D.Pieces.name D.Pieces.written D.Pieces.may_write D.Time.gave (arguments_of arguments.now) }
    ensures { (cfg : CountedConfig) × RunsStation (following_with follower.config) (HoldsStatus follower.config) (Some arguments.now.output.now) (workers_wanted (arguments_of arguments.now).receive) cfg (D.told desk.old) (D.told desk.new) result.1 (result_view result.0) }
{
    // The borrow checker knows the types of a station's answers where they are named.
    let _answers: (
        Option<FollowVerdict>,
        Option<FollowTake>,
        Option<FollowReply>,
        Option<Entry<FollowVerdict, FollowReply>>,
    ) = (None, None, None, None);
    let Ok((counted, reader)) = CountedFollower::open(alloc, follower) else {
        return (Err(Stop::Failed(Fault::NoMemory)), None);
    };
    let monitoring = Monitoring {
        status: arguments.output,
        every: arguments.number,
        reader,
    };
    run_station(rt, alloc, &arguments.receive, counted, monitoring, desk)
}

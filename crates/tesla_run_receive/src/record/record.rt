//! A run of the command `record`.

ghost use Rattle.std.specs.Prelude.{◌≡◌, ◌≤◌, length, [], ℕ, List, Some, None, map, string_bytes};
ghost use Rattle.tesla_fitting.specs.declared.config.Config.{Config};
ghost use Rattle.tesla_front.specs.OutcomeView.{Usage, result_view, outcome_view};
ghost use Rattle.tesla_front.specs.Command.{Performs, RunsAs};
ghost use Rattle.tesla_receiver.specs.Stands.{Stands};
ghost use Rattle.tesla_recorder.specs.declared.recorded.RecordedConfig.{RecordedConfig};
ghost use Rattle.tesla_run_receive.specs.Arguments.{AreFew, workers_wanted};
ghost use Rattle.tesla_run_receive.specs.OutputArguments.{OutputArguments, arguments_of};
ghost use Rattle.tesla_shared.specs.Receiving.{IsReplyDue, yield_of};
ghost use Rattle.tesla_session.specs.Allowed.{MayAsk, MayAskLinks, MayReleaseAll};
ghost use Rattle.tesla_run_receive.specs.Allowed.{MayWriteReleased};
ghost use Rattle.tesla_run_receive.specs.Running.{RunsStation, receiving};
ghost use Rattle.tesla_run_receive.specs.record.Allowed.{MayWriteTail, MayWriteTailOf};
ghost use Rattle.tesla_run_receive.specs.record.Arguments.{IsRecord};
ghost use Rattle.tesla_run_receive.specs.record.Record.{HoldsTail, recording};

use crate::record::forms::WORDS;
use crate::record::tail::Tail;
use crate::{OutputWords, StationResult, output_words_in, receiver_under, run_station};
use std::alloc::Global;
use std::sync::Wait;
use std::thread::Threads;
use tesla_desk::Environment;
use tesla_front::{Fault, LiveRun, Outcome, Stop, outcome_of, without_history};
use tesla_receiver::{Entry, Receiver, Reply, Take, Verdict};
use tesla_recorder::Recorded;
use tesla_turn::Last;

/// Runs the words as those of `record`.
///
/// SETUP is read and judged, and all memory is taken; then the links are opened in order, each with the next clock, the
/// sinks, and TAIL. Then a worker runs for each link and each sink, as those of `receive` do. When they have ended, the last
/// entries of the history are written to TAIL, whatever they came to. `Done` tells the counts. It waits for the links.
pub fn run_record<R: Threads + Wait + Sync, D: Environment>(
    rt: &R,
    alloc: Global,
    words: &[String],
    desk: &mut D,
) -> LiveRun<Last<Recorded>>
    requires asked { MayAsk D.Wire.brought D.Time.may_ask }
    requires any_link { MayAskLinks D.Wire.may_ask }
    requires released { (arguments : OutputArguments) → IsRecord arguments (map string_bytes words.now) → MayWriteReleased D.Pieces.name D.Pieces.written D.Pieces.may_write D.Time.read_for arguments.receive (D.told desk.old) }
    requires output { (arguments : OutputArguments) → IsRecord arguments (map string_bytes words.now) → MayWriteTail D.Pieces.name D.Pieces.written D.Pieces.may_write D.Time.read_for arguments (D.told desk.old) }
    ensures runs { RunsAs (recording (D.told desk.old).live (D.told desk.new).live result.last) (map string_bytes words.now) (D.told desk.old) (D.told desk.new) (outcome_view result.outcome) }
    ensures none { outcome_view result.outcome ≡ Usage → result.last ≡ None }
{
    match output_words_in(&WORDS, words) {
        Some(arguments) => {
            let (outcome, last) = perform(rt, alloc, &arguments, desk);
            LiveRun {
                outcome: outcome_of(outcome),
                last,
            }
        }
        None => without_history(Outcome::Usage),
    }
}

// Does what the words of `record` ask for.
fn perform<R: Threads + Wait + Sync, D: Environment>(
    rt: &R,
    alloc: Global,
    arguments: &OutputWords<'_>,
    desk: &mut D,
) -> StationResult<Recorded>
    requires form { (spelled : List (List ℕ)) × IsRecord (arguments_of arguments.now) spelled }
    requires asked { MayAsk D.Wire.brought D.Time.may_ask }
    requires any_link { MayAskLinks D.Wire.may_ask }
    requires released { MayWriteReleased D.Pieces.name D.Pieces.written D.Pieces.may_write D.Time.read_for (arguments_of arguments.now).receive (D.told desk.old) }
    requires output { MayWriteTail D.Pieces.name D.Pieces.written D.Pieces.may_write D.Time.read_for (arguments_of arguments.now) (D.told desk.old) }
    ensures { Performs (recording (D.told desk.old).live (D.told desk.new).live result.1) (arguments_of arguments.now) (D.told desk.old) (D.told desk.new) (result_view result.0) }
{
    match receiver_under(alloc, &arguments.receive, desk) {
        Ok((receiver, _)) => run_recorded(rt, alloc, arguments, receiver, desk),
        Err(stop) => (Err(stop), None),
    }
}

// Runs the workers over this receiver, and records what it answers.
fn run_recorded<R: Threads + Wait + Sync, D: Environment>(
    rt: &R,
    alloc: Global,
    arguments: &OutputWords<'_>,
    receiver: Receiver,
    desk: &mut D,
) -> StationResult<Recorded>
    requires few { AreFew (arguments_of arguments.now).receive }
    requires keep { arguments.now.number ≤ 4096 }
    requires stands { Stands receiver [] }
    requires ingests { receiver.config.ingests ≡ length (arguments_of arguments.now).receive.links }
    requires asked { MayAsk D.Wire.brought D.Time.may_ask }
    requires any_link { MayAskLinks D.Wire.may_ask }
    requires released { MayReleaseAll D.Pieces.name D.Pieces.written D.Pieces.may_write yield_of (IsReplyDue receiver.config D.Time.read_for) 0 (arguments_of arguments.now).receive.sinks }
    requires output { MayWriteTailOf D.Pieces.name D.Pieces.written D.Pieces.may_write D.Time.read_for receiver.config arguments.now.number arguments.now.output.now }
    ensures { (cfg : RecordedConfig Config) × RunsStation (receiving receiver.config) (HoldsTail arguments.now.number) (Some arguments.now.output.now) (workers_wanted (arguments_of arguments.now).receive) cfg (D.told desk.old) (D.told desk.new) result.1 (result_view result.0) }
{
    // The borrow checker knows the types of a station's answers where they are named.
    let _answers: (Option<Verdict>, Option<Take>, Option<Reply>, Option<Entry>) = (
        None, None, None, None,
    );
    let Ok(recorded) = Recorded::open(alloc, receiver, arguments.number) else {
        return (Err(Stop::Failed(Fault::NoMemory)), None);
    };
    let tail = Tail {
        name: arguments.output,
        keep: arguments.number,
    };
    run_station(rt, alloc, &arguments.receive, recorded, tail, desk)
}

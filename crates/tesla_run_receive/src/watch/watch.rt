//! A run of the command `watch`.

ghost use Rattle.std.specs.Prelude.{◌≡◌, ◌≤◌, length, [], ℕ, List, None, Some, map, string_bytes};
ghost use Rattle.tesla_fitting.specs.declared.config.Config.{Config};
ghost use Rattle.tesla_front.specs.OutcomeView.{Usage, result_view, outcome_view};
ghost use Rattle.tesla_front.specs.Command.{Performs, RunsAs};
ghost use Rattle.tesla_receiver.specs.Stands.{Stands};
ghost use Rattle.tesla_run_receive.specs.Arguments.{AreFew, workers_wanted};
ghost use Rattle.tesla_run_receive.specs.OutputArguments.{OutputArguments, arguments_of};
ghost use Rattle.tesla_shared.specs.Receiving.{IsReplyDue, yield_of};
ghost use Rattle.tesla_session.specs.Allowed.{MayAsk, MayAskLinks, MayReleaseAll};
ghost use Rattle.tesla_run_receive.specs.Allowed.{MayWriteReleased};
ghost use Rattle.tesla_run_receive.specs.Running.{RunsStation, receiving};
ghost use Rattle.tesla_recorder.specs.declared.watched.watched.WatchedConfig.{WatchedConfig};
ghost use Rattle.tesla_run_receive.specs.watch.Allowed.{MayWriteLines, MayWriteLinesOf};
ghost use Rattle.tesla_run_receive.specs.watch.Arguments.{IsWatch};
ghost use Rattle.tesla_run_receive.specs.watch.Lines.{chain_columns};
ghost use Rattle.tesla_run_receive.specs.watch.Watch.{HoldsStatus, watching};

use crate::watch::forms::WORDS;
use crate::watch::monitoring::Monitoring;
use crate::{OutputWords, StationResult, output_words_in, receiver_under, run_station};
use std::alloc::Global;
use std::sync::Wait;
use std::thread::Threads;
use tesla_desk::Observed;
use tesla_front::{Fault, LiveRun, Outcome, Stop, outcome_of, without_history};
use tesla_receiver::{Entry, Receiver, Reply, Take, Verdict};
use tesla_recorder::watched::Watched;
use tesla_turn::Last;

/// Runs the words as those of `watch`.
///
/// SETUP is read and judged, and all memory is taken; then the links are opened in order, each with the next clock, the
/// sinks, and STATUS. Then a worker runs for each link and each sink, as those of `receive` do, and beside them a
/// monitor, which appends a line of the counts to STATUS every EVERY seconds, by a clock of its own. A line also has the
/// packets of each chain of the setup, and what the environment tells of held readings and failed sinks. The monitor
/// takes no turn. When the workers have ended, whatever they came to, a last line is written, which begins with `end=`.
/// A STATUS that fails gets no further line, and stops nothing. `Done` tells the counts. It waits for the links.
pub fn run_watch<R: Threads + Wait + Sync, D: Observed>(
    rt: &R,
    alloc: Global,
    words: &[String],
    desk: &mut D,
) -> LiveRun<Last<Watched>>
    requires asked { MayAsk D.Wire.brought D.Time.may_ask }
    requires any_link { MayAskLinks D.Wire.may_ask }
    requires released { (arguments : OutputArguments) → IsWatch arguments (map string_bytes words.now) → MayWriteReleased D.Pieces.name D.Pieces.written D.Pieces.may_write D.Time.read_for arguments.receive (D.told desk.old) }
    requires output { (arguments : OutputArguments) → IsWatch arguments (map string_bytes words.now) → MayWriteLines D.Pieces.name D.Pieces.written D.Pieces.may_write D.Time.gave arguments (D.told desk.old) }
    ensures runs { RunsAs (watching (D.told desk.old).live (D.told desk.new).live result.last) (map string_bytes words.now) (D.told desk.old) (D.told desk.new) (outcome_view result.outcome) }
    ensures none { outcome_view result.outcome ≡ Usage → result.last ≡ None }
{
    match output_words_in(&WORDS, words) {
        Some(arguments) => {
            let (outcome, last) = perform(rt, alloc, &arguments, desk);
            LiveRun {
                outcome: outcome_of(outcome),
                last,
            }
        }
        None => without_history(Outcome::Usage),
    }
}

// Does what the words of `watch` ask for.
fn perform<R: Threads + Wait + Sync, D: Observed>(
    rt: &R,
    alloc: Global,
    arguments: &OutputWords<'_>,
    desk: &mut D,
) -> StationResult<Watched>
    requires form { (spelled : List (List ℕ)) × IsWatch (arguments_of arguments.now) spelled }
    requires asked { MayAsk D.Wire.brought D.Time.may_ask }
    requires any_link { MayAskLinks D.Wire.may_ask }
    requires released { MayWriteReleased D.Pieces.name D.Pieces.written D.Pieces.may_write D.Time.read_for (arguments_of arguments.now).receive (D.told desk.old) }
    requires output { MayWriteLines D.Pieces.name D.Pieces.written D.Pieces.may_write D.Time.gave (arguments_of arguments.now) (D.told desk.old) }
    ensures { Performs (watching (D.told desk.old).live (D.told desk.new).live result.1) (arguments_of arguments.now) (D.told desk.old) (D.told desk.new) (result_view result.0) }
{
    match receiver_under(alloc, &arguments.receive, desk) {
        Ok((receiver, chains)) => run_watched(rt, alloc, arguments, receiver, chains, desk),
        Err(stop) => (Err(stop), None),
    }
}

// Runs the workers over this receiver, whose setup has so many chains, and writes its counts.
fn run_watched<R: Threads + Wait + Sync, D: Observed>(
    rt: &R,
    alloc: Global,
    arguments: &OutputWords<'_>,
    receiver: Receiver,
    chains: u8,
    desk: &mut D,
) -> StationResult<Watched>
    requires few { AreFew (arguments_of arguments.now).receive }
    requires chains { (chains ≡ length receiver.config.setup.rows) × (chains ≤ 8) }
    requires every { arguments.now.number ≤ 3600 }
    requires stands { Stands receiver [] }
    requires ingests { receiver.config.ingests ≡ length (arguments_of arguments.now).receive.links }
    requires asked { MayAsk D.Wire.brought D.Time.may_ask }
    requires any_link { MayAskLinks D.Wire.may_ask }
    requires released { MayReleaseAll D.Pieces.name D.Pieces.written D.Pieces.may_write yield_of (IsReplyDue receiver.config D.Time.read_for) 0 (arguments_of arguments.now).receive.sinks }
    requires output { MayWriteLinesOf D.Pieces.name D.Pieces.written D.Pieces.may_write D.Time.gave (chain_columns (length receiver.config.setup.rows)) arguments.now.output.now }
    ensures { (cfg : WatchedConfig Config) × RunsStation (receiving receiver.config) (HoldsStatus (length receiver.config.setup.rows)) (Some arguments.now.output.now) (workers_wanted (arguments_of arguments.now).receive) cfg (D.told desk.old) (D.told desk.new) result.1 (result_view result.0) }
{
    // The borrow checker knows the types of a station's answers where they are named.
    let _answers: (Option<Verdict>, Option<Take>, Option<Reply>, Option<Entry>) = (
        None, None, None, None,
    );
    let Ok((watched, reader)) = Watched::open(alloc, receiver) else {
        return (Err(Stop::Failed(Fault::NoMemory)), None);
    };
    let monitoring = Monitoring {
        status: arguments.output,
        every: arguments.number,
        reader,
        chains,
    };
    run_station(rt, alloc, &arguments.receive, watched, monitoring, desk)
}

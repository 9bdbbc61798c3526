//! A run of the command `receive`.

ghost use Rattle.std.specs.Prelude.{◌≡◌, ◌≤◌, [], ◌∷◌, ℕ, List, None, IfErr, IfOk, length, map, string_bytes};
ghost use Rattle.tesla_commit.specs.Parts.{Parts};
ghost use Rattle.tesla_desk.specs.Outside.{OfSource};
ghost use Rattle.tesla_front.specs.OutcomeView.{Usage, result_view, outcome_view, stop_view};
ghost use Rattle.tesla_front.specs.Command.{Performs, RunsAs};
ghost use Rattle.tesla_front.specs.Openings.{Opens, OpensSome};
ghost use Rattle.tesla_front.specs.Refusal.{StopCauses};
ghost use Rattle.tesla_front.specs.Setup.{IsNoSetup, IsSetupIn};
ghost use Rattle.tesla_receiver.specs.Stands.{Stands};
ghost use Rattle.tesla_session.specs.Allowed.{MayAsk, MayAskLinks};
ghost use Rattle.tesla_run_receive.specs.Allowed.{MayWriteReleased};
ghost use Rattle.tesla_run_receive.specs.Arguments.{AreFew, IsReceive, ReceiveArguments, arguments_of};
ghost use Rattle.tesla_run_receive.specs.Receive.{config_of, receive};

use crate::arguments::Arguments;
use crate::extra::NoExtra;
use crate::live::{StationResult, run_station};
use crate::words::arguments_in;
use std::alloc::Global;
use std::sync::Wait;
use std::thread::Threads;
use tesla_base::NoMemory;
use tesla_commit::Setup;
use tesla_desk::Environment;
use tesla_front::{Fault, LiveRun, Outcome, Stop, outcome_of, setup_under, without_history};
use tesla_receiver::Receiver;
use tesla_turn::Last;

/// Runs the words as those of `receive`.
///
/// SETUP is read and judged, and all memory is taken; then the links are opened in order, each with the next clock, and the
/// sinks. Then a worker runs for each, in a thread of its own where one can be made, until the links have ended and all
/// that was released is written. `Done` tells the counts. It waits for the links.
pub fn run_receive<R: Threads + Wait + Sync, D: Environment>(
    rt: &R,
    alloc: Global,
    words: &[String],
    desk: &mut D,
) -> LiveRun<Last<Receiver>>
    requires asked { MayAsk D.Wire.brought D.Time.may_ask }
    requires any_link { MayAskLinks D.Wire.may_ask }
    requires released { (arguments : ReceiveArguments) → IsReceive arguments (map string_bytes words.now) → MayWriteReleased D.Pieces.name D.Pieces.written D.Pieces.may_write D.Time.read_for arguments (D.told desk.old) }
    ensures runs { RunsAs (receive (D.told desk.old).live (D.told desk.new).live result.last) (map string_bytes words.now) (D.told desk.old) (D.told desk.new) (outcome_view result.outcome) }
    ensures none { outcome_view result.outcome ≡ Usage → result.last ≡ None }
{
    match arguments_in(words) {
        Some(arguments) => {
            let (outcome, last) = perform(rt, alloc, &arguments, desk);
            LiveRun {
                outcome: outcome_of(outcome),
                last,
            }
        }
        None => without_history(Outcome::Usage),
    }
}

// Does what the words of `receive` ask for.
fn perform<R: Threads + Wait + Sync, D: Environment>(
    rt: &R,
    alloc: Global,
    arguments: &Arguments<'_>,
    desk: &mut D,
) -> StationResult<Receiver>
    requires form { (spelled : List (List ℕ)) × IsReceive (arguments_of arguments.now) spelled }
    requires asked { MayAsk D.Wire.brought D.Time.may_ask }
    requires any_link { MayAskLinks D.Wire.may_ask }
    requires released { MayWriteReleased D.Pieces.name D.Pieces.written D.Pieces.may_write D.Time.read_for (arguments_of arguments.now) (D.told desk.old) }
    ensures { Performs (receive (D.told desk.old).live (D.told desk.new).live result.1) (arguments_of arguments.now) (D.told desk.old) (D.told desk.new) (result_view result.0) }
{
    match receiver_under(alloc, arguments, desk) {
        Ok((receiver, _)) => run_station(rt, alloc, arguments, receiver, NoExtra, desk),
        Err(stop) => (Err(stop), None),
    }
}

// A receiver with no history, under the setup and what the words ask for.
fn new_receiver(
    alloc: Global,
    setup: Setup,
    arguments: &Arguments<'_>,
) -> Result<Receiver, NoMemory>
    requires few { AreFew (arguments_of arguments.now) }
    ensures stands { IfOk result (λ receiver. Stands receiver []) }
    ensures config { IfOk result (λ receiver. receiver.config ≡ config_of (arguments_of arguments.now) setup) }
{
    let limits = arguments.limits;
    Receiver::open(
        alloc,
        setup,
        arguments.lag,
        limits.capacity,
        limits.quota,
        arguments.links.len() as u8,
    )
}

/// A receiver with no history, under the setup and what the words ask for, and how many chains the setup has. SETUP is
/// read and judged, and all memory of the receiver is taken. `Refused`: SETUP is no setup. `Failed`: its opening or a
/// read failed, or there wasn't enough memory.
pub fn receiver_under<D: Environment>(
    alloc: Global,
    arguments: &Arguments<'_>,
    desk: &mut D,
) -> Result<(Receiver, u8), Stop>
    requires few { AreFew (arguments_of arguments.now) }
    ensures stands { IfOk result (λ it. Stands it.0 []) }
    ensures found { IfOk result (λ it. (setup : Parts) × IsSetupIn ((D.told desk.old).page arguments.now.setup.now) setup × (it.0.config ≡ config_of (arguments_of arguments.now) setup)) }
    ensures chains { IfOk result (λ it. (it.1 ≡ length it.0.config.setup.rows) × (it.1 ≤ 8)) }
    ensures refused { IfErr result (λ stop. IsNoSetup ((D.told desk.old).page arguments.now.setup.now) (stop_view stop)) }
    ensures opened { IfOk result (λ _. Opens (OfSource arguments.now.setup.now ∷ []) 1 (D.told desk.old) (D.told desk.new)) }
    ensures opens { OpensSome (OfSource arguments.now.setup.now ∷ []) (D.told desk.old) (D.told desk.new) }
    ensures pages { (n : List ℕ) → (D.told desk.new).page n ≡ (D.told desk.old).page n }
    ensures live { (D.told desk.new).live ≡ (D.told desk.old).live }
    ensures causes { StopCauses result (D.told desk.old).faults (D.told desk.new).faults }
{
    match setup_under(alloc, arguments.setup, desk) {
        Ok(setup) => {
            let chains = setup.count();
            match new_receiver(alloc, setup, arguments) {
                Ok(receiver) => Ok((receiver, chains)),
                Err(_) => Err(Stop::Failed(Fault::NoMemory)),
            }
        }
        Err(stop) => Err(stop),
    }
}

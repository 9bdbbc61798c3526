//! A live run: the workers of a station from their openings to their closings, and what a command has beside them.

ghost use Rattle.std.specs.Prelude.{◌≡◌, ◌||◌, ◌≤◌, ◌+◌, [], Bool, List, Some, length, vec_capacity};
ghost use Rattle.std.specs.Option.{option_map};
ghost use Rattle.tesla_desk.specs.Outside.{Told};
ghost use Rattle.tesla_front.specs.OutcomeView.{result_view, stop_view};
ghost use Rattle.tesla_shared.specs.Due.{IsDue};
ghost use Rattle.tesla_session.specs.Allowed.{MayAsk, MayAskLinks, MayReleaseAll};
ghost use Rattle.tesla_session.specs.Session.{OpensAll, calls_most, outcome_by, stop_by, workers_of};
ghost use Rattle.tesla_session.specs.Worked.{StandsForCalls};
ghost use Rattle.tesla_session.specs.Wanted.{Wanted};
ghost use Rattle.tesla_turn.specs.Held.{first_pass};
ghost use Rattle.tesla_turn.specs.History.{entries};
ghost use Rattle.tesla_run_receive.specs.Arguments.{AreFew, arguments_of, workers_wanted};
ghost use Rattle.tesla_run_receive.specs.Running.{EndsBehind, RunsBegun, RunsStation};

use crate::arguments::Arguments;
use crate::ending::{ended, stop_with};
use crate::extra::Extra;
use std::alloc::Global;
use std::sync::Wait;
use std::thread::Threads;
use tesla_desk::Environment;
use tesla_front::{Fault, Lines, Stop};
use tesla_session::{Ran, Session, close_all, open_session, prepared, run_opened};
use tesla_shared::Station;
use tesla_turn::Last;

/// What a live run comes to, with the whole history where there is one.
pub type StationResult<V> = (Result<Lines, Stop>, Option<Last<V>>);

/// Runs the workers that the words ask for over a station with no history. All memory is taken; then the links are opened in
/// order, each with the next clock, the sinks, and what is beside the workers. It waits for the links.
pub fn run_station<R: Threads + Wait + Sync, D: Environment, V: Station + Send, E: Extra<D, V>>(
    rt: &R,
    alloc: Global,
    arguments: &Arguments<'_>,
    station: V,
    extra: E,
    desk: &mut D,
) -> StationResult<V>
    requires few { AreFew (arguments_of arguments.now) }
    requires stands { V.stands station [] }
    requires fits { E.fits extra (V.config station) }
    requires ingests { V.ingests (V.config station) ≡ length (arguments_of arguments.now).links }
    requires allowed { E.allowed extra }
    requires asked { MayAsk D.Wire.brought D.Time.may_ask }
    requires any_link { MayAskLinks D.Wire.may_ask }
    requires released { MayReleaseAll D.Pieces.name D.Pieces.written D.Pieces.may_write V.yields (IsDue V.yields (V.is_legal (V.config station)) (V.ingests (V.config station)) D.Time.read_for) 0 (arguments_of arguments.now).sinks }
    ensures { RunsStation (record { yields = V.yields; IsLegal = V.is_legal (V.config station); text = E.text (V.config station) }) (E.holds extra (V.config station)) (E.output extra) (workers_wanted (arguments_of arguments.now)) (V.config station) (D.told desk.old) (D.told desk.new) result.1 (result_view result.0) }
{
    match prepared(alloc, station, &arguments.links, &arguments.sinks) {
        Ok(session) => run_session(rt, arguments, session, extra, desk),
        Err(_) => (Err(Stop::Failed(Fault::NoMemory)), None),
    }
}

// Opens the links and the sinks, and where none was refused what is beside them.
fn run_session<R: Threads + Wait + Sync, D: Environment, V: Station + Send, E: Extra<D, V>>(
    rt: &R,
    arguments: &Arguments<'_>,
    session: Session<D, V>,
    extra: E,
    desk: &mut D,
) -> StationResult<V>
    requires few { AreFew (arguments_of arguments.now) }
    requires links { (session.links.items ≡ []) × (length arguments.now.links ≤ vec_capacity session.links) }
    requires sinks { (session.sinks.items ≡ []) × (length arguments.now.sinks ≤ vec_capacity session.sinks) }
    requires first { (cfg : V.Config) × (session.first ≡ first_pass session.turn cfg (1 + length arguments.now.links + length arguments.now.sinks) calls_most) × E.fits extra cfg }
    requires ingests { (cfg : V.Config) → session.first.config ≡ Some cfg → V.ingests cfg ≡ length arguments.now.links }
    requires allowed { E.allowed extra }
    requires asked { MayAsk D.Wire.brought D.Time.may_ask }
    requires any_link { MayAskLinks D.Wire.may_ask }
    requires released { (cfg : V.Config) → session.first.config ≡ Some cfg → MayReleaseAll D.Pieces.name D.Pieces.written D.Pieces.may_write V.yields (IsDue V.yields (V.is_legal cfg) (V.ingests cfg) D.Time.read_for) 0 arguments.now.sinks }
    ensures { (cfg : V.Config) → session.first ≡ first_pass session.turn cfg (1 + length arguments.now.links + length arguments.now.sinks) calls_most → E.fits extra cfg →
        RunsStation (record { yields = V.yields; IsLegal = V.is_legal cfg; text = E.text cfg }) (E.holds extra cfg) (E.output extra) (workers_wanted (arguments_of arguments.now)) cfg (D.told desk.old) (D.told desk.new) result.1 (result_view result.0) }
{
    match open_session(&arguments.links, &arguments.sinks, session, desk) {
        Ok(session) => run_behind(rt, session, extra, desk),
        Err(fault) => (Err(Stop::Failed(fault)), None),
    }
}

// Opens what is beside the workers that are opened, and where that wasn't refused runs them. Else they are closed.
fn run_behind<R: Threads + Wait + Sync, D: Environment, V: Station + Send, E: Extra<D, V>>(
    rt: &R,
    session: Session<D, V>,
    extra: E,
    desk: &mut D,
) -> StationResult<V>
    requires opened { (wanted : List Wanted) × (cfg : V.Config) × (before : Told) × OpensAll wanted cfg before (D.told desk.old) session.turn session.first (workers_of session.links.items session.sinks.items) × E.fits extra cfg }
    requires allowed { E.allowed extra }
    ensures { (wanted : List Wanted) (cfg : V.Config) (before : Told) → OpensAll wanted cfg before (D.told desk.old) session.turn session.first (workers_of session.links.items session.sinks.items) → E.fits extra cfg →
        RunsStation (record { yields = V.yields; IsLegal = V.is_legal cfg; text = E.text cfg }) (E.holds extra cfg) (E.output extra) wanted cfg before (D.told desk.new) result.1 (result_view result.0) }
{
    match extra.begin(desk) {
        Ok(beside) => run_begun::<R, D, V, E>(rt, session, beside, desk),
        Err(fault) => {
            close_all(desk, session);
            (Err(Stop::Failed(fault)), None)
        }
    }
}

// Ends what was beside workers that have ended, and tells what they came to.
fn end_run<D: Environment, V: Station, E: Extra<D, V>>(
    ran: Ran<V>,
    beside: E::Begun,
    desk: &mut D,
) -> StationResult<V>
    requires stood { StandsForCalls V.config V.stands V.ingests D.Time.read_for ran.station ran.last.history }
    requires begun { (extra : E) × E.is_begun extra (V.config ran.station) beside }
    ensures last { result.1 ≡ Some ran.last }
    ensures legal { V.is_legal (V.config ran.station) (entries ran.last.history) }
    ensures ends { (extra : E) → E.is_begun extra (V.config ran.station) beside → (failed : Bool) × EndsBehind (E.holds extra (V.config ran.station) (entries ran.last.history)) (E.output extra) (D.told desk.old) (D.told desk.new) failed
        × ((read write spent : Bool) → option_map stop_view ran.stop ≡ stop_by read write spent → result_view result.0 ≡ outcome_by (stop_by read (write || failed) spent) (E.text (V.config ran.station) (entries ran.last.history))) }
{
    let Ran {
        stop,
        station,
        last,
    } = ran;
    let lines = E::lines(&station);
    let written = E::end(beside, station, desk);
    (ended(stop_with(stop, written), lines), Some(last))
}

// Runs the workers, closes them and ends the turn, and then ends what was beside them.
fn run_begun<R: Threads + Wait + Sync, D: Environment, V: Station + Send, E: Extra<D, V>>(
    rt: &R,
    session: Session<D, V>,
    mut beside: E::Begun,
    desk: &mut D,
) -> StationResult<V>
    requires opened { (wanted : List Wanted) × (cfg : V.Config) × (before : Told) × (now : Told) × (extra : E) × OpensAll wanted cfg before now session.turn session.first (workers_of session.links.items session.sinks.items) × E.is_begun extra cfg beside }
    ensures { (cfg : V.Config) (extra : E) → session.first.config ≡ Some cfg → E.is_begun extra cfg beside →
        RunsBegun (record { yields = V.yields; IsLegal = V.is_legal cfg; text = E.text cfg }) (E.holds extra cfg) (E.output extra) session.first (workers_of session.links.items session.sinks.items) (D.told desk.old) (D.told desk.new) result.1 (result_view result.0) }
{
    let ran = run_opened(rt, session, &mut beside, desk);
    end_run::<D, V, E>(ran, beside, desk)
}

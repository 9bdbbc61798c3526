//! One run of the workers of a station: what they need, their openings, their work and their closings.

ghost use Rattle.std.specs.Prelude.{◌≡◌, ◌≤◌, ◌+◌, [], List, Ok, Err, Some, IfOk, length, map, vec_capacity};
ghost use Rattle.std.specs.Option.{option_map};
ghost use Rattle.tesla_desk.specs.Outside.{Told};
ghost use Rattle.tesla_front.specs.OutcomeView.{stop_view};
ghost use Rattle.tesla_turn.specs.Held.{first_pass};
ghost use Rattle.tesla_shared.specs.Due.{IsDue};
ghost use Rattle.tesla_session.specs.Allowed.{MayAsk, MayAskLinks, MayReleaseAll};
ghost use Rattle.tesla_session.specs.Wanted.{Wanted, wanted_for};
ghost use Rattle.tesla_session.specs.Session.{AreOf, AreReady, ClosesWorkers, OpensAll, OpensWorkers, RefusedSession, RunWorkers, RunsOpened, calls_most, stop_of, workers_of};
ghost use Rattle.tesla_session.specs.Worked.{StandsForCalls};

use crate::beside::Beside;
use crate::running::run_workers;
use crate::session::{Links, Shared, Sinks, close_each, open_each};
use crate::stop::stop_in;
use std::alloc::Global;
use std::sync::Wait;
use std::thread::Threads;
use tesla_base::NoMemory;
use tesla_desk::Environment;
use tesla_front::{Fault, Names, Stop};
use tesla_shared::{Station, Witnessed};
use tesla_turn::{Last, Pass, Turn};

/// How many calls each worker may make.
const CALLS: u64 = 1 << 56;

/// A station with its turn, and room for its workers.
pub struct Session<D: Environment, V: Station> {
    pub turn: Turn<Shared<D, V>>,
    /// The first pass, which makes no call.
    pub first: Pass<Shared<D, V>>,
    pub links: Links<D, V>,
    pub sinks: Sinks<D, V>,
}

/// What a run of the workers came to: why they came to no end, the station that they shared, and the whole history.
pub struct Ran<V: Station> {
    pub stop: Option<Stop>,
    pub station: V,
    pub last: Last<V>,
}

// Room for so many workers of one kind, and so many of another.
fn rooms_for<A, B>(alloc: Global, some: usize, others: usize) -> Result<(Vec<A>, Vec<B>), NoMemory>
    ensures some { IfOk result (λ rooms. (rooms.0.items ≡ []) × (some ≤ vec_capacity rooms.0)) }
    ensures others { IfOk result (λ rooms. (rooms.1.items ≡ []) × (others ≤ vec_capacity rooms.1)) }
{
    let room = Vec::with_capacity(alloc, some)?;
    match Vec::with_capacity(alloc, others) {
        Ok(other) => Ok((room, other)),
        Err(_) => {
            room.destroy_empty();
            Err(NoMemory)
        }
    }
}

/// Takes all memory that a run needs over a station with no history, with so many links and sinks: a turn with a pass for each
/// worker, and room for the workers. `NoMemory` drops the station.
pub fn prepared<D: Environment, V: Station>(
    alloc: Global,
    station: V,
    links: &Names<'_>,
    sinks: &Names<'_>,
) -> Result<Session<D, V>, NoMemory>
    requires stands { V.stands station [] }
    requires few_links { length links.now ≤ 32 }
    requires few_sinks { length sinks.now ≤ 32 }
    ensures links { IfOk result (λ it. (it.links.items ≡ []) × (length links.now ≤ vec_capacity it.links)) }
    ensures sinks { IfOk result (λ it. (it.sinks.items ≡ []) × (length sinks.now ≤ vec_capacity it.sinks)) }
    ensures first { IfOk result (λ it. it.first ≡ first_pass it.turn (V.config station) (1 + length links.now + length sinks.now) calls_most) }
{
    let passes = 1 + links.len() as u8 + sinks.len() as u8;
    let (turn, first) = Turn::open(alloc, Witnessed::new(station), passes, CALLS)?;
    let (links, sinks) = rooms_for(alloc, links.len(), sinks.len())?;
    Ok(Session {
        turn,
        first,
        links,
        sinks,
    })
}

// Opens the links and then the sinks, until an opening is refused.
fn open_all<D: Environment, V: Station>(
    desk: &mut D,
    links: &Names<'_>,
    sinks: &Names<'_>,
    session: &mut Session<D, V>,
) -> Result<(), Fault>
    requires few_links { length links.now ≤ 32 }
    requires few_sinks { length sinks.now ≤ 32 }
    requires own { session.old.first.turn ≡ session.old.turn }
    requires room { length links.now + length sinks.now ≤ session.old.first.room }
    requires links { (session.old.links.items ≡ []) × (length links.now ≤ vec_capacity session.old.links) }
    requires sinks { (session.old.sinks.items ≡ []) × (length sinks.now ≤ vec_capacity session.old.sinks) }
    requires alone { length session.old.first.joined ≡ 1 }
    requires ingests { (cfg : V.Config) → session.old.first.config ≡ Some cfg → V.ingests cfg ≡ length links.now }
    requires asked { MayAsk D.Wire.brought D.Time.may_ask }
    requires any_link { MayAskLinks D.Wire.may_ask }
    requires released { (cfg : V.Config) → session.old.first.config ≡ Some cfg → MayReleaseAll D.Pieces.name D.Pieces.written D.Pieces.may_write V.yields (IsDue V.yields (V.is_legal cfg) (V.ingests cfg) D.Time.read_for) 0 sinks.now }
    ensures opens { OpensWorkers (wanted_for links.now sinks.now) (D.told desk.old) (D.told desk.new) session.old.first session.new.first (workers_of session.new.links.items session.new.sinks.items) result }
    ensures turn { session.new.turn ≡ session.old.turn }
{
    let Session {
        turn,
        first,
        links: hearing,
        sinks: writing,
    } = session;
    match open_each(desk, links.as_slice(), 0, turn, first, hearing) {
        Ok(()) => open_each(desk, sinks.as_slice(), 0, turn, first, writing),
        Err(fault) => Err(fault),
    }
}

/// Opens the links in order, each with the next clock, and then the sinks. Where an opening is refused, those that were opened
/// are closed. Its links may be asked, its clocks may be asked for what these bring, and its outputs may write the records of packets that are due.
pub fn open_session<D: Environment, V: Station>(
    links: &Names<'_>,
    sinks: &Names<'_>,
    mut session: Session<D, V>,
    desk: &mut D,
) -> Result<Session<D, V>, Fault>
    requires few_links { length links.now ≤ 32 }
    requires few_sinks { length sinks.now ≤ 32 }
    requires links { (session.links.items ≡ []) × (length links.now ≤ vec_capacity session.links) }
    requires sinks { (session.sinks.items ≡ []) × (length sinks.now ≤ vec_capacity session.sinks) }
    requires first { (cfg : V.Config) × (session.first ≡ first_pass session.turn cfg (1 + length links.now + length sinks.now) calls_most) }
    requires ingests { (cfg : V.Config) → session.first.config ≡ Some cfg → V.ingests cfg ≡ length links.now }
    requires asked { MayAsk D.Wire.brought D.Time.may_ask }
    requires any_link { MayAskLinks D.Wire.may_ask }
    requires released { (cfg : V.Config) → session.first.config ≡ Some cfg → MayReleaseAll D.Pieces.name D.Pieces.written D.Pieces.may_write V.yields (IsDue V.yields (V.is_legal cfg) (V.ingests cfg) D.Time.read_for) 0 sinks.now }
    ensures opened { IfOk result (λ it. (cfg : V.Config) → session.first ≡ first_pass session.turn cfg (1 + length links.now + length sinks.now) calls_most → OpensAll (wanted_for links.now sinks.now) cfg (D.told desk.old) (D.told desk.new) it.turn it.first (workers_of it.links.items it.sinks.items)) }
    ensures refused { (fault : _) → result ≡ Err fault → (cfg : V.Config) → session.first ≡ first_pass session.turn cfg (1 + length links.now + length sinks.now) calls_most → RefusedSession V.Verdict V.Reply (wanted_for links.now sinks.now) cfg (D.told desk.old) (D.told desk.new) fault }
{
    match open_all(desk, links, sinks, &mut session) {
        Ok(()) => Ok(session),
        Err(fault) => {
            let (_turn, _first) = close_workers(desk, session);
            Err(fault)
        }
    }
}

// Runs all workers, and something beside them, and tells why they came to no end.
fn run_all<R: Threads + Wait + Sync, D: Environment, V: Station + Send, B: Beside + Send>(
    rt: &R,
    session: &mut Session<D, V>,
    beside: &mut B,
) -> Option<Stop>
    requires own { AreOf session.old.turn (workers_of session.old.links.items session.old.sinks.items) }
    requires ready { AreReady (workers_of session.old.links.items session.old.sinks.items) }
    ensures runs { RunWorkers V.yields (workers_of session.old.links.items session.old.sinks.items) (workers_of session.new.links.items session.new.sinks.items) }
    ensures stop { option_map stop_view result ≡ stop_of (workers_of session.new.links.items session.new.sinks.items) }
    ensures same { (session.new.turn ≡ session.old.turn) × (session.new.first ≡ session.old.first) }
    ensures beside { B.did beside.old beside.new }
{
    run_workers(
        rt,
        &session.turn,
        session.links.as_mut_slice(),
        session.sinks.as_mut_slice(),
        beside,
    );
    stop_in(session.links.as_slice(), session.sinks.as_slice())
}

// Closes all workers, and gives the turn with the first pass, which has taken in theirs.
fn close_workers<D: Environment, V: Station>(
    desk: &mut D,
    session: Session<D, V>,
) -> (Turn<Shared<D, V>>, Pass<Shared<D, V>>)
    requires own { session.first.turn ≡ session.turn }
    requires first { session.first.number ≡ 0 }
    requires others { AreOf session.turn (workers_of session.links.items session.sinks.items) }
    ensures closes { ClosesWorkers (workers_of session.links.items session.sinks.items) (D.told desk.old) (D.told desk.new) session.first result.1 }
    ensures turn { result.0 ≡ session.turn }
{
    let Session {
        turn,
        mut first,
        mut links,
        mut sinks,
    } = session;
    close_each(desk, &turn, &mut first, &mut sinks);
    sinks.destroy_empty();
    close_each(desk, &turn, &mut first, &mut links);
    links.destroy_empty();
    (turn, first)
}

/// Closes workers that are opened and made no call.
pub fn close_all<D: Environment, V: Station>(desk: &mut D, session: Session<D, V>)
    requires { (wanted : List Wanted) × (cfg : V.Config) × (before : Told) × (now : Told) × OpensAll wanted cfg before now session.turn session.first (workers_of session.links.items session.sinks.items) }
    ensures { (later : _) × ClosesWorkers (workers_of session.links.items session.sinks.items) (D.told desk.old) (D.told desk.new) session.first later }
{
    let (_turn, _first) = close_workers(desk, session);
}

/// Runs the workers that are opened, closes them, and ends the turn. Something runs beside the workers, in a thread of its own
/// until they have ended, or behind them where no thread can be made. It waits for their links and for their turns.
pub fn run_opened<R: Threads + Wait + Sync, D: Environment, V: Station + Send, B: Beside + Send>(
    rt: &R,
    mut session: Session<D, V>,
    beside: &mut B,
    desk: &mut D,
) -> Ran<V>
    requires { (wanted : List Wanted) × (cfg : V.Config) × (before : Told) × (now : Told) × OpensAll wanted cfg before now session.turn session.first (workers_of session.links.items session.sinks.items) }
    ensures runs { RunsOpened V.yields session.first (workers_of session.links.items session.sinks.items) (D.told desk.old) (D.told desk.new) result.last (option_map stop_view result.stop) }
    ensures stands { StandsForCalls V.config V.stands V.ingests D.Time.read_for result.station result.last.history }
    ensures config { session.first.config ≡ Some (V.config result.station) }
    ensures beside { B.did beside.old beside.new }
{
    let stop = run_all(rt, &mut session, beside);
    let (turn, first) = close_workers(desk, session);
    let (station, last) = turn.close(rt, first);
    Ran {
        stop,
        station: station.into_station(),
        last: last.of_value(),
    }
}

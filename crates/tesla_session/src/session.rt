//! The openings of links and sinks for the workers of a station, and their closings.

ghost use Rattle.std.specs.Prelude.{◌≡◌, ◌<◌, ◌≤◌, ◌+◌, [], Err, IfOk, List, ℕ, map, length, vec_len, vec_capacity};
ghost use Rattle.tesla_turn.specs.Held.{next_pass};
ghost use Rattle.tesla_shared.specs.Due.{IsDue};
ghost use Rattle.tesla_session.specs.Allowed.{AllowsLink, AllowsSink, AreAllowed};
ghost use Rattle.tesla_session.specs.Wanted.{Wanted, WantedLink, WantedSink};
ghost use Rattle.tesla_session.specs.Session.{AreOf, ClosesWorker, ClosesWorkers, OpensMore, OpensWorker, PassSeen, RefusesWorker, Seen, SeenLink, SeenSink, name_of, pass_of, split_pass};

use crate::worker::{LinkWorker, SinkWorker};
use tesla_desk::Environment;
use tesla_front::Fault;
use tesla_shared::{LinkEnd, SinkEnd, Station, Witnessed};
use tesla_turn::{Pass, Permitting, Turn};

/// What the workers of a station share over a desk.
pub type Shared<D, V> = Witnessed<V, <D as Environment>::Time>;

/// The workers of links over a desk.
pub type Links<D, V> = Vec<
    LinkWorker<V, <D as Environment>::Wire, <D as Environment>::Time, <D as Environment>::Pause>,
>;

/// The workers of sinks over a desk.
pub type Sinks<D, V> = Vec<
    SinkWorker<V, <D as Environment>::Time, <D as Environment>::Pieces, <D as Environment>::Pause>,
>;

/// A worker over what a desk opens for it: a link with its clock and its gate, or a sink with its gate.
pub(crate) trait DeskWorker<D: Environment, V: Station + Permitting> {
    /// What is seen of it.
    ghost seen: { Self → Seen V.Config V.Verdict V.Reply };

    /// What it wants of the desk, by its number and a name.
    ghost wanted: { ℕ → List ℕ → Wanted };

    /// It may be opened behind the first pass, by its number and a name.
    ghost allowed: { PassSeen V.Config V.Verdict V.Reply → ℕ → List ℕ → Type 0 };

    /// A worker of this number that has made no call, with a pass that is split off the first. What it works with is opened
    /// under the name.
    fn open(
        desk: &mut D,
        name: &str,
        number: u8,
        turn: &Turn<V>,
        first: &mut Pass<V>,
    ) -> Result<Self, Fault>
        requires own { first.old.turn ≡ turn.now }
        requires room { 0 < first.old.room }
        requires allowed { allowed first.old number name.now }
        ensures opened { IfOk result (λ worker. OpensWorker (wanted number name.now) (D.told desk.old) (D.told desk.new) first.old first.new (seen worker)) }
        ensures refused { (fault : _) → result ≡ Err fault → RefusesWorker (wanted number name.now) (D.told desk.old) (D.told desk.new) fault × (first.new ≡ first.old) };

    /// Closes what it works with, and gives its pass.
    fn close(self, desk: &mut D) -> Pass<V>
        ensures closes { ClosesWorker (seen self) (D.told desk.old) (D.told desk.new) }
        ensures pass { result ≡ pass_of (seen self) };
}

// A further pass of the turn, for which the first has room.
fn split_off<V: Station + Permitting>(turn: &Turn<V>, first: &mut Pass<V>) -> Pass<V>
    requires own { first.old.turn ≡ turn.now }
    requires room { 0 < first.old.room }
    ensures pass { result ≡ next_pass first.old }
    ensures first { first.new ≡ split_pass first.old }
{
    let Ok(pass) = turn.split(first) else {
        unreachable!()
    };
    pass
}

impl<D: Environment, V: Station> DeskWorker<D, Shared<D, V>>
    for LinkWorker<V, D::Wire, D::Time, D::Pause> {
    ghost seen = { SeenLink };

    ghost wanted = { WantedLink };

    ghost allowed = { AllowsLink D.Wire.brought D.Time.may_ask D.Wire.may_ask };

    fn open(
        desk: &mut D,
        name: &str,
        number: u8,
        turn: &Turn<Shared<D, V>>,
        first: &mut Pass<Shared<D, V>>,
    ) -> Result<LinkWorker<V, D::Wire, D::Time, D::Pause>, Fault> {
        let link = desk.open_link(name)?;
        let clock = desk.clock();
        let gate = desk.gate();
        let pass = split_off(turn, first);
        Ok(LinkWorker {
            ingest: number,
            link,
            clock,
            gate,
            pass,
            end: LinkEnd::Ended,
        })
    }

    fn close(self, desk: &mut D) -> Pass<Shared<D, V>> {
        let LinkWorker {
            ingest: _,
            link,
            clock: _,
            gate: _,
            pass,
            end: _,
        } = self;
        desk.close_link(link);
        pass
    }
}

impl<D: Environment, V: Station> DeskWorker<D, Shared<D, V>>
    for SinkWorker<V, D::Time, D::Pieces, D::Pause> {
    ghost seen = { SeenSink };

    ghost wanted = { WantedSink };

    ghost allowed = { AllowsSink D.Pieces.name D.Pieces.written D.Pieces.may_write V.yields (λ cfg. IsDue V.yields (V.is_legal cfg) (V.ingests cfg) D.Time.read_for) V.ingests };

    fn open(
        desk: &mut D,
        name: &str,
        number: u8,
        turn: &Turn<Shared<D, V>>,
        first: &mut Pass<Shared<D, V>>,
    ) -> Result<SinkWorker<V, D::Time, D::Pieces, D::Pause>, Fault> {
        let sink = desk.open_output(name)?;
        let gate = desk.gate();
        let pass = split_off(turn, first);
        Ok(SinkWorker {
            releaser: number,
            sink,
            gate,
            pass,
            end: SinkEnd::Over,
        })
    }

    fn close(self, desk: &mut D) -> Pass<Shared<D, V>> {
        let SinkWorker {
            releaser: _,
            sink,
            gate: _,
            pass,
            end: _,
        } = self;
        desk.close_output(sink);
        pass
    }
}

/// Makes a worker for each of these names, numbered from `number` on, until an opening is refused.
pub(crate) fn open_each<D: Environment, V: Station + Permitting, W: DeskWorker<D, V>>(
    desk: &mut D,
    names: &[&str],
    number: u8,
    turn: &Turn<V>,
    first: &mut Pass<V>,
    workers: &mut Vec<W>,
) -> Result<(), Fault>
    requires own { first.old.turn ≡ turn.now }
    requires room { length names.now ≤ first.old.room }
    requires few { number + length names.now ≤ 32 }
    requires space { vec_len workers.old + length names.now ≤ vec_capacity workers.old }
    requires allowed { AreAllowed W.allowed first.old number (map name_of names.now) }
    ensures { OpensMore W.seen W.wanted number (map name_of names.now) (D.told desk.old) (D.told desk.new) first.old first.new workers.old.items workers.new.items result }
{
    let [name, names @ ..] = names else {
        return Ok(());
    };
    match W::open(desk, name, number, turn, first) {
        Ok(worker) => {
            workers.push_reserved(worker);
            open_each(desk, names, number + 1, turn, first, workers)
        }
        Err(fault) => Err(fault),
    }
}

/// Closes the workers, the last first, and takes their passes into the first.
pub(crate) fn close_each<D: Environment, V: Station + Permitting, W: DeskWorker<D, V>>(
    desk: &mut D,
    turn: &Turn<V>,
    first: &mut Pass<V>,
    workers: &mut Vec<W>,
)
    requires own { first.old.turn ≡ turn.now }
    requires first { first.old.number ≡ 0 }
    requires others { AreOf turn.now (map W.seen workers.old.items) }
    ensures closes { ClosesWorkers (map W.seen workers.old.items) (D.told desk.old) (D.told desk.new) first.old first.new }
    ensures none { workers.new.items ≡ [] }
{
    let Some(worker) = workers.pop() else {
        return;
    };
    let pass = worker.close(desk);
    turn.join(first, pass);
    close_each(desk, turn, first, workers);
}

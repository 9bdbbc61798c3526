//! The run of all workers at once.

ghost use Rattle.std.specs.Prelude.{◌≡◌, ◌<◌, map, All};
ghost use Rattle.std.specs.Thread.{IsSync, IsSend};
ghost use Rattle.tesla_turn.specs.Held.{TurnId};
ghost use Rattle.tesla_session.specs.Session.{Seen, SeenLink, SeenSink, IsReady, RunsWorker, RunWorkers, AreOf, AreReady};

use crate::beside::Beside;
use crate::worker::{LinkWorker, SinkWorker};
use std::sync::Wait;
use std::thread::{Threads, for_each_mut, join_mut};
use tesla_desk::{Clock, Gate, Link, Output};
use tesla_shared::{Station, Witnessed};
use tesla_status::Ended;
use tesla_turn::{Permitting, Turn};

/// What works over a turn of a station.
trait Work<V: Station + Permitting> {
    /// What is seen of it.
    ghost seen: { Self → Seen V.Config V.Verdict V.Reply };

    /// It may work over the turn.
    ghost can_work: { TurnId → Self → Type 0 };

    /// Does its work.
    fn work<R: Wait>(&mut self, rt: &R, turn: &Turn<V>)
        requires { can_work turn.now self.old }
        ensures { RunsWorker V.yields (seen self.old) (seen self.new) };
}

impl<V: Station, K: Link, C: Clock + Drop, G: Gate> Work<Witnessed<V, C>>
    for LinkWorker<V, K, C, G> {
    ghost seen = { SeenLink };

    ghost can_work = { λ turn it. (it.pass.turn ≡ turn) × IsReady (SeenLink it) };

    fn work<R: Wait>(&mut self, rt: &R, turn: &Turn<Witnessed<V, C>>) {
        self.run(rt, turn);
    }
}

impl<V: Station, C: Clock + Drop, S: Output, G: Gate> Work<Witnessed<V, C>>
    for SinkWorker<V, C, S, G> {
    ghost seen = { SeenSink };

    ghost can_work = { λ turn it. (it.pass.turn ≡ turn) × IsReady (SeenSink it) };

    fn work<R: Wait>(&mut self, rt: &R, turn: &Turn<Witnessed<V, C>>) {
        self.run(rt, turn);
    }
}

// Runs workers of one kind, each in a thread of its own where one can be made.
fn run_each<R: Threads + Wait + Sync, V: Station + Permitting + Send, W: Work<V> + Send>(
    rt: &R,
    turn: &Turn<V>,
    workers: &mut [W],
)
    requires { All (W.can_work turn.now) workers.old }
    ensures { RunWorkers V.yields (map W.seen workers.old) (map W.seen workers.new) }
{
    if workers.is_empty() {
        return;
    }
    let work = |_place: usize, worker: &mut W|
        requires { W.can_work turn.now worker.now }
        ensures { RunsWorker V.yields (W.seen worker.entry.now) (W.seen worker.exit.now) }
    { worker.work(rt, turn) };
    let threads = workers.len();
    for_each_mut(rt, workers, threads, &work);
}

// Runs workers of two kinds at once, or the last after the first where no thread can be made.
fn run_both<
    R: Threads + Wait + Sync,
    V: Station + Permitting + Send,
    L: Work<V> + Send,
    F: Work<V> + Send,
>(rt: &R, turn: &Turn<V>, last: &mut [L], first: &mut [F])
    requires last { All (L.can_work turn.now) last.old }
    requires first { All (F.can_work turn.now) first.old }
    ensures last { RunWorkers V.yields (map L.seen last.old) (map L.seen last.new) }
    ensures first { RunWorkers V.yields (map F.seen first.old) (map F.seen first.new) }
{
    let mut run_last = ||
        requires { IsSync R.row × IsSend L.row × All (L.can_work turn.now) last.now }
        ensures { RunWorkers V.yields (map L.seen last.entry.now) (map L.seen last.exit.now) }
    { run_each(rt, turn, last) };
    let mut run_first = ||
        requires { IsSync R.row × IsSend F.row × All (F.can_work turn.now) first.now }
        ensures { RunWorkers V.yields (map F.seen first.entry.now) (map F.seen first.exit.now) }
    { run_each(rt, turn, first) };
    join_mut(rt, &mut run_last, &mut run_first);
}

// Runs workers of two kinds at once, and something beside them, or behind them where no thread can be made.
fn run_beside<
    R: Threads + Wait + Sync,
    V: Station + Permitting + Send,
    L: Work<V> + Send,
    F: Work<V> + Send,
    B: Beside + Send,
>(rt: &R, turn: &Turn<V>, last: &mut [L], first: &mut [F], beside: &mut B)
    requires last { All (L.can_work turn.now) last.old }
    requires first { All (F.can_work turn.now) first.old }
    ensures last { RunWorkers V.yields (map L.seen last.old) (map L.seen last.new) }
    ensures first { RunWorkers V.yields (map F.seen first.old) (map F.seen first.new) }
    ensures beside { B.did beside.old beside.new }
{
    let ended = Ended::new();
    let flag = &ended;
    let mut run_workers = ||
        requires { IsSync R.row × IsSend L.row × IsSend F.row × All (L.can_work turn.now) last.now × All (F.can_work turn.now) first.now }
        ensures { RunWorkers V.yields (map L.seen last.entry.now) (map L.seen last.exit.now) × RunWorkers V.yields (map F.seen first.entry.now) (map F.seen first.exit.now) }
    { run_then_tell(rt, turn, last, first, flag) };
    let mut run_other = ||
        ensures { B.did beside.entry.now beside.exit.now }
    { beside.run(rt, flag) };
    join_mut(rt, &mut run_other, &mut run_workers);
}

// Runs workers of two kinds at once, and tells that they have ended.
fn run_then_tell<
    R: Threads + Wait + Sync,
    V: Station + Permitting + Send,
    L: Work<V> + Send,
    F: Work<V> + Send,
>(rt: &R, turn: &Turn<V>, last: &mut [L], first: &mut [F], ended: &Ended)
    requires last { All (L.can_work turn.now) last.old }
    requires first { All (F.can_work turn.now) first.old }
    ensures { RunWorkers V.yields (map L.seen last.old) (map L.seen last.new) × RunWorkers V.yields (map F.seen first.old) (map F.seen first.new) }
{
    run_both(rt, turn, last, first);
    ended.set();
}

/// Runs all workers at once: each in a thread of its own where one can be made. Where none can be made
/// the links' workers run before the sinks', and what is beside them behind both, so that such a run ends.
pub fn run_workers<
    R: Threads + Wait + Sync,
    V: Station + Send,
    K: Link + Send,
    C: Clock + Send + Drop,
    S: Output + Send,
    G: Gate + Send,
    B: Beside + Send,
>(
    rt: &R,
    turn: &Turn<Witnessed<V, C>>,
    links: &mut [LinkWorker<V, K, C, G>],
    sinks: &mut [SinkWorker<V, C, S, G>],
    beside: &mut B,
)
    requires links { AreOf turn.now (map SeenLink links.old) }
    requires ready_links { AreReady (map SeenLink links.old) }
    requires sinks { AreOf turn.now (map SeenSink sinks.old) }
    requires ready_sinks { AreReady (map SeenSink sinks.old) }
    ensures links { RunWorkers V.yields (map SeenLink links.old) (map SeenLink links.new) }
    ensures sinks { RunWorkers V.yields (map SeenSink sinks.old) (map SeenSink sinks.new) }
    ensures beside { B.did beside.old beside.new }
{
    run_beside(rt, turn, sinks, links, beside);
}

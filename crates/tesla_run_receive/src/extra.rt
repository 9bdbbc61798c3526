//! What a live command has beside its workers: one output more that is opened behind the sinks, or none.

ghost use Rattle.std.specs.Prelude.{◌≡◌, ℕ, List, Option, Ok, Err, IfOk, IfSome, [], not};
ghost use Rattle.tesla_desk.specs.Outside.{OpensSink, Page};
ghost use Rattle.tesla_front.specs.declared.fault.Fault.{Fault};
ghost use Rattle.tesla_receiver.specs.declared.history.Entry.{Entry};
ghost use Rattle.tesla_session.specs.Session.{RefusesWorker};
ghost use Rattle.tesla_session.specs.Wanted.{WantedSink};
ghost use Rattle.tesla_shared.specs.Due.{IsOfWorker};
ghost use Rattle.tesla_turn.specs.History.{entries};
ghost use Rattle.tesla_turn.specs.Permitted.{ArePermitted};
ghost use Rattle.tesla_turn.specs.declared.view.Call.{Call};
ghost use Rattle.tesla_run_receive.specs.Running.{EndsBehind, OpensBehind, RefusesBehind};

use std::sync::Wait;
use tesla_desk::Environment;
use tesla_front::{Fault, Lines};
use tesla_run_replay::report_lines;
use tesla_session::{Beside, Ended};
use tesla_shared::{Receiving, Station};

/// What a command has beside the workers of a station: what runs at the same time, what is written to one output more, and what
/// is told on the console.
pub trait Extra<D: Environment, V: Station>: Drop {
    /// What runs beside the workers, with the output where there is one.
    type Begun: Beside + Send;

    /// The name of the output.
    ghost output: { Self → Option (List ℕ) };

    /// What the page of the output holds at the end, told the history that a station of this configuration had.
    ghost holds: { Self → V.Config → List (Entry V.Verdict V.Reply) → Page → Type 0 };

    /// The text for the console, told the history that a station of this configuration had.
    ghost text: { V.Config → List (Entry V.Verdict V.Reply) → List ℕ };

    /// Its output may be written.
    ghost allowed: { Self → Type 0 };

    /// It is meant for a station of this configuration, and its output may be written what is due of that one.
    ghost fits: { Self → V.Config → Type 0 };

    /// This is beside workers of a station of this configuration, at their start or when they have ended.
    ghost is_begun: { Self → V.Config → Self.Begun → Type 0 };

    /// Opens the output.
    fn begin(self, desk: &mut D) -> Result<Self::Begun, Fault>
        requires { allowed self }
        ensures opened { IfOk result (λ it. OpensBehind (output self) (D.told desk.old) (D.told desk.new)) }
        ensures begun { IfOk result (λ it. (cfg : V.Config) → fits self cfg → is_begun self cfg it) }
        ensures refused { (fault : Fault) → result ≡ Err fault → RefusesBehind (output self) (D.told desk.old) (D.told desk.new) fault };

    /// The lines for the console, when the workers have ended.
    fn lines(station: &V) -> Lines
        ensures { (h : List (Entry V.Verdict V.Reply)) → V.stands station.now h → result.bytes ≡ text (V.config station.now) h };

    /// Writes the rest of the output when the workers have ended, and closes it. False: it failed.
    fn end(begun: Self::Begun, station: V, desk: &mut D) -> bool
        requires begun { (extra : Self) × is_begun extra (V.config station) begun }
        requires stood { (log : List (Call (Entry V.Verdict V.Reply))) × V.stands station (entries log) × ArePermitted (IsOfWorker D.Time.read_for (V.ingests (V.config station))) log }
        ensures { (extra : Self) (h : List (Entry V.Verdict V.Reply)) → is_begun extra (V.config station) begun → V.stands station h → EndsBehind (holds extra (V.config station) h) (output extra) (D.told desk.old) (D.told desk.new) (not result) };

    /// What runs beside the workers stays what it was at their start.
    ghost still: { (extra : Self) (cfg : V.Config) (before now : Self.Begun) → Self.Begun.did before now → is_begun extra cfg before → is_begun extra cfg now };
}

/// What stays as it is while the workers run.
pub struct Idle<T> {
    pub it: T,
}

impl<T> Beside for Idle<T> {
    ghost use Rattle.std.specs.Prelude.{◌≡◌};

    ghost did = { λ before after. after ≡ before };

    fn run<R: Wait>(&mut self, _rt: &R, _ended: &Ended) {}
}

/// Nothing, and no output.
#[derive(Drop)]
pub(crate) struct NoExtra;

impl<D: Environment, V: Receiving> Extra<D, V> for NoExtra {
    ghost use Rattle.std.specs.Prelude.{None};
    ghost use Rattle.tesla_receiver.specs.Report.{report_of};
    ghost use Rattle.tesla_run_replay.specs.ReportText.{report_text};

    type Begun = Idle<()>;

    ghost output = { λ _. None };

    ghost holds = { λ _ _ _ _. Unit {0} };

    ghost text = { λ _ history. report_text (report_of history) };

    ghost allowed = { λ _. Unit {0} };

    ghost fits = { λ _ _. Unit {0} };

    ghost is_begun = { λ _ _ _. Unit {0} };

    ghost still = { λ _ _ _ _ _ begun. begun };

    fn begin(self, _desk: &mut D) -> Result<Idle<()>, Fault> {
        Ok(Idle { it: () })
    }

    fn lines(station: &V) -> Lines {
        report_lines(&station.report())
    }

    fn end(begun: Idle<()>, _station: V, _desk: &mut D) -> bool {
        let Idle { it: () } = begun;
        true
    }
}

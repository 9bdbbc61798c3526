//! What `follow` has beside its workers.

ghost use Rattle.std.specs.Prelude.{◌≤◌};

use crate::lines::lines_of;
use crate::monitor::Monitor;
use tesla_counters::Reader;
use tesla_desk::Observed;
use tesla_follow_station::{CountedFollower, FOLLOW_COUNTS};
use tesla_front::{Fault, Lines};
use tesla_run_receive::Extra;
use tesla_run_receive::watch::LineWriter;

/// How many chains a setup has at most.
const CHAINS: u8 = 8;

/// What a monitor is made of when STATUS is opened.
#[derive(Drop)]
pub(crate) struct Monitoring<'a> {
    /// The name of STATUS.
    pub(crate) status: &'a str,
    /// After how many seconds a line is due.
    pub(crate) every: u32,
    /// Who reads the counts.
    pub(crate) reader: Reader<FOLLOW_COUNTS>,
    ghost some: { 1 ≤ every },
    ghost few: { every ≤ 3600 },
}

impl<D: Observed> Extra<D, CountedFollower> for Monitoring<'_> {
    ghost use Rattle.std.specs.Prelude.{◌≡◌, List, Some, not};
    ghost use Rattle.tesla_follow.specs.History.{FollowEntry, followed};
    ghost use Rattle.tesla_follow_station.specs.Stands.{CountedStands};
    ghost use Rattle.tesla_run_follow.specs.Status.{HoldsStatus, follow_columns};
    ghost use Rattle.tesla_run_follow.specs.Text.{follow_text};
    ghost use Rattle.tesla_run_follow.specs.declared.monitoring.Monitoring.{Monitoring};
    ghost use Rattle.tesla_shared.specs.Due.{IsOfWorker};
    ghost use Rattle.tesla_turn.specs.History.{entries};
    ghost use Rattle.tesla_turn.specs.Permitted.{ArePermitted};
    ghost use Rattle.tesla_turn.specs.declared.view.Call.{Call};
    ghost use Rattle.tesla_run_receive.specs.Running.{EndsBehind};
    ghost use Rattle.tesla_run_receive.specs.watch.Allowed.{MayWriteLinesOf};
    ghost use Rattle.tesla_run_receive.specs.watch.Lines.{columns_of};
    ghost use Rattle.tesla_run_receive.specs.watch.Written.{IsMonitored, monitored_still};

    type Begun = Monitor<D::Pieces, D::Time, D::Events>;

    ghost output = { λ it. Some it.status.now };

    ghost holds = { λ it cfg. HoldsStatus cfg.config };

    ghost text = { λ cfg history. follow_text (followed cfg.config history) };

    ghost allowed = { λ it. MayWriteLinesOf D.Pieces.name D.Pieces.written D.Pieces.may_write D.Time.gave follow_columns it.status.now };

    ghost fits = { λ it cfg. it.reader.counters ≡ cfg.counters };

    ghost is_begun = { λ it cfg monitor. IsMonitored it.status.now cfg.counters follow_columns (D.Pieces.name monitor.writer.status.sink) monitor.reader.counters (columns_of monitor.writer.chains monitor.writer.names.now) monitor.reader.counts (D.Pieces.written monitor.writer.status.sink) (D.Pieces.faults monitor.writer.status.sink) monitor.writer.status.failed };

    ghost still = { λ it cfg before now did begun. monitored_still did.0 did.1 did.2 did.3 begun };

    fn begin(self, desk: &mut D) -> Result<Monitor<D::Pieces, D::Time, D::Events>, Fault> {
        let sink = desk.open_output(self.status)?;
        let clock = desk.clock();
        let events = desk.incidents();
        let names = &["epoch", "open", "early", "unqueued", "dropped"];
        let writer = LineWriter::new(sink, clock, events, self.every, CHAINS, names);
        let reader = self.reader;
        Ok(Monitor { writer, reader })
    }

    fn lines(station: &CountedFollower) -> Lines
        ensures { (h : List FollowEntry) → CountedStands station.now h → result.bytes ≡ follow_text (followed station.now.follower.config h) }
    {
        lines_of(station)
    }

    // The last line is written.
    fn end(
        begun: Monitor<D::Pieces, D::Time, D::Events>,
        station: CountedFollower,
        desk: &mut D,
    ) -> bool
        requires begun { (extra : Monitoring) × IsMonitored extra.status.now station.counters follow_columns (D.Pieces.name begun.writer.status.sink) begun.reader.counters (columns_of begun.writer.chains begun.writer.names.now) begun.reader.counts (D.Pieces.written begun.writer.status.sink) (D.Pieces.faults begun.writer.status.sink) begun.writer.status.failed }
        requires stood { (log : List (Call FollowEntry)) × CountedStands station (entries log) × ArePermitted (IsOfWorker D.Time.read_for station.follower.config.ingests) log }
        ensures { (extra : Monitoring) (h : List FollowEntry) → IsMonitored extra.status.now station.counters follow_columns (D.Pieces.name begun.writer.status.sink) begun.reader.counters (columns_of begun.writer.chains begun.writer.names.now) begun.reader.counts (D.Pieces.written begun.writer.status.sink) (D.Pieces.faults begun.writer.status.sink) begun.writer.status.failed → CountedStands station h → EndsBehind (HoldsStatus station.follower.config h) (Some extra.status.now) (D.told desk.old) (D.told desk.new) (not result) }
    {
        let mut station = station;
        let Monitor { writer, reader } = begun;
        station.compare(reader);
        let (sink, written) = writer.finish(&station.counts());
        desk.close_output(sink);
        written
    }
}

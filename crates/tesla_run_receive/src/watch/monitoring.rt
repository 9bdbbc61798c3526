//! What `watch` has beside its workers.

ghost use Rattle.std.specs.Prelude.{◌≤◌};

use crate::Extra;
use crate::watch::monitor::{LineWriter, Monitor};
use tesla_counters::Reader;
use tesla_desk::Observed;
use tesla_front::{Fault, Lines};
use tesla_recorder::watched::{COUNTS, Watched};
use tesla_run_replay::report_lines;
use tesla_shared::Receiving;

/// What a monitor is made of when STATUS is opened.
#[derive(Drop)]
pub(crate) struct Monitoring<'a> {
    /// The name of STATUS.
    pub(crate) status: &'a str,
    /// After how many seconds a line is due.
    pub(crate) every: u32,
    /// Who reads the counts.
    pub(crate) reader: Reader<COUNTS>,
    /// How many chains the setup has.
    pub(crate) chains: u8,
    ghost some: { 1 ≤ every },
    ghost few: { (every ≤ 3600) × (chains ≤ 8) },
}

impl<D: Observed> Extra<D, Watched> for Monitoring<'_> {
    ghost use Rattle.std.specs.Prelude.{◌≡◌, List, Some, length, not};
    ghost use Rattle.tesla_receiver.specs.Stands.{Stands};
    ghost use Rattle.tesla_receiver.specs.Entries.{Entry};
    ghost use Rattle.tesla_receiver.specs.Report.{report_of};
    ghost use Rattle.tesla_run_replay.specs.ReportText.{report_text};
    ghost use Rattle.tesla_recorder.specs.watched.Watched.{WatchedStands};
    ghost use Rattle.tesla_shared.specs.Due.{IsOfWorker};
    ghost use Rattle.tesla_turn.specs.History.{entries};
    ghost use Rattle.tesla_turn.specs.Permitted.{ArePermitted};
    ghost use Rattle.tesla_turn.specs.declared.view.Call.{Call};
    ghost use Rattle.tesla_run_receive.specs.Running.{EndsBehind};
    ghost use Rattle.tesla_run_receive.specs.watch.Allowed.{MayWriteLinesOf};
    ghost use Rattle.tesla_run_receive.specs.watch.Lines.{chain_columns, columns_of};
    ghost use Rattle.tesla_run_receive.specs.watch.Watch.{HoldsStatus};
    ghost use Rattle.tesla_run_receive.specs.watch.Written.{IsMonitored, monitored_still};
    ghost use Rattle.tesla_run_receive.specs.declared.watch.monitoring.Monitoring.{Monitoring};

    type Begun = Monitor<D::Pieces, D::Time, D::Events>;

    ghost output = { λ it. Some it.status.now };

    ghost holds = { λ it _. HoldsStatus it.chains };

    ghost text = { λ _ history. report_text (report_of history) };

    ghost allowed = { λ it. MayWriteLinesOf D.Pieces.name D.Pieces.written D.Pieces.may_write D.Time.gave (chain_columns it.chains) it.status.now };

    ghost fits = { λ it cfg. (it.reader.counters ≡ cfg.counters) × (it.chains ≡ length cfg.config.setup.rows) };

    ghost is_begun = { λ it cfg monitor. (it.chains ≡ length cfg.config.setup.rows) × IsMonitored it.status.now cfg.counters (chain_columns it.chains) (D.Pieces.name monitor.writer.status.sink) monitor.reader.counters (columns_of monitor.writer.chains monitor.writer.names.now) monitor.reader.counts (D.Pieces.written monitor.writer.status.sink) (D.Pieces.faults monitor.writer.status.sink) monitor.writer.status.failed };

    ghost still = { λ it cfg before now did begun. (begun.0, monitored_still did.0 did.1 did.2 did.3 begun.1) };

    fn begin(self, desk: &mut D) -> Result<Monitor<D::Pieces, D::Time, D::Events>, Fault> {
        let sink = desk.open_output(self.status)?;
        let clock = desk.clock();
        let events = desk.incidents();
        let writer = LineWriter::new(sink, clock, events, self.every, self.chains, &[]);
        let reader = self.reader;
        Ok(Monitor { writer, reader })
    }

    fn lines(station: &Watched) -> Lines
        ensures { (h : List Entry) → WatchedStands Stands station.now h → result.bytes ≡ report_text (report_of h) }
    {
        report_lines(&station.report())
    }

    // The last line is written.
    fn end(begun: Monitor<D::Pieces, D::Time, D::Events>, station: Watched, desk: &mut D) -> bool
        requires begun { (extra : Monitoring) × ((extra.chains ≡ length station.station.config.setup.rows) × IsMonitored extra.status.now station.counters (chain_columns extra.chains) (D.Pieces.name begun.writer.status.sink) begun.reader.counters (columns_of begun.writer.chains begun.writer.names.now) begun.reader.counts (D.Pieces.written begun.writer.status.sink) (D.Pieces.faults begun.writer.status.sink) begun.writer.status.failed) }
        requires stood { (log : List (Call Entry)) × WatchedStands Stands station (entries log) × ArePermitted (IsOfWorker D.Time.read_for station.station.config.ingests) log }
        ensures { (extra : Monitoring) (h : List Entry) → (extra.chains ≡ length station.station.config.setup.rows) × IsMonitored extra.status.now station.counters (chain_columns extra.chains) (D.Pieces.name begun.writer.status.sink) begun.reader.counters (columns_of begun.writer.chains begun.writer.names.now) begun.reader.counts (D.Pieces.written begun.writer.status.sink) (D.Pieces.faults begun.writer.status.sink) begun.writer.status.failed → WatchedStands Stands station h → EndsBehind (HoldsStatus extra.chains h) (Some extra.status.now) (D.told desk.old) (D.told desk.new) (not result) }
    {
        let mut station = station;
        let Monitor { writer, reader } = begun;
        station.compare(reader);
        let (sink, written) = writer.finish(&station.counts());
        desk.close_output(sink);
        written
    }
}

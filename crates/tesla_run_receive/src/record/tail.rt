//! The last entries of the history, as a file.

ghost use Rattle.std.specs.Prelude.{◌≡◌, ◌++◌, ℕ, List, [], IfSome, true, false, flat_map};
ghost use Rattle.tesla_desk.specs.Faults.{HasCause};
ghost use Rattle.tesla_desk.specs.Outside.{AppendsPrefix, with_bytes};
ghost use Rattle.tesla_receiver.specs.Stands.{Stands};
ghost use Rattle.tesla_receiver.specs.Entries.{Entry};
ghost use Rattle.tesla_recorder.specs.Recorded.{RecordedStands};
ghost use Rattle.tesla_run_receive.specs.record.Allowed.{MayGoOn};
ghost use Rattle.tesla_run_receive.specs.record.Record.{tail_of};

use crate::{Extra, Idle};
use tesla_desk::{Environment, Output};
use tesla_front::{Fault, Lines};
use tesla_recorder::Recorded;
use tesla_run_replay::report_lines;
use tesla_shared::Receiving;
use tesla_trace::tail_head_bytes;

/// TAIL, to which the last entries are written when the workers have ended.
#[derive(Drop)]
pub(crate) struct Tail<'a> {
    /// Its name.
    pub(crate) name: &'a str,
    /// How many entries are kept at most.
    pub(crate) keep: u32,
}

impl<D: Environment> Extra<D, Recorded> for Tail<'_> {
    ghost use Rattle.std.specs.Prelude.{◌≡◌, List, Some, not};
    ghost use Rattle.std.proofs.Common.{subst, sym};
    ghost use Rattle.tesla_receiver.specs.Stands.{Stands};
    ghost use Rattle.tesla_receiver.specs.Entries.{Entry};
    ghost use Rattle.tesla_receiver.specs.Report.{report_of};
    ghost use Rattle.tesla_recorder.specs.Recorded.{RecordedStands};
    ghost use Rattle.tesla_run_replay.specs.ReportText.{report_text};
    ghost use Rattle.tesla_shared.specs.Due.{IsOfWorker};
    ghost use Rattle.tesla_turn.specs.History.{entries};
    ghost use Rattle.tesla_turn.specs.Permitted.{ArePermitted};
    ghost use Rattle.tesla_turn.specs.declared.view.Call.{Call};
    ghost use Rattle.tesla_run_receive.specs.Running.{EndsBehind};
    ghost use Rattle.tesla_run_receive.specs.record.Allowed.{MayWriteTailOf};
    ghost use Rattle.tesla_run_receive.specs.record.Record.{HoldsTail, IsNewTail};
    ghost use Rattle.tesla_run_receive.specs.declared.record.tail.Tail.{Tail};

    type Begun = Idle<D::Pieces>;

    ghost output = { λ tail. Some tail.name.now };

    ghost holds = { λ tail _. HoldsTail tail.keep };

    ghost text = { λ _ history. report_text (report_of history) };

    ghost allowed = { λ _. Unit {0} };

    ghost fits = { λ tail cfg. (cfg.keep ≡ tail.keep) × MayWriteTailOf D.Pieces.name D.Pieces.written D.Pieces.may_write D.Time.read_for cfg.config tail.keep tail.name.now };

    ghost is_begun = { λ tail cfg begun. IsNewTail tail.keep tail.name.now cfg.keep (D.Pieces.written begun.it) (D.Pieces.faults begun.it) (D.Pieces.name begun.it) × MayWriteTailOf D.Pieces.name D.Pieces.written D.Pieces.may_write D.Time.read_for cfg.config tail.keep tail.name.now };

    ghost still = { λ tail cfg before now same begun. (subst (λ it. IsNewTail tail.keep tail.name.now cfg.keep (D.Pieces.written it.it) (D.Pieces.faults it.it) (D.Pieces.name it.it)) (sym same) begun.0, begun.1) };

    fn begin(self, desk: &mut D) -> Result<Idle<D::Pieces>, Fault> {
        let it = desk.open_output(self.name)?;
        Ok(Idle { it })
    }

    fn lines(station: &Recorded) -> Lines
        ensures { (h : List Entry) → RecordedStands Stands station.now h → result.bytes ≡ report_text (report_of h) }
    {
        report_lines(&station.report())
    }

    fn end(begun: Idle<D::Pieces>, station: Recorded, desk: &mut D) -> bool
        requires begun { (extra : Tail) × (IsNewTail extra.keep extra.name.now station.keep (D.Pieces.written begun.it) (D.Pieces.faults begun.it) (D.Pieces.name begun.it) × MayWriteTailOf D.Pieces.name D.Pieces.written D.Pieces.may_write D.Time.read_for station.station.config extra.keep extra.name.now) }
        requires stood { (log : List (Call Entry)) × RecordedStands Stands station (entries log) × ArePermitted (IsOfWorker D.Time.read_for station.station.config.ingests) log }
        ensures { (extra : Tail) (h : List Entry) → IsNewTail extra.keep extra.name.now station.keep (D.Pieces.written begun.it) (D.Pieces.faults begun.it) (D.Pieces.name begun.it) × MayWriteTailOf D.Pieces.name D.Pieces.written D.Pieces.may_write D.Time.read_for station.station.config extra.keep extra.name.now → RecordedStands Stands station h → EndsBehind (HoldsTail extra.keep h) (Some extra.name.now) (D.told desk.old) (D.told desk.new) (not result) }
    {
        let Idle { it: mut sink } = begun;
        let written = write_tail(&mut sink, &station);
        desk.close_output(sink);
        written
    }
}

// Writes the entries that are kept, as they are spelled. False: a prefix was written.
fn write_entries<S: Output>(sink: &mut S, recorded: &Recorded) -> bool
    requires allowed { (text : List ℕ) × (before : List ℕ) × IfSome (S.written sink.old) (λ bytes. bytes ≡ before) × (text ≡ before ++ flat_map (λ entry. entry) recorded.now.texts) × MayGoOn S.name S.written S.may_write text (S.name sink.old) }
    ensures all { result ≡ true → S.written sink.new ≡ with_bytes (S.written sink.old) (flat_map (λ text. text) recorded.now.texts) }
    ensures prefix { AppendsPrefix (S.written sink.old) (S.written sink.new) (flat_map (λ text. text) recorded.now.texts) }
    ensures cause { HasCause (S.faults sink.old) (S.faults sink.new) (result ≡ false) }
    ensures name { S.name sink.new ≡ S.name sink.old }
{
    let (front, back) = recorded.texts();
    sink.write_piece(front) && sink.write_piece(back)
}

/// Writes the last entries of the history, behind the number of the first of them. False: a prefix was written, and the sink's
/// count of faults rose.
fn write_tail<S: Output>(sink: &mut S, recorded: &Recorded) -> bool
    requires empty { IfSome (S.written sink.old) (λ bytes. bytes ≡ []) }
    requires allowed { (h : List Entry) × RecordedStands Stands recorded.now h × MayGoOn S.name S.written S.may_write (tail_of recorded.now.keep h) (S.name sink.old) }
    ensures all { (h : List Entry) → RecordedStands Stands recorded.now h → result ≡ true → S.written sink.new ≡ with_bytes (S.written sink.old) (tail_of recorded.now.keep h) }
    ensures prefix { (h : List Entry) → RecordedStands Stands recorded.now h → AppendsPrefix (S.written sink.old) (S.written sink.new) (tail_of recorded.now.keep h) }
    ensures cause { HasCause (S.faults sink.old) (S.faults sink.new) (result ≡ false) }
    ensures name { S.name sink.new ≡ S.name sink.old }
{
    sink.write_piece(&tail_head_bytes(recorded.first())) && write_entries(sink, recorded)
}

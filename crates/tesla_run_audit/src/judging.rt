//! A trace that is read from its source, entry after entry, and judged.

ghost use Rattle.std.specs.Prelude.{◌≡◌, ◌+◌, ◌<◌, ◌≤◌, [], List, ℕ, None, Some, true, false, IfOk, IfSome};
ghost use Rattle.std.specs.Option.{option_map};
ghost use Rattle.tesla_desk.specs.Faults.{HasCause};
ghost use Rattle.tesla_fitting.specs.declared.config.Config.{Config};
ghost use Rattle.tesla_front.specs.OutcomeView.{Failed, result_view};
ghost use Rattle.tesla_front.specs.declared.fault.Fault.TheVariants as faults;
ghost use Rattle.tesla_receiver.specs.Entries.{Entry};
ghost use Rattle.tesla_receiver.specs.Stands.{Stands};
ghost use Rattle.tesla_records.specs.Grammar.{limit};
ghost use Rattle.tesla_records.specs.Steps.{goes_on};
ghost use Rattle.tesla_state.specs.Steps.{with_ingests};
ghost use Rattle.tesla_trace.specs.Entries.{IsEntry, entry_in};
ghost use Rattle.tesla_audit.specs.Steps.{records_step};
ghost use Rattle.tesla_run_audit.specs.Arguments.{arguments_of, config_of};
ghost use Rattle.tesla_run_audit.specs.Audit.{AuditsBetween, AuditsBytes, IsAuditOutcome};
ghost use Rattle.tesla_run_audit.specs.Judging.{GoesUp, IsAt, IsBehind, StepsTo, stop_at};

use crate::arguments::Arguments;
use crate::lines::{legal, refuted};
use std::alloc::Global;
use std::marker::Brand;
use std::sync::ledger::{Blank, Ledger};
use tesla_audit::{Auditor, TraceReader, TraceStep};
use tesla_base::{Kind, NoMemory, Steps};
use tesla_commit::Setup;
use tesla_desk::Source;
use tesla_front::{Fault, Lines, Stop, refused};
use tesla_receiver::Receiver;
use tesla_trace::EntryBuffer;

// A trace in the middle of its audit: the place holds the entry that is judged next.
#[derive(Drop)]
struct Audit<L: Ledger> {
    auditor: Auditor,
    reader: TraceReader,
    entry: EntryBuffer,
    steps: Steps<L>,
}

/// A receiver of the most ingests that a trace tells, in which nothing has happened. All memory of an audit is taken
/// here.
pub fn open(alloc: Global, setup: Setup, arguments: &Arguments<'_>) -> Result<Receiver, NoMemory>
    ensures config { IfOk result (λ r. r.config ≡ config_of (arguments_of arguments.now) setup 255) }
    ensures stands { IfOk result (λ r. Stands r []) }
{
    let lag = arguments.lag;
    let limits = arguments.limits;
    Receiver::open(alloc, setup, lag, limits.capacity, limits.quota, u8::MAX)
}

/// What a trace comes to, judged by a receiver in which nothing has happened: its head and its first entry are read,
/// then the receiver keeps as many ingests as the head tells, and then entry after entry is judged. Nothing is read
/// behind the first wrong one. It takes no memory.
pub fn audit_trace<S: Source>(receiver: Receiver, source: &mut S) -> Result<Lines, Stop>
    requires most { receiver.config.ingests ≡ 255 }
    requires unused { Stands receiver [] }
    ensures audits { AuditsBetween (with_ingests receiver.config) (S.left source.old) (S.left source.new) (result_view result) }
    ensures cause { HasCause (S.faults source.old) (S.faults source.new) (result_view result ≡ Failed faults.Read) }
    ensures name { S.name source.new ≡ S.name source.old }
{
    let mut reader = TraceReader::new();
    let mut entry = EntryBuffer::new();
    let step = reader.next(source, &mut entry);
    if reader.going() {
        let mut receiver = receiver;
        receiver.limit_ingests(reader.ingests());
        judge_from::<Brand, S>(receiver, reader, entry, Blank::new(1), source)
    } else {
        stop(step, 0)
    }
}

// Judges a trace by a new receiver, with a ledger for its evaluations of HMAC. The place holds the first entry.
fn judge_from<L: Ledger, S: Source>(
    receiver: Receiver,
    reader: TraceReader,
    entry: EntryBuffer,
    blank: Blank,
    source: &mut S,
) -> Result<Lines, Stop>
    requires name { blank.name ≡ L.name }
    requires parts { blank.parts ≡ L.parts }
    requires some { 0 < L.parts }
    requires stands { Stands receiver [] }
    requires entry { IsEntry entry }
    requires going { reader.going ≡ true }
    requires limited { reader.place ≤ limit }
    ensures audits { (cfg : ℕ → Config) (bytes : List ℕ) → IsAt cfg bytes receiver reader (S.left source.old) (entry_in entry) → AuditsBytes cfg bytes (S.left source.new) (result_view result) }
    ensures possible { IsAuditOutcome (result_view result) }
    ensures cause { HasCause (S.faults source.old) (S.faults source.new) (result_view result ≡ Failed faults.Read) }
    ensures name { S.name source.new ≡ S.name source.old }
{
    let audit = Audit {
        auditor: Auditor::new(receiver),
        reader,
        entry,
        steps: Steps::<L>::new(blank),
    };
    judge_all(audit, source)
}

// Judges the entries of a trace from the one on that the place holds.
fn judge_all<L: Ledger, S: Source>(mut audit: Audit<L>, source: &mut S) -> Result<Lines, Stop>
    requires entry { IsEntry audit.entry }
    requires going { audit.reader.going ≡ true }
    requires calls { audit.auditor.calls ≡ 0 }
    requires limited { audit.reader.place ≤ limit }
    ensures audits { (cfg : ℕ → Config) (bytes : List ℕ) → IsAt cfg bytes audit.auditor audit.reader (S.left source.old) (entry_in audit.entry) → AuditsBytes cfg bytes (S.left source.new) (result_view result) }
    ensures possible { IsAuditOutcome (result_view result) }
    ensures cause { HasCause (S.faults source.old) (S.faults source.new) (result_view result ≡ Failed faults.Read) }
    ensures name { S.name source.new ≡ S.name source.old }
{
    loop {
        match audit.step(source) {
            None => {}
            Some(outcome) => return outcome,
        }
    }
}

impl<L: Ledger> Audit<L> {
    // Judges the entry that is next, and reads the one behind it. `None`: it is right, and there is another one.
    fn step<S: Source>(&mut self, source: &mut S) -> Option<Result<Lines, Stop>>
        requires entry { IsEntry self.old.entry }
        requires going { self.old.reader.going ≡ true }
        requires calls { self.old.auditor.calls ≤ limit }
        ensures steps { (cfg : ℕ → Config) (bytes : List ℕ) → IsAt cfg bytes self.old.auditor self.old.reader (S.left source.old) (entry_in self.old.entry) → StepsTo cfg bytes result self.new.auditor self.new.reader (S.left source.new) (entry_in self.new.entry) }
        ensures rises { result ≡ None → GoesUp self.old.reader self.new.reader }
        ensures entry { result ≡ None → IsEntry self.new.entry }
        ensures calls { self.new.auditor.calls ≡ self.old.auditor.calls + 1 }
        ensures possible { IfSome result (λ outcome. IsAuditOutcome (result_view outcome)) }
        ensures cause { HasCause (S.faults source.old) (S.faults source.new) (option_map result_view result ≡ Some (Failed faults.Read)) }
        ensures name { S.name source.new ≡ S.name source.old }
    {
        let number = self.auditor.entries();
        match self.auditor.check(&self.entry, &mut self.steps) {
            Ok(()) => self.read_next(number + 1, source),
            Err(answer) => Some(Err(Stop::Refused(refuted(number, &answer)))),
        }
    }

    // Reads the entry behind so many that are right. `None`: there is one.
    fn read_next<S: Source>(&mut self, entries: u64, source: &mut S) -> Option<Result<Lines, Stop>>
        requires going { self.old.reader.going ≡ true }
        ensures reads { (cfg : ℕ → Config) (bytes : List ℕ) → IsBehind cfg bytes entries self.old.auditor self.old.reader (S.left source.old) → StepsTo cfg bytes result self.new.auditor self.new.reader (S.left source.new) (entry_in self.new.entry) }
        ensures rises { result ≡ None → GoesUp self.old.reader self.new.reader }
        ensures entry { result ≡ None → IsEntry self.new.entry }
        ensures auditor { self.new.auditor ≡ self.old.auditor }
        ensures possible { IfSome result (λ outcome. IsAuditOutcome (result_view outcome)) }
        ensures cause { HasCause (S.faults source.old) (S.faults source.new) (option_map result_view result ≡ Some (Failed faults.Read)) }
        ensures name { S.name source.new ≡ S.name source.old }
    {
        let step = self.reader.next(source, &mut self.entry);
        if self.reader.going() {
            None
        } else {
            Some(stop(step, entries))
        }
    }
}

// Where the entries of a trace end behind so many that are right.
fn stop(step: TraceStep, entries: u64) -> Result<Lines, Stop>
    requires { goes_on (records_step step) ≡ false }
    ensures { result_view result ≡ stop_at step entries }
{
    match step {
        TraceStep::End => Ok(legal(entries)),
        TraceStep::Refused { place, kind } => {
            Err(Stop::Refused(refused(3, "trace", place, kind.name())))
        }
        TraceStep::ReadFault => Err(Stop::Failed(Fault::Read)),
        TraceStep::Entry => unreachable!(),
    }
}

//! What writes the counts while the workers run.

ghost use Rattle.std.specs.Prelude.{◌≡◌, ◌+◌, ◌≤◌, ℕ, List, Option, length, not, false, true};
ghost use Rattle.tesla_counters.specs.Counts.{NoneFalls};
ghost use Rattle.tesla_front.specs.Parts.{texts_of};
ghost use Rattle.tesla_status.specs.Written.{Puts};
ghost use Rattle.tesla_run_receive.specs.declared.watch.line.LineFacts.{LineFacts};
ghost use Rattle.tesla_run_receive.specs.watch.Allowed.{MayWriteLinesOf};
ghost use Rattle.tesla_run_receive.specs.watch.Lines.{AreShort, columns_of, counted_at, line_at, line_text};
ghost use Rattle.tesla_run_receive.specs.watch.Written.{AreNoted, NotesMore, WritesStatus};

use crate::watch::line::{LineFacts, line_of};
use std::sync::Wait;
use tesla_counters::Reader;
use tesla_desk::{Clock, Incidents, Output};
use tesla_recorder::watched::COUNTS;
use tesla_session::{Beside, Ended};
use tesla_status::{Due, Status};

/// The file of the counts, the clock that its lines go by, and what they tell beside the counts.
pub struct LineWriter<S: Output, C: Clock, E: Incidents> {
    pub status: Status<S>,
    pub clock: C,
    /// When the next line is due.
    pub due: Due,
    /// What tells what the system did.
    pub events: E,
    /// How many chains the setup has.
    pub chains: u8,
    /// The names of the further counts.
    pub names: &'static [&'static str],
    ghost few: { chains ≤ 8 },
    ghost short: { AreShort names.now },
    ghost allowed: { MayWriteLinesOf S.name S.written S.may_write C.gave (columns_of chains names.now) (S.name status.sink) },
}

/// Who reads the counts of `watch`, and what writes them.
pub(crate) struct Monitor<S: Output, C: Clock, E: Incidents> {
    pub(crate) writer: LineWriter<S, C, E>,
    pub(crate) reader: Reader<COUNTS>,
    ghost size: { 19 ≡ 19 + length writer.names.now },
    ghost noted: { ∥ AreNoted (columns_of writer.chains writer.names.now) reader.counts (S.written writer.status.sink) (S.faults writer.status.sink) writer.status.failed ∥₁ },
}

// What a line tells beside the counts, at this reading of a clock.
fn facts_of<E: Incidents>(is_last: bool, time: u64, events: &E) -> LineFacts
    ensures { (result.is_last ≡ is_last) × (result.time ≡ time) }
{
    LineFacts {
        is_last,
        time,
        held_readings: events.held(),
        failed_sinks: events.failed_sinks(),
    }
}

impl<S: Output, C: Clock, E: Incidents> LineWriter<S, C, E> {
    /// Writes to this sink, every so many seconds by this clock: lines with a count for each of so many chains, and one for each
    /// of these names. The other numbers are those of the incidents.
    pub fn new(
        sink: S,
        mut clock: C,
        events: E,
        every: u32,
        chains: u8,
        names: &'static [&'static str],
    ) -> LineWriter<S, C, E>
        requires every { (1 ≤ every) × (every ≤ 3600) }
        requires few { chains ≤ 8 }
        requires short { AreShort names.now }
        requires allowed { MayWriteLinesOf S.name S.written S.may_write C.gave (columns_of chains names.now) (S.name sink) }
        ensures sink { (result.status.sink ≡ sink) × (result.status.failed ≡ false) }
        ensures columns { (result.chains ≡ chains) × (result.names.now ≡ names.now) }
    {
        let due = Due::new(every, clock.now());
        let status = Status {
            sink,
            failed: false,
        };
        LineWriter {
            status,
            clock,
            due,
            events,
            chains,
            names,
        }
    }

    /// Writes a line of these counts, at this reading of a clock, behind those of earlier counts.
    pub fn put(&mut self, is_last: bool, now: u64, counts: &[u64])
        requires given { C.gave now ≡ true }
        requires size { length counts.now ≡ 19 + length self.old.names.now }
        requires noted { (earlier : List ℕ) × ∥ AreNoted (columns_of self.old.chains self.old.names.now) earlier (S.written self.old.status.sink) (S.faults self.old.status.sink) self.old.status.failed ∥₁ × NoneFalls earlier counts.now }
        ensures puts { (facts : LineFacts) × (facts.is_last ≡ is_last) × Puts (line_text (texts_of self.old.names.now) (line_at facts self.old.chains counts.now)) (S.written self.old.status.sink) (S.written self.new.status.sink) (S.faults self.old.status.sink) (S.faults self.new.status.sink) self.old.status.failed self.new.status.failed }
        ensures name { S.name self.new.status.sink ≡ S.name self.old.status.sink }
        ensures columns { (self.new.chains ≡ self.old.chains) × (self.new.names ≡ self.old.names) }
    {
        let facts = facts_of(is_last, now, &self.events);
        self.status
            .put(&line_of(&facts, counts, self.chains, self.names));
    }
}

impl<S: Output, C: Clock + Drop, E: Incidents + Drop> LineWriter<S, C, E> {
    /// Writes the last line, of these counts. Where it wrote to, and false: that failed.
    pub fn finish(mut self, counts: &[u64]) -> (S, bool)
        requires size { length counts.now ≡ 19 + length self.names.now }
        requires noted { (earlier : List ℕ) × AreNoted (columns_of self.chains self.names.now) earlier (S.written self.status.sink) (S.faults self.status.sink) self.status.failed × NoneFalls earlier counts.now }
        ensures writes { (fresh : Option (List ℕ)) × WritesStatus (columns_of self.chains self.names.now) (counted_at self.chains counts.now) fresh (S.written result.0) (S.faults result.0) (not result.1) }
        ensures name { S.name result.0 ≡ S.name self.status.sink }
    {
        let now = self.clock.now();
        self.put(true, now, counts);
        let LineWriter {
            status: Status { sink, failed },
            clock: _,
            due: _,
            events: _,
            chains: _,
            names: _,
        } = self;
        (sink, !failed)
    }
}

impl<S: Output, C: Clock, E: Incidents> Monitor<S, C, E> {
    // Writes a line of the counts as they are now, at this reading of a clock.
    fn note(&mut self, now: u64)
        requires given { C.gave now ≡ true }
        ensures notes { NotesMore (columns_of self.old.writer.chains self.old.writer.names.now) self.old.reader.counts (S.written self.old.writer.status.sink) (S.faults self.old.writer.status.sink) self.old.writer.status.failed (columns_of self.new.writer.chains self.new.writer.names.now) self.new.reader.counts (S.written self.new.writer.status.sink) (S.faults self.new.writer.status.sink) self.new.writer.status.failed }
        ensures name { S.name self.new.writer.status.sink ≡ S.name self.old.writer.status.sink }
        ensures counters { self.new.reader.counters ≡ self.old.reader.counters }
        ensures columns { columns_of self.new.writer.chains self.new.writer.names.now ≡ columns_of self.old.writer.chains self.old.writer.names.now }
    {
        let counts = self.reader.read();
        self.writer.put(false, now, &counts);
    }

    // Writes a line whenever one is due, until the workers have ended. It rests between, a second at most.
    fn watch<R: Wait>(&mut self, rt: &R, ended: &Ended)
        ensures notes { NotesMore (columns_of self.old.writer.chains self.old.writer.names.now) self.old.reader.counts (S.written self.old.writer.status.sink) (S.faults self.old.writer.status.sink) self.old.writer.status.failed (columns_of self.new.writer.chains self.new.writer.names.now) self.new.reader.counts (S.written self.new.writer.status.sink) (S.faults self.new.writer.status.sink) self.new.writer.status.failed }
        ensures name { S.name self.new.writer.status.sink ≡ S.name self.old.writer.status.sink }
        ensures counters { self.new.reader.counters ≡ self.old.reader.counters }
        ensures columns { columns_of self.new.writer.chains self.new.writer.names.now ≡ columns_of self.old.writer.chains self.old.writer.names.now }
    {
        for _ in rt.forever() {
            if ended.is_set() {
                return;
            }
            let writer = &mut self.writer;
            let now = writer.clock.now();
            let is_due = writer.due.is_due(now);
            let rest = writer.due.rest_at(now);
            if is_due {
                self.note(now);
            }
            ended.rest(rt, rest);
        }
        unreachable!()
    }
}

impl<S: Output, C: Clock, E: Incidents> Beside for Monitor<S, C, E> {
    ghost use Rattle.std.specs.Prelude.{◌≡◌};
    ghost use Rattle.tesla_run_receive.specs.watch.Lines.{columns_of};
    ghost use Rattle.tesla_run_receive.specs.watch.Written.{NotesMore};

    ghost did = { λ old new. NotesMore (columns_of old.writer.chains old.writer.names.now) old.reader.counts (S.written old.writer.status.sink) (S.faults old.writer.status.sink) old.writer.status.failed (columns_of new.writer.chains new.writer.names.now) new.reader.counts (S.written new.writer.status.sink) (S.faults new.writer.status.sink) new.writer.status.failed × (S.name new.writer.status.sink ≡ S.name old.writer.status.sink) × (new.reader.counters ≡ old.reader.counters) × (columns_of new.writer.chains new.writer.names.now ≡ columns_of old.writer.chains old.writer.names.now) };

    fn run<R: Wait>(&mut self, rt: &R, ended: &Ended) {
        self.watch(rt, ended);
    }
}

//! What writes the counts while the workers run.

ghost use Rattle.std.specs.Prelude.{◌≡◌, ◌+◌, length, true};
ghost use Rattle.tesla_run_receive.specs.watch.Lines.{columns_of};
ghost use Rattle.tesla_run_receive.specs.watch.Written.{AreNoted, NotesMore};

use std::sync::Wait;
use tesla_counters::Reader;
use tesla_desk::{Clock, Incidents, Output};
use tesla_follow_station::FOLLOW_COUNTS;
use tesla_run_receive::watch::LineWriter;
use tesla_session::{Beside, Ended};

/// Who reads the counts, and what writes them.
pub(crate) struct Monitor<S: Output, C: Clock, E: Incidents> {
    pub(crate) writer: LineWriter<S, C, E>,
    pub(crate) reader: Reader<FOLLOW_COUNTS>,
    ghost size: { 24 ≡ 19 + length writer.names.now },
    ghost noted: { ∥ AreNoted (columns_of writer.chains writer.names.now) reader.counts (S.written writer.status.sink) (S.faults writer.status.sink) writer.status.failed ∥₁ },
}

impl<S: Output, C: Clock, E: Incidents> Monitor<S, C, E> {
    // Writes a line of the counts as they are now, at this reading of a clock.
    fn note(&mut self, now: u64)
        requires given { C.gave now ≡ true }
        ensures notes { NotesMore (columns_of self.old.writer.chains self.old.writer.names.now) self.old.reader.counts (S.written self.old.writer.status.sink) (S.faults self.old.writer.status.sink) self.old.writer.status.failed (columns_of self.new.writer.chains self.new.writer.names.now) self.new.reader.counts (S.written self.new.writer.status.sink) (S.faults self.new.writer.status.sink) self.new.writer.status.failed }
        ensures name { S.name self.new.writer.status.sink ≡ S.name self.old.writer.status.sink }
        ensures counters { self.new.reader.counters ≡ self.old.reader.counters }
        ensures columns { columns_of self.new.writer.chains self.new.writer.names.now ≡ columns_of self.old.writer.chains self.old.writer.names.now }
    {
        let counts = self.reader.read();
        self.writer.put(false, now, &counts);
    }

    // Writes a line whenever one is due, until the workers have ended. It rests between, a second at most.
    fn watch<R: Wait>(&mut self, rt: &R, ended: &Ended)
        ensures notes { NotesMore (columns_of self.old.writer.chains self.old.writer.names.now) self.old.reader.counts (S.written self.old.writer.status.sink) (S.faults self.old.writer.status.sink) self.old.writer.status.failed (columns_of self.new.writer.chains self.new.writer.names.now) self.new.reader.counts (S.written self.new.writer.status.sink) (S.faults self.new.writer.status.sink) self.new.writer.status.failed }
        ensures name { S.name self.new.writer.status.sink ≡ S.name self.old.writer.status.sink }
        ensures counters { self.new.reader.counters ≡ self.old.reader.counters }
        ensures columns { columns_of self.new.writer.chains self.new.writer.names.now ≡ columns_of self.old.writer.chains self.old.writer.names.now }
    {
        for _ in rt.forever() {
            if ended.is_set() {
                return;
            }
            let writer = &mut self.writer;
            let now = writer.clock.now();
            let is_due = writer.due.is_due(now);
            let rest = writer.due.rest_at(now);
            if is_due {
                self.note(now);
            }
            ended.rest(rt, rest);
        }
        unreachable!()
    }
}

impl<S: Output, C: Clock, E: Incidents> Beside for Monitor<S, C, E> {
    ghost use Rattle.std.specs.Prelude.{◌≡◌};
    ghost use Rattle.tesla_run_receive.specs.watch.Lines.{columns_of};
    ghost use Rattle.tesla_run_receive.specs.watch.Written.{NotesMore};

    ghost did = { λ old new. NotesMore (columns_of old.writer.chains old.writer.names.now) old.reader.counts (S.written old.writer.status.sink) (S.faults old.writer.status.sink) old.writer.status.failed (columns_of new.writer.chains new.writer.names.now) new.reader.counts (S.written new.writer.status.sink) (S.faults new.writer.status.sink) new.writer.status.failed × (S.name new.writer.status.sink ≡ S.name old.writer.status.sink) × (new.reader.counters ≡ old.reader.counters) × (columns_of new.writer.chains new.writer.names.now ≡ columns_of old.writer.chains old.writer.names.now) };

    fn run<R: Wait>(&mut self, rt: &R, ended: &Ended) {
        self.watch(rt, ended);
    }
}

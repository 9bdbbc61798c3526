//! What writes the counts of a feed to STATUS while it runs.

ghost use Rattle.std.specs.Prelude.{◌≡◌, ◌≤◌, ◌*◌, ◌++◌, ◌∷◌, [], codes, false, length, true, IfSome, List};
ghost use Rattle.tesla_feed.specs.Fed.{is_unread};
ghost use Rattle.tesla_feeds.specs.Notes.{Note};
ghost use Rattle.tesla_run_feed.specs.Status.{HasAllLines, HasLines, end_line, has_line, last_reading, status_line, time_line};
ghost use Rattle.tesla_run_feed.specs.declared.line.SystemCounts.{SystemCounts};
ghost use Rattle.tesla_status.specs.Written.{Puts};

use crate::line::{SystemCounts, line_of};
use std::collections::LinkedList;
use tesla_clock::Schedule;
use tesla_desk::{Incidents, Output};
use tesla_feeds::FeedsCounts;
use tesla_status::{Due, Status};

/// How many microseconds a feed waits at most until its counts are told again, where the clock couldn't be read.
const REST: u64 = 1_000_000;

/// What stays the same while counts are told: the intervals of each stream, the reading of the opening, how many microseconds pass
/// from a line to the next, and the name of the output.
pub(crate) struct Telling {
    pub(crate) schedules: LinkedList<Schedule>,
    pub(crate) opening: u64,
    pub(crate) every: u64,
    pub(crate) name: LinkedList<u8>,
}

/// The file of the counts of a feed, and when its next line is due.
pub(crate) struct StatusNotes<S: Output, I: Incidents + Drop> {
    status: Status<S>,
    incidents: I,
    due: Due,
    // The intervals of each stream, 1 to 16.
    schedules: Vec<Schedule>,
    ghost few: { length schedules.items ≤ 16 },
    // The reading of the opening.
    opening: u64,
    // The last reading since then that could be had.
    last: u64,
}

impl<S: Output, I: Incidents + Drop> StatusNotes<S, I> {
    /// Over a new output, with a line every so many seconds, from the reading of the opening on.
    pub(crate) fn new(
        sink: S,
        incidents: I,
        schedules: Vec<Schedule>,
        every: u32,
        opening: u64,
    ) -> StatusNotes<S, I>
        requires few { length schedules.items ≤ 16 }
        requires every { (1 ≤ every) × (every ≤ 3600) }
        requires empty { IfSome (S.written sink) (λ bytes. bytes ≡ []) }
        requires fresh { S.faults sink ≡ 0 }
        ensures sink { result.status ≡ record { sink = sink; failed = false } }
        ensures fixed { (result.schedules ≡ schedules) × (result.opening ≡ opening) × (result.due.every ≡ every * 1000000) }
        ensures lines { HasLines schedules.items (every * 1000000) opening result.due.since result.last [] (S.written sink) (S.faults sink) false }
    {
        StatusNotes {
            status: Status {
                sink,
                failed: false,
            },
            incidents,
            due: Due::new(every, opening),
            schedules,
            opening,
            last: opening,
        }
    }

    // Puts a line of these counts, behind a word.
    fn put(&mut self, word: &str, reading: u64, counts: &FeedsCounts)
        requires short { length word.now ≤ 5 }
        requires permitted { self.old.status.failed ≡ false → (system : SystemCounts) → S.may_write self.old.status.sink (status_line self.old.schedules.items word.now reading counts.now system) ≡ true }
        ensures puts { (system : SystemCounts) × Puts (status_line self.old.schedules.items word.now reading counts.now system) (S.written self.old.status.sink) (S.written self.new.status.sink) (S.faults self.old.status.sink) (S.faults self.new.status.sink) self.old.status.failed self.new.status.failed }
        ensures name { S.name self.new.status.sink ≡ S.name self.old.status.sink }
        ensures fixed { (self.new.schedules ≡ self.old.schedules) × (self.new.opening ≡ self.old.opening) × (self.new.due ≡ self.old.due) × (self.new.last ≡ self.old.last) }
    {
        let system = SystemCounts::of(&self.incidents);
        let line = line_of(self.schedules.as_slice(), word, reading, counts, system);
        self.status.put(&line);
    }

    /// Takes a note, and writes its line where one is due, as long as the output hasn't failed. It gives how many
    /// microseconds later the counts are to be told again at the latest.
    pub(crate) fn tell(&mut self, reading: u64, counts: &FeedsCounts) -> u64
        requires permitted { self.old.status.failed ≡ false → has_line self.old.due.every self.old.due.since reading ≡ true → (system : SystemCounts) → S.may_write self.old.status.sink (time_line self.old.schedules.items system (record { reading = reading; counts = counts.now })) ≡ true }
        ensures lines { (notes : List Note) → HasLines self.old.schedules.items self.old.due.every self.old.opening self.old.due.since self.old.last notes (S.written self.old.status.sink) (S.faults self.old.status.sink) self.old.status.failed
            → HasLines self.new.schedules.items self.new.due.every self.new.opening self.new.due.since self.new.last (notes ++ record { reading = reading; counts = counts.now } ∷ []) (S.written self.new.status.sink) (S.faults self.new.status.sink) self.new.status.failed }
        ensures name { S.name self.new.status.sink ≡ S.name self.old.status.sink }
        ensures fixed { (self.new.schedules ≡ self.old.schedules) × (self.new.opening ≡ self.old.opening) × (self.new.due.every ≡ self.old.due.every) }
    {
        if is_unread(reading) {
            return REST;
        }
        self.last = reading;
        if !self.due.is_due(reading) {
            return self.due.rest_at(reading);
        }
        self.put("time=", reading, counts);
        self.due.rest_at(reading)
    }

    /// Writes the last line, of these counts at the last reading that could be had.
    pub(crate) fn end(&mut self, counts: &FeedsCounts)
        requires permitted { self.old.status.failed ≡ false → (system : SystemCounts) → S.may_write self.old.status.sink (end_line self.old.schedules.items system (record { reading = self.old.last; counts = counts.now })) ≡ true }
        ensures lines { (notes : List Note) → HasLines self.old.schedules.items self.old.due.every self.old.opening self.old.due.since self.old.last notes (S.written self.old.status.sink) (S.faults self.old.status.sink) self.old.status.failed
            → HasAllLines self.old.schedules.items self.old.due.every self.old.opening notes counts.now (S.written self.new.status.sink) (S.faults self.new.status.sink) self.new.status.failed }
        ensures name { S.name self.new.status.sink ≡ S.name self.old.status.sink }
    {
        self.put("end=", self.last, counts);
    }

    /// The output, and whether it failed.
    pub(crate) fn into_status(self) -> Status<S>
        ensures { result ≡ self.status }
    {
        let StatusNotes {
            status,
            incidents: _,
            due: _,
            schedules: _,
            opening: _,
            last: _,
        } = self;
        status
    }
}

// Whether a clock gave this in place of a reading, since it couldn't be read.
fn is_unread(reading: u64) -> bool
    ensures { result ≡ is_unread reading }
{
    reading == u64::MAX
}

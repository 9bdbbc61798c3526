//! A trace or a tail read from a source, entry after entry.

ghost use Rattle.std.specs.Prelude.{◌≡◌, ◌<◌, ◌≤◌, [], List, ℕ, Option, None, Some, true, unwrap_or};
ghost use Rattle.std.specs.Option.{option_map};
ghost use Rattle.tesla_desk.specs.Faults.{HasCause};
ghost use Rattle.tesla_records.specs.Grammar.{limit};
ghost use Rattle.tesla_records.specs.Found.{AwaitsAt};
ghost use Rattle.tesla_records.specs.Steps.{pending, ahead, Gives, Moves, MovesHead, ReadsHead, goes_on};
ghost use Rattle.tesla_trace.specs.Entries.{IsEntry};
ghost use Rattle.tesla_audit.specs.Steps.{GivesNone, records_step};

use crate::formats::{EntryFormat, TailFormat, TraceFormat};
use crate::step::{TraceStep, step_of};
use std::marker::Model;
use tesla_desk::Source;
use tesla_records::RecordsReader;
use tesla_trace::EntryBuffer;

/// Reads a file of entries of at most 2^40 bytes in the format `F`. It holds at most 4,096 bytes that it has read ahead.
#[derive(Drop)]
pub struct EntryReader<F: EntryFormat> {
    records: RecordsReader<F>,
}

/// Reads a trace.
pub type TraceReader = EntryReader<TraceFormat>;

/// Reads a tail.
pub type TailReader = EntryReader<TailFormat>;

impl<F: EntryFormat> Model for EntryReader<F> {
    ghost use Rattle.tesla_records.specs.Steps.{Progress};

    ghost Value = { Progress F.Head };

    ghost view = { λ reader. reader.records };
}

impl<F: EntryFormat> EntryReader<F> {
    /// A reader that has read nothing. It takes no memory.
    pub fn new() -> EntryReader<F>
        ensures pending { pending result ≡ [] }
        ensures place { result.place ≡ 0 }
        ensures going { result.going ≡ true }
        ensures head { result.head ≡ None }
    {
        EntryReader {
            records: RecordsReader::new(),
        }
    }

    /// A reader in another format of the same file, of which nothing was taken yet: what was read ahead is pending there.
    /// After `BadHead` that is all of the file.
    pub fn as_format<G: EntryFormat>(self) -> EntryReader<G>
        requires { self.place ≡ 0 }
        ensures pending { pending result ≡ pending self }
        ensures place { result.place ≡ 0 }
        ensures going { result.going ≡ true }
        ensures head { result.head ≡ None }
    {
        let records = self.records;
        EntryReader {
            records: records.as_format(),
        }
    }

    /// Whether the last step gave an entry, or there was none yet.
    pub fn going(&self) -> bool
        ensures { result ≡ self.now.going }
    {
        self.records.going()
    }

    /// How many bytes were taken as whole entries, with the head; 0 before the head was taken.
    pub fn place(&self) -> u64
        ensures value { result ≡ self.now.place }
        ensures limited { result ≤ limit }
    {
        self.records.place()
    }

    /// What the head tells; `None` until it was read.
    pub fn head(&self) -> Option<F::Head>
        ensures { result ≡ self.now.head }
    {
        self.records.head()
    }

    /// The next entry, which the place then holds, or why there is none. The source is asked for more only while neither a
    /// whole entry nor a refused place is pending, and for no byte behind the first 2^40 but the one that tells whether the
    /// file goes on there. It takes no memory.
    ///
    /// `Refused` comes exactly where the file isn't in its grammar by the entry at that place, `End` exactly where it ends
    /// after a whole entry or the head, and `ReadFault` exactly where the source's count of faults rose.
    ///
    /// No byte is dropped: what isn't taken is pending, or left in the source. After an entry that is all behind it, after
    /// `End` nothing, and after `Refused` all from its place on, but for the byte that told that the file goes on behind the
    /// limit. After `ReadFault` it is all that was ahead, less the head where that was taken, as `place` tells, and what is
    /// pending holds neither a whole entry nor a refused place. After anything but an entry the place stays as it was.
    pub fn next<S: Source>(&mut self, source: &mut S, entry: &mut EntryBuffer) -> TraceStep
        requires going { self.old.going ≡ true }
        ensures gives { (rest : List ℕ) → ahead self.old (S.left source.old) ≡ Some rest → Gives F.grammar F.kind_of (λ taken. F.shown taken entry.new) (records_step result) self.old.place rest self.new.place (ahead self.new (S.left source.new)) }
        ensures moves { Moves F.grammar (λ taken. F.shown taken entry.new) (records_step result) self.old.place self.new.place }
        ensures heads { MovesHead F.grammar self.old.place (option_map F.head_of self.old.head) self.new.place (option_map F.head_of self.new.head) }
        ensures head { (rest : List ℕ) → ahead self.old (S.left source.old) ≡ Some rest → ReadsHead F.grammar self.old.place rest self.new.place (option_map F.head_of self.new.head) }
        ensures entry { result ≡ TraceStep.Entry → IsEntry entry.new }
        ensures kept { GivesNone result → entry.new ≡ entry.old }
        ensures limited { self.new.place ≤ limit }
        ensures goes { self.new.going ≡ goes_on (records_step result) }
        ensures cut { result ≡ TraceStep.ReadFault → AwaitsAt F.grammar self.new.place (pending self.new) }
        ensures cause { HasCause (S.faults source.old) (S.faults source.new) (result ≡ TraceStep.ReadFault) }
        ensures name { S.name source.new ≡ S.name source.old }
    {
        step_of(self.records.next(source, entry))
    }
}

impl EntryReader<TraceFormat> {
    /// How many ingests the head tells, 0 until it was read.
    pub fn ingests(&self) -> u8
        ensures { result ≡ unwrap_or self.now.head 0 }
    {
        self.records.head().unwrap_or(0)
    }
}

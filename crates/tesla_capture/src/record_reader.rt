//! A capture or a script read from a source, record after record.

ghost use Rattle.std.specs.Prelude.{◌≡◌, ◌≤◌, [], List, ℕ, true, Some, drop};
ghost use Rattle.tesla_desk.specs.Faults.{HasCause};
ghost use Rattle.tesla_capture.specs.Grammar.{limit};
ghost use Rattle.tesla_capture.specs.Found.{AwaitsAt};
ghost use Rattle.tesla_capture.specs.Records.{kind_of};
ghost use Rattle.tesla_capture.specs.Steps.{pending, ahead, Gives, Moves, length_given, goes_on, step_as};

use crate::format::Format;
use crate::kinds::FileFormat;
use crate::record::{RecordFault, RecordHead, RecordKind, RecordStep};
use std::marker::Model;
use tesla_base::MOST_DATAGRAM;
use tesla_desk::Source;
use tesla_records::{RecordsReader, RecordsStep, Refusal};

/// Reads a file of at most 2^40 bytes in the format `F`. It holds at most 4,096 bytes that it has read ahead.
#[derive(Drop)]
pub struct RecordReader<F: Format> {
    records: RecordsReader<FileFormat<F>>,
}

impl<F: Format> Model for RecordReader<F> {
    ghost use Rattle.tesla_capture.specs.Steps.{Progress};

    ghost Value = { Progress };

    ghost view = { λ reader. reader.records };
}

/// The kind of a refusal.
fn kind_of(refusal: Refusal<RecordFault>) -> RecordKind
    ensures { result ≡ kind_of refusal }
{
    match refusal {
        Refusal::BadHead => RecordKind::BadHead,
        Refusal::Truncated => RecordKind::Truncated,
        Refusal::TooLarge => RecordKind::TooLarge,
        Refusal::BadRecord(RecordFault::BadKind) => RecordKind::BadKind,
        Refusal::BadRecord(RecordFault::TooLong) => RecordKind::TooLong,
    }
}

/// The step that is answered.
pub fn step_as(step: RecordsStep<RecordFault, RecordHead>) -> RecordStep
    ensures { result ≡ step_as step }
{
    match step {
        RecordsStep::Record(RecordHead::Carrying { reading, length }) => {
            RecordStep::Carrying { reading, length }
        }
        RecordsStep::Record(RecordHead::Bare { reading }) => RecordStep::Bare { reading },
        RecordsStep::End => RecordStep::End,
        RecordsStep::Refused { place, refusal } => RecordStep::Refused {
            place,
            kind: kind_of(refusal),
        },
        RecordsStep::ReadFault => RecordStep::ReadFault,
    }
}

impl<F: Format> RecordReader<F> {
    /// A reader that has read nothing. It takes no memory.
    pub fn new() -> RecordReader<F>
        ensures pending { pending result ≡ [] }
        ensures place { result.place ≡ 0 }
        ensures going { result.going ≡ true }
    {
        RecordReader {
            records: RecordsReader::new(),
        }
    }

    /// Whether the last step gave a record, or there was none yet.
    pub fn going(&self) -> bool
        ensures { result ≡ self.now.going }
    {
        self.records.going()
    }

    /// How many bytes were taken as whole records, with the head; 0 before the first step.
    pub fn place(&self) -> u64
        ensures value { result ≡ self.now.place }
        ensures limited { result ≤ limit }
    {
        self.records.place()
    }

    /// The next record, whose bytes are put at the front of `into`, or why there is none. The source is
    /// asked for more only while neither a whole record nor a refused place is pending, and for no byte
    /// behind the first 2^40 but the one that tells whether the file goes on there. It takes no memory.
    ///
    /// `Refused` comes exactly where the file isn't in its grammar by the record at that place, `End` exactly
    /// where it ends after a whole record or the head, and `ReadFault` exactly where the source's count of
    /// faults rose.
    ///
    /// No byte is dropped: what isn't taken is pending, or left in the source. After a record that is all
    /// behind it, after `End` nothing, and after `Refused` all from its place on, but for the byte that told
    /// that the file goes on behind the limit. After `ReadFault` it is all that was ahead, less the head
    /// where that was taken, as `place` tells, and what is pending holds neither a whole record nor a refused
    /// place. The bytes of `into` behind those of the record stay as they were.
    pub fn next_record<S: Source>(
        &mut self,
        source: &mut S,
        into: &mut [u8; MOST_DATAGRAM],
    ) -> RecordStep
        requires going { self.old.going ≡ true }
        ensures gives { (rest : List ℕ) → ahead self.old (S.left source.old) ≡ Some rest → Gives F.grammar result self.old.place rest self.new.place (ahead self.new (S.left source.new)) into.new }
        ensures moves { Moves F.grammar result self.old.place self.new.place }
        ensures behind { drop (length_given result) into.new ≡ drop (length_given result) into.old }
        ensures limited { self.new.place ≤ limit }
        ensures goes { self.new.going ≡ goes_on result }
        ensures cut { result ≡ RecordStep.ReadFault → AwaitsAt F.grammar self.new.place (pending self.new) }
        ensures cause { HasCause (S.faults source.old) (S.faults source.new) (result ≡ RecordStep.ReadFault) }
        ensures name { S.name source.new ≡ S.name source.old }
    {
        step_as(self.records.next(source, into))
    }
}

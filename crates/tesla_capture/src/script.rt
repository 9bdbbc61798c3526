//! A script read from a source, record after record.

ghost use Rattle.std.specs.Prelude.{◌≡◌, ◌≤◌, [], List, ℕ, true, Some, drop};
ghost use Rattle.tesla_desk.specs.Faults.{HasCause};
ghost use Rattle.tesla_capture.specs.Grammar.{limit};
ghost use Rattle.tesla_capture.specs.Script.{script};
ghost use Rattle.tesla_capture.specs.Reader.{pending, ahead, script_step_of};
ghost use Rattle.tesla_capture.specs.Found.{AwaitsAt};
ghost use Rattle.tesla_capture.specs.Steps.{Gives, Moves, length_given, goes_on};

use crate::kinds::ScriptFile;
use crate::record::{RecordStep, ScriptStep};
use crate::record_reader::step_as;
use std::marker::Model;
use tesla_base::MOST_PAYLOAD;
use tesla_desk::Source;
use tesla_records::RecordsReader;

/// Reads a script. It reads as a [`RecordReader`](crate::RecordReader) does, in a room for payloads alone.
#[derive(Drop)]
pub struct ScriptReader {
    records: RecordsReader<ScriptFile>,
}

impl Model for ScriptReader {
    ghost use Rattle.tesla_capture.specs.Steps.{Progress};

    ghost Value = { Progress };

    ghost view = { λ reader. reader.records };
}

impl ScriptReader {
    /// A reader that has read nothing. It takes no memory.
    pub fn new() -> ScriptReader
        ensures pending { pending result ≡ [] }
        ensures place { result.place ≡ 0 }
        ensures going { result.going ≡ true }
    {
        ScriptReader {
            records: RecordsReader::new(),
        }
    }

    /// Whether the last step gave a record, or there was none yet.
    pub fn going(&self) -> bool
        ensures { result ≡ self.now.going }
    {
        self.records.going()
    }

    /// How many bytes were taken as whole records, with the head; 0 before the first step.
    pub fn place(&self) -> u64
        ensures value { result ≡ self.now.place }
        ensures limited { result ≤ limit }
    {
        self.records.place()
    }

    /// The next record, as a reader of records gives it.
    fn step<S: Source>(&mut self, source: &mut S, into: &mut [u8; MOST_PAYLOAD]) -> RecordStep
        requires going { self.old.going ≡ true }
        ensures gives { (rest : List ℕ) → ahead self.old (S.left source.old) ≡ Some rest → Gives script result self.old.place rest self.new.place (ahead self.new (S.left source.new)) into.new }
        ensures moves { Moves script result self.old.place self.new.place }
        ensures behind { drop (length_given result) into.new ≡ drop (length_given result) into.old }
        ensures limited { self.new.place ≤ limit }
        ensures goes { self.new.going ≡ goes_on result }
        ensures cut { result ≡ RecordStep.ReadFault → AwaitsAt script self.new.place (pending self.new) }
        ensures cause { HasCause (S.faults source.old) (S.faults source.new) (result ≡ RecordStep.ReadFault) }
        ensures name { S.name source.new ≡ S.name source.old }
    {
        step_as(self.records.next(source, into))
    }

    /// The next record, as [`RecordReader::next_record`](crate::RecordReader::next_record) gives it: the payload of a message is put at the front of `into`.
    pub fn next<S: Source>(&mut self, source: &mut S, into: &mut [u8; MOST_PAYLOAD]) -> ScriptStep
        requires going { self.old.going ≡ true }
        ensures gives { (rest : List ℕ) → ahead self.old (S.left source.old) ≡ Some rest → Gives script (script_step_of result) self.old.place rest self.new.place (ahead self.new (S.left source.new)) into.new }
        ensures moves { Moves script (script_step_of result) self.old.place self.new.place }
        ensures behind { drop (length_given (script_step_of result)) into.new ≡ drop (length_given (script_step_of result)) into.old }
        ensures limited { self.new.place ≤ limit }
        ensures goes { self.new.going ≡ goes_on (script_step_of result) }
        ensures cut { result ≡ ScriptStep.ReadFault → AwaitsAt script self.new.place (pending self.new) }
        ensures cause { HasCause (S.faults source.old) (S.faults source.new) (result ≡ ScriptStep.ReadFault) }
        ensures name { S.name source.new ≡ S.name source.old }
    {
        match self.step(source, into) {
            RecordStep::Carrying { reading, length } => ScriptStep::Message { reading, length },
            RecordStep::Bare { reading } => ScriptStep::Disclose { reading },
            RecordStep::End => ScriptStep::End,
            RecordStep::Refused { place, kind } => ScriptStep::Refused { place, kind },
            RecordStep::ReadFault => ScriptStep::ReadFault,
        }
    }
}

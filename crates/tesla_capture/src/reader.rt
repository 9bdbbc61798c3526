//! A capture read from a source, record after record.

ghost use Rattle.std.specs.Prelude.{◌≡◌, ◌≤◌, List, ℕ, true, Some, drop};
ghost use Rattle.tesla_desk.specs.Faults.{HasCause};
ghost use Rattle.tesla_capture.specs.Capture.{capture, limit};
ghost use Rattle.tesla_capture.specs.Reader.{pending, ahead, step_of};
ghost use Rattle.tesla_capture.specs.Found.{AwaitsAt};
ghost use Rattle.tesla_capture.specs.Steps.{Gives, Moves, length_given, goes_on};

use crate::format::CaptureFormat;
use crate::record::{RecordStep, Step};
use crate::record_reader::RecordReader;
use tesla_base::MOST_DATAGRAM;
use tesla_desk::Source;

/// Reads a capture.
pub type Reader = RecordReader<CaptureFormat>;

impl RecordReader<CaptureFormat> {
    /// The next record, as `next_record` gives it: the datagram of an arrival is put at the front of `into`.
    pub fn next<S: Source>(&mut self, source: &mut S, into: &mut [u8; MOST_DATAGRAM]) -> Step
        requires going { self.old.going ≡ true }
        ensures gives { (rest : List ℕ) → ahead self.old (S.left source.old) ≡ Some rest → Gives capture (step_of result) self.old.place rest self.new.place (ahead self.new (S.left source.new)) into.new }
        ensures moves { Moves capture (step_of result) self.old.place self.new.place }
        ensures behind { drop (length_given (step_of result)) into.new ≡ drop (length_given (step_of result)) into.old }
        ensures limited { self.new.place ≤ limit }
        ensures goes { self.new.going ≡ goes_on (step_of result) }
        ensures cut { result ≡ Step.ReadFault → AwaitsAt capture self.new.place (pending self.new) }
        ensures cause { HasCause (S.faults source.old) (S.faults source.new) (result ≡ Step.ReadFault) }
        ensures name { S.name source.new ≡ S.name source.old }
    {
        match self.next_record(source, into) {
            RecordStep::Carrying { reading, length } => Step::Arrival { reading, length },
            RecordStep::Bare { reading: _ } => Step::Take,
            RecordStep::End => Step::End,
            RecordStep::Refused { place, kind } => Step::Refused { place, kind },
            RecordStep::ReadFault => Step::ReadFault,
        }
    }
}

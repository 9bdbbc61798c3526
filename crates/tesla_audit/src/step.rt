//! What reading the next entry of a trace or of a tail answers.

ghost use Rattle.std.specs.Prelude.{◌≡◌};
ghost use Rattle.tesla_audit.specs.Steps.{kind_of, records_step};

use tesla_records::{RecordsStep, Refusal};
use tesla_trace::{EntryFault, TraceKind};

/// What comes next in a trace or a tail.
#[derive(Clone, Copy, Debug, PartialEq, Eq)]
pub enum TraceStep {
    /// An entry, which the caller's place holds.
    Entry,
    /// The file ended after a whole entry, or after the head.
    End,
    /// The file isn't in its grammar, by the entry at this place, which is the number of bytes before it.
    Refused { place: u64, kind: TraceKind },
    /// A read failed: the source's count of faults rose.
    ReadFault,
}

/// Why a trace is refused, told why a file of entries is.
fn kind_of(refusal: Refusal<EntryFault>) -> TraceKind
    ensures { result ≡ kind_of refusal }
{
    match refusal {
        Refusal::BadHead => TraceKind::BadHead,
        Refusal::Truncated => TraceKind::Truncated,
        Refusal::TooLarge => TraceKind::TooLarge,
        Refusal::BadRecord(EntryFault::BadKind) => TraceKind::BadKind,
        Refusal::BadRecord(EntryFault::TooLong) => TraceKind::TooLong,
        Refusal::BadRecord(EntryFault::BadCode) => TraceKind::BadCode,
    }
}

/// A step of a reader of entries.
pub(crate) fn step_of(step: RecordsStep<EntryFault, ()>) -> TraceStep
    ensures { records_step result ≡ step }
{
    match step {
        RecordsStep::Record(()) => TraceStep::Entry,
        RecordsStep::End => TraceStep::End,
        RecordsStep::Refused { place, refusal } => TraceStep::Refused {
            place,
            kind: kind_of(refusal),
        },
        RecordsStep::ReadFault => TraceStep::ReadFault,
    }
}

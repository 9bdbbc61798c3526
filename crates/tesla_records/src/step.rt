//! What reading the next record of a file answers.

use crate::refusal::Refusal;

/// What comes next in a file of records.
#[derive(Clone, Copy, Debug, PartialEq, Eq)]
pub enum RecordsStep<K, T> {
    /// A record, which the caller's room holds, and what the caller is told of it beside that.
    Record(T),
    /// The file ended after a whole record, or after the head.
    End,
    /// The file isn't in its grammar, by the record at this place, which is the number of bytes before it.
    Refused { place: u64, refusal: Refusal<K> },
    /// A read failed: the source's count of faults rose.
    ReadFault,
}

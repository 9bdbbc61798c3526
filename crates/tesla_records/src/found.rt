//! What stands at the start of the bytes of a file that were read ahead.

ghost use Rattle.tesla_records.specs.Found.{Tells, TellsHead};

use crate::format::{Format, HeadJudged, Judged};
use crate::refusal::Refusal;

/// What was found at the place of a record.
#[derive(Clone, Copy)]
pub enum Found<K> {
    /// A whole record of so many bytes.
    Record(usize),
    /// No whole record within the limit.
    Refused(Refusal<K>),
    /// The end of the file.
    End,
    /// Nothing, since a read failed.
    Failed,
}

/// What was found at place 0.
#[derive(Clone, Copy)]
pub enum HeadFound<H> {
    /// A head, which tells this.
    Whole(H),
    /// Other bytes than a head has there, or the end of the file.
    Bad,
    /// Nothing, since a read failed.
    Failed,
}

/// What is known of the head from the bytes at the start of a file. None: they may be a part of it.
pub fn head_found<F: Format>(bytes: &[u8]) -> Option<HeadFound<F::Head>>
    ensures { TellsHead F.grammar F.head_of result bytes.now }
{
    match F::judge_head(bytes) {
        HeadJudged::Awaits => None,
        HeadJudged::Whole(head) => Some(HeadFound::Whole(head)),
        HeadJudged::Bad => Some(HeadFound::Bad),
    }
}

/// What is known of the record at the start of the bytes. None: there is neither a whole record nor
/// one that is refused, whatever follows.
pub fn record_found<F: Format>(bytes: &[u8]) -> Option<Found<F::Kind>>
    ensures { Tells F.grammar F.kind_of result bytes.now }
{
    match F::judge(bytes) {
        Judged::Awaits => None,
        Judged::Whole(size) => Some(Found::Record(size)),
        Judged::Bad(kind) => Some(Found::Refused(Refusal::BadRecord(kind))),
    }
}

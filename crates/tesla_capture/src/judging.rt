//! What the bytes of a capture or a script that were read tell, whatever follows them.

ghost use Rattle.std.specs.Prelude.{◌≡◌, ◌∷◌};
ghost use Rattle.tesla_records.specs.Judged.{Judges, JudgesHead};
ghost use Rattle.tesla_capture.specs.Parsing.{bare_size, file_of, parse_record};
ghost use Rattle.tesla_capture.specs.Judged.{parse_found, OnCarrying};

use crate::format::Format;
use crate::record::RecordFault;
use crate::sizes::{CARRYING_SIZE, HEAD_SIZE, TIMED_SIZE};
use tesla_base::{take_u16, take_u64};
use tesla_records::{HeadJudged, Judged};

/// What was found of the record at the start of bytes.
#[derive(Clone, Copy)]
pub enum Found<'a> {
    /// Nothing yet: only more bytes tell.
    Short,
    /// No record begins so.
    Wrong(RecordFault),
    /// A whole record of kind 1: its reading, and the bytes that it carries.
    Carrying { reading: u64, bytes: &'a [u8] },
    /// A whole record of kind 2: its reading, 0 where it has none.
    Bare { reading: u64 },
}

/// A record of kind 1 behind its kind.
#[tactic(auto, unfolding(crate::specs::Parsing::parse_record))]
fn carrying_found<F: Format>(rest: &[u8]) -> Found<'_>
    ensures found { parse_found F.grammar result ≡ parse_record F.grammar (1 ∷ rest.now) }
    ensures few { OnCarrying F.grammar result }
{
    let Some((reading, rest)) = take_u64(rest) else {
        return Found::Short;
    };
    let Some((length, rest)) = take_u16(rest) else {
        return Found::Short;
    };
    if F::longest() < length {
        return Found::Wrong(RecordFault::TooLong);
    }
    let length = usize::from(length);
    if rest.len() < length {
        return Found::Short;
    }
    let bytes = &rest[..length];
    Found::Carrying { reading, bytes }
}

/// A record of kind 2 behind its kind.
#[tactic(auto, unfolding(crate::specs::Parsing::parse_record, crate::specs::Parsing::reading_at))]
fn bare_found<F: Format>(rest: &[u8]) -> Found<'_>
    ensures found { parse_found F.grammar result ≡ parse_record F.grammar (2 ∷ rest.now) }
    ensures few { OnCarrying F.grammar result }
{
    if !F::timed() {
        return Found::Bare { reading: 0 };
    }
    let Some((reading, _)) = take_u64(rest) else {
        return Found::Short;
    };
    Found::Bare { reading }
}

/// The record at the start of the bytes.
#[tactic(auto, unfolding(crate::specs::Parsing::parse_record))]
pub fn record_found<F: Format>(bytes: &[u8]) -> Found<'_>
    ensures found { parse_found F.grammar result ≡ parse_record F.grammar bytes.now }
    ensures few { OnCarrying F.grammar result }
{
    let Some((kind, rest)) = bytes.split_first() else {
        return Found::Short;
    };
    match *kind {
        1 => carrying_found::<F>(rest),
        2 => bare_found::<F>(rest),
        _ => Found::Wrong(RecordFault::BadKind),
    }
}

/// What bytes tell of the record at their start.
pub fn judge_record<F: Format>(bytes: &[u8]) -> Judged<RecordFault>
    ensures { Judges (file_of F.grammar) (λ fault. fault) result bytes.now }
{
    match record_found::<F>(bytes) {
        Found::Short => Judged::Awaits,
        Found::Wrong(fault) => Judged::Bad(fault),
        Found::Carrying { reading: _, bytes } => Judged::Whole(CARRYING_SIZE + bytes.len()),
        Found::Bare { reading: _ } => Judged::Whole(size_of_bare::<F>()),
    }
}

/// How many bytes a record of kind 2 has.
fn size_of_bare<F: Format>() -> usize
    ensures { result ≡ bare_size F.grammar.timed }
{
    if F::timed() { TIMED_SIZE } else { 1 }
}

/// What bytes tell of the head.
pub fn judge_head<F: Format>(bytes: &[u8]) -> HeadJudged<()>
    ensures { JudgesHead (file_of F.grammar) (λ head. tt) result bytes.now }
{
    let head = F::head();
    if bytes.len() < HEAD_SIZE {
        if bytes == &head[..bytes.len()] {
            HeadJudged::Awaits
        } else {
            HeadJudged::Bad
        }
    } else if &bytes[..HEAD_SIZE] == head.as_slice() {
        HeadJudged::Whole(())
    } else {
        HeadJudged::Bad
    }
}

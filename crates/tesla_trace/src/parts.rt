//! The parts of an entry, each read off the start of the bytes.

ghost use Rattle.std.specs.Prelude.{◌≡◌, ◌≤◌, length};
ghost use Rattle.tesla_trace.specs.Parsing.{counted_part, foreign_part, future_part, bad_key_part, kept_part, verdict_part, given_part, reply_part, arrival_part, take_part, end_part, entry_part};
ghost use Rattle.tesla_trace.specs.Shown.{OnRead, arrival_with, part_shown, IsWithin, ReplyIsWithin, entry_seen, reply_seen};

use crate::kind::EntryFault;
use crate::view::{EntryView, ReplyView};
use tesla_base::{ChainNo, Head, StreamId, take_u16, take_u32, take_u64};
use tesla_fitting::Verdict;
use tesla_state::Take;

/// How many bytes a datagram has at most.
const LONGEST_DATAGRAM: u16 = 2048;

/// How many bytes a payload has at most.
const LONGEST_PAYLOAD: u16 = 1200;

/// What bytes tell of a part of an entry at their start.
#[derive(Clone, Copy)]
pub(crate) enum Found<'a, T> {
    /// Nothing yet: only more bytes tell.
    Short,
    /// No such part begins so.
    Wrong(EntryFault),
    /// What the part is, and the bytes after it.
    Read(T, &'a [u8]),
}

/// At most so many bytes, behind their number.
#[tactic(auto, unfolding(crate::specs::Parsing::counted_part, crate::specs::Parsing::number_part))]
fn counted_of(most: u16, bytes: &[u8]) -> Found<'_, &[u8]>
    ensures exact { part_shown (λ value. value.now) result ≡ counted_part most bytes.now }
    ensures limit { OnRead result (λ value. length value.now ≤ most) }
{
    let Some((length, rest)) = take_u16(bytes) else {
        return Found::Short;
    };
    if most < length {
        return Found::Wrong(EntryFault::TooLong);
    }
    let length = usize::from(length);
    if rest.len() < length {
        return Found::Short;
    }
    let (counted, rest) = rest.split_at(length);
    Found::Read(counted, rest)
}

/// The stream of a foreign frame.
#[tactic(auto, unfolding(crate::specs::Parsing::foreign_part, crate::specs::Parsing::number_part))]
fn foreign_of(bytes: &[u8]) -> Found<'_, Verdict>
    ensures { part_shown (λ value. value) result ≡ foreign_part bytes.now }
{
    let Some((stream, rest)) = take_u64(bytes) else {
        return Found::Short;
    };
    let stream = StreamId(stream);
    Found::Read(Verdict::Foreign { stream }, rest)
}

/// The bound of a frame of the future, where there is one.
#[tactic(auto, using(crate::proofs::Others::other_flag), unfolding(crate::specs::Parsing::future_part, crate::specs::Parsing::byte_part, crate::specs::Parsing::bound_by, crate::specs::Parsing::some_bound_part, crate::specs::Parsing::number_part))]
fn future_of(bytes: &[u8]) -> Found<'_, Verdict>
    ensures { part_shown (λ value. value) result ≡ future_part bytes.now }
{
    let [flag, rest @ ..] = bytes else {
        return Found::Short;
    };
    match *flag {
        0 => Found::Read(Verdict::Future { bound: None }, rest),
        1 => {
            let Some((bound, rest)) = take_u64(rest) else {
                return Found::Short;
            };
            let bound = Some(bound);
            Found::Read(Verdict::Future { bound }, rest)
        }
        _ => Found::Wrong(EntryFault::BadCode),
    }
}

/// The chain of a bad key.
#[tactic(auto, unfolding(crate::specs::Parsing::bad_key_part, crate::specs::Parsing::byte_part))]
fn bad_key_of(bytes: &[u8]) -> Found<'_, Verdict>
    ensures { part_shown (λ value. value) result ≡ bad_key_part bytes.now }
{
    let [chain, rest @ ..] = bytes else {
        return Found::Short;
    };
    let chain = ChainNo(*chain);
    Found::Read(Verdict::BadKey { chain }, rest)
}

/// The set of safe chains of a packet that is kept.
#[tactic(auto, unfolding(crate::specs::Parsing::kept_part, crate::specs::Parsing::byte_part))]
fn kept_of(bytes: &[u8]) -> Found<'_, Verdict>
    ensures { part_shown (λ value. value) result ≡ kept_part bytes.now }
{
    let [chains, rest @ ..] = bytes else {
        return Found::Short;
    };
    Found::Read(Verdict::Kept { chains: *chains }, rest)
}

/// A verdict.
#[tactic(auto, using(crate::proofs::Others::other_number), unfolding(crate::specs::Parsing::verdict_part, crate::specs::Parsing::byte_part, crate::specs::Parsing::verdict_by))]
fn verdict_of(bytes: &[u8]) -> Found<'_, Verdict>
    ensures { part_shown (λ value. value) result ≡ verdict_part bytes.now }
{
    let [number, rest @ ..] = bytes else {
        return Found::Short;
    };
    match *number {
        1 => Found::Read(Verdict::Malformed, rest),
        2 => foreign_of(rest),
        3 => Found::Read(Verdict::Misfit, rest),
        4 => future_of(rest),
        5 => bad_key_of(rest),
        6 => Found::Read(Verdict::Late, rest),
        7 => Found::Read(Verdict::Repeat, rest),
        8 => Found::Read(Verdict::Full, rest),
        9 => kept_of(rest),
        10 => Found::Read(Verdict::Keys, rest),
        _ => Found::Wrong(EntryFault::BadCode),
    }
}

/// A release record.
#[tactic(auto, unfolding(crate::specs::Parsing::given_part, crate::specs::Parsing::byte_part, crate::specs::Parsing::number_part))]
fn given_of(bytes: &[u8]) -> Found<'_, ReplyView<'_>>
    ensures exact { part_shown reply_seen result ≡ given_part bytes.now }
    ensures limit { OnRead result ReplyIsWithin }
{
    let Some((position, rest)) = take_u64(bytes) else {
        return Found::Short;
    };
    let Some((interval, rest)) = take_u32(rest) else {
        return Found::Short;
    };
    let Some((number, rest)) = take_u16(rest) else {
        return Found::Short;
    };
    let [chain, rest @ ..] = rest else {
        return Found::Short;
    };
    match counted_of(LONGEST_PAYLOAD, rest) {
        Found::Short => Found::Short,
        Found::Wrong(fault) => Found::Wrong(fault),
        Found::Read(payload, rest) => {
            let head = Head {
                position,
                interval,
                number,
                chain: *chain,
                length: payload.len() as u16,
            };
            let reply = Take::Given(head);
            Found::Read(ReplyView { reply, payload }, rest)
        }
    }
}

/// An answer to a take.
#[tactic(auto, using(crate::proofs::Others::other_code), unfolding(crate::specs::Parsing::reply_part, crate::specs::Parsing::byte_part, crate::specs::Parsing::reply_by))]
fn reply_of(bytes: &[u8]) -> Found<'_, ReplyView<'_>>
    ensures exact { part_shown reply_seen result ≡ reply_part bytes.now }
    ensures limit { OnRead result ReplyIsWithin }
{
    let [code, rest @ ..] = bytes else {
        return Found::Short;
    };
    match *code {
        0 => Found::Read(bare(Take::Empty), rest),
        1 => Found::Read(bare(Take::Over), rest),
        2 => given_of(rest),
        _ => Found::Wrong(EntryFault::BadCode),
    }
}

/// An answer to a take without a payload.
fn bare(reply: Take) -> ReplyView<'static>
    ensures reply { result.reply ≡ reply }
    ensures nothing { length result.payload.now ≡ 0 }
{
    ReplyView {
        reply,
        payload: &[],
    }
}

/// An arrival, behind its kind.
#[tactic(auto, unfolding(crate::specs::Parsing::arrival_part, crate::specs::Parsing::byte_part, crate::specs::Parsing::number_part))]
fn arrival_of(bytes: &[u8]) -> Found<'_, EntryView<'_>>
    ensures exact { part_shown entry_seen result ≡ arrival_part bytes.now }
    ensures limit { OnRead result IsWithin }
{
    let [ingest, rest @ ..] = bytes else {
        return Found::Short;
    };
    let Some((reading, rest)) = take_u64(rest) else {
        return Found::Short;
    };
    match counted_of(LONGEST_DATAGRAM, rest) {
        Found::Short => Found::Short,
        Found::Wrong(fault) => Found::Wrong(fault),
        Found::Read(datagram, rest) => with_verdict(*ingest, reading, datagram, verdict_of(rest)),
    }
}

/// An arrival, once its verdict was looked for.
fn with_verdict<'a>(
    ingest: u8,
    reading: u64,
    bytes: &'a [u8],
    verdict: Found<'a, Verdict>,
) -> Found<'a, EntryView<'a>>
    requires { length bytes.now ≤ 2048 }
    ensures exact { part_shown entry_seen result ≡ arrival_with ingest reading bytes.entry.now (part_shown (λ value. value) verdict.entry) }
    ensures limit { OnRead result IsWithin }
{
    match verdict {
        Found::Short => Found::Short,
        Found::Wrong(fault) => Found::Wrong(fault),
        Found::Read(verdict, rest) => Found::Read(
            EntryView::Arrival {
                ingest,
                reading,
                bytes,
                verdict,
            },
            rest,
        ),
    }
}

/// A take, behind its kind.
#[tactic(auto, unfolding(crate::specs::Parsing::take_part, crate::specs::Parsing::byte_part))]
fn take_of(bytes: &[u8]) -> Found<'_, EntryView<'_>>
    ensures exact { part_shown entry_seen result ≡ take_part bytes.now }
    ensures limit { OnRead result IsWithin }
{
    let [releaser, rest @ ..] = bytes else {
        return Found::Short;
    };
    let releaser = *releaser;
    match reply_of(rest) {
        Found::Short => Found::Short,
        Found::Wrong(fault) => Found::Wrong(fault),
        Found::Read(answer, rest) => Found::Read(EntryView::Take { releaser, answer }, rest),
    }
}

/// The end of an ingest, behind its kind.
#[tactic(auto, unfolding(crate::specs::Parsing::end_part, crate::specs::Parsing::byte_part))]
fn end_of(bytes: &[u8]) -> Found<'_, EntryView<'_>>
    ensures exact { part_shown entry_seen result ≡ end_part bytes.now }
    ensures limit { OnRead result IsWithin }
{
    let [ingest, rest @ ..] = bytes else {
        return Found::Short;
    };
    Found::Read(EntryView::End { ingest: *ingest }, rest)
}

/// An entry.
#[tactic(auto, using(crate::proofs::Others::other_kind), unfolding(crate::specs::Parsing::entry_part, crate::specs::Parsing::byte_part, crate::specs::Parsing::entry_by))]
pub(crate) fn entry_of(bytes: &[u8]) -> Found<'_, EntryView<'_>>
    ensures exact { part_shown entry_seen result ≡ entry_part bytes.now }
    ensures limit { OnRead result IsWithin }
{
    let [kind, rest @ ..] = bytes else {
        return Found::Short;
    };
    match *kind {
        1 => arrival_of(rest),
        2 => take_of(rest),
        3 => end_of(rest),
        _ => Found::Wrong(EntryFault::BadKind),
    }
}

//! What the bytes of a trace that were read tell, whatever follows them.

ghost use Rattle.std.specs.Prelude.{◌≡◌, ◌≤◌, ℕ, List, [], length, true, false};
ghost use Rattle.tesla_receiver.specs.Entries.{Entry};
ghost use Rattle.tesla_records.specs.Grammar.{Whole, ParsedHead, AwaitsHead, NoHead};
ghost use Rattle.tesla_records.specs.Judged.{Judges, JudgesHead, BeginsWhole};
ghost use Rattle.tesla_trace.specs.Entries.{IsEntry, entry_in};
ghost use Rattle.tesla_trace.specs.Parsing.{parse_entry, head_behind};
ghost use Rattle.tesla_trace.specs.Grammar.{tail, trace};

use crate::entry::EntryBuffer;
use crate::kind::EntryFault;
use crate::parts::{Found, entry_of};
use crate::view::put_view;
use tesla_base::take_u64;
use tesla_records::{HeadJudged, Judged};

/// The first bytes of each trace: the magic, and version 1.
const MAGIC: [u8; 5] = *b"TTRC\x01";

/// The first bytes of each tail: the magic, and version 1.
const TAIL_MAGIC: [u8; 5] = *b"TTAL\x01";

/// How many ingests a receiver has at most.
const MOST_INGESTS: u8 = 32;

/// What bytes tell of the head at the front of a trace: how many ingests the receiver has, 1 to 32. Bytes that no head
/// begins with are told at once. It takes no memory.
#[tactic(auto, unfolding(crate::specs::Parsing::parse_head))]
pub fn judge_head(bytes: &[u8]) -> HeadJudged<u8>
    ensures { JudgesHead trace (λ n. n) result bytes.now }
{
    if bytes.len() <= MAGIC.len() {
        return match is_part(&MAGIC, bytes) {
            true => HeadJudged::Awaits,
            false => HeadJudged::Bad,
        };
    }
    if &bytes[..MAGIC.len()] != MAGIC.as_slice() {
        return HeadJudged::Bad;
    }
    let ingests = bytes[MAGIC.len()];
    if 1 <= ingests && ingests <= MOST_INGESTS {
        HeadJudged::Whole(ingests)
    } else {
        HeadJudged::Bad
    }
}

/// What bytes tell of the head at the front of a tail: how many entries stand before its first one. Bytes that no head
/// begins with are told at once. It takes no memory.
#[tactic(auto, unfolding(crate::specs::Parsing::parse_tail))]
pub fn judge_tail_head(bytes: &[u8]) -> HeadJudged<u64>
    ensures { JudgesHead tail (λ n. n) result bytes.now }
{
    if bytes.len() <= TAIL_MAGIC.len() {
        return match is_part(&TAIL_MAGIC, bytes) {
            true => HeadJudged::Awaits,
            false => HeadJudged::Bad,
        };
    }
    if &bytes[..TAIL_MAGIC.len()] != TAIL_MAGIC.as_slice() {
        return HeadJudged::Bad;
    }
    match take_u64(&bytes[TAIL_MAGIC.len()..]) {
        Some((first, _)) => HeadJudged::Whole(first),
        None => HeadJudged::Awaits,
    }
}

/// Whether bytes that are no more than the magic are a part of it.
fn is_part(magic: &[u8; 5], bytes: &[u8]) -> bool
    requires { length bytes.now ≤ length magic.now }
    ensures awaits { (behind : List ℕ → ParsedHead ℕ) → result ≡ true → behind [] ≡ AwaitsHead → head_behind magic.now behind bytes.now ≡ AwaitsHead }
    ensures none { (behind : List ℕ → ParsedHead ℕ) → result ≡ false → head_behind magic.now behind bytes.now ≡ NoHead }
{
    bytes == &magic[..bytes.len()]
}

/// What bytes tell of the entry at their start: how many bytes it has, or why no entry begins so. It takes no memory.
///
/// `BadKind`: the first byte is neither 1 nor 2 nor 3. `TooLong`: the length of a datagram is above 2,048, or that of a
/// payload above 1,200. `BadCode`: a verdict's number is outside 1 to 10, the byte behind that of a frame of the future is
/// neither 0 nor 1, or the first of an answer to a take is above 2.
#[tactic(auto, unfolding(crate::specs::Parsing::parse_entry))]
pub fn judge_entry(bytes: &[u8]) -> Judged<EntryFault>
    ensures { Judges trace (λ fault. fault) result bytes.now }
{
    match entry_of(bytes) {
        Found::Short => Judged::Awaits,
        Found::Wrong(fault) => Judged::Bad(fault),
        Found::Read(_, rest) => Judged::Whole(bytes.len() - rest.len()),
    }
}

/// Puts the whole entry at the start of the bytes into a place. It takes no memory.
#[tactic(auto, unfolding(crate::specs::Parsing::parse_entry))]
pub fn put_entry(bytes: &[u8], entry: &mut EntryBuffer)
    requires { (size : ℕ) × BeginsWhole trace size bytes.now }
    ensures entry { (it : Entry) (size : ℕ) → parse_entry bytes.now ≡ Whole it size → entry_in entry.new ≡ it }
    ensures within { IsEntry entry.new }
{
    match entry_of(bytes) {
        Found::Read(view, _) => put_view(view, entry),
        Found::Short | Found::Wrong(_) => unreachable!(),
    }
}

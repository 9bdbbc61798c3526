//! Entries of a history, written to a sink.

ghost use Rattle.std.specs.Prelude.{◌≡◌, ◌≤◌, ◌+◌, [], ◌++◌, length, take, true, false};
ghost use Rattle.tesla_desk.specs.Faults.{HasCause};
ghost use Rattle.tesla_desk.specs.Outside.{AppendsPrefix, with_bytes};
ghost use Rattle.tesla_capture.specs.Gathering.{gathered, Gathers};
ghost use Rattle.tesla_receiver.specs.declared.history.Entry.TheVariants.{Arrived, Taken, Ended};
ghost use Rattle.tesla_state.specs.Replies.{reply_shown};
ghost use Rattle.tesla_trace.specs.Entries.{FitsReply, IsEntry, entry_in};
ghost use Rattle.tesla_trace.specs.Trace.{entry_text, trace_head};

use crate::entry::{EntryBuffer, EntryKind};
use crate::pieces::{arrival_header, given_header, trace_head_bytes, verdict_bytes};
use tesla_capture::Gatherer;
use tesla_desk::Sink;
use tesla_fitting::Verdict;
use tesla_state::Take;

/// Writes an entry, in one piece. It takes no memory.
///
/// True: the entry was appended. False: a prefix of it was appended, and the sink's count of faults rose.
#[tactic(auto, using(tesla_capture::proofs::Gathered::written_whole, tesla_capture::proofs::Gathered::written_prefix, tesla_desk::proofs::Told::prefix_none))]
pub fn write_entry<S: Sink>(sink: &mut S, entry: &EntryBuffer) -> bool
    requires { IsEntry entry.now }
    ensures all { result ≡ true → S.written sink.new ≡ with_bytes (S.written sink.old) (entry_text (entry_in entry.now)) }
    ensures prefix { AppendsPrefix (S.written sink.old) (S.written sink.new) (entry_text (entry_in entry.now)) }
    ensures cause { HasCause (S.faults sink.old) (S.faults sink.new) (result ≡ false) }
    ensures name { S.name sink.new ≡ S.name sink.old }
{
    let mut gatherer = Gatherer::new();
    put_entry(&mut gatherer, sink, entry) && gatherer.flush(sink)
}

/// Puts the head of a trace of a receiver with so many ingests behind what is gathered. Where it doesn't fit, that is
/// written to the sink first; where it fits, the sink is left as it was. It takes no memory.
///
/// True: the head was put. False: a prefix of what was gathered was written, and the sink's count of faults rose.
pub fn put_trace_head<S: Sink>(gatherer: &mut Gatherer, sink: &mut S, ingests: u8) -> bool
    ensures all { result ≡ true → Gathers (S.written sink.old) (S.written sink.new) (gathered gatherer.new) (gathered gatherer.old ++ trace_head ingests) }
    ensures prefix { result ≡ false → AppendsPrefix (S.written sink.old) (S.written sink.new) (gathered gatherer.old) }
    ensures kept { result ≡ false → gathered gatherer.new ≡ gathered gatherer.old }
    ensures waits { length (gathered gatherer.old) + length (trace_head ingests) ≤ 8192 → sink.new ≡ sink.old }
    ensures cause { HasCause (S.faults sink.old) (S.faults sink.new) (result ≡ false) }
    ensures name { S.name sink.new ≡ S.name sink.old }
{
    put_text(gatherer, sink, &trace_head_bytes(ingests), &[], &[])
}

/// Puts the arrival of a datagram of at most 2,048 bytes, with the reading of the receiver's clock in microseconds and its
/// verdict, behind what is gathered, as `put_trace_head` does. It takes no memory.
///
/// True: the entry was put. False: a prefix of what was gathered was written, and the sink's count of faults rose.
pub fn put_arrived<S: Sink>(
    gatherer: &mut Gatherer,
    sink: &mut S,
    ingest: u8,
    reading: u64,
    bytes: &[u8],
    verdict: Verdict,
) -> bool
    requires { length bytes.now ≤ 2048 }
    ensures all { result ≡ true → Gathers (S.written sink.old) (S.written sink.new) (gathered gatherer.new) (gathered gatherer.old ++ entry_text (Arrived (record { ingest = ingest; reading = reading; bytes = bytes.now; verdict = verdict }))) }
    ensures prefix { result ≡ false → AppendsPrefix (S.written sink.old) (S.written sink.new) (gathered gatherer.old) }
    ensures kept { result ≡ false → gathered gatherer.new ≡ gathered gatherer.old }
    ensures waits { length (gathered gatherer.old) + length (entry_text (Arrived (record { ingest = ingest; reading = reading; bytes = bytes.now; verdict = verdict }))) ≤ 8192 → sink.new ≡ sink.old }
    ensures cause { HasCause (S.faults sink.old) (S.faults sink.new) (result ≡ false) }
    ensures name { S.name sink.new ≡ S.name sink.old }
{
    let header = arrival_header(ingest, reading, bytes.len() as u16);
    let returned = verdict_bytes(verdict);
    put_text(
        gatherer,
        sink,
        &header,
        bytes,
        &returned.bytes[..returned.length],
    )
}

/// Puts a take by this releaser, with its answer, behind what is gathered, as `put_trace_head` does. The payload of a packet
/// that was given, of at most 1,200 bytes, is at the front of the payload. It takes no memory.
///
/// True: the entry was put. False: a prefix of what was gathered was written, and the sink's count of faults rose.
pub fn put_taken<S: Sink>(
    gatherer: &mut Gatherer,
    sink: &mut S,
    releaser: u8,
    reply: Take,
    payload: &[u8],
) -> bool
    requires { FitsReply reply payload.now }
    ensures all { result ≡ true → Gathers (S.written sink.old) (S.written sink.new) (gathered gatherer.new) (gathered gatherer.old ++ entry_text (Taken releaser (reply_shown reply payload.now))) }
    ensures prefix { result ≡ false → AppendsPrefix (S.written sink.old) (S.written sink.new) (gathered gatherer.old) }
    ensures kept { result ≡ false → gathered gatherer.new ≡ gathered gatherer.old }
    ensures waits { length (gathered gatherer.old) + length (entry_text (Taken releaser (reply_shown reply payload.now))) ≤ 8192 → sink.new ≡ sink.old }
    ensures cause { HasCause (S.faults sink.old) (S.faults sink.new) (result ≡ false) }
    ensures name { S.name sink.new ≡ S.name sink.old }
{
    match reply {
        Take::Empty => put_text(gatherer, sink, &[2, releaser, 0], &[], &[]),
        Take::Over => put_text(gatherer, sink, &[2, releaser, 1], &[], &[]),
        Take::Given(head) => {
            let given = &payload[..usize::from(head.length)];
            put_text(gatherer, sink, &given_header(releaser, &head), given, &[])
        }
    }
}

/// Puts the end of an ingest behind what is gathered, as `put_trace_head` does. It takes no memory.
///
/// True: the entry was put. False: a prefix of what was gathered was written, and the sink's count of faults rose.
pub fn put_ended<S: Sink>(gatherer: &mut Gatherer, sink: &mut S, ingest: u8) -> bool
    ensures all { result ≡ true → Gathers (S.written sink.old) (S.written sink.new) (gathered gatherer.new) (gathered gatherer.old ++ entry_text (Ended ingest)) }
    ensures prefix { result ≡ false → AppendsPrefix (S.written sink.old) (S.written sink.new) (gathered gatherer.old) }
    ensures kept { result ≡ false → gathered gatherer.new ≡ gathered gatherer.old }
    ensures waits { length (gathered gatherer.old) + length (entry_text (Ended ingest)) ≤ 8192 → sink.new ≡ sink.old }
    ensures cause { HasCause (S.faults sink.old) (S.faults sink.new) (result ≡ false) }
    ensures name { S.name sink.new ≡ S.name sink.old }
{
    put_text(gatherer, sink, &[3, ingest], &[], &[])
}

/// Puts an entry into an empty gatherer, which has room for it.
fn put_entry<S: Sink>(gatherer: &mut Gatherer, sink: &mut S, entry: &EntryBuffer) -> bool
    requires within { IsEntry entry.now }
    requires empty { gathered gatherer.old ≡ [] }
    ensures held { result ≡ true → Gathers (S.written sink.old) (S.written sink.old) (gathered gatherer.new) (entry_text (entry_in entry.now)) }
    ensures waits { sink.new ≡ sink.old }
    ensures cause { HasCause (S.faults sink.old) (S.faults sink.new) (result ≡ false) }
{
    match entry.kind {
        EntryKind::Arrival => {
            let bytes = &entry.bytes[..usize::from(entry.length)];
            put_arrived(
                gatherer,
                sink,
                entry.who,
                entry.reading,
                bytes,
                entry.verdict,
            )
        }
        EntryKind::Take => put_taken(gatherer, sink, entry.who, entry.reply, &entry.bytes),
        EntryKind::End => put_ended(gatherer, sink, entry.who),
    }
}

/// Puts three pieces, which are one entry or a head, behind what is gathered.
fn put_text<S: Sink>(
    gatherer: &mut Gatherer,
    sink: &mut S,
    header: &[u8],
    body: &[u8],
    back: &[u8],
) -> bool
    requires { length header.now + length body.now + length back.now ≤ 8192 }
    ensures all { result ≡ true → Gathers (S.written sink.old) (S.written sink.new) (gathered gatherer.new) (gathered gatherer.old ++ (header.now ++ body.now ++ back.now)) }
    ensures prefix { result ≡ false → AppendsPrefix (S.written sink.old) (S.written sink.new) (gathered gatherer.old) }
    ensures kept { result ≡ false → gathered gatherer.new ≡ gathered gatherer.old }
    ensures waits { length (gathered gatherer.old) + length (header.now ++ body.now ++ back.now) ≤ 8192 → sink.new ≡ sink.old }
    ensures cause { HasCause (S.faults sink.old) (S.faults sink.new) (result ≡ false) }
    ensures name { S.name sink.new ≡ S.name sink.old }
{
    gatherer.put_parts(sink, header, body, back)
}

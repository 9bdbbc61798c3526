//! The last entries of a history, as they are spelled in a tail.

ghost use Rattle.std.specs.Prelude.{◌≡◌, ◌≤◌, ◌+◌, ◌-◌, ◌++◌, [], ◌∷◌, length, drop, take, flat_map, IfOk};
ghost use Rattle.std.specs.List.{sum};
ghost use Rattle.circular_buffer.specs.Buffer.{buffer};
ghost use Rattle.tesla_receiver.specs.declared.history.Entry.TheVariants.{Arrived, Taken, Ended};
ghost use Rattle.tesla_state.specs.Replies.{reply_shown};
ghost use Rattle.tesla_trace.specs.Entries.{FitsReply};
ghost use Rattle.tesla_trace.specs.Trace.{entry_text};
ghost use Rattle.tesla_recorder.specs.Recorded.{HoldsTexts, room_for, with_text};

use circular_buffer::HeapCircularBuffer;
use std::alloc::Global;
use std::marker::Model;
use tesla_base::{MOST_PAYLOAD, NoMemory};
use tesla_receiver::{Take, Verdict};
use tesla_trace::{arrival_header, given_header, verdict_bytes};

/// How many bytes an entry has at most: those of an arrival of 2,048 bytes, with the longest verdict.
const LONGEST: usize = 2_070;

/// The last entries of a history as they are spelled, one behind the other, in memory that is all taken at the opening.
#[derive(Drop)]
pub(crate) struct LastEntries {
    bytes: HeapCircularBuffer<u8>,
    lengths: HeapCircularBuffer<u16>,
}

impl Model for LastEntries {
    ghost use Rattle.std.specs.Prelude.{◌+◌};
    ghost use Rattle.tesla_recorder.specs.Recorded.{HoldsTexts, Tail, texts_in};

    ghost Value = { Tail };

    ghost view = { λ t. record { keep = t.lengths.capacity; texts = texts_in t.lengths.items t.bytes.items; reserved = t.bytes.capacity + t.lengths.capacity } };

    ghost invariant = { λ t. HoldsTexts t.bytes t.lengths };
}

impl LastEntries {
    /// Room for so many entries, of which there is none.
    pub(crate) fn open(alloc: Global, keep: u32) -> Result<LastEntries, NoMemory>
        requires some { 1 ≤ keep }
        requires few { keep ≤ 4096 }
        ensures { IfOk result (λ t. t ≡ record { keep = keep; texts = []; reserved = room_for keep }) }
    {
        let count = keep as usize;
        let bytes = HeapCircularBuffer::with_capacity(alloc, count * LONGEST)?;
        let lengths = HeapCircularBuffer::with_capacity(alloc, count)?;
        Ok(LastEntries { bytes, lengths })
    }

    /// How many there are.
    pub(crate) fn count(&self) -> usize
        ensures count { result ≡ length self.now.texts }
        ensures within { result ≤ self.now.keep }
        ensures few { self.now.keep ≤ 4096 }
    {
        self.lengths.len()
    }

    /// Their bytes, of which the second slice goes on where the first ends.
    pub(crate) fn texts(&self) -> (&[u8], &[u8])
        ensures { result.0.now ++ result.1.now ≡ flat_map (λ text. text) self.now.texts }
    {
        self.bytes.as_slices()
    }

    /// Puts an arrival behind them. The oldest is let go where there is no room.
    pub(crate) fn put_arrival(&mut self, ingest: u8, reading: u64, bytes: &[u8], verdict: Verdict)
        requires { length bytes.now ≤ 2048 }
        ensures { self.new ≡ with_text self.old (entry_text (Arrived (record { ingest = ingest; reading = reading; bytes = bytes.now; verdict = verdict }))) }
    {
        let header = arrival_header(ingest, reading, bytes.len() as u16);
        let returned = verdict_bytes(verdict);
        self.put(&header, bytes, &returned.bytes[..returned.length]);
    }

    /// Puts a take with its answer behind them. The oldest is let go where there is no room.
    pub(crate) fn put_take(&mut self, releaser: u8, reply: Take, payload: &[u8; MOST_PAYLOAD])
        requires { FitsReply reply payload.now }
        ensures { self.new ≡ with_text self.old (entry_text (Taken releaser (reply_shown reply payload.now))) }
    {
        match reply {
            Take::Empty => self.put(&[2, releaser, 0], &[], &[]),
            Take::Over => self.put(&[2, releaser, 1], &[], &[]),
            Take::Given(head) => {
                let given = &payload[..usize::from(head.length)];
                self.put(&given_header(releaser, &head), given, &[]);
            }
        }
    }

    /// Puts the end of an ingest behind them. The oldest is let go where there is no room.
    pub(crate) fn put_end(&mut self, ingest: u8)
        ensures { self.new ≡ with_text self.old (entry_text (Ended ingest)) }
    {
        self.put(&[3, ingest], &[], &[]);
    }

    /// Puts a text behind them, in three parts. The oldest is let go where there is no room.
    fn put(&mut self, header: &[u8], body: &[u8], back: &[u8])
        requires { length header.now + length body.now + length back.now ≤ 2070 }
        ensures { self.new ≡ with_text self.old (header.now ++ body.now ++ back.now) }
    {
        let length = header.len() + body.len() + back.len();
        make_room(&mut self.lengths, &mut self.bytes, length as u16);
        self.bytes.extend_from_slice(header);
        self.bytes.extend_from_slice(body);
        self.bytes.extend_from_slice(back);
    }
}

/// Puts the length of one text more behind the others. Where there is no room the oldest length goes, and its bytes.
fn make_room(lengths: &mut HeapCircularBuffer<u16>, bytes: &mut HeapCircularBuffer<u8>, size: u16)
    requires held { HoldsTexts bytes.old lengths.old }
    ensures lengths { lengths.new ≡ buffer (drop (length lengths.old.items + 1 - lengths.old.capacity) lengths.old.items ++ size ∷ []) lengths.old.capacity }
    ensures bytes { bytes.new ≡ buffer (drop (sum (take (length lengths.old.items + 1 - lengths.old.capacity) lengths.old.items)) bytes.old.items) bytes.old.capacity }
{
    if let Some(oldest) = lengths.push_back(size) {
        let left = bytes.len() - usize::from(oldest);
        bytes.truncate_front(left);
    }
}

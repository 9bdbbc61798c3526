//! Places for entries of a history.

ghost use Rattle.std.specs.Prelude.{◌≡◌, ◌≤◌, length};
ghost use Rattle.tesla_receiver.specs.declared.history.Entry.TheVariants.{Arrived, Taken, Ended};
ghost use Rattle.tesla_state.specs.Replies.{reply_shown};
ghost use Rattle.tesla_trace.specs.Entries.{FitsReply, IsEntry, entry_in};

use tesla_base::{MOST_DATAGRAM, MOST_PAYLOAD};
use tesla_fitting::Verdict;
use tesla_state::Take;

/// What an entry of a history is of.
#[derive(Clone, Copy, Debug, PartialEq, Eq)]
pub enum EntryKind {
    /// A datagram that came.
    Arrival,
    /// A take.
    Take,
    /// The end of an ingest.
    End,
}

/// A fixed place for one entry of a history. A field that its kind doesn't use counts for nothing.
#[derive(Clone, Copy)]
pub struct EntryBuffer {
    /// What it is an entry of.
    pub kind: EntryKind,
    /// The number of the ingest, or of the releaser that took.
    pub who: u8,
    /// The reading of the receiver's clock in microseconds at an arrival.
    pub reading: u64,
    /// The verdict on an arrival.
    pub verdict: Verdict,
    /// The answer to a take.
    pub reply: Take,
    /// How many bytes the datagram has, or the payload that was given.
    pub length: u16,
    /// The datagram, or the payload that was given, at the front.
    pub bytes: [u8; MOST_DATAGRAM],
}

impl EntryBuffer {
    /// A place that holds the end of ingest 0. It takes no memory.
    pub fn new() -> EntryBuffer
        ensures entry { entry_in result ≡ Ended 0 }
        ensures within { IsEntry result }
    {
        EntryBuffer {
            kind: EntryKind::End,
            who: 0,
            reading: 0,
            verdict: Verdict::Malformed,
            reply: Take::Empty,
            length: 0,
            bytes: [0; MOST_DATAGRAM],
        }
    }

    /// Makes it the arrival of a datagram of at most 2,048 bytes, with the reading of the receiver's clock in microseconds
    /// and its verdict. It takes no memory.
    pub fn set_arrival(&mut self, ingest: u8, reading: u64, bytes: &[u8], verdict: Verdict)
        requires { length bytes.now ≤ 2048 }
        ensures entry { entry_in self.new ≡ Arrived (record { ingest = ingest; reading = reading; bytes = bytes.now; verdict = verdict }) }
        ensures within { IsEntry self.new }
    {
        self.kind = EntryKind::Arrival;
        self.who = ingest;
        self.reading = reading;
        self.verdict = verdict;
        self.length = bytes.len() as u16;
        self.bytes[..bytes.len()].copy_from_slice(bytes);
    }

    /// Makes it a take by this releaser, with its answer. The payload of a packet that was given, of at most 1,200 bytes, is
    /// at the front of the payload. It takes no memory.
    pub fn set_take(&mut self, releaser: u8, reply: Take, payload: &[u8; MOST_PAYLOAD])
        requires { FitsReply reply payload.now }
        ensures entry { entry_in self.new ≡ Taken releaser (reply_shown reply payload.now) }
        ensures within { IsEntry self.new }
    {
        self.kind = EntryKind::Take;
        self.who = releaser;
        self.reply = reply;
        if let Take::Given(head) = reply {
            let length = usize::from(head.length);
            self.length = head.length;
            self.bytes[..length].copy_from_slice(&payload[..length]);
        }
    }

    /// Makes it the end of an ingest. It takes no memory.
    pub fn set_end(&mut self, ingest: u8)
        ensures entry { entry_in self.new ≡ Ended ingest }
        ensures within { IsEntry self.new }
    {
        self.kind = EntryKind::End;
        self.who = ingest;
    }
}

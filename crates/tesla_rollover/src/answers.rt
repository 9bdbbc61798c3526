//! What the calls answer.

use tesla_base::{Head, StreamId};
use tesla_commit::SetupKind;
use tesla_fitting::Verdict;

/// The verdict on an arrival, and the epoch to which it went.
#[derive(Clone, Copy, Debug, PartialEq, Eq)]
pub struct RollVerdict {
    pub epoch: u8,
    pub verdict: Verdict,
}

/// The answer to a take.
#[derive(Clone, Copy, Debug, PartialEq, Eq)]
pub enum RollTake {
    /// The next released packet of the first epoch that has one, and what its payload came to. The payload is the first
    /// `head.length` bytes of the buffer.
    Given { epoch: u8, head: Head, next: Next },
    /// None waits, and every ingest has ended.
    Over,
    /// None waits now.
    Empty,
}

/// What the payload of a packet that was given came to. Only `Opened` opens an epoch; the first that applies is told.
#[derive(Clone, Copy, Debug, PartialEq, Eq)]
pub enum Next {
    /// It isn't a handover: it doesn't begin with the mark.
    Plain,
    /// Its epoch isn't the newest, which is told.
    Old { newest: u8 },
    /// Sixteen epochs are open.
    EpochsSpent,
    /// Its text is no setup: the first line that is refused, counted from 1, or 0 for the whole text, and why.
    BadSetup { line: u32, kind: SetupKind },
    /// An epoch of its setup's stream is open.
    UsedStream(StreamId),
    /// There was no memory for a further epoch.
    NoMemory,
    /// The next epoch was opened.
    Opened,
}

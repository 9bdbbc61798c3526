//! What the calls answer.

use tesla_base::{Head, StreamId, Text};
use tesla_commit::SetupKind;
use tesla_fitting::Verdict;

/// What becomes of the message of an arrival before its key is disclosed.
#[derive(Clone, Copy, Debug, PartialEq, Eq)]
pub enum Acceptance {
    /// No authentic message before promised it, or it is none.
    Unpromised,
    /// It is accepted, and waits to be given.
    Queued,
    /// It was promised, and as many accepted messages wait as there are places: it isn't accepted, and its promise stays.
    Unqueued,
}

/// The verdict on an arrival, the epoch to which it went, and what becomes of its message before its key is disclosed.
#[derive(Clone, Copy, Debug, PartialEq, Eq)]
pub struct FollowVerdict {
    pub epoch: u32,
    pub verdict: Verdict,
    pub acceptance: Acceptance,
}

/// The answer to a take. The payload that is given is the first `head.length` bytes of the buffer, and the position in the
/// head counts the records of all epochs.
#[derive(Clone, Copy, Debug, PartialEq, Eq)]
pub enum FollowTake {
    /// The next released packet of the oldest epoch that has one, and what its payload came to.
    Released {
        epoch: u32,
        head: Head,
        next: FollowNext,
    },
    /// The next message that was accepted on arrival. Its head has the chain 255.
    Early {
        epoch: u32,
        head: Head,
    },
    /// None waits now.
    Empty,
    /// None waits, and every ingest has ended.
    Over,
}

/// The answer to a take, with the payload that it gives.
#[derive(Debug, Drop)]
pub enum FollowReply {
    /// The next released packet of an epoch, and what its payload came to.
    Released {
        epoch: u32,
        head: Head,
        payload: Text,
        next: FollowNext,
    },
    /// The next message that was accepted on arrival in an epoch.
    Early {
        epoch: u32,
        head: Head,
        payload: Text,
    },
    /// None waits now.
    Empty,
    /// None waits, and every ingest has ended.
    Over,
}

/// What the payload of a released packet came to. Only `Opened` opens an epoch; the first that applies is told.
#[derive(Clone, Copy, Debug, PartialEq, Eq)]
pub enum FollowNext {
    /// It isn't a handover: it doesn't begin with the mark.
    Plain,
    /// Its epoch isn't the newest, which is told.
    Old { newest: u32 },
    /// As many epochs were opened as can be numbered: 2^32.
    EpochsSpent,
    /// Its text is no setup: the first line that is refused, counted from 1, or 0 for the whole text, and why.
    BadSetup { line: u32, kind: SetupKind },
    /// A chain of its setup, which is told, has the commitment of a chain before.
    EqualCommitments { chain: u8 },
    /// Its setup is of the stream of an epoch that is open, or of one of the last 64 that were closed.
    UsedStream(StreamId),
    /// The next epoch was opened.
    Opened,
}

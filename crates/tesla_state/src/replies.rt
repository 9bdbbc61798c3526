//! The answers to a take.

use tesla_base::{Head, Text};

/// The answer to a take.
#[derive(Clone, Copy, Debug, PartialEq, Eq)]
pub enum Take {
    /// The next released packet. Its payload is the first `length` bytes of the buffer.
    Given(Head),
    /// None waits now.
    Empty,
    /// None waits, and every ingest has ended.
    Over,
}

/// The answer to a take, with the payload that it gives.
#[derive(Debug, Drop)]
pub enum Reply {
    /// The next released packet.
    Given { head: Head, payload: Text },
    /// None waits now.
    Empty,
    /// None waits, and every ingest has ended.
    Over,
}

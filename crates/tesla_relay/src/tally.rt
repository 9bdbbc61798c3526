//! The counts of a post that others may read while a relay runs.

use std::sync::Arc;
use std::sync::atomic::AtomicU64;
use std::sync::atomic::Ordering::SeqCst;

/// What a tally showed when it was read.
#[derive(Clone, Copy, Debug, Default, PartialEq, Eq)]
pub struct SoFar {
    /// How many datagrams the post had sent.
    pub sent: u64,
    /// How many were dropped for it, since its queue was full.
    pub dropped: u64,
}

/// How many datagrams a post has sent by now, and how many were dropped for it. Any thread may read it at any time. Each count
/// is modulo 2^64, and nothing is claimed of what is read.
#[derive(Drop)]
pub struct PostTally {
    sent: AtomicU64,
    dropped: AtomicU64,
}

impl PostTally {
    /// None was sent, and none dropped.
    pub fn new() -> PostTally {
        PostTally {
            sent: AtomicU64::new(0),
            dropped: AtomicU64::new(0),
        }
    }

    // One more was sent.
    pub(crate) fn raise_sent(&self) {
        self.sent.fetch_add(1, SeqCst);
    }

    // One more was dropped.
    pub(crate) fn raise_dropped(&self) {
        self.dropped.fetch_add(1, SeqCst);
    }

    /// The counts by now.
    pub fn so_far(&self) -> SoFar {
        SoFar {
            sent: self.sent.load(SeqCst),
            dropped: self.dropped.load(SeqCst),
        }
    }
}

/// What a relay has for a post beside it: the gate that it passes around each datagram, and the tally of what became of the
/// datagrams.
#[derive(Drop)]
pub struct PostSide<G> {
    /// The gate.
    pub gate: G,
    /// The tally, which is raised where the relay's own counts rise.
    pub tally: Arc<PostTally>,
}

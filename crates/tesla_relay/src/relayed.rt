//! What a relay came to.

ghost use Rattle.std.specs.Prelude.{◌≡◌, ◌<◌, ◌≤◌, length, get_or};

use arrayvec::ArrayVec;

/// The most posts of a relay.
pub(crate) const MOST: usize = 32;

/// Why a relay reads no more of its link.
#[derive(Clone, Copy, Debug, PartialEq, Eq)]
pub enum RelayEnd {
    /// Nothing was left of the link.
    Ended,
    /// The link failed.
    Failed,
}

/// What became of the datagrams for one post. A count stands still at 2^64 - 1.
#[derive(Clone, Copy, Debug, Default, PartialEq, Eq)]
pub struct PostCount {
    /// How many it sent.
    pub sent: u64,
    /// How many were dropped because its queue was full.
    pub dropped: u64,
    /// Whether it failed. It sent no more then.
    pub failed: bool,
}

/// What a relay came to.
#[derive(Drop)]
pub struct Relayed {
    /// Why it ended.
    pub end: RelayEnd,
    // What became of the datagrams for each post, in order.
    counts: ArrayVec<PostCount, MOST>,
}

impl Relayed {
    /// What a relay with this end and these counts came to.
    pub(crate) fn new(end: RelayEnd, counts: ArrayVec<PostCount, MOST>) -> Relayed
        ensures { (result.end ≡ end) × (result.counts.items ≡ counts.items) }
    {
        Relayed { end, counts }
    }

    /// What became of the datagrams for the k-th post, counted from 0.
    pub fn post(&self, k: u8) -> PostCount
        requires { k < length self.now.counts.items }
        ensures { (d : PostCount) → result ≡ get_or self.now.counts.items k d }
    {
        self.counts.as_slice()[usize::from(k)]
    }
}

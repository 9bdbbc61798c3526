//! What the receiver says of an arrival.

use tesla_base::{ChainNo, StreamId};

/// The verdict on an arrival: the first that applies, in this order but for `Keys`, which comes before `Late`.
#[derive(Clone, Copy, Debug, PartialEq, Eq)]
pub enum Verdict {
    /// The bytes aren't a frame.
    Malformed,
    /// The frame is of another stream.
    Foreign { stream: StreamId },
    /// The frame doesn't fit the setup: its interval, its rows or their indexes.
    Misfit,
    /// The sender can't have come so far yet, by the bound on its interval.
    Future { bound: Option<u64> },
    /// A new key of the chain, the least such, doesn't lead back to the commitment and the keys taken before.
    BadKey { chain: ChainNo },
    /// No chain is safe (RFC 4082, section 3.5). The frame's keys are taken.
    Late,
    /// A packet of this name was released. The frame's keys are taken.
    Repeat,
    /// No place is left for the packet. The frame's keys are taken.
    Full,
    /// The packet is kept, with bit c set for each safe chain c. The frame's keys are taken.
    Kept { chains: u8 },
    /// A disclosure frame, whose keys are taken.
    Keys,
}

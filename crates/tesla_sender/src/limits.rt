//! The limits of what a sender makes.

/// The most key chains of a stream.
pub const MOST_CHAINS: usize = 8;

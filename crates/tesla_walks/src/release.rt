//! A packet that a disclosed key has proved.

use tesla_base::{ChainNo, Name};

/// A kept packet whose tag was verified under a disclosed key.
#[derive(Clone, Copy, Debug, PartialEq, Eq)]
pub struct Release {
    /// The packet's place among all arrivals, counted from 0.
    pub place: usize,
    /// The packet's name.
    pub name: Name,
    /// The least chain that proved it.
    pub chain: ChainNo,
}

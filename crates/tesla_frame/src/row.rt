//! A row of a disclosure frame.

use tesla_base::{ChainNo, Key};

/// A key of a chain, with its index: the interval whose messages it authenticates.
#[derive(Clone, Copy, Debug, PartialEq, Eq)]
pub struct KeyRow {
    /// The chain.
    pub chain: ChainNo,
    /// The interval whose key it is.
    pub index: u32,
    /// The key.
    pub key: Key,
}

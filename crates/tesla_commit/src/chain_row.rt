//! The commitment of one key chain.

use tesla_base::{KEY_BYTES, Key};

/// One key chain of a setup (RFC 4082, section 3.3).
#[derive(Clone, Copy, Debug, PartialEq, Eq)]
pub struct ChainRow {
    /// How many intervals after its own a key is disclosed: 1 to 4,096.
    pub delay: u16,
    /// The index of the committed key: 0 to the last interval.
    pub index: u32,
    /// The committed key.
    pub key: Key,
}

// What stands in the unused places of a list of rows.
impl Default for ChainRow {
    fn default() -> ChainRow {
        ChainRow {
            delay: 0,
            index: 0,
            key: Key([0; KEY_BYTES]),
        }
    }
}

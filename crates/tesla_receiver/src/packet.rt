//! A packet that waits for its key.

use tesla_frame::DataView;

/// A kept packet.
#[derive(Debug, Drop)]
pub struct Packet<'a> {
    /// The chains that were safe on arrival, with bit c set for chain c.
    pub chains: u8,
    /// The packet's frame.
    pub frame: DataView<'a>,
}

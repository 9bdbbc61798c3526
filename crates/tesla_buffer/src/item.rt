//! What a buffer holds of a packet.

use tesla_base::{MOST_PAYLOAD, Name, WideTag};

/// A packet that is held until it is gone, with what the receiver must know of it. The fields lie in memory in this
/// order, so those that are read most often stand in front of the payload.
#[derive(Clone, Copy, PartialEq, Eq)]
pub struct Item {
    /// The number of the packet's arrival, by which packets that are proved together are ordered.
    pub order: u64,
    /// The name of the message.
    pub name: Name,
    /// The key chains on which the packet was safe as it arrived, a bit for each.
    pub chains: u8,
    /// Whether the packet was released.
    pub released: bool,
    /// Whether the packet was taken.
    pub taken: bool,
    /// How many bytes the message has.
    pub length: u16,
    /// The room of the message; its bytes stand first.
    pub payload: [u8; MOST_PAYLOAD],
    /// The room of the tags; those of the packet stand first, in the order of the chains.
    pub tags: [WideTag; 8],
}

/// What becomes of a packet that is held.
#[derive(Clone, Copy, Debug, PartialEq, Eq)]
pub enum Fate {
    /// It is released, and stays at its place.
    Released,
    /// It is taken, and stays at its place.
    Taken,
    /// It is no longer held, and its place is vacant.
    Gone,
}

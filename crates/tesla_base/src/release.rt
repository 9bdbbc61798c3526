//! What is told of a released packet beside its payload.

/// Which packet was released, and the length of its payload.
#[derive(Clone, Copy, Debug, PartialEq, Eq)]
pub struct Head {
    /// How many packets were released before it.
    pub position: u64,
    /// The interval of the message.
    pub interval: u32,
    /// The number of the message within its interval.
    pub number: u16,
    /// The chain that proved the message.
    pub chain: u8,
    /// How many bytes the payload has.
    pub length: u16,
}

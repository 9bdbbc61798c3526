//! What a receiver is set up with.

use tesla_commit::Setup;

/// The trusted setup, and what the receiver's operator chose.
#[derive(Debug, Drop)]
pub struct Config {
    /// The stream's commitment.
    pub setup: Setup,
    /// How many microseconds the sender's clock is ahead of the receiver's at most (RFC 4082, section 3.3: `D_t`).
    pub lag: i64,
    /// How many packets are held at most: 1 to 65,536.
    pub capacity: u32,
    /// How many packets of one interval are held at most: 1 to the capacity.
    pub quota: u32,
    /// How many ingests bring datagrams.
    pub ingests: u8,
}

//! What the words of the command `receive` ask for.

ghost use Rattle.std.specs.Prelude.{◌≤◌};

use tesla_front::{Names, PacketLimits};

/// What the words `receive SETUP LAG CAPACITY LINKS SINKS` ask for.
#[derive(Drop)]
pub struct Arguments<'a> {
    /// The name of the setup.
    pub setup: &'a str,
    /// How many microseconds the sender's clock is ahead of the receiver's at most (RFC 4082, section 3.3: `D_t`).
    pub lag: i64,
    /// How many packets the receiver holds at most.
    pub limits: PacketLimits,
    /// The names of the links, 1 to 32.
    pub links: Names<'a>,
    /// The names of the sinks, 1 to 32.
    pub sinks: Names<'a>,
    ghost some: { 1 ≤ limits.quota },
    ghost within: { limits.quota ≤ limits.capacity },
    ghost most: { limits.capacity ≤ 65536 },
}

//! What the words of the command `audit` ask for.

ghost use Rattle.std.specs.Prelude.{◌≤◌};

use tesla_front::PacketLimits;

/// What the words `audit SETUP LAG CAPACITY TRACE` ask for.
#[derive(Clone, Copy, Debug)]
pub struct Arguments<'a> {
    /// The name of the file of the setup.
    pub setup: &'a str,
    /// How many microseconds the sender's clock is ahead of the receiver's at most (RFC 4082, section 3.3: `D_t`).
    pub lag: i64,
    /// How many packets the receiver holds at most.
    pub limits: PacketLimits,
    /// The name of the file of the trace.
    pub trace: &'a str,
    ghost some: { 1 ≤ limits.quota },
    ghost within: { limits.quota ≤ limits.capacity },
    ghost most: { limits.capacity ≤ 65536 },
}

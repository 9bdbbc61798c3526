//! What the words of a command ask for that plays a capture under a setup.

ghost use Rattle.std.specs.Prelude.{◌≤◌};

use tesla_front::PacketLimits;

/// What the word CAPACITY of such a command may be.
#[derive(Clone, Copy, Debug)]
pub enum Capacity {
    /// A decimal from 1 to 65,536, or two with a slash between them of which the second is from 1 to the first: how many
    /// packets are held of all intervals, and of one.
    PacketLimits,
    /// A decimal from 1 to `most`, which is both.
    Whole { most: u16 },
}

/// The form of such a command, `NAME SETUP LAG CAPACITY CAPTURE OUT`.
#[derive(Clone, Copy, Debug)]
pub struct Form {
    /// Its name.
    pub name: &'static str,
    /// What CAPACITY may be.
    pub capacity: Capacity,
}

/// The names of the files of such a command.
#[derive(Clone, Copy, Debug)]
pub struct Names<'a> {
    /// The setup.
    pub setup: &'a str,
    /// The capture.
    pub capture: &'a str,
    /// The file that the records are written to.
    pub out: &'a str,
}

/// What the words `NAME SETUP LAG CAPACITY CAPTURE OUT` ask for.
#[derive(Clone, Copy, Debug)]
pub struct Arguments<'a> {
    /// The names of the files.
    pub names: Names<'a>,
    /// How many microseconds the sender's clock is ahead of the receiver's at most (RFC 4082, section 3.3: `D_t`).
    pub lag: i64,
    /// How many packets the receiver holds at most.
    pub limits: PacketLimits,
    ghost some: { 1 ≤ limits.quota },
    ghost within: { limits.quota ≤ limits.capacity },
    ghost most: { limits.capacity ≤ 65536 },
}

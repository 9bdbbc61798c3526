//! The parameters of a stream.

ghost use Rattle.std.specs.Prelude.{◌<◌, ◌≤◌, ◌^◌, length};
ghost use Rattle.tesla_base.specs.Version.{IsTagLength, most_chains};
ghost use Rattle.tesla_sender_setup.specs.Delays.{RiseAbove, RiseAbove-prop};

use arrayvec::ArrayVec;
use tesla_base::{StreamId, Version};
use tesla_clock::Schedule;

/// The parameters of a stream (RFC 4082, section 3.2): what its setup has beside the commitments of its key chains.
#[derive(Debug, Drop)]
pub struct Parameters {
    /// The version of the setup and of the stream's frames.
    pub version: Version,
    /// The number of the stream.
    pub stream: StreamId,
    /// The intervals of the stream.
    pub schedule: Schedule,
    /// How many bytes a tag has: 16 in version 1.
    pub tag_length: u8,
    /// The disclosure delay of each key chain, in intervals (RFC 4082, section 3.2: `d`).
    pub delays: ArrayVec<u16, 8>,
    ghost number: { stream.0 < 2 ^ 64 },
    ghost size: { IsTagLength version tag_length },
    ghost some: { 1 ≤ length delays.items },
    ghost few: { length delays.items ≤ most_chains version },
    ghost rise: { RiseAbove 0 delays.items } by { RiseAbove-prop 0 delays.items },
}

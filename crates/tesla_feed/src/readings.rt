//! Readings of a clock that may not be read.

ghost use Rattle.std.specs.Prelude.{◌≡◌};
ghost use Rattle.tesla_feed.specs.Fed.{is_unread};

/// Whether a clock gave this in place of a reading, since it couldn't be read.
pub fn is_unread(reading: u64) -> bool
    ensures { result ≡ is_unread reading }
{
    reading == u64::MAX
}

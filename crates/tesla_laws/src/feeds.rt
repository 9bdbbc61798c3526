//! The laws over feeds and worlds, as contracts of functions that do nothing.

ghost use Rattle.tesla_laws.specs.Laws.{FeedsAreSecure, FeedsTellOnTime};

/// Over any world that a feed's log makes, the security condition holds (RFC 4082, section 3.5).
pub fn secure()
    ensures { FeedsAreSecure }
{
    tesla_world::laws::safe();
}

/// Where no reading that was given was ahead of what a clock that isn't set reads at its event, no frame of a feed tells
/// a key before its interval by that clock: its index and the chain's delay are at most the interval there.
pub fn on_time()
    ensures { FeedsTellOnTime }
{}

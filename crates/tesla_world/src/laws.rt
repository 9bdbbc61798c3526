//! The laws over worlds and histories, as contracts of functions that do nothing.

ghost use Rattle.tesla_world.specs.Laws.{CommitmentLaw, DeliveryLaw, EarlyIsInsecure, FutureLaw, HonestCompleteness, SafeClocksAreBounded, SafeClocksAreSecure, SecurityCondition, TimeLaw};

/// In a legal history in which no two values on the walks of the keys of a chain collide under the one-way function, a
/// key is good exactly where it is newer than those taken before and leads to the commitment (RFC 4082, section 3.5).
pub fn commitment()
    ensures { CommitmentLaw }
{
    tesla_receiver::laws::prefixes();
    tesla_receiver::laws::new_keys();
}

/// The security condition (RFC 4082, section 3.5): where the clock bound holds, no frame that was sent before a kept
/// packet came told a key of a chain of its set that reaches its interval, and each key that was disclosed is the sender's of
/// its index.
pub fn safe()
    ensures { SecurityCondition }
{
    tesla_frame::laws::frames();
    tesla_receiver::laws::kept();
}

/// Where the clock bound holds, no datagram with the bytes of a frame that was sent before it came is judged as from the
/// future: the bound on the sender's interval is never below the interval in which the frame was sent (RFC 4082, section
/// 3.5).
pub fn not_future()
    ensures { FutureLaw }
{
    tesla_frame::laws::frames();
}

/// Where no taken key is forged, a kept packet that has the sender's tag for a chain of its set is proved by the first
/// new key of that chain that reaches its interval, and is released by then, it or another packet of its name.
pub fn complete()
    ensures { HonestCompleteness }
{
    tesla_receiver::laws::kept();
    tesla_receiver::laws::new_keys();
    tesla_receiver::laws::proved();
}

/// Where no taken key is forged, a message that was sent, came and was kept is released under its name once a key of a
/// chain of its set, of its interval or a later one, was taken.
pub fn delivered()
    ensures { DeliveryLaw }
{
    tesla_frame::laws::frames();
    tesla_receiver::laws::prefixes();
    tesla_receiver::laws::kept();
    tesla_receiver::laws::new_keys();
    tesla_receiver::laws::proved();
}

/// The lag of one exchange bounds the clocks for as long as they drift apart by no more than the drift (RFC 4082,
/// section 3.3.1).
pub fn time()
    ensures { TimeLaw }
{
    tesla_sync::laws::lags();
}

/// Clocks that err on the safe side: where the clock bound holds of what right clocks read at each moment, it holds where
/// the sender's clock reads no more than a right one and the receiver's no less, since the lag bounds from above alone
/// (RFC 4082, section 3.3: `D_t`). So the premise of the security condition holds too (section 3.5).
pub fn clocks()
    // The lag of right clocks bounds these.
    ensures bounded { SafeClocksAreBounded }
    // No frame that was sent before a kept packet came told a key of a chain of its set that reaches its interval.
    ensures undisclosed { SafeClocksAreSecure }
{
    safe();
}

/// What the second half of the security condition is for: a data frame writes no index, so a sender that tells each key
/// one interval too early would meet the first half. Its world isn't secure.
pub fn disclosed_early()
    ensures { EarlyIsInsecure }
{}

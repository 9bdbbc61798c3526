//! The clocks of the system.

ghost use Rattle.std.specs.Prelude.{◌≡◌, ◌/◌, ◌-◌, ◌^◌, min};
ghost use Rattle.std.specs.Duration.{as_nanos};

use crate::rule::Times;
use std::time::{Clock, Duration};
use tesla_reports::{SINCE_BOOT, read_clock};

/// What both clocks of the system read now.
pub fn times_now<R: Clock>(rt: &R) -> Times {
    Times {
        since_1970: since_1970(rt),
        since_boot: read_clock(SINCE_BOOT),
    }
}

// Microseconds since 1970. `None` where the clock can't be read or stands before 1970.
fn since_1970<R: Clock>(rt: &R) -> Option<u64> {
    match rt.since_1970() {
        Ok(since) => Some(micros(since)),
        Err(_) => None,
    }
}

// The whole microseconds, or 2^64 - 1 where there are more.
fn micros(since: Duration) -> u64
    ensures { result ≡ min (as_nanos since / 1000) (2 ^ 64 - 1) }
{
    u64::try_from(since.as_micros()).unwrap_or(u64::MAX)
}

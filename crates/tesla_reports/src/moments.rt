//! The clocks of the system that count from some moment on.

use libc::types::timespec;

/// The number of the clock that counts from the machine's start, goes on while it is suspended and can't be set
/// (`CLOCK_BOOTTIME` of Linux).
pub const SINCE_BOOT: i32 = 7;

/// Microseconds of a clock that is never set back, from some moment on; 0 where it can't be read.
pub fn monotonic() -> u64 {
    read_clock(libc::CLOCK_MONOTONIC).unwrap_or(0)
}

/// Microseconds of the system's clock of this number. `None` where it can't be read.
pub fn read_clock(clock: i32) -> Option<u64> {
    let mut time = timespec {
        tv_sec: 0,
        tv_nsec: 0,
    };
    if libc::clock_gettime(clock, &mut time) != 0 {
        return None;
    }
    let seconds = time.tv_sec.unsigned_abs().saturating_mul(1_000_000);
    Some(seconds.saturating_add(time.tv_nsec.unsigned_abs() / 1_000))
}

//! How much of a stream is left at a reading of the clock.

ghost use Rattle.std.specs.Prelude.{◌≡◌, ◌≤◌};
ghost use Rattle.tesla_run_info.specs.info.Left.{end_of, left_at, seconds_left_at};

use tesla_clock::Schedule;

/// The microseconds of a second.
pub const SECOND: u128 = 1_000_000;

/// The microsecond at which the last interval has ended.
pub fn end_of(schedule: Schedule) -> u128
    ensures value { result ≡ end_of schedule }
    ensures limit { result ≤ 18450520717885440001 }
{
    let length = u128::from(schedule.length());
    u128::from(schedule.start()) + length * (u128::from(schedule.last()) + 1)
}

/// How many intervals of a stream haven't ended by a reading of the clock: 0 behind the last one.
pub fn left_at(schedule: Schedule, reading: u64) -> u64
    ensures { result ≡ left_at schedule reading }
{
    let intervals = u64::from(schedule.last()) + 1;
    match schedule.interval_at(reading) {
        Some(interval) => intervals.saturating_sub(interval),
        None => intervals,
    }
}

/// How many whole seconds there are from a reading of the clock until the last interval has ended: 0 behind it.
pub fn seconds_left_at(schedule: Schedule, reading: u64) -> u128
    ensures { result ≡ seconds_left_at schedule reading }
{
    end_of(schedule).saturating_sub(u128::from(reading)) / SECOND
}

//! The schedule of a stream.

ghost use Rattle.std.specs.Prelude.{◌≡◌, ℕ, ◌+◌, ◌-◌, ◌*◌, ◌/◌, ◌^◌, ◌<◌, ◌≤◌, ℤ, pos, negsuc, ◌+ℤ◌, ◌-ℤ◌, MatchOption, IfSome};
ghost use Rattle.tesla_clock.specs.Schedule.{Times, IsSchedule, interval_of, interval_after, bound_of};

use std::marker::Model;

/// When the intervals of a stream begin and how many there are (RFC 4082, section 3.2). Interval `i`
/// begins at `start + i * length` of the sender's clock, and lasts `length` microseconds.
#[derive(Clone, Copy, Debug)]
pub struct Schedule {
    start: u64,
    length: u32,
    last: u32,
}

impl Model for Schedule {
    ghost use Rattle.std.specs.Prelude.{◌<◌, ◌^◌};
    ghost use Rattle.tesla_clock.specs.Schedule.{Times, IsSchedule};

    ghost Value = { Times };

    ghost view = { λ s. record { start = s.start; length = s.length; last = s.last } };

    ghost invariant = { λ s. IsSchedule (record { start = s.start; length = s.length; last = s.last }) × (s.start < 2 ^ 64) };

    ghost inverse = { λ t. record { start = t.start; length = t.length; last = t.last } };
}

impl Schedule {
    /// The schedule of these parts: microseconds of the sender's clock at which interval 0 begins,
    /// microseconds of an interval, and the last interval. `None` exactly where the length is not 1,000
    /// to 3,600,000,000, or the last interval not 1 to 1,048,576.
    pub fn new(start: u64, length: u32, last: u32) -> Option<Schedule>
        ensures { let times : Times = record { start = start; length = length; last = last } in
            MatchOption result (¬ IsSchedule times) (λ schedule. (schedule ≡ times) × IsSchedule times) }
    {
        if length < 1000 || length > 3_600_000_000 || last < 1 || last > 1_048_576 {
            return None;
        }
        Some(Schedule {
            start,
            length,
            last,
        })
    }

    /// The microsecond of the sender's clock at which interval 0 begins.
    pub fn start(&self) -> u64
        ensures { result ≡ self.now.start }
    {
        self.start
    }

    /// The microseconds of an interval.
    pub fn length(&self) -> u32
        ensures value { result ≡ self.now.length }
        ensures limits { IsSchedule self.now }
        ensures start { self.now.start < 2 ^ 64 }
    {
        self.length
    }

    /// The last interval.
    pub fn last(&self) -> u32
        ensures value { result ≡ self.now.last }
        ensures limits { IsSchedule self.now }
        ensures start { self.now.start < 2 ^ 64 }
    {
        self.last
    }

    /// The interval at this reading of the sender's clock, also after the last. `None` exactly before
    /// the start.
    pub fn interval_at(&self, reading: u64) -> Option<u64>
        ensures { result ≡ interval_of self.now reading }
    {
        if reading < self.start {
            return None;
        }
        Some((reading - self.start) / u64::from(self.length))
    }

    /// The last interval that the sender may be in when the receiver's clock gives this reading, where
    /// the sender's clock is at most `lag` microseconds ahead (RFC 4082, section 3.5). `None` exactly
    /// where that is before the start.
    pub fn bound(&self, reading: u64, lag: i64) -> Option<u64>
        ensures { result ≡ bound_of self.now lag reading }
    {
        let time = since_start(self.start, reading, lag);
        if time < 0 {
            return None;
        }
        Some(quotient(time as u128, self.length))
    }
}

// How many times the length goes into the time. A division of 64 bits is cheaper, and mostly enough.
fn quotient(time: u128, length: u32) -> u64
    requires some { 0 < length }
    requires few { time / length < 2 ^ 64 }
    ensures { result ≡ time / length }
{
    match u64::try_from(time) {
        Ok(short) => short / u64::from(length),
        Err(_) => (time / u128::from(length)) as u64,
    }
}

// The microseconds from the start to the latest that the sender's clock may show.
fn since_start(start: u64, reading: u64, lag: i64) -> i128
    ensures { result ≡ (pos reading +ℤ lag) -ℤ pos start }
{
    i128::from(reading) + i128::from(lag) - i128::from(start)
}

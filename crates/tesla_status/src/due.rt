//! When the next line is due.

ghost use Rattle.std.specs.Prelude.{◌≡◌, ◌↔◌, ℕ, ◌+◌, ◌-◌, ◌*◌, ◌<◌, ◌≤◌, min, IsTrue};
ghost use Rattle.tesla_status.specs.Due.{is_due_at, since_after};

/// How many microseconds a monitor rests at most.
const REST: u64 = 1_000_000;

/// How often lines are written, by the readings of a clock.
#[derive(Drop)]
pub struct Due {
    // How many microseconds pass from a line to the next.
    every: u64,
    // The reading from which they are counted.
    since: u64,
    ghost some: { 1 ≤ every },
    ghost few: { every ≤ 3600000000 },
}

impl Due {
    /// Every so many seconds, from this reading on.
    pub fn new(seconds: u32, since: u64) -> Due
        requires { (1 ≤ seconds) × (seconds ≤ 3600) }
        ensures every { result.every ≡ seconds * 1000000 }
        ensures since { result.since ≡ since }
    {
        Due {
            every: u64::from(seconds) * 1_000_000,
            since,
        }
    }

    /// Whether a line is due at this reading. The time is counted on from the last line, or anew from this reading where the
    /// clock went back, or where the next line would be due too.
    pub fn is_due(&mut self, now: u64) -> bool
        ensures is { result ≡ is_due_at self.old.every self.old.since now }
        ensures since { self.new.since ≡ since_after self.old.every self.old.since now }
        ensures due { IsTrue result ↔ (self.old.since + self.old.every ≤ now) }
        ensures every { self.new.every ≡ self.old.every }
        ensures begun { self.new.since ≤ now }
        // No line is due again at the same reading.
        ensures ahead { now < self.new.since + self.new.every }
        ensures still { self.old.since ≤ now → now < self.old.since + self.old.every → self.new.since ≡ self.old.since }
        ensures next { self.old.since + self.old.every ≤ now → now < self.old.since + 2 * self.old.every → self.new.since ≡ self.old.since + self.old.every }
        ensures behind { self.old.since + 2 * self.old.every ≤ now → self.new.since ≡ now }
        ensures back { now < self.old.since → self.new.since ≡ now }
    {
        if now < self.since {
            self.since = now;
            return false;
        }
        let gone = now - self.since;
        if gone < self.every {
            return false;
        }
        self.since = if gone - self.every < self.every {
            self.since + self.every
        } else {
            now
        };
        true
    }

    /// How many microseconds a monitor rests behind this reading: until the next line is due, and a second at most, so that
    /// a clock that was set is seen.
    pub fn rest_at(&self, now: u64) -> u64
        ensures short { result ≤ 1000000 }
        ensures next { self.now.since ≤ now → result ≡ min (self.now.since + self.now.every - now) 1000000 }
        ensures back { now < self.now.since → result ≡ min self.now.every 1000000 }
    {
        let gone = now.saturating_sub(self.since);
        self.every.saturating_sub(gone).min(REST)
    }
}

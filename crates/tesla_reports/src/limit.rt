//! How often a line may be told.

ghost use Rattle.std.specs.Prelude.{◌≡◌, ◌<◌, ◌+◌, ◌-◌, ◌^◌, Some, None, min, if◌then◌else◌, nat_lt};

/// How many microseconds lie between two lines at least.
const APART: u64 = 1_000_000;

/// When a line was told last, and how many were left out since then.
#[derive(Clone, Copy, Debug, PartialEq, Eq)]
pub struct Limit {
    told: Option<u64>,
    left_out: u64,
}

impl Limit {
    /// None was told yet.
    pub fn new() -> Limit
        ensures { result ≡ record { told = None; left_out = 0 } }
    {
        Limit {
            told: None,
            left_out: 0,
        }
    }

    /// Whether a line may be told at this reading of a clock, in microseconds: where none was told within the last
    /// second. It gives how many were left out since the one before, and counts this one where it is left out.
    pub fn admit(&mut self, now: u64) -> Option<u64>
        ensures first { self.old.told ≡ None → (result ≡ Some self.old.left_out) × (self.new ≡ record { told = Some now; left_out = 0 }) }
    {
        if let Some(told) = self.told {
            if now < told.saturating_add(APART) {
                self.left_out = self.left_out.saturating_add(1);
                return None;
            }
        }
        let left_out = self.left_out;
        self.told = Some(now);
        self.left_out = 0;
        Some(left_out)
    }
}

//! For how long in a row a link was quiet, and when that ends it.

ghost use Rattle.std.specs.Prelude.{◌≡◌, ◌<◌, ◌≤◌, ◌↔◌, ◌+◌, ◌-◌, ◌^◌, ◌/◌, min, IsTrue};

/// For how many microseconds a link waits for a datagram until it is quiet, where it isn't told another wait.
pub(crate) const WAIT: u64 = 100_000;

/// How many microseconds were waited since the last datagram, and how many whole waits end the link. At 0 none does.
#[derive(Clone, Copy, Debug, PartialEq, Eq)]
pub(crate) struct Quiets {
    limit: u64,
    waited: u64,
}

impl Quiets {
    /// None yet.
    pub(crate) fn new(limit: u64) -> Quiets
        ensures { result ≡ record { limit = limit; waited = 0 } }
    {
        Quiets { limit, waited: 0 }
    }

    /// Counts a quiet that waited so many microseconds.
    pub(crate) fn add(&mut self, waited: u64)
        ensures { self.new ≡ record { limit = self.old.limit; waited = min (self.old.waited + waited) (2 ^ 64 - 1) } }
    {
        self.waited = self.waited.saturating_add(waited);
    }

    /// Forgets those so far, since a datagram came.
    pub(crate) fn clear(&mut self)
        ensures { self.new ≡ record { limit = self.old.limit; waited = 0 } }
    {
        self.waited = 0;
    }

    /// Whether the link has ended.
    pub(crate) fn are_over(&self) -> bool
        ensures { IsTrue result ↔ ((0 < self.now.limit) × (self.now.limit ≤ self.now.waited / 100000)) }
    {
        0 < self.limit && self.limit <= self.waited / WAIT
    }
}

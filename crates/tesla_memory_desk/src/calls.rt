//! Numbered calls, of which some fail.

ghost use Rattle.std.specs.Prelude.{◌≡◌, ◌∷◌, ◌++◌, [], is_ok, if◌then◌else◌};
ghost use Rattle.tesla_memory_desk.specs.Calls.{CallNumbers, new_calls, next_fails, after_call, with_failing};

use std::marker::Model;
use tesla_base::NoMemory;

/// The number of the next call, counted from 0, and the numbers of the calls that fail.
#[derive(Drop)]
pub struct Calls {
    next: u64,
    failing: Vec<u64>,
}

impl Model for Calls {
    ghost Value = { CallNumbers };

    ghost view = { λ calls. record { next = calls.next; failing = calls.failing.items } };
}

impl Calls {
    /// Calls of which none was made yet. Those with these numbers fail.
    pub fn new(failing: Vec<u64>) -> Calls
        ensures { result ≡ new_calls failing.items }
    {
        Calls { next: 0, failing }
    }

    /// Whether the next call fails.
    pub fn next_fails(&self) -> bool
        ensures { result ≡ next_fails self.now }
    {
        self.next < u64::MAX && self.failing.contains(&self.next)
    }

    /// Counts a call. The number of the next one stands still at 2^64 - 1.
    pub fn count(&mut self)
        ensures { self.new ≡ after_call self.old }
    {
        self.next = self.next.saturating_add(1);
    }

    /// Lets the call with this number fail.
    pub fn fail(&mut self, call: u64) -> Result<(), NoMemory>
        ensures { self.new ≡ (if is_ok result then with_failing call self.old else self.old) }
    {
        self.failing.push(call)?;
        Ok(())
    }
}

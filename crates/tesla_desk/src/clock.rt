//! A clock.

ghost use Rattle.std.specs.Prelude.{◌≡◌, ℕ, List, Bool, Option, true};
ghost use Rattle.tesla_desk.specs.Clocks.{Ticking, Ticks};

/// A clock of the receiver, which cannot fail.
pub trait Clock {
    /// The readings to come, of which the last is given again and again, and those that were given; `None` where the
    /// clock does not tell them. One that does not tell stays so, and one that tells goes on for 2^64 - 1 readings.
    ghost told: { Self → Option Ticking };

    /// A clock gave this reading.
    ghost gave: { ℕ → Bool } = { λ _. true };

    /// A clock may be asked for the datagram of this number, counted from 0 among those of its link, and of these bytes.
    ghost may_ask: { ℕ → List ℕ → Bool } = { λ _ _. true };

    /// A clock gave this reading when it was asked for the datagram of this number and of these bytes.
    ghost read_for: { ℕ → List ℕ → ℕ → Bool } = { λ _ _ _. true };

    /// The reading now, in microseconds.
    fn now(&mut self) -> u64
        ensures ticks { Ticks (told self.old) (told self.new) result }
        ensures gave { gave result ≡ true };

    /// The reading now, in microseconds, for a datagram that has come.
    fn now_for(&mut self, datagram: &[u8]) -> u64
        requires asked { (number : ℕ) × (may_ask number datagram.now ≡ true) }
        ensures ticks { Ticks (told self.old) (told self.new) result }
        ensures gave { gave result ≡ true }
        ensures read { (number : ℕ) → may_ask number datagram.now ≡ true → read_for number datagram.now result ≡ true };
}

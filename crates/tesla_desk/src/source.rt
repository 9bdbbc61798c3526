//! A source of bytes.

ghost use Rattle.std.specs.Prelude.{◌≡◌, ◌<◌, Option, List, ℕ, length};
ghost use Rattle.tesla_desk.specs.Faults.{HasCause};
ghost use Rattle.tesla_desk.specs.Outside.{Reads};

/// What one read answers.
#[derive(Clone, Copy, Debug, PartialEq, Eq)]
pub enum ReadStep {
    /// This many bytes, at least one, stand at the front of the slice.
    Got(usize),
    /// Nothing is left.
    End,
    /// The read failed, and what is left is unchanged.
    Failed,
}

/// Bytes that are read from front to end.
pub trait Source {
    /// The bytes that are left; `None` where the source does not tell them. One that does not tell
    /// stays so.
    ghost left: { Self → Option (List ℕ) };

    /// How often a read failed. The count stands still at 2^64 - 1.
    ghost faults: { Self → ℕ };

    /// The name that the source was opened under.
    ghost name: { Self → List ℕ };

    /// Reads the next bytes into the front of the slice, at least one and at most as many as it has
    /// room for. `Failed` is answered exactly where the count of faults rose.
    fn read(&mut self, into: &mut [u8]) -> ReadStep
        requires { 0 < length into.old }
        ensures step { Reads (left self.old) (left self.new) into.new result }
        ensures cause { HasCause (faults self.old) (faults self.new) (result ≡ ReadStep.Failed) }
        ensures name { name self.new ≡ name self.old };
}

//! Values with a history.

ghost use Rattle.std.specs.Prelude.{List};

/// A value whose history is a list of entries.
pub trait Chronicle {
    /// What one event leaves in the history.
    type Entry;

    /// What no event changes.
    type Config;

    ghost config: { Self → Self.Config };

    /// The value is one that this history leads to.
    ghost stands: { Self → List Self.Entry → Type 0 };
}

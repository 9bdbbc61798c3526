//! Values of which not every call is permitted.

ghost use Rattle.std.specs.Prelude.{ℕ, List};

use tesla_base::Chronicle;

/// A value of which each call is under a rule, by the pass that makes it and the calls that this pass made before.
pub trait Permitting: Chronicle {
    /// Whether a call is permitted, by the configuration, the number of the pass, the calls that this pass made before,
    /// and the entry.
    ghost permits: { Self.Config → ℕ → List Self.Entry → Self.Entry → Type 0 };
}

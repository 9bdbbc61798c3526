//! What the words of the command `stress` ask for.

ghost use Rattle.std.specs.Prelude.{◌≤◌};

/// What the words `stress SEED COUNT` ask for.
#[derive(Clone, Copy, Debug)]
pub struct Arguments {
    /// The first of the numbers that choose what comes of each message.
    pub seed: u16,
    /// How many messages are made.
    pub count: u32,
    ghost some: { 1 ≤ count },
    ghost most: { count ≤ 100000 },
}

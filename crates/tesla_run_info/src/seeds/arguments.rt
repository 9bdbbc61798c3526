//! What the words of the command `seeds` ask for.

ghost use Rattle.std.specs.Prelude.{◌≤◌};

/// What the words `seeds COUNT SECRET-OUT` ask for.
#[derive(Clone, Copy, Debug)]
pub struct Arguments<'a> {
    /// How many seeds there are to be.
    pub count: u8,
    /// The name of the file that they are written to.
    pub out: &'a str,
    ghost few: { count ≤ 8 },
}

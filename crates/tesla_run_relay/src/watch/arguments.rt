//! What the words of the command `watch-relay` ask for.

ghost use Rattle.std.specs.Prelude.{◌≤◌};

use crate::arguments::Arguments as RelayArguments;

/// What the words `watch-relay CAPACITY LINK POSTS STATUS EVERY` ask for.
#[derive(Drop)]
pub struct Arguments<'a> {
    /// What those of `relay` ask for.
    pub relay: RelayArguments<'a>,
    /// The name of the file of the counts.
    pub status: &'a str,
    /// After how many seconds a line is due: 1 to 3,600.
    pub every: u32,
    ghost some: { 1 ≤ every },
    ghost few: { every ≤ 3600 },
}

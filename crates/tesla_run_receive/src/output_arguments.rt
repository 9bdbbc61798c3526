//! What the words of a command with one output more ask for.

ghost use Rattle.std.specs.Prelude.{◌≤◌};

use crate::arguments::Arguments;

/// What the words of `receive`, the name of one output more and a number ask for.
#[derive(Drop)]
pub struct OutputWords<'a> {
    /// What the words of `receive` ask for.
    pub receive: Arguments<'a>,
    /// The name of the output.
    pub output: &'a str,
    /// The number, from 1 to the greatest of the form.
    pub number: u32,
    ghost some: { 1 ≤ number },
}

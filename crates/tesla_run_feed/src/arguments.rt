//! What the words of the command `feed` ask for.

ghost use Rattle.std.specs.Prelude.{◌≤◌};

use tesla_front::Names;

/// The last words `STATUS EVERY`.
#[derive(Drop)]
pub struct StatusWords<'a> {
    /// The name of the file of the counts.
    pub output: &'a str,
    /// How many seconds pass from a line to the next.
    pub every: u32,
    ghost some: { 1 ≤ every },
    ghost few: { every ≤ 3600 },
}

/// What the words `feed SETUPS SECRETS LINK POSTS` ask for, or those with `STATUS EVERY` behind them.
#[derive(Drop)]
pub struct Arguments<'a> {
    /// The names of the setups, 1 to 16, in the order of the streams.
    pub setups: Names<'a>,
    /// The names of the seeds, one for each setup.
    pub secrets: Names<'a>,
    /// The name of the link.
    pub link: &'a str,
    /// The names of the posts, 1 to 32.
    pub posts: Names<'a>,
    /// The file of the counts, where there is one.
    pub status: Option<StatusWords<'a>>,
}

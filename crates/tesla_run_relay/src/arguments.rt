//! What the words of the command `relay` ask for.

ghost use Rattle.std.specs.Prelude.{◌≤◌};

use tesla_front::Names;

/// What the words `relay CAPACITY LINK POSTS` ask for.
#[derive(Drop)]
pub struct Arguments<'a> {
    /// How many datagrams the queue before each post holds at most: 1 to 4,096.
    pub capacity: u32,
    /// The name of the link.
    pub link: &'a str,
    /// The names of the posts, 1 to 32.
    pub posts: Names<'a>,
    ghost some: { 1 ≤ capacity },
    ghost most: { capacity ≤ 4096 },
}

//! Of which stream a feed is, by the front of its setup.

ghost use Rattle.std.specs.Prelude.{◌≡◌, ◌≤◌, length};

use tesla_files_live::FRONT;

/// What the name of a feed begins with.
const FEED: &[u8] = b"tesla feed: ";
/// How many bytes the name of a feed has at most.
pub(crate) const MOST_NAME: usize = 12 + FRONT;

/// The lines of a setup that say which stream it is, and when it begins: the second and the third one.
pub(crate) fn lines_of_stream(front: &[u8]) -> &[u8]
    ensures { length result.now ≤ length front.now }
{
    let mut ends = [front.len(); 3];
    let mut found = 0;
    for (at, byte) in front.iter().enumerate() {
        if *byte == b'\n' && found < 3 {
            ends[found] = at;
            found += 1;
        }
    }
    let end = ends[2].min(front.len());
    &front[ends[0].min(end)..end]
}

/// The name that a feed of the stream of this setup holds, and how many bytes it has.
pub(crate) fn name_of_feed(front: &[u8; FRONT]) -> ([u8; MOST_NAME], usize)
    ensures { result.1 ≤ 76 }
{
    let mut name = [0; MOST_NAME];
    let lines = lines_of_stream(front);
    name[..12].copy_from_slice(FEED);
    let end = 12 + lines.len();
    name[12..end].copy_from_slice(lines);
    (name, end)
}

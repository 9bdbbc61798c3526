//! What a desk in memory keeps.

ghost use Rattle.std.specs.Prelude.{◌≤◌, length};

use crate::entries::{Entries, Named};
use crate::settings::within_piece;
use tesla_base::Text;
use tesla_desk::ReadStep;

/// Bytes, and whether the sink that wrote them failed.
#[derive(Drop)]
pub struct StoredPage {
    pub bytes: Vec<u8>,
    pub failed: bool,
}

/// The bytes of a source, and how many of them have been read.
#[derive(Drop)]
pub struct StoredRest {
    pub bytes: Vec<u8>,
    pub at: usize,
    pub ghost within: { at ≤ length bytes.items },
}

impl StoredRest {
    ghost use Rattle.std.specs.Prelude.{◌≡◌, ◌<◌, ◌≤◌, length, Some};
    ghost use Rattle.std.specs.Option.{ForSome};
    ghost use Rattle.tesla_memory_desk.specs.Memory.{rest_answer};
    ghost use Rattle.tesla_desk.specs.Outside.{Reads};
    ghost use Rattle.tesla_memory_desk.specs.Stored.{left_stored};

    /// Moves the least of the slice's length, the greatest piece where there is one, and what is left.
    pub fn read(&mut self, piece: Option<usize>, into: &mut [u8]) -> ReadStep
        requires some { 0 < length into.old }
        requires moves { ForSome piece (λ most. 1 ≤ most) }
        ensures step { Reads (Some (left_stored self.old)) (Some (left_stored self.new)) into.new result }
        ensures exact { result ≡ rest_answer piece (length into.old) (left_stored self.old) }
    {
        let rest = &self.bytes[self.at..];
        if rest.is_empty() {
            return ReadStep::End;
        }
        let count = within_piece(piece, into.len().min(rest.len()));
        into[..count].copy_from_slice(&rest[..count]);
        self.at += count;
        ReadStep::Got(count)
    }
}

/// What was left of closed sources, by name. Of those with one name the newest counts.
pub type StoredRests = Entries<Named<StoredRest>>;

/// Pages by name. Of those with one name the newest counts.
pub type StoredPages = Entries<Named<StoredPage>>;

/// An opening that was asked for, with its name.
#[derive(Drop)]
pub enum AskedOpening {
    Source(Text),
    Sink(Text),
    Link(Text),
    Post(Text),
}

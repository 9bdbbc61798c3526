//! Why the text of seeds is refused.

ghost use Rattle.std.specs.Prelude.{◌≡◌, Some};
ghost use Rattle.tesla_seeds.specs.Names.{seeds_kind_name};
ghost use Rattle.tesla_seeds.specs.declared.refusal.SeedsRefusal.TheVariants as refusals;

use std::alloc::AllocFailed;
use std::fmt;
use tesla_base::Kind;

/// What is wrong with a line of the text of seeds. The texts are the names.
#[derive(Clone, Copy, Debug, PartialEq, Eq)]
pub enum SeedsKind {
    /// The line has no LF, or has other words.
    BadLine,
    /// The word that should be 64 lower-case hexadecimal digits is not.
    BadHex,
    /// The text ends before a line that is wanted, or goes on after the last.
    WrongCount,
    /// The text has more than 4,096 bytes.
    TooLong,
}

impl Kind for SeedsKind {
    ghost printed = { seeds_kind_name };

    fn name(self) -> &'static str {
        match self {
            SeedsKind::BadLine => "BadLine",
            SeedsKind::BadHex => "BadHex",
            SeedsKind::WrongCount => "WrongCount",
            SeedsKind::TooLong => "TooLong",
        }
    }
}

impl fmt::Display for SeedsKind {
    ghost output = { λ kind. Some (seeds_kind_name kind) };

    fn fmt<W: fmt::Write>(&self, f: &mut fmt::Formatter<W>) -> fmt::Result {
        f.write_str(self.name())
    }
}

/// Why the text of seeds is refused. It holds nothing of a seed.
#[derive(Clone, Copy, Debug, PartialEq, Eq)]
pub enum SeedsRefusal {
    /// The first refused line, counted from 1, or 0 for the whole text. The seed of chain `k` has line
    /// `2 + k`.
    At { line: u32, kind: SeedsKind },
    /// The allocator had no memory.
    NoMemory,
}

impl<T: Drop> From<AllocFailed<T>> for SeedsRefusal {
    ghost from_gives = { λ _ e. e ≡ refusals.NoMemory };

    fn from(_: AllocFailed<T>) -> SeedsRefusal {
        SeedsRefusal::NoMemory
    }
}

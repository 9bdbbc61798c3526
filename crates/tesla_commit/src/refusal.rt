//! Why a setup is refused.

ghost use Rattle.std.specs.Prelude.{◌≡◌, Some};
ghost use Rattle.tesla_commit.specs.Names.{kind_name};
ghost use Rattle.tesla_commit.specs.declared.refusal.SetupRefusal.TheVariants as refusals;

use std::fmt;
use tesla_base::Kind;

/// What is wrong with a line of a setup. The texts are the names.
#[derive(Clone, Copy, Debug, PartialEq, Eq)]
pub enum SetupKind {
    /// The line is not there, has no LF, or has other words.
    BadLine,
    /// A word that should be a decimal is none.
    BadNumber,
    /// A word that should be lower-case hexadecimal digits of a fixed number is not.
    BadHex,
    /// There is no chain.
    NoChain,
    /// There are more chains than the version allows: four, or eight.
    TooManyChains,
    /// The delay is not above that of the chain before.
    DelaysNotRising,
    /// The index of the committed key is above the last interval.
    IndexPastLast,
    /// The length of an interval, the last interval, the length of tags or a delay is outside its limits.
    LimitPassed,
    /// The text has more than 4,096 bytes.
    TooLong,
}

impl Kind for SetupKind {
    ghost printed = { kind_name };

    fn name(self) -> &'static str {
        match self {
            SetupKind::BadLine => "BadLine",
            SetupKind::BadNumber => "BadNumber",
            SetupKind::BadHex => "BadHex",
            SetupKind::NoChain => "NoChain",
            SetupKind::TooManyChains => "TooManyChains",
            SetupKind::DelaysNotRising => "DelaysNotRising",
            SetupKind::IndexPastLast => "IndexPastLast",
            SetupKind::LimitPassed => "LimitPassed",
            SetupKind::TooLong => "TooLong",
        }
    }
}

impl fmt::Display for SetupKind {
    ghost output = { λ kind. Some (kind_name kind) };

    fn fmt<W: fmt::Write>(&self, f: &mut fmt::Formatter<W>) -> fmt::Result {
        f.write_str(self.name())
    }
}

/// The line of the length of tags in version 2.
pub const TAG_LINE: u32 = 6;

/// A refused line, with what is wrong with it.
#[derive(Clone, Copy, Debug, PartialEq, Eq)]
pub struct LineRefusal {
    /// The number of the line, counted from 1.
    pub line: u32,
    /// What is wrong.
    pub kind: SetupKind,
}

/// Why a setup is refused.
#[derive(Clone, Copy, Debug, PartialEq, Eq)]
pub enum SetupRefusal {
    /// The first refused line, counted from 1, or 0 for the whole text. Row `k` of chains has line
    /// `6 + k` in version 1. In version 2 line 6 is that of the length of tags, and row `k` has line
    /// `7 + k`.
    At { line: u32, kind: SetupKind },
    /// There was no memory. A setup takes none, so no call here answers it.
    NoMemory,
}

impl From<LineRefusal> for SetupRefusal {
    ghost from_gives = { λ refusal e. e ≡ refusals.At refusal.line refusal.kind };

    fn from(refusal: LineRefusal) -> SetupRefusal {
        SetupRefusal::At {
            line: refusal.line,
            kind: refusal.kind,
        }
    }
}

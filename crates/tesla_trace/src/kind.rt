//! Why a trace is refused.

ghost use Rattle.std.specs.Prelude.{Some};
ghost use Rattle.tesla_trace.specs.Names.{kind_name};

use std::fmt;
use tesla_base::Kind;

/// Why no entry begins with some bytes.
#[derive(Clone, Copy, Debug, PartialEq, Eq)]
pub enum EntryFault {
    /// The first byte is neither 1 nor 2 nor 3.
    BadKind,
    /// The length of a datagram is above 2,048, or that of a payload above 1,200.
    TooLong,
    /// No verdict has this number, no answer to a take this byte, or no bound begins with it.
    BadCode,
}

/// Why a trace is refused at a place. The texts are the names.
#[derive(Clone, Copy, Debug, PartialEq, Eq)]
pub enum TraceKind {
    /// The first six bytes are not the head of a trace with 1 to 32 ingests; a shorter file is refused so too.
    BadHead,
    /// The first byte of an entry is neither 1 nor 2 nor 3.
    BadKind,
    /// The file ends within an entry, before its 2^40th byte.
    Truncated,
    /// The length of a datagram is above 2,048, or that of a payload above 1,200.
    TooLong,
    /// An entry begins or ends behind the first 2^40 bytes of the file.
    TooLarge,
    /// No verdict has this number, no answer to a take this byte, or no bound begins with it.
    BadCode,
}

impl Kind for TraceKind {
    ghost printed = { kind_name };

    fn name(self) -> &'static str {
        match self {
            TraceKind::BadHead => "BadHead",
            TraceKind::BadKind => "BadKind",
            TraceKind::Truncated => "Truncated",
            TraceKind::TooLong => "TooLong",
            TraceKind::TooLarge => "TooLarge",
            TraceKind::BadCode => "BadCode",
        }
    }
}

impl fmt::Display for TraceKind {
    ghost output = { λ kind. Some (kind_name kind) };

    fn fmt<W: fmt::Write>(&self, f: &mut fmt::Formatter<W>) -> fmt::Result {
        f.write_str(self.name())
    }
}

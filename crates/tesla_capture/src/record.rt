//! What reading the next record of a file answers.

ghost use Rattle.std.specs.Prelude.{◌≡◌, Some};
ghost use Rattle.tesla_capture.specs.Names.{kind_name};

use std::fmt;
use tesla_base::Kind;

/// Why no record begins with some bytes.
#[derive(Clone, Copy, Debug, PartialEq, Eq)]
pub enum RecordFault {
    /// The first of them is neither 1 nor 2.
    BadKind,
    /// A length is above its limit.
    TooLong,
}

/// What a reader of files of records tells of a record beside the bytes that the room holds.
#[derive(Clone, Copy)]
pub enum RecordHead {
    /// A record of kind 1: its reading, and how many bytes it carries.
    Carrying { reading: u64, length: u16 },
    /// A record of kind 2: its reading, 0 where it has none.
    Bare { reading: u64 },
}

/// Why a file is refused at a place. The texts are the names.
#[derive(Clone, Copy, Debug, PartialEq, Eq)]
pub enum RecordKind {
    /// The first five bytes are not the head of the format; a shorter file is refused so too.
    BadHead,
    /// The first byte of a record is neither 1 nor 2.
    BadKind,
    /// The file ends within a record, before its 2^40th byte.
    Truncated,
    /// The length of an arrival is above 2,048, or that of a message above 1,200.
    TooLong,
    /// A record begins or ends behind the first 2^40 bytes of the file.
    TooLarge,
}

impl Kind for RecordKind {
    ghost printed = { kind_name };

    fn name(self) -> &'static str {
        match self {
            RecordKind::BadHead => "BadHead",
            RecordKind::BadKind => "BadKind",
            RecordKind::Truncated => "Truncated",
            RecordKind::TooLong => "TooLong",
            RecordKind::TooLarge => "TooLarge",
        }
    }
}

impl fmt::Display for RecordKind {
    ghost output = { λ kind. Some (kind_name kind) };

    fn fmt<W: fmt::Write>(&self, f: &mut fmt::Formatter<W>) -> fmt::Result {
        f.write_str(self.name())
    }
}

/// What comes next in a capture.
#[derive(Clone, Copy, Debug, PartialEq, Eq)]
pub enum Step {
    /// A datagram of so many bytes, with what the receiver's clock gave when it came, in microseconds.
    Arrival { reading: u64, length: u16 },
    /// A take of the next released packet.
    Take,
    /// The file ended after a whole record, or after the head.
    End,
    /// The file is no capture, by the record at this place, which is the number of bytes before it.
    Refused { place: u64, kind: RecordKind },
    /// A read failed: the source's count of faults rose.
    ReadFault,
}

/// What comes next in a script.
#[derive(Clone, Copy, Debug, PartialEq, Eq)]
pub enum ScriptStep {
    /// A message with a payload of so many bytes, to be sent at this reading of the sender's clock, in
    /// microseconds.
    Message { reading: u64, length: u16 },
    /// A disclosure of keys, to be sent at this reading.
    Disclose { reading: u64 },
    /// The file ended after a whole record, or after the head.
    End,
    /// The file is no script, by the record at this place, which is the number of bytes before it.
    Refused { place: u64, kind: RecordKind },
    /// A read failed: the source's count of faults rose.
    ReadFault,
}

/// What comes next in a file of records of any format.
#[derive(Clone, Copy)]
pub enum RecordStep {
    /// A record of kind 1: its reading, and how many bytes it carries.
    Carrying { reading: u64, length: u16 },
    /// A record of kind 2: its reading, 0 where it has none.
    Bare { reading: u64 },
    /// The file ended after a whole record, or after the head.
    End,
    /// The file isn't in its grammar, by the record at this place.
    Refused { place: u64, kind: RecordKind },
    /// A read failed.
    ReadFault,
}

//! Why something can't be had, in words.

use std::fmt::{self, Display, Formatter};
use std::{io, str};

/// Why something can't be had: its name has another form, or what the system answered.
#[derive(Debug, Drop)]
pub enum Cause {
    /// What is wrong with the name or with what it names.
    Form(&'static str),
    System(io::Error),
}

impl Cause {
    /// Whether there was no memory.
    pub fn is_of_memory(&self) -> bool {
        self.is_of(io::ErrorKind::OutOfMemory)
    }

    /// Whether nobody reads any more what is to be written.
    pub fn is_of_reader(&self) -> bool {
        self.is_of(io::ErrorKind::BrokenPipe)
    }

    // Whether the system answered an error of this kind.
    fn is_of(&self, kind: io::ErrorKind) -> bool {
        match self {
            Cause::Form(_) => false,
            Cause::System(error) => error.kind() == kind,
        }
    }
}

impl From<io::Error> for Cause {
    fn from(error: io::Error) -> Cause {
        Cause::System(error)
    }
}

impl Display for Cause {
    /// The system's own words, where it has any.
    fn fmt<W: fmt::Write>(&self, f: &mut Formatter<W>) -> fmt::Result {
        match self {
            Cause::Form(words) => f.write_str(words),
            Cause::System(error) => match error.raw_os_error() {
                Some(code) => write_words(code, f),
                None => Display::fmt(error, f),
            },
        }
    }
}

// The system's words for an error of this number.
fn write_words<W: fmt::Write>(code: i32, f: &mut Formatter<W>) -> fmt::Result {
    let mut room = [0u8; 256];
    let length = os::error_text(code, &mut room);
    f.write_str(str::from_utf8(&room[..length]).unwrap_or("an error without words"))
}

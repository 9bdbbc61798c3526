//! A named pipe that is kept open.

ghost use Rattle.std.specs.Prelude.{◌≤◌, IfOk, length};

use crate::descriptor::Descriptor;
use std::os::unix::fs::FileTypeExt;
use std::rt::Files;
use std::{fs, io};
use tesla_reports::Cause;

/// A named pipe, written by one end and kept open by another, so that it has a reader whoever comes and goes. What it holds stays
/// for the next reader.
#[derive(Drop)]
pub struct KeptPipe {
    writing: Descriptor,
    // An end to read by, from which nothing is read.
    kept: Option<Descriptor>,
}

/// Whether a named pipe stands under a name.
pub fn is_pipe<R: Files>(rt: &R, path: &str) -> bool {
    match fs::metadata(rt, path) {
        Ok(found) => found.file_type().is_fifo(),
        Err(_) => false,
    }
}

/// Opens a named pipe, which the program has to be allowed to read as well. It doesn't wait for a reader.
pub fn keep(path: &str) -> Result<KeptPipe, Cause> {
    // (Linux opens a named pipe for both at once without a reader, and then for writing alone)
    let kept = Descriptor::opened(os::open_update(path.as_bytes()))?;
    let writing = Descriptor::opened(os::open_with(path.as_bytes(), libc::O_WRONLY, 0))?;
    writing.set_nonblocking()?;
    Ok(KeptPipe {
        writing,
        kept: Some(kept),
    })
}

impl KeptPipe {
    /// Keeps the pipe open no longer: where nobody else reads it, a write fails from now on.
    pub(crate) fn let_go(&mut self) {
        self.kept = None;
    }

    /// Asks the system once to write a piece, as `Descriptor::write` does. A piece of at most 4,096 bytes is taken whole, or nothing
    /// of it is.
    pub(crate) fn write(&self, piece: &[u8]) -> io::Result<usize>
        ensures { IfOk result (λ count. count ≤ length piece.now) }
    {
        self.writing.write(piece)
    }
}

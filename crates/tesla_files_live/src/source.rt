//! A source over a file.

ghost use Rattle.std.specs.Prelude.{◌≡◌, None};

use std::io::Read;
use std::str;
use tesla_base::Text;
use tesla_desk::{ReadStep, Source};
use tesla_reports::{Cause, Reporter};

/// How many bytes of a file's front are kept.
pub const FRONT: usize = 64;

/// A file that is read from front to end. What is in it isn't told.
#[derive(Drop)]
pub struct FileSource<'a, R, F> {
    /// The name that it was opened under.
    pub name: Text,
    /// How often its reads failed.
    pub faults: u64,
    file: F,
    reporter: Reporter<'a, R>,
    front: [u8; FRONT],
    // How much of the front is settled: all of it where nothing more is kept.
    length: usize,
}

impl<'a, R, F> FileSource<'a, R, F> {
    /// A file under this name, which has not failed yet. Of one that is secret no byte is kept.
    pub fn new(
        name: Text,
        file: F,
        reporter: Reporter<'a, R>,
        is_secret: bool,
    ) -> FileSource<'a, R, F>
        ensures name { result.name ≡ name }
        ensures faults { result.faults ≡ 0 }
    {
        FileSource {
            name,
            faults: 0,
            file,
            reporter,
            front: [0; FRONT],
            length: if is_secret { FRONT } else { 0 },
        }
    }

    /// The first bytes that were read of it, as many as are kept, and zeros behind them. Zeros alone of a secret one.
    pub fn front(&self) -> [u8; FRONT] {
        self.front
    }

    // Keeps what was read, as far as there is room.
    fn keep(&mut self, bytes: &[u8])
        ensures name { self.new.name ≡ self.old.name }
        ensures faults { self.new.faults ≡ self.old.faults }
    {
        let start = self.length.min(FRONT);
        let count = bytes.len().min(FRONT - start);
        self.front[start..start + count].copy_from_slice(&bytes[..count]);
        self.length = start + count;
    }
}

impl<'a, R: Eprint, F> FileSource<'a, R, F> {
    // Tells that a read failed.
    fn tell(&self, cause: &Cause) {
        let name = str::from_utf8(self.name.bytes()).unwrap_or("");
        self.reporter.cannot("read", name, cause);
    }
}

impl<'a, R: Eprint, F: Read> Source for FileSource<'a, R, F> {
    ghost left = { λ _. None };

    ghost faults = { λ it. it.faults };

    ghost name = { λ it. it.name };

    /// Asks the system once. Any error is a fault, an interrupted call too.
    fn read(&mut self, into: &mut [u8]) -> ReadStep {
        match self.file.read(into) {
            Ok(0) => ReadStep::End,
            Ok(count) => {
                if self.length < FRONT {
                    self.keep(&into[..count]);
                }
                ReadStep::Got(count)
            }
            Err(error) => {
                self.faults = self.faults.saturating_add(1);
                self.tell(&Cause::System(error));
                ReadStep::Failed
            }
        }
    }
}

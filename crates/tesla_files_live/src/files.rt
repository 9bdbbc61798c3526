//! Files that are opened so that none of those in use is overwritten.

ghost use Rattle.std.specs.Prelude.{◌≡◌, ◌≢◌, ◌↔◌, ◌++◌, ◌∷◌, [], length, take, IsTrue, Some, OnOk};
ghost use Rattle.std.specs.List.{Contains};

use crate::identity::{FileId, backing_of, id_of, path_of, path_of_descriptor, standard_output};
use std::alloc::{AllocError, Global};
use std::fs::{self, Metadata, OpenFile, OpenOptions};
use std::io;
use std::os::unix::fs::{MetadataExt, OpenOptionsExt};
use std::rt::Files;
use tesla_base::Text;
use tesla_reports::Cause;

/// Why a file isn't written.
const IN_USE: &str = "it is an input, another output or the file of standard output";

/// How an output is made.
#[derive(Clone, Copy, Debug, PartialEq, Eq)]
pub enum Making {
    /// As the system makes files. One that is there is emptied.
    Usual,
    /// For its owner alone. One that is there is emptied.
    Secret,
    /// For its owner alone, where there is none under the name.
    NewSecret,
}

impl Making {
    // How the system is asked for it.
    fn options(self) -> OpenOptions {
        let mut how = OpenOptions::new();
        how.write(true);
        match self {
            Making::Usual => {
                how.create(true);
            }
            Making::Secret => {
                how.create(true).mode(0o600);
            }
            Making::NewSecret => {
                how.create_new(true).mode(0o600);
            }
        }
        how
    }
}

/// A file that was opened, and its mode: who may read, write and run it. It is 0 of all that is no regular file.
pub struct Opened<F> {
    pub file: F,
    pub mode: u32,
}

/// The regular files that were opened so far, those that were closed since too: which they are, and their paths.
#[derive(Drop)]
pub struct OpenedFiles {
    ids: Vec<FileId>,
    paths: Vec<Text>,
}

impl OpenedFiles {
    /// None so far.
    pub fn new(alloc: Global) -> OpenedFiles
        ensures { result.ids.items ≡ [] }
    {
        OpenedFiles {
            ids: Vec::new(alloc),
            paths: Vec::new(alloc),
        }
    }

    /// Opens a file to read.
    pub fn open<R: Files + AllocGlobal>(
        &mut self,
        rt: &R,
        name: &str,
    ) -> Result<Opened<R::File>, Cause>
        ensures { take (length self.old.ids.items) self.new.ids.items ≡ self.old.ids.items }
    {
        let file = fs::open(rt, name)?;
        let found = file.metadata()?;
        self.note(rt, name, &found)?;
        Ok(Opened {
            file,
            mode: mode_of(&found),
        })
    }

    /// Opens a file to write. A regular file is emptied, unless it was opened before or is standard output: then it
    /// stays as it is, and the opening fails. Pipes and devices are opened as they are, but for a loop device over a
    /// file that was opened before. Which file it is, is asked before it is opened to be written, and again behind that,
    /// since on an overlay of file systems a file has another number from then on.
    pub fn create<R: Files + AllocGlobal>(
        &mut self,
        rt: &R,
        name: &str,
        making: Making,
    ) -> Result<Opened<R::File>, Cause>
        ensures { take (length self.old.ids.items) self.new.ids.items ≡ self.old.ids.items }
    {
        if let Ok(found) = fs::metadata(rt, name) {
            self.refuse_in_use(rt, name, &found)?;
        }
        let file = making.options().open(rt, name)?;
        let found = file.metadata()?;
        self.refuse_in_use(rt, name, &found)?;
        self.note(rt, name, &found)?;
        if found.is_file() {
            file.set_len(0)?;
        }
        Ok(Opened {
            file,
            mode: mode_of(&found),
        })
    }

    /// Notes the file of a descriptor that is open already, by its number in digits. A regular file that was opened before, or
    /// that is standard output, is refused. It isn't emptied.
    pub fn admit<R: Files + AllocGlobal>(&mut self, rt: &R, number: &str) -> Result<(), Cause>
        ensures { take (length self.old.ids.items) self.new.ids.items ≡ self.old.ids.items }
    {
        let path = path_of_descriptor(rt, number)?;
        let found = fs::metadata(rt, path.as_str())?;
        self.refuse_in_use(rt, path.as_str(), &found)?;
        self.note(rt, path.as_str(), &found)?;
        Ok(())
    }

    // Refuses a file that was opened before, or that is standard output.
    fn refuse_in_use<R: Files + AllocGlobal>(
        &self,
        rt: &R,
        name: &str,
        found: &Metadata,
    ) -> Result<(), Cause> {
        if let Some(id) = id_of(found) {
            if !self.is_apart(id, standard_output(rt)) || self.has_path(rt, name)? {
                return Err(Cause::Form(IN_USE));
            }
        }
        if let Some(id) = backing_of(rt, found)? {
            if !self.is_apart(id, standard_output(rt)) {
                return Err(Cause::Form(IN_USE));
            }
        }
        Ok(())
    }

    // Whether a file is none of those that were opened, nor standard output.
    fn is_apart(&self, id: FileId, output: Option<FileId>) -> bool
        ensures { IsTrue result ↔ ((Contains self.now.ids.items id → ⊥) × (output ≢ Some id)) }
    {
        !self.ids.contains(&id) && output != Some(id)
    }

    // Whether a file of this name's path was opened.
    fn has_path<R: Files + AllocGlobal>(&self, rt: &R, name: &str) -> io::Result<bool> {
        let Some(path) = path_of(rt, name)? else {
            return Ok(false);
        };
        Ok(self.paths.iter().any(|it| it.bytes() == path.bytes()))
    }

    // Keeps one file more, and its path; of a loop device the file that it stands for.
    fn note<R: Files + AllocGlobal>(
        &mut self,
        rt: &R,
        name: &str,
        found: &Metadata,
    ) -> io::Result<()>
        ensures { take (length self.old.ids.items) self.new.ids.items ≡ self.old.ids.items }
    {
        if let Some(id) = backing_of(rt, found)? {
            self.add(id)?;
            return Ok(());
        }
        let Some(id) = id_of(found) else {
            return Ok(());
        };
        if let Some(path) = path_of(rt, name)? {
            self.paths.push(path)?;
        }
        self.add(id)?;
        Ok(())
    }

    // Keeps which file it is.
    fn add(&mut self, id: FileId) -> Result<(), AllocError>
        ensures ok { OnOk result (self.new.ids.items ≡ self.old.ids.items ++ id ∷ []) }
        ensures kept { take (length self.old.ids.items) self.new.ids.items ≡ self.old.ids.items }
    {
        self.ids.push(id).map_err(AllocError::from)
    }
}

// Who may read, write and run a regular file; 0 of all that is none.
fn mode_of(found: &Metadata) -> u32 {
    if found.is_file() {
        found.mode() & 0o777
    } else {
        0
    }
}

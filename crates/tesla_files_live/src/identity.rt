//! Which file it is that a name leads to.

ghost use Rattle.std.specs.Prelude.{◌≡◌, ◌↔◌, IsSome};
ghost use Rattle.std.specs.Fs.{IsFile, file_type};

use std::fs::{self, Metadata};
use std::io;
use std::os::unix::fs::{FileTypeExt, MetadataExt};
use std::rt::Files;
use tesla_base::Text;

/// The name under which the system has standard output.
const STANDARD_OUTPUT: &str = "/dev/stdout";

/// A regular file, by its device and its number on that device.
#[derive(Clone, Copy, Debug, PartialEq, Eq)]
pub(crate) struct FileId {
    device: u64,
    number: u64,
}

/// Which regular file it is; `None` of all that is none.
pub(crate) fn id_of(metadata: &Metadata) -> Option<FileId>
    ensures { IsSome result ↔ IsFile (file_type metadata.now) }
{
    if !metadata.is_file() {
        return None;
    }
    Some(FileId {
        device: metadata.dev(),
        number: metadata.ino(),
    })
}

/// Which regular file standard output is; `None` where it is none, or the system doesn't say.
pub(crate) fn standard_output<R: Files>(rt: &R) -> Option<FileId> {
    match fs::metadata(rt, STANDARD_OUTPUT) {
        Ok(metadata) => id_of(&metadata),
        Err(_) => None,
    }
}

/// Which regular file a loop device stands for; `None` of all that is none, or where the system doesn't say.
pub(crate) fn backing_of<R: Files + AllocGlobal>(
    rt: &R,
    metadata: &Metadata,
) -> io::Result<Option<FileId>> {
    if !metadata.file_type().is_block_device() {
        return Ok(None);
    }
    let Some(path) = backing_path(rt, metadata.rdev())? else {
        return Ok(None);
    };
    match fs::metadata(rt, path.trim_end_matches('\n')) {
        Ok(metadata) => Ok(id_of(&metadata)),
        Err(_) => Ok(None),
    }
}

// What the system says of the file behind the device of this number.
fn backing_path<R: Files + AllocGlobal>(rt: &R, device: u64) -> io::Result<Option<String>> {
    let (major, minor) = numbers_of(device);
    let name = format!(in rt.alloc(); "/sys/dev/block/{major}:{minor}/loop/backing_file")?;
    known(fs::read_to_string(rt, name.as_str()))
}

// The two parts of a device's number, as Linux joins them.
fn numbers_of(device: u64) -> (u64, u64) {
    let major = (device >> 8) & 0xfff | (device >> 32) & 0xffff_f000;
    let minor = device & 0xff | (device >> 12) & 0xffff_ff00;
    (major, minor)
}

/// The path under which the system has the file of an open descriptor, by its number in digits.
pub(crate) fn path_of_descriptor<R: AllocGlobal>(rt: &R, number: &str) -> io::Result<String> {
    Ok(format!(in rt.alloc(); "/proc/self/fd/{number}")?)
}

/// The path of a name, without symbolic links; `None` where the system doesn't say.
pub(crate) fn path_of<R: Files + AllocGlobal>(rt: &R, name: &str) -> io::Result<Option<Text>> {
    match known(fs::canonicalize(rt, name))? {
        Some(path) => match Text::new(rt.alloc(), path.as_str().as_bytes()) {
            Ok(text) => Ok(Some(text)),
            Err(_) => Err(io::Error::from(io::ErrorKind::OutOfMemory)),
        },
        None => Ok(None),
    }
}

// What the system says, where it says it. Want of memory is an error.
fn known<T: Drop>(asked: io::Result<T>) -> io::Result<Option<T>> {
    match asked {
        Ok(it) => Ok(Some(it)),
        Err(error) if error.kind() == io::ErrorKind::OutOfMemory => Err(error),
        Err(_) => Ok(None),
    }
}

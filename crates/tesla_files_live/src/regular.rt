//! The front of a regular file, read beside a run.

ghost use Rattle.std.specs.Prelude.{◌≤◌, IfSome, length};

use std::fs;
use std::io::Read;
use std::rt::Files;

/// Reads the front of a regular file into this room, and gives how many bytes that are. It asks once, as the system gives all
/// that it is asked for of such a file. `None` of all that is none, as a pipe, which can be read only once and isn't opened; and
/// where the file can't be read.
pub fn read_front<R: Files>(rt: &R, name: &str, into: &mut [u8]) -> Option<usize>
    ensures { IfSome result (λ count. count ≤ length into.old) }
{
    match fs::metadata(rt, name) {
        Ok(found) if found.is_file() => {}
        _ => return None,
    }
    let Ok(mut file) = fs::open(rt, name) else {
        return None;
    };
    match file.read(into) {
        Ok(count) => Some(count),
        Err(_) => None,
    }
}

//! What calls before left on the stack.

use std::fs;
use std::io::Read;
use std::rt::Files;

/// How many bytes are overwritten: more than the calls take that read a file.
const DEPTH: usize = 32_768;

/// Overwrites what calls before this one left on the stack, as the text of a secret. The system writes zeros there, which no
/// compiler leaves out as it does with a store to what is read no more. Where it gives none, nothing is overwritten.
pub(crate) fn overwrite_stack<R: Files>(rt: &R) {
    let mut room = [0u8; DEPTH];
    if let Ok(mut zeros) = fs::open(rt, "/dev/zero") {
        let _ = zeros.read(&mut room);
    }
}

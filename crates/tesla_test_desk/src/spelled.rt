//! Bytes that a word spells.

use crate::frames::frame;
use std::alloc::Global;
use std::test::Fail;

// Adds the digits of a part of a word.
fn add_part(alloc: Global, all: &mut String, part: &str) -> Result<(), Fail> {
    if let Some(text) = part.strip_prefix('\'') {
        return Ok(all.push_str(hex::encode(alloc, text.as_bytes())?.as_str())?);
    }
    match part.split_once('*') {
        Some((digits, count)) => Ok(all.push_str(digits.repeat(alloc, count.parse()?)?.as_str())?),
        None => Ok(all.push_str(frame(part).unwrap_or(part))?),
    }
}

/// The hexadecimal digits of the bytes that a word spells. It has parts, with `+` between two: the name of a frame, digits,
/// `DIGITS*COUNT` for digits so many times, and `'TEXT` for the bytes of a text.
pub fn digits_of(alloc: Global, word: &str) -> Result<String, Fail> {
    let mut all = String::new(alloc);
    for part in word.split('+') {
        add_part(alloc, &mut all, part)?;
    }
    Ok(all)
}

/// The bytes that a word spells.
pub fn bytes_of(alloc: Global, word: &str) -> Result<Vec<u8>, Fail> {
    let digits = digits_of(alloc, word)?;
    Ok(hex::decode(alloc, digits.as_bytes())?)
}

//! What links bring and clocks read.

ghost use Rattle.std.specs.Prelude.{◌≡◌};
ghost use Rattle.std.specs.List.{list_all};
ghost use Rattle.tesla_desk.specs.Links.{fits};

use crate::spelled::bytes_of;
use std::alloc::Global;
use std::test::Fail;
use tesla_base::Text;
use tesla_desk::Letter;
use tesla_memory_desk::MemoryDesk;

// Whether a letter has at most 2,048 bytes.
fn does_fit(letter: &Letter) -> bool
    ensures { result ≡ fits letter.now }
{
    match letter {
        Letter::Datagram { bytes } => bytes.bytes().len() <= 2048,
        Letter::Quiet => true,
    }
}

// Whether all letters do.
fn all_fit(letters: &[Letter]) -> bool
    ensures { result ≡ list_all fits letters.now }
{
    letters.iter().all(|letter| does_fit(letter))
}

// Puts letters for a link.
fn put_letters(desk: &mut MemoryDesk, link: &str, letters: &[Letter]) -> Result<(), Fail> {
    if !all_fit(letters) {
        return Err("too long".into());
    }
    Ok(desk.put_letters(link, letters)?)
}

// The letter of a word.
fn letter_of(alloc: Global, word: &str) -> Result<Letter, Fail> {
    if word == "." {
        return Ok(Letter::Quiet);
    }
    let bytes = Text::new(alloc, bytes_of(alloc, word)?.as_slice())?;
    Ok(Letter::Datagram { bytes })
}

/// Puts what each of these links brings, with a space between two: `.` for a quiet, and else the word of a datagram.
pub fn put_links(
    alloc: Global,
    desk: &mut MemoryDesk,
    links: &str,
    words: &str,
) -> Result<(), Fail> {
    let mut letters = Vec::new(alloc);
    if !words.is_empty() {
        for word in words.split(' ') {
            letters.push(letter_of(alloc, word)?)?;
        }
    }
    for link in links.split(',') {
        put_letters(desk, link, letters.as_slice())?;
    }
    Ok(())
}

/// Puts what the clock with this number reads, with a space between two readings.
pub fn put_clock(
    alloc: Global,
    desk: &mut MemoryDesk,
    clock: u64,
    words: &str,
) -> Result<(), Fail> {
    let mut readings = Vec::new(alloc);
    for word in words.split(' ') {
        readings.push(word.parse()?)?;
    }
    Ok(desk.put_readings(clock, readings.as_slice())?)
}

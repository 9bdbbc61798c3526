//! Words, pages, and what is set of a desk.

use crate::spelled::bytes_of;
use std::alloc::Global;
use std::test::Fail;
use tesla_memory_desk::MemoryDesk;

/// The words of a line, which has a space between two.
pub fn words_of(alloc: Global, line: &str) -> Result<Vec<String>, Fail> {
    let mut words = Vec::new(alloc);
    for word in line.split(' ') {
        words.push(String::from_str(alloc, word)?)?;
    }
    Ok(words)
}

/// Adds the bytes that a word spells to a page.
pub fn add_to_page(
    alloc: Global,
    desk: &mut MemoryDesk,
    page: &str,
    word: &str,
) -> Result<(), Fail> {
    let mut whole = Vec::new(alloc);
    whole.extend_from_slice(desk.page(page).unwrap_or(b""))?;
    whole.extend_from_slice(bytes_of(alloc, word)?.as_slice())?;
    Ok(desk.put_page(page, whole.as_slice())?)
}

/// Lets each page that one of these words names move at most so many bytes a call, and one where this is 0.
pub fn set_pieces(desk: &mut MemoryDesk, words: &str, most: usize) -> Result<(), Fail> {
    for word in words.split(' ') {
        desk.set_piece(word, most.max(1))?;
    }
    Ok(())
}

// Sets one thing of a desk.
fn set_one(desk: &mut MemoryDesk, setting: &str) -> Result<(), Fail> {
    let (kind, rest) = setting.split_once(' ').ok_or("a number")?;
    let (number, name) = rest.split_once(' ').unwrap_or((rest, ""));
    let number: u64 = number.parse()?;
    match kind {
        "room" => desk.set_room(name, number as usize)?,
        "piece" => desk.set_piece(name, (number as usize).max(1))?,
        "fails" => desk.fail_call(name, number)?,
        "unopened" => desk.fail_open(number)?,
        _ => return Err("another setting".into()),
    }
    Ok(())
}

/// Sets a desk so, each behind a comma: `room NUMBER NAME` for how many bytes outputs and posts under that name take, `piece
/// NUMBER NAME` for how many bytes a call moves at most, `fails NUMBER NAME` for the call that fails, and `unopened NUMBER` for
/// the opening that fails, of which that of the console is 0.
pub fn set(desk: &mut MemoryDesk, settings: &str) -> Result<(), Fail> {
    for setting in settings.split(',') {
        if !setting.is_empty() {
            set_one(desk, setting)?;
        }
    }
    Ok(())
}

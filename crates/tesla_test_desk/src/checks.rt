//! What a desk holds behind a run.

use crate::spelled::digits_of;
use std::alloc::Global;
use std::test::Fail;
use tesla_desk::CONSOLE;
use tesla_memory_desk::MemoryDesk;

/// How many datagrams of a post are looked at, at most.
const MOST_SENT: usize = 100;

/// A status, a space and what the console holds.
pub fn run_result(alloc: Global, status: u8, desk: &MemoryDesk) -> Result<String, Fail> {
    let console = std::str::from_utf8(desk.page(CONSOLE).unwrap_or(b""))?;
    Ok(format!(in alloc; "{status} {console}")?)
}

/// What an output holds, as `page` with its digits, or else what a post sent, as `sent` with a full stop behind the digits of each
/// datagram.
pub fn held_by(alloc: Global, desk: &MemoryDesk, name: &str) -> Result<String, Fail> {
    if let Some(bytes) = desk.page(name) {
        let digits = hex::encode(alloc, bytes)?;
        return Ok(format!(in alloc; "page {digits}")?);
    }
    let mut sent = String::from_str(alloc, "sent ")?;
    for number in 0..MOST_SENT {
        let Some(datagram) = desk.posted(name, number) else {
            break;
        };
        sent.push_str(hex::encode(alloc, datagram)?.as_str())?;
        sent.push_str(".")?;
    }
    Ok(sent)
}

// The digits of the page that a word names, or else of the bytes that it spells.
fn page_or_digits(alloc: Global, desk: &MemoryDesk, word: &str) -> Result<String, Fail> {
    match desk.page(word) {
        Some(bytes) => Ok(hex::encode(alloc, bytes)?),
        None => digits_of(alloc, word),
    }
}

// What is held where a post sent the datagrams of these words.
fn sent_of(alloc: Global, desk: &MemoryDesk, words: &str) -> Result<String, Fail> {
    let mut sent = String::from_str(alloc, "sent ")?;
    for word in words.split(' ') {
        sent.push_str(page_or_digits(alloc, desk, word)?.as_str())?;
        sent.push_str(".")?;
    }
    Ok(sent)
}

// What is held where a page has so many first bytes of what a word says, or all where that has fewer.
fn prefix_of(alloc: Global, desk: &MemoryDesk, words: &str) -> Result<String, Fail> {
    let (most, word) = words.split_once(' ').ok_or("a number of bytes")?;
    let most: usize = most.parse()?;
    let digits = page_or_digits(alloc, desk, word)?;
    let digits = digits.as_str();
    let prefix = digits.get(..most.saturating_mul(2)).unwrap_or(digits);
    Ok(format!(in alloc; "page {prefix}")?)
}

/// What is held, as in `held_by`, where a line of this kind says these words: `holds` says which word a page holds, or the page of
/// which name; `front` has a number and so many first bytes of that; `sent` which datagrams a post sent; and `lacks` and `silent`
/// that there is no page, and that a post sent none.
pub fn wanted_of(
    alloc: Global,
    desk: &MemoryDesk,
    kind: &str,
    words: &str,
) -> Result<String, Fail> {
    match kind {
        "holds" => {
            let digits = page_or_digits(alloc, desk, words)?;
            Ok(format!(in alloc; "page {digits}")?)
        }
        "front" => prefix_of(alloc, desk, words),
        "sent" => sent_of(alloc, desk, words),
        "lacks" | "silent" => Ok(String::from_str(alloc, "sent ")?),
        _ => Err("another kind".into()),
    }
}

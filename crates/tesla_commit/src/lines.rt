//! What each line of a setup's text says.

ghost use Rattle.std.specs.Prelude.{◌≡◌, ◌≤◌, IfOk};
ghost use Rattle.tesla_commit.specs.Parsing.{title_in, stream_in, start_in, limited_in, chain_in};

use crate::chain_rows::judge_row;
use crate::line_words::{chain_words, hex_in, number_in, value_in, within};
use crate::{ChainRow, SetupKind};
use tesla_base::{Key, StreamId, Version};

/// Line 1.
pub fn title_in(line: &[u8]) -> Result<Version, SetupKind>
    ensures { result ≡ title_in line.now }
{
    if line == b"tesla 1".as_slice() {
        Ok(Version::One)
    } else if line == b"tesla 2".as_slice() {
        Ok(Version::Two)
    } else {
        Err(SetupKind::BadLine)
    }
}

/// Line 2.
pub fn stream_in(line: &[u8]) -> Result<StreamId, SetupKind>
    ensures { result ≡ stream_in line.now }
{
    let word = value_in(b"stream", line)?;
    let bytes: [u8; 8] = hex_in(word)?;
    Ok(StreamId(u64::from_be_bytes(bytes)))
}

/// Line 3.
pub fn start_in(line: &[u8]) -> Result<u64, SetupKind>
    ensures { result ≡ start_in line.now }
{
    number_in(value_in(b"start", line)?)
}

/// A line of a name and a number within limits.
pub fn limited_in(name: &[u8], least: u64, most: u64, line: &[u8]) -> Result<u64, SetupKind>
    ensures value { result ≡ limited_in name.now least most line.now }
    ensures limits { IfOk result (λ n. (least ≤ n) × (n ≤ most)) }
{
    let number = number_in(value_in(name, line)?)?;
    within(least, most, number)
}

/// The line of a chain that comes after one with the delay `before`, 0 where none comes before.
#[tactic(auto, unfolding(crate::specs::Parsing::chain_in))]
pub fn chain_in(last: u32, before: u16, line: &[u8]) -> Result<ChainRow, SetupKind>
    ensures { result ≡ chain_in last before line.now }
{
    let (delay, index, key) = chain_words(line)?;
    let delay = number_in(delay)?;
    let index = number_in(index)?;
    let delay = within(1, 4096, delay)?;
    let key = Key(hex_in(key)?);
    judge_row(last, before, delay as u16, index, key)
}

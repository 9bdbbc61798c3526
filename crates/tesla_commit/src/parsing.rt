//! Reading a setup's text.

ghost use Rattle.std.specs.Prelude.{◌≡◌, IfOk, Ok};
ghost use Rattle.tesla_commit.specs.Parts.{Parts};
ghost use Rattle.tesla_commit.specs.SetupText.{IsSetup};
ghost use Rattle.tesla_base.specs.Version.{IsTagLength};
ghost use Rattle.tesla_clock.specs.Schedule.{IsSchedule};
ghost use Rattle.tesla_commit.specs.JudgedLines.{Answers, SaysOfLines};
ghost use Rattle.tesla_commit.specs.ChainRows.{first_line};
ghost use Rattle.tesla_commit.specs.Parsing.{lines, chains_judged, opening_judged, times_judged, tag_judged, rest_judged, judged};

use crate::chain_rows::{end_line, first_line};
use crate::line_words::{at, next_line};
use crate::lines::{chain_in, limited_in, start_in, stream_in, title_in};
use crate::refusal::{LineRefusal, TAG_LINE};
use crate::setup::MOST_ROWS;
use crate::{ChainRow, Setup, SetupKind, SetupRefusal};
use arrayvec::ArrayVec;
use std::alloc::Global;
use tesla_base::{StreamId, Version};
use tesla_clock::Schedule;

/// The version and the stream of lines 1 and 2, and the text after them.
#[tactic(auto, unfolding(crate::specs::Parsing::opening_judged))]
fn opening(text: &[u8]) -> Result<(Version, StreamId, &[u8]), LineRefusal>
    ensures { SaysOfLines (λ x. (x.0, x.1, lines x.2.now)) result (opening_judged (lines text.now)) }
{
    let (line, rest) = next_line(1, text)?;
    let version = at(1, title_in(line))?;
    let (line, rest) = next_line(2, rest)?;
    let stream = at(2, stream_in(line))?;
    Ok((version, stream, rest))
}

/// The intervals of lines 3 to 5, and the text after them.
#[tactic(auto, unfolding(crate::specs::Parsing::times_judged))]
fn times(text: &[u8]) -> Result<(Schedule, &[u8]), LineRefusal>
    ensures { SaysOfLines (λ x. (x.0, lines x.1.now)) result (times_judged (lines text.now)) }
{
    let (line, rest) = next_line(3, text)?;
    let start = at(3, start_in(line))?;
    let (line, rest) = next_line(4, rest)?;
    let length = at(4, limited_in(b"interval", 1000, 3_600_000_000, line))?;
    let (line, rest) = next_line(5, rest)?;
    let last = at(5, limited_in(b"last", 1, 1_048_576, line))?;
    Ok((schedule(start, length as u32, last as u32), rest))
}

/// The schedule of parts within the limits.
fn schedule(start: u64, length: u32, last: u32) -> Schedule
    requires { IsSchedule (record { start = start; length = length; last = last }) }
    ensures { result ≡ record { start = start; length = length; last = last } }
{
    match Schedule::new(start, length, last) {
        Some(schedule) => schedule,
        None => unreachable!(),
    }
}

/// The length of tags, and the text after its line. Version 1 has no such line.
#[tactic(auto, unfolding(crate::specs::Parsing::tag_judged))]
fn tag_length(version: Version, text: &[u8]) -> Result<(u8, &[u8]), LineRefusal>
    ensures judged { SaysOfLines (λ x. (x.0, lines x.1.now)) result (tag_judged version (lines text.now)) }
    ensures limits { IfOk result (λ x. IsTagLength version x.0) }
{
    match version {
        Version::One => Ok((version.longest_tag(), text)),
        Version::Two => {
            let least = u64::from(version.shortest_tag());
            let most = u64::from(version.longest_tag());
            let (line, rest) = next_line(TAG_LINE, text)?;
            let size = at(TAG_LINE, limited_in(b"tag", least, most, line))?;
            Ok((size as u8, rest))
        }
    }
}

/// The chains, which end the text.
fn chains(
    version: Version,
    last: u32,
    text: &[u8],
) -> Result<ArrayVec<ChainRow, MOST_ROWS>, LineRefusal>
    ensures { SaysOfLines (λ rows. rows.items) result (chains_judged version last (first_line version) 0 (lines text.now)) }
{
    let first = first_line(version);
    let end = end_line(version);
    let mut rows = ArrayVec::new();
    let mut number = first;
    let mut before = 0;
    let mut rest = text;
    while number < end && !rest.is_empty() {
        let (line, after) = next_line(number, rest)?;
        let row = at(number, chain_in(last, before, line))?;
        rows.push(row);
        before = row.delay;
        rest = after;
        number += 1;
    }
    if !rest.is_empty() {
        return Err(LineRefusal {
            line: number,
            kind: SetupKind::TooManyChains,
        });
    }
    if number == first {
        return Err(LineRefusal {
            line: number,
            kind: SetupKind::NoChain,
        });
    }
    Ok(rows)
}

/// What the lines after those of the intervals are judged to say.
#[tactic(auto, unfolding(crate::specs::Parsing::rest_judged))]
fn rest(
    version: Version,
    stream: StreamId,
    schedule: Schedule,
    text: &[u8],
) -> Result<Setup, LineRefusal>
    ensures { SaysOfLines (λ setup. setup) result (rest_judged version stream schedule (lines text.now)) }
{
    let (size, text) = tag_length(version, text)?;
    let rows = chains(version, schedule.last(), text)?;
    Ok(Setup::assemble(version, stream, schedule, size, rows))
}

/// What a whole text is judged to say.
#[tactic(auto, unfolding(crate::specs::Parsing::judged))]
fn all(text: &[u8]) -> Result<Setup, SetupRefusal>
    ensures { Answers (λ setup. setup) result (judged text.now) }
{
    if text.len() > 4096 {
        return Err(SetupRefusal::At {
            line: 0,
            kind: SetupKind::TooLong,
        });
    }
    let (version, stream, text) = match opening(text) {
        Ok((version, stream, text)) => (version, stream, text),
        Err(refusal) => return Err(refusal.into()),
    };
    let (schedule, text) = match times(text) {
        Ok((schedule, text)) => (schedule, text),
        Err(refusal) => return Err(refusal.into()),
    };
    Ok(rest(version, stream, schedule, text)?)
}

/// The setup that a text spells (RFC 4082, section 3.3, says what it has to tell receivers). Each setup has
/// one spelling, of at most 4,096 bytes. An LF ends each line, and one space stands between words.
///
/// | version 1 | version 2 | form | limits |
/// |---|---|---|---|
/// | line 1 | line 1 | `tesla 1`, `tesla 2` | |
/// | line 2 | line 2 | `stream` and 16 digits | |
/// | line 3 | line 3 | `start` and a decimal | 64 bits |
/// | line 4 | line 4 | `interval` and a decimal | 1,000 to 3,600,000,000 |
/// | line 5 | line 5 | `last` and a decimal | 1 to 1,048,576 |
/// | | line 6 | `tag` and a decimal | 10 to 32 |
/// | lines 6 to 9 | lines 7 to 14 | `chain`, delay, index and 64 digits | delay 1 to 4,096, index 0 to `last` |
///
/// Digits are hexadecimal and in lower case, decimals have no leading zero, and delays rise strictly. A text
/// whose line 1 isn't `tesla 2` is judged as one of version 1.
///
/// Else the first refused line is told, counted from 1, with what is wrong with it. `TooLong` at line 0 comes
/// first. Within a line the kinds come in this order:
///
/// | kind | exactly where |
/// |---|---|
/// | `NoChain` | line 6, in version 2 line 7, and no byte stands there or behind |
/// | `TooManyChains` | line 10, in version 2 line 15, and a byte stands there |
/// | `BadLine` | the line isn't there where it stands before the chains, or no LF ends it, or its words are others |
/// | `BadNumber` | a decimal is none of 64 bits |
/// | `LimitPassed` | the interval, `last`, the length of tags or a delay is outside its limits |
/// | `BadHex` | a word isn't so many digits |
/// | `DelaysNotRising` | the delay isn't above that of the line before |
/// | `IndexPastLast` | the index is above `last` |
///
/// It takes no memory, and `NoMemory` is never its answer.
pub fn read_setup(_alloc: Global, text: &[u8]) -> Result<Setup, SetupRefusal>
    // Which setup, or which line and kind.
    ensures exact { Answers (λ setup. setup) result (judged text.now) }
    // What is read is spelled so.
    ensures found { IfOk result (λ setup. IsSetup text.now setup) }
    // What is spelled so is read.
    ensures only { (setup : Parts) → IsSetup text.now setup → result ≡ Ok setup }
{
    all(text)
}

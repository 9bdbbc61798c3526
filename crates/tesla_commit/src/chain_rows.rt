//! Judging the rows of a setup.

ghost use Rattle.std.specs.Prelude.{◌≡◌, ◌<◌, ◌≤◌, length, IfOk};
ghost use Rattle.std.specs.List.{AllByRecursion};
ghost use Rattle.tesla_commit.specs.SetupText.{HasKey};
ghost use Rattle.tesla_base.specs.Version.{shortest_tag, longest_tag, IsTagLength};
ghost use Rattle.tesla_commit.specs.JudgedLines.{SaysOfLines, at, within};
ghost use Rattle.tesla_commit.specs.ChainRows.{row_judged, rows_judged, first_line, end_line};

use crate::line_words::{at, within};
use crate::refusal::{LineRefusal, TAG_LINE};
use crate::{ChainRow, SetupKind};
use tesla_base::{Key, Version};

/// The line of the first chain.
pub fn first_line(version: Version) -> u32
    ensures { result ≡ first_line version }
{
    match version {
        Version::One => 6,
        Version::Two => 7,
    }
}

/// The line past that of the last chain that there may be.
pub fn end_line(version: Version) -> u32
    ensures { result ≡ end_line version }
{
    first_line(version) + u32::from(version.most_chains())
}

/// A length of tags of that version.
pub fn judge_tag(version: Version, tag: u8) -> Result<u64, LineRefusal>
    ensures judged { SaysOfLines (λ size. size) result (at 6 (within (shortest_tag version) (longest_tag version) tag)) }
    ensures limits { IfOk result (λ _. IsTagLength version tag) }
{
    let least = u64::from(version.shortest_tag());
    let most = u64::from(version.longest_tag());
    at(TAG_LINE, within(least, most, u64::from(tag)))
}

/// The row of these values, after a row with the delay `before`, 0 where none comes before.
pub fn judge_row(
    last: u32,
    before: u16,
    delay: u16,
    index: u64,
    key: Key,
) -> Result<ChainRow, SetupKind>
    ensures judged { result ≡ row_judged last before (record { delay = delay; index = index; key = key }) }
    ensures key { IfOk result (λ row. HasKey row) }
{
    if delay < 1 || delay > 4096 {
        return Err(SetupKind::LimitPassed);
    }
    if delay <= before {
        return Err(SetupKind::DelaysNotRising);
    }
    if index > u64::from(last) {
        return Err(SetupKind::IndexPastLast);
    }
    Ok(ChainRow {
        delay,
        index: index as u32,
        key,
    })
}

/// What is wrong with rows that are all rows of a setup.
pub fn judge_rows(version: Version, last: u32, rows: &[ChainRow]) -> Result<(), LineRefusal>
    ensures judged { SaysOfLines (λ _. rows.now) result (rows_judged version last (first_line version) 0 rows.now) }
    ensures keys { IfOk result (λ _. AllByRecursion HasKey rows.now) }
    ensures few { IfOk result (λ _. length rows.now ≤ 8) }
{
    let first = first_line(version);
    let end = end_line(version);
    let mut line = first;
    let mut before = 0;
    for row in rows {
        if line == end {
            return Err(LineRefusal {
                line,
                kind: SetupKind::TooManyChains,
            });
        }
        if let Err(kind) = judge_row(last, before, row.delay, u64::from(row.index), row.key) {
            return Err(LineRefusal { line, kind });
        }
        before = row.delay;
        line += 1;
    }
    if line == first {
        return Err(LineRefusal {
            line,
            kind: SetupKind::NoChain,
        });
    }
    Ok(())
}

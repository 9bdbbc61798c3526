//! Rows of plain text: what is set of a desk, a run, and what it has to come to.

use crate::checks::{held_by, run_result, wanted_of};
use crate::links::{put_clock, put_links};
use crate::settings::{add_to_page, set};
use std::alloc::Global;
use std::test::Fail;
use tesla_memory_desk::MemoryDesk;

/// A row: a line `NAME $ WORDS`, and a line behind it for each thing that is set, and for each that has to be so then.
///
/// Before the run, `page NAME WORD` adds bytes to a page, `link NAMES LETTERS` puts what links bring, `clock NUMBER READINGS`
/// what a clock reads, and `set SETTINGS` sets the rest. Behind it, `told` has the status, a space and the console, where `\n`
/// ends a line and a last `|` says nothing; and the other lines say what names hold. A line that begins with `# ` says nothing.
/// Where no line tells of `out`, it holds what `before` does.
#[derive(Clone, Copy)]
pub struct Row<'a> {
    pub name: &'a str,
    pub words: &'a str,
    lines: &'a str,
}

// The first word of a line, and what stands behind it.
fn kind_of(line: &str) -> (&str, &str) {
    line.split_once(' ').unwrap_or((line, ""))
}

// Sets what a line says.
fn set_line(alloc: Global, desk: &mut MemoryDesk, line: &str) -> Result<(), Fail> {
    let (kind, rest) = kind_of(line);
    let (names, words) = kind_of(rest);
    match kind {
        "link" => put_links(alloc, desk, names, words),
        "clock" => put_clock(alloc, desk, names.parse()?, words),
        "page" => add_to_page(alloc, desk, names, words),
        "set" => set(desk, rest),
        _ => Ok(()),
    }
}

// Whether each of these names, which have a comma between two, holds this.
fn all_hold(alloc: Global, desk: &MemoryDesk, names: &str, wanted: &str) -> Result<bool, Fail> {
    for name in names.split(',') {
        if held_by(alloc, desk, name)?.as_str() != wanted {
            return Ok(false);
        }
    }
    Ok(true)
}

// Whether what a line says is so, where this was told.
fn is_so(alloc: Global, desk: &MemoryDesk, reported: &str, line: &str) -> Result<bool, Fail> {
    let (kind, rest) = kind_of(line);
    let (names, words) = kind_of(rest);
    match kind {
        "" | "#" | "page" | "link" | "clock" | "set" => Ok(true),
        "told" => {
            let text = rest.strip_suffix('|').unwrap_or(rest);
            Ok(text.replace(alloc, "\\n", "\n")?.as_str() == reported)
        }
        _ => {
            let wanted = wanted_of(alloc, desk, kind, words)?;
            all_hold(alloc, desk, names, wanted.as_str())
        }
    }
}

impl<'a> Row<'a> {
    /// The row of a text.
    pub fn of(text: &'a str) -> Result<Row<'a>, Fail> {
        let (head, lines) = text.split_once('\n').ok_or("a row of one line")?;
        let (name, words) = head.split_once(" $ ").ok_or("a row without words")?;
        Ok(Row { name, words, lines })
    }

    /// Sets a desk as the row says.
    pub fn set_up(&self, alloc: Global, desk: &mut MemoryDesk) -> Result<(), Fail> {
        for line in self.lines.split('\n') {
            set_line(alloc, desk, line)?;
        }
        Ok(())
    }

    // Whether `out` is as before, or a line says what it holds.
    fn is_out_expected(&self, desk: &MemoryDesk) -> bool {
        self.lines.contains("holds out")
            || self.lines.contains("front out")
            || desk.page("out") == desk.page("before")
    }

    /// What isn't as the row says behind a run with this status: the lines that aren't so, and what is told. Empty where all is.
    pub fn wrong(&self, alloc: Global, status: u8, desk: &MemoryDesk) -> Result<String, Fail> {
        let reported = run_result(alloc, status, desk)?;
        let name = self.name;
        let mut wrong = String::new(alloc);
        for line in self.lines.split('\n') {
            if !is_so(alloc, desk, reported.as_str(), line)? {
                wrong.push_str(format!(in alloc; "{name}: {line}, and {reported}\n")?.as_str())?;
            }
        }
        if !self.lines.contains("told ") || !self.is_out_expected(desk) {
            wrong.push_str(name)?;
        }
        Ok(wrong)
    }
}

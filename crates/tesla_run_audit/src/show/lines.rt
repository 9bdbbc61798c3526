//! The lines of entries.

ghost use Rattle.std.specs.Prelude.{◌≡◌, ◌+◌, ◌<◌, ◌≤◌, ◌++◌};
ghost use Rattle.arrayvec.specs.ArrayString.{array_string_len};
ghost use Rattle.tesla_frame.specs.Reading.{frame_of};
ghost use Rattle.tesla_trace.specs.Entries.{IsEntry, entry_in};
ghost use Rattle.tesla_run_audit.specs.show.Lines.{entry_line, entry_words, frame_words, name_words};

use itoa::Buffer;
use tesla_audit::{add_number, add_reply, add_verdict};
use tesla_base::Name;
use tesla_frame::{FrameView, read_frame};
use tesla_front::Lines;
use tesla_trace::{EntryBuffer, EntryKind};

// Adds the interval and the number of a message. These are at most 41 bytes.
fn add_name(line: &mut Lines, name: Name)
    requires room { array_string_len line.old + 41 ≤ 2048 }
    ensures text { line.new.bytes ≡ line.old.bytes ++ name_words name }
    ensures few { array_string_len line.new ≤ array_string_len line.old + 41 }
{
    let mut digits = Buffer::new();
    line.push_str(digits.format(u64::from(name.interval)));
    line.push_str("/");
    line.push_str(digits.format(u64::from(name.number)));
}

// Adds the name of the message that the data frame carries which a datagram is, or that it is none.
fn add_frame(line: &mut Lines, bytes: &[u8])
    requires room { array_string_len line.old + 41 ≤ 2048 }
    ensures text { line.new.bytes ≡ line.old.bytes ++ frame_words (frame_of bytes.now) }
    ensures few { array_string_len line.new ≤ array_string_len line.old + 41 }
{
    match read_frame(bytes) {
        Some(FrameView::Data(view)) => add_name(line, view.name()),
        _ => line.push_str("-"),
    }
}

// Adds what is told of an entry.
fn add_entry(line: &mut Lines, entry: &EntryBuffer)
    requires entry { IsEntry entry.now }
    requires room { array_string_len line.old + 170 ≤ 2048 }
    ensures text { line.new.bytes ≡ line.old.bytes ++ entry_words (entry_in entry.now) }
    ensures few { array_string_len line.new ≤ array_string_len line.old + 170 }
{
    let who = u64::from(entry.who);
    match entry.kind {
        EntryKind::Arrival => {
            add_number(line, "arrival ", who);
            add_number(line, " ", entry.reading);
            line.push_str(" ");
            add_verdict(line, entry.verdict);
            line.push_str(" ");
            add_frame(line, &entry.bytes[..usize::from(entry.length)]);
        }
        EntryKind::Take => {
            add_number(line, "take ", who);
            line.push_str(" ");
            add_reply(line, entry.reply);
        }
        EntryKind::End => add_number(line, "end ", who),
    }
}

/// The line of the entry of this number, which has fewer than 250 bytes. It takes no memory.
#[tactic(auto, unfolding(crate::specs::show::Lines::entry_line))]
pub fn line_of(number: u128, entry: &EntryBuffer) -> Lines
    requires { IsEntry entry.now }
    ensures text { result.bytes ≡ entry_line number (entry_in entry.now) }
    ensures few { array_string_len result < 250 }
{
    let mut line = Lines::new();
    let mut digits = Buffer::new();
    line.push_str(digits.format(number));
    line.push_str(" ");
    add_entry(&mut line, entry);
    line.push_str("\n");
    line
}

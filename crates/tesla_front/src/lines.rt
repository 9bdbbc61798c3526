//! The lines of the console.

ghost use Rattle.std.specs.Prelude.{◌≡◌, ◌+◌, ◌≤◌, ◌++◌, length, true};
ghost use Rattle.arrayvec.specs.ArrayString.{array_string_len};
ghost use Rattle.tesla_front.specs.Fault.{is_own_status};
ghost use Rattle.tesla_front.specs.Lines.{count_line};
ghost use Rattle.tesla_front.specs.Refusal.{IsRefusal, refused_line};

use crate::Refusal;
use arrayvec::ArrayString;
use itoa::Buffer;

/// The lines that tell what a command came to, of at most 2,048 bytes. They take no memory.
pub type Lines = ArrayString<2048>;

/// Adds the line of a count: the name, which has at most 11 bytes, a space, the number as a decimal and an LF.
/// These are at most 33 bytes, for which there must be room.
pub fn add_count(lines: &mut Lines, name: &str, number: u64)
    requires short { length name.now ≤ 11 }
    requires room { array_string_len lines.old + 33 ≤ 2048 }
    ensures text { lines.new.bytes ≡ lines.old.bytes ++ count_line name.now number }
    ensures few { array_string_len lines.new ≤ array_string_len lines.old + 33 }
{
    let mut digits = Buffer::new();
    lines.push_str(name);
    lines.push_str(" ");
    lines.push_str(digits.format(number));
    lines.push_str("\n");
}

/// The refusal of a file, whose name has at most 9 bytes, at a line or at an offset, with the name of a kind, which has
/// at most 20: the status, which is none of a fault, and the line that tells it, with its LF.
pub fn refused(status: u8, file: &str, place: u64, kind: &str) -> Refusal
    requires status { is_own_status status ≡ true }
    requires file { length file.now ≤ 9 }
    requires kind { length kind.now ≤ 20 }
    ensures { IsRefusal status (refused_line file.now place kind.now) result }
{
    let mut line = Lines::new();
    let mut digits = Buffer::new();
    line.push_str("refused ");
    line.push_str(file);
    line.push_str(" ");
    line.push_str(digits.format(place));
    line.push_str(" ");
    line.push_str(kind);
    line.push_str("\n");
    Refusal { status, line }
}

//! The numbers of a line.

ghost use Rattle.std.specs.Prelude.{◌≡◌, ◌+◌, ◌≤◌, ◌++◌, length};
ghost use Rattle.arrayvec.specs.ArrayString.{array_string_len};
ghost use Rattle.tesla_status.specs.Lines.{number_text};

use itoa::Buffer;
use tesla_front::Lines;

/// Adds a word of at most 13 bytes, and a number as a decimal. These are at most 52 bytes, for which there must be room. It
/// takes no memory.
#[tactic(auto, unfolding(crate::specs::Lines::number_text))]
pub fn add_number(line: &mut Lines, word: &str, number: u128)
    requires short { length word.now ≤ 13 }
    requires room { array_string_len line.old + 52 ≤ 2048 }
    ensures text { line.new.bytes ≡ line.old.bytes ++ number_text word.now number }
    ensures few { array_string_len line.new ≤ array_string_len line.old + 52 }
{
    let mut digits = Buffer::new();
    line.push_str(word);
    line.push_str(digits.format(number));
}

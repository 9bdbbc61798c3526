//! The lines of the command.

ghost use Rattle.std.specs.Prelude.{◌≡◌, codes};
ghost use Rattle.tesla_front.specs.Lines.{count_line};
ghost use Rattle.tesla_front.specs.Refusal.{IsRefusal};
ghost use Rattle.tesla_run_audit.specs.Audit.{refuted_text};
ghost use Rattle.tesla_audit.specs.Checks.{answer_text};

use itoa::Buffer;
use tesla_audit::{Answer, add_answer};
use tesla_front::{Lines, Refusal, add_count};

/// The line that tells how many entries are right.
pub fn legal(entries: u64) -> Lines
    ensures { result.bytes ≡ count_line (codes "legal") entries }
{
    let mut line = Lines::new();
    add_count(&mut line, "legal", entries);
    line
}

/// The refusal of an entry, by its number, with the right answer: status 8.
pub fn refuted(number: u64, answer: &Answer) -> Refusal
    ensures { IsRefusal 8 (refuted_text number (answer_text answer.now)) result }
{
    let mut line = Lines::new();
    let mut digits = Buffer::new();
    line.push_str("refuted ");
    line.push_str(digits.format(number));
    line.push_str(" ");
    add_answer(&mut line, answer);
    line.push_str("\n");
    Refusal { status: 8, line }
}

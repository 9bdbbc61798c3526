//! What answers are called.

ghost use Rattle.std.specs.Prelude.{◌≡◌, ◌+◌, ◌≤◌, ◌++◌, List, ℕ, length, decimal};
ghost use Rattle.arrayvec.specs.ArrayString.{array_string_len};
ghost use Rattle.tesla_state.specs.Replies.{reply_shown};
ghost use Rattle.tesla_audit.specs.Answers.{answer_line, given_words, reply_words, verdict_words};
ghost use Rattle.tesla_audit.specs.Checks.{answer_text};

use crate::auditor::Answer;
use itoa::Buffer;
use tesla_base::Head;
use tesla_fitting::Verdict;
use tesla_front::Lines;
use tesla_state::Take;

/// Adds a name of at most 8 bytes, and a number. These are at most 28 bytes, for which there must be room.
pub fn add_number(lines: &mut Lines, name: &str, number: u64)
    requires short { length name.now ≤ 8 }
    requires room { array_string_len lines.old + 28 ≤ 2048 }
    ensures text { lines.new.bytes ≡ lines.old.bytes ++ (name.now ++ decimal number) }
    ensures few { array_string_len lines.new ≤ array_string_len lines.old + 28 }
{
    let mut digits = Buffer::new();
    lines.push_str(name);
    lines.push_str(digits.format(number));
}

/// Adds a verdict by its name, and what it tells: a stream as a decimal, a bound or `none`, a chain, a set of chains. These
/// are at most 28 bytes, for which there must be room.
pub fn add_verdict(lines: &mut Lines, verdict: Verdict)
    requires room { array_string_len lines.old + 28 ≤ 2048 }
    ensures text { lines.new.bytes ≡ lines.old.bytes ++ verdict_words verdict }
    ensures few { array_string_len lines.new ≤ array_string_len lines.old + 28 }
{
    match verdict {
        Verdict::Malformed => lines.push_str("Malformed"),
        Verdict::Foreign { stream } => add_number(lines, "Foreign ", stream.0),
        Verdict::Misfit => lines.push_str("Misfit"),
        Verdict::Future { bound: None } => lines.push_str("Future none"),
        Verdict::Future { bound: Some(bound) } => add_number(lines, "Future ", bound),
        Verdict::BadKey { chain } => add_number(lines, "BadKey ", u64::from(chain.0)),
        Verdict::Late => lines.push_str("Late"),
        Verdict::Repeat => lines.push_str("Repeat"),
        Verdict::Full => lines.push_str("Full"),
        Verdict::Kept { chains } => add_number(lines, "Kept ", u64::from(chains)),
        Verdict::Keys => lines.push_str("Keys"),
    }
}

/// Adds a packet that was given. These are at most 53 bytes.
fn add_head(lines: &mut Lines, head: &Head)
    requires room { array_string_len lines.old + 140 ≤ 2048 }
    ensures text { lines.new.bytes ≡ lines.old.bytes ++ given_words head.now }
    ensures few { array_string_len lines.new ≤ array_string_len lines.old + 140 }
{
    add_number(lines, "Given ", head.position);
    add_number(lines, " ", u64::from(head.interval));
    add_number(lines, " ", u64::from(head.number));
    add_number(lines, " ", u64::from(head.chain));
    add_number(lines, " ", u64::from(head.length));
}

/// Adds an answer to a take by its name, and of a packet that was given its position, interval, number, chain and length,
/// whatever its payload is. For these there must be room of 140 bytes.
pub fn add_reply(lines: &mut Lines, reply: Take)
    requires room { array_string_len lines.old + 140 ≤ 2048 }
    ensures text { (payload : List ℕ) → lines.new.bytes ≡ lines.old.bytes ++ reply_words (reply_shown reply payload) }
    ensures few { array_string_len lines.new ≤ array_string_len lines.old + 140 }
{
    match reply {
        Take::Given(head) => add_head(lines, &head),
        Take::Empty => lines.push_str("Empty"),
        Take::Over => lines.push_str("Over"),
    }
}

/// Adds an answer. For it there must be room of 140 bytes.
pub fn add_answer(lines: &mut Lines, answer: &Answer)
    requires room { array_string_len lines.old + 140 ≤ 2048 }
    ensures text { lines.new.bytes ≡ lines.old.bytes ++ answer_text answer.now }
    ensures few { array_string_len lines.new ≤ array_string_len lines.old + 140 }
{
    match answer {
        Answer::Verdict(verdict) => add_verdict(lines, *verdict),
        Answer::Take(reply) => add_reply(lines, *reply),
    }
}

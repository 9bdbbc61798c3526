//! The lines of the counts.

ghost use Rattle.std.specs.Prelude.{◌≡◌, ◌+◌, ◌≤◌, ◌++◌, length};
ghost use Rattle.arrayvec.specs.ArrayString.{array_string_len};
ghost use Rattle.tesla_front.specs.Parts.{texts_of};
ghost use Rattle.tesla_status.specs.Lines.{number_text};
ghost use Rattle.tesla_run_receive.specs.watch.Lines.{AreShort, arrivals_at, chains_text, counts_text, first_word, line_at, line_text, others_text, report_at};

use tesla_front::Lines;
use tesla_recorder::watched::{COUNTS, REPORT_COUNTS};
use tesla_status::add_number;

// How many arrivals have the verdicts with these counts.
fn arrivals_of(counts: &[u64]) -> u128
    requires { 10 ≤ length counts.now }
    ensures { result ≡ arrivals_at counts.now }
{
    u128::from(counts[0])
        + u128::from(counts[1])
        + u128::from(counts[2])
        + u128::from(counts[3])
        + u128::from(counts[4])
        + u128::from(counts[5])
        + u128::from(counts[6])
        + u128::from(counts[7])
        + u128::from(counts[8])
        + u128::from(counts[9])
}

// Adds the counts of a report, each with its name. These are at most 572 bytes.
fn add_counts(line: &mut Lines, counts: &[u64])
    requires all { 11 ≤ length counts.now }
    requires room { array_string_len line.old + 572 ≤ 2048 }
    ensures text { line.new.bytes ≡ line.old.bytes ++ counts_text (report_at counts.now) }
    ensures few { array_string_len line.new ≤ array_string_len line.old + 572 }
{
    add_number(line, " malformed=", u128::from(counts[0]));
    add_number(line, " foreign=", u128::from(counts[1]));
    add_number(line, " misfit=", u128::from(counts[2]));
    add_number(line, " future=", u128::from(counts[3]));
    add_number(line, " badkey=", u128::from(counts[4]));
    add_number(line, " late=", u128::from(counts[5]));
    add_number(line, " repeat=", u128::from(counts[6]));
    add_number(line, " full=", u128::from(counts[7]));
    add_number(line, " kept=", u128::from(counts[8]));
    add_number(line, " keys=", u128::from(counts[9]));
    add_number(line, " given=", u128::from(counts[10]));
}

// Adds the counts by chain, each with the number of its chain. These are at most 832 bytes.
fn add_chains(line: &mut Lines, counts: &[u64])
    requires few { length counts.now ≤ 8 }
    requires room { array_string_len line.old + 832 ≤ 2048 }
    ensures text { line.new.bytes ≡ line.old.bytes ++ chains_text 0 counts.now }
    ensures few { array_string_len line.new ≤ array_string_len line.old + 832 }
{
    for chain in 0..counts.len() {
        add_number(line, " chain", chain as u128);
        add_number(line, "=", u128::from(counts[chain]));
    }
}

// Adds the further counts, each behind its name. These are at most 325 bytes.
fn add_others(line: &mut Lines, names: &[&str], counts: &[u64])
    requires short { AreShort names.now }
    requires same { length counts.now ≡ length names.now }
    requires room { array_string_len line.old + 325 ≤ 2048 }
    ensures text { line.new.bytes ≡ line.old.bytes ++ others_text (texts_of names.now) counts.now }
    ensures few { array_string_len line.new ≤ array_string_len line.old + 325 }
{
    for place in 0..names.len() {
        line.push_str(" ");
        line.push_str(names[place]);
        add_number(line, "=", u128::from(counts[place]));
    }
}

// Adds the word before a reading, and the reading. These are at most 52 bytes.
fn add_reading(line: &mut Lines, is_last: bool, time: u64)
    requires room { array_string_len line.old + 52 ≤ 2048 }
    ensures text { line.new.bytes ≡ line.old.bytes ++ number_text (first_word is_last) time }
    ensures few { array_string_len line.new ≤ array_string_len line.old + 52 }
{
    if is_last {
        add_number(line, "end=", u128::from(time));
    } else {
        add_number(line, "time=", u128::from(time));
    }
}

/// What a line tells beside the counts.
#[derive(Drop)]
pub(crate) struct LineFacts {
    /// Whether it is the last one.
    pub(crate) is_last: bool,
    /// The reading of a clock.
    pub(crate) time: u64,
    /// How often a clock gave another reading than the system's.
    pub(crate) held_readings: u64,
    /// How many sinks failed.
    pub(crate) failed_sinks: u64,
}

/// The line of the counts, for so many chains and the further numbers of these names, with its LF. It takes no memory.
#[tactic(auto, unfolding(crate::specs::watch::Lines::line_text))]
pub(crate) fn line_of(facts: &LineFacts, counts: &[u64], chains: u8, names: &[&str]) -> Lines
    requires few { chains ≤ 8 }
    requires short { AreShort names.now }
    requires size { length counts.now ≡ 19 + length names.now }
    ensures { result.bytes ≡ line_text (texts_of names.now) (line_at facts.now chains counts.now) }
{
    let mut line = Lines::new();
    add_reading(&mut line, facts.is_last, facts.time);
    add_number(&mut line, " arrivals=", arrivals_of(counts));
    add_counts(&mut line, counts);
    add_chains(
        &mut line,
        &counts[REPORT_COUNTS..REPORT_COUNTS + usize::from(chains)],
    );
    add_number(&mut line, " held=", u128::from(facts.held_readings));
    add_number(&mut line, " failedsinks=", u128::from(facts.failed_sinks));
    add_others(&mut line, names, &counts[COUNTS..]);
    line.push_str("\n");
    line
}

//! The lines that tell a setup.

ghost use Rattle.std.specs.Prelude.{◌≡◌, ◌+◌, ◌-◌, ◌*◌, ◌<◌, ◌≤◌, ◌++◌, codes, drop, length, IfErr, IfOk};
ghost use Rattle.std.specs.Int.{w64, to_be_bytes};
ghost use Rattle.arrayvec.specs.ArrayString.{array_string_len};
ghost use Rattle.hex.specs.Hex.{encode_lower};
ghost use Rattle.sha2.specs.Sha256.{sha256};
ghost use Rattle.tesla_commit.specs.SetupText.{setup_text};
ghost use Rattle.tesla_front.specs.Lines.{count_line};
ghost use Rattle.tesla_run_info.specs.info.Calendar.{date_text, moment_text, time_text, two};
ghost use Rattle.tesla_run_info.specs.info.Left.{end_of};
ghost use Rattle.tesla_run_info.specs.info.Lines.{IsInfo, chain_line, chain_lines, head_text, left_lines, places, word_line};
ghost use Rattle.tesla_run_info.specs.info.Telling.{TellsAt};

use crate::info::calendar::{Moment, moment_of};
use crate::info::left::{SECOND, end_of, left_at, seconds_left_at};
use itoa::Buffer;
use sha2::{Digest, Sha256};
use std::alloc::Global;
use tesla_base::NoMemory;
use tesla_clock::Schedule;
use tesla_commit::{ChainRow, Setup, write_setup};
use tesla_desk::{Clock, Desk};
use tesla_front::{Lines, add_count};

// Adds a line of a name of at most 11 bytes and a value of at most 64.
fn add_word(lines: &mut Lines, name: &str, value: &str)
    requires short { length name.now ≤ 11 }
    requires value { length value.now ≤ 64 }
    requires room { array_string_len lines.old + 77 ≤ 2048 }
    ensures text { lines.new.bytes ≡ lines.old.bytes ++ word_line name.now value.now }
    ensures few { array_string_len lines.new ≤ array_string_len lines.old + 77 }
{
    lines.push_str(name);
    lines.push_str(" ");
    lines.push_str(value);
    lines.push_str("\n");
}

// Adds a number below 100 in two digits.
fn add_two(lines: &mut Lines, number: u8)
    requires room { array_string_len lines.old + 4 ≤ 2048 }
    ensures text { lines.new.bytes ≡ lines.old.bytes ++ two number }
    ensures few { array_string_len lines.new ≤ array_string_len lines.old + 4 }
{
    let mut digits = Buffer::new();
    if number < 10 {
        lines.push_str("0");
        lines.push_str(digits.format(number));
        return;
    }
    lines.push_str(digits.format(number));
}

// Adds the date of a moment.
#[tactic(auto, unfolding(crate::specs::info::Calendar::date_text))]
fn add_date(lines: &mut Lines, moment: &Moment)
    requires room { array_string_len lines.old + 20 ≤ 2048 }
    ensures text { lines.new.bytes ≡ lines.old.bytes ++ date_text moment.now }
    ensures few { array_string_len lines.new ≤ array_string_len lines.old + 20 }
{
    let mut digits = Buffer::new();
    lines.push_str(digits.format(moment.year));
    lines.push_str("-");
    add_two(lines, moment.month);
    lines.push_str("-");
    add_two(lines, moment.day);
}

// Adds the time of day of a moment.
#[tactic(auto, unfolding(crate::specs::info::Calendar::time_text))]
fn add_time(lines: &mut Lines, moment: &Moment)
    requires room { array_string_len lines.old + 16 ≤ 2048 }
    ensures text { lines.new.bytes ≡ lines.old.bytes ++ time_text moment.now }
    ensures few { array_string_len lines.new ≤ array_string_len lines.old + 16 }
{
    lines.push_str("T");
    add_two(lines, moment.hour);
    lines.push_str(":");
    add_two(lines, moment.minute);
    lines.push_str(":");
    add_two(lines, moment.second);
    lines.push_str("Z");
}

// Adds a line of a name of at most 11 bytes and a moment.
fn add_moment(lines: &mut Lines, name: &str, moment: &Moment)
    requires short { length name.now ≤ 11 }
    requires room { array_string_len lines.old + 49 ≤ 2048 }
    ensures text { lines.new.bytes ≡ lines.old.bytes ++ word_line name.now (moment_text moment.now) }
    ensures few { array_string_len lines.new ≤ array_string_len lines.old + 49 }
{
    lines.push_str(name);
    lines.push_str(" ");
    add_date(lines, moment);
    add_time(lines, moment);
    lines.push_str("\n");
}

// Adds a line of a name of at most 12 bytes and a number that may have more than 64 bits.
fn add_wide(lines: &mut Lines, name: &str, number: u128)
    requires short { length name.now ≤ 12 }
    requires room { array_string_len lines.old + 53 ≤ 2048 }
    ensures text { lines.new.bytes ≡ lines.old.bytes ++ count_line name.now number }
    ensures few { array_string_len lines.new ≤ array_string_len lines.old + 53 }
{
    let mut digits = Buffer::new();
    lines.push_str(name);
    lines.push_str(" ");
    lines.push_str(digits.format(number));
    lines.push_str("\n");
}

// Adds the lines before those of the chains, told the digits of the stream's number and the moments of the begin and
// the end.
#[tactic(auto, unfolding(crate::specs::info::Lines::head_text))]
fn add_head(lines: &mut Lines, setup: &Setup, stream: &str, begins: &Moment, ends: &Moment)
    requires stream { length stream.now ≤ 64 }
    requires room { array_string_len lines.old + 393 ≤ 2048 }
    ensures text { lines.new.bytes ≡ lines.old.bytes ++ head_text setup.now stream.now begins.now ends.now }
    ensures few { array_string_len lines.new ≤ array_string_len lines.old + 393 }
{
    let schedule = setup.schedule();
    add_word(lines, "stream", stream);
    add_count(lines, "version", u64::from(setup.version()));
    add_count(lines, "tag", u64::from(setup.tag_length()));
    add_count(lines, "interval", u64::from(schedule.length()));
    add_count(lines, "last", u64::from(schedule.last()));
    add_count(lines, "start", schedule.start());
    add_moment(lines, "begins", begins);
    add_wide(lines, "end", end_of(schedule));
    add_moment(lines, "ends", ends);
}

// Adds the lines of what is left at a reading of the clock, where it could be read.
fn add_left(lines: &mut Lines, schedule: Schedule, reading: u64)
    requires room { array_string_len lines.old + 86 ≤ 2048 }
    ensures text { lines.new.bytes ≡ lines.old.bytes ++ left_lines schedule reading }
    ensures few { array_string_len lines.new ≤ array_string_len lines.old + 86 }
{
    if reading == u64::MAX {
        return;
    }
    add_count(lines, "left", left_at(schedule, reading));
    add_wide(lines, "left-seconds", seconds_left_at(schedule, reading));
}

// Adds the line of a chain, which has at most 98 bytes.
fn add_chain(lines: &mut Lines, length: u32, number: u8, row: ChainRow)
    requires delay { 1 ≤ row.delay }
    requires room { array_string_len lines.old + 98 ≤ 2048 }
    ensures text { lines.new.bytes ≡ lines.old.bytes ++ chain_line length number row }
    ensures few { array_string_len lines.new ≤ array_string_len lines.old + 98 }
{
    let delay = u64::from(row.delay);
    let mut digits = Buffer::new();
    lines.push_str("chain ");
    lines.push_str(digits.format(number));
    lines.push_str(" delay ");
    lines.push_str(digits.format(row.delay));
    lines.push_str(" index ");
    lines.push_str(digits.format(row.index));
    lines.push_str(" latency ");
    lines.push_str(digits.format(delay * u64::from(length)));
    lines.push_str(" lag-most ");
    lines.push_str(digits.format((delay - 1) * u64::from(length)));
    lines.push_str("\n");
}

// Adds the lines of the chains from this one on, of so many.
fn add_chains(lines: &mut Lines, setup: &Setup, chain: u8, count: u8)
    requires count { count ≡ length setup.now.rows }
    requires within { chain ≤ count }
    requires room { array_string_len lines.old + 98 * (count - chain) ≤ 2048 }
    ensures text { lines.new.bytes ≡ lines.old.bytes ++ chain_lines setup.now.times.length chain (drop chain setup.now.rows) }
    ensures few { array_string_len lines.new ≤ array_string_len lines.old + 98 * (count - chain) }
{
    if chain == count {
        return;
    }
    add_chain(lines, setup.schedule().length(), chain, setup.row(chain));
    add_chains(lines, setup, chain + 1, count);
}

// How many places a receiver needs for so many packets a second.
fn places_of(setup: &Setup, rate: u32) -> u128
    ensures { result ≡ places rate setup.now }
{
    let rate = u128::from(rate);
    let delay = u128::from(setup.row(setup.count() - 1).delay);
    let length = u128::from(setup.schedule().length());
    (rate * ((delay + 1) * length) + 999_999) / SECOND
}

// All lines, told the digits of the stream's number and of the sum, and a reading of the clock.
fn lines_of(setup: &Setup, stream: &str, sum: &str, rate: Option<u32>, reading: u64) -> Lines
    requires stream { stream.now ≡ encode_lower (to_be_bytes w64 setup.now.stream.0) }
    requires sum { sum.now ≡ encode_lower (sha256 (setup_text setup.now)) }
    ensures { IsInfo rate reading setup.now result.bytes }
{
    let schedule = setup.schedule();
    let begins = moment_of(schedule.start() / 1_000_000);
    let ends = moment_of((end_of(schedule) / SECOND) as u64);
    let mut lines = Lines::new();
    add_head(&mut lines, setup, stream, &begins, &ends);
    add_left(&mut lines, schedule, reading);
    add_chains(&mut lines, setup, 0, setup.count());
    add_wide(&mut lines, "capacity", places_of(setup, rate.unwrap_or(1)));
    add_word(&mut lines, "sha256", sum);
    lines
}

/// The lines that tell a setup at the next clock's reading: what it says, when it begins and ends and how much is left,
/// how many places a receiver needs for so many packets a second, 1 where no rate is given, and the sum of its text,
/// which is that of its file. They have at most 2,048 bytes. Where there is no memory no clock is made.
pub fn info_of<D: Desk>(
    alloc: Global,
    setup: &Setup,
    rate: Option<u32>,
    desk: &mut D,
) -> Result<Lines, NoMemory>
    ensures told { IfOk result (λ lines. TellsAt (D.told desk.old).live (D.told desk.new).live rate setup.now lines.bytes) }
    ensures same { IfErr result (λ _. (D.told desk.new).live ≡ (D.told desk.old).live) }
    ensures desk { D.told desk.new ≡ record (D.told desk.old) { live = (D.told desk.new).live } }
{
    let text = write_setup(alloc, setup)?;
    let sum = hex::encode(alloc, Sha256::digest(text.as_slice()))?;
    let stream = hex::encode(alloc, setup.stream().0.to_be_bytes())?;
    let reading = desk.clock().now();
    Ok(lines_of(setup, stream.as_str(), sum.as_str(), rate, reading))
}

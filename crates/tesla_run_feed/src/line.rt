//! The lines of STATUS.

ghost use Rattle.std.specs.Prelude.{◌≡◌, ◌+◌, ◌*◌, ◌≤◌, ◌++◌, codes, length};
ghost use Rattle.arrayvec.specs.ArrayString.{array_string_len};
ghost use Rattle.tesla_run_feed.specs.Listing.{are_several};
ghost use Rattle.tesla_run_feed.specs.Status.{counts_text, left_at, left_in, refused_text, sent_text, status_line, system_text};

use tesla_clock::Schedule;
use tesla_desk::Incidents;
use tesla_feed::FeedCounts;
use tesla_feeds::FeedsCounts;
use tesla_front::Lines;
use tesla_status::add_number;

// Adds how many messages and disclosures were sent. These are at most 104 bytes.
fn add_sent(line: &mut Lines, counts: &FeedCounts)
    requires room { array_string_len line.old + 104 ≤ 2048 }
    ensures text { line.new.bytes ≡ line.old.bytes ++ sent_text counts.now }
    ensures few { array_string_len line.new ≤ array_string_len line.old + 104 }
{
    add_number(line, " messages=", u128::from(counts.messages));
    add_number(line, " disclosures=", u128::from(counts.disclosures));
}

// Adds why messages weren't sent, each number with its name. These are at most 312 bytes.
fn add_refused(line: &mut Lines, counts: &FeedCounts)
    requires room { array_string_len line.old + 312 ≤ 2048 }
    ensures text { line.new.bytes ≡ line.old.bytes ++ refused_text counts.now }
    ensures few { array_string_len line.new ≤ array_string_len line.old + 312 }
{
    add_number(line, " toolong=", u128::from(counts.too_long));
    add_number(line, " early=", u128::from(counts.early));
    add_number(line, " over=", u128::from(counts.over));
    add_number(line, " backward=", u128::from(counts.backward));
    add_number(line, " full=", u128::from(counts.full));
    add_number(line, " unread=", u128::from(counts.unread));
}

// Adds the counts, each with its name, told whether there are several streams. These are at most 468 bytes.
fn add_counts(line: &mut Lines, several: bool, counts: &FeedsCounts)
    requires room { array_string_len line.old + 468 ≤ 2048 }
    ensures text { line.new.bytes ≡ line.old.bytes ++ counts_text several counts.now }
    ensures few { array_string_len line.new ≤ array_string_len line.old + 468 }
{
    add_sent(line, &counts.feed);
    if several {
        add_number(line, " handovers=", u128::from(counts.handovers));
    }
    add_refused(line, &counts.feed);
}

/// What the system tells beside the counts.
#[derive(Clone, Copy)]
pub(crate) struct SystemCounts {
    /// How often a clock gave another reading than the system's.
    pub(crate) held: u64,
    /// How many datagrams the system refused to send.
    pub(crate) unsent: u64,
}

impl SystemCounts {
    /// What it tells by now.
    pub(crate) fn of<I: Incidents>(incidents: &I) -> SystemCounts {
        SystemCounts {
            held: incidents.held(),
            unsent: incidents.unsent(),
        }
    }
}

// Adds what the system tells, each number with its name. These are at most 104 bytes.
fn add_system(line: &mut Lines, system: SystemCounts)
    requires room { array_string_len line.old + 104 ≤ 2048 }
    ensures text { line.new.bytes ≡ line.old.bytes ++ system_text system }
    ensures few { array_string_len line.new ≤ array_string_len line.old + 104 }
{
    add_number(line, " held=", u128::from(system.held));
    add_number(line, " unsent=", u128::from(system.unsent));
}

/// The line of the counts at a reading of the clock, which stands behind a word of at most 5 bytes, of what the system tells
/// beside them, and of how many intervals of these are left, with its LF. It takes no memory.
#[tactic(auto, unfolding(crate::specs::Status::status_line))]
pub(crate) fn line_of(
    schedules: &[Schedule],
    word: &str,
    reading: u64,
    counts: &FeedsCounts,
    system: SystemCounts,
) -> Lines
    requires few { length schedules.now ≤ 16 }
    requires short { length word.now ≤ 5 }
    ensures { result.bytes ≡ status_line schedules.now word.now reading counts.now system }
{
    let mut line = Lines::new();
    add_number(&mut line, word, u128::from(reading));
    add_counts(&mut line, schedules.len() > 1, counts);
    add_system(&mut line, system);
    add_number(&mut line, " left=", u128::from(left_in(schedules, reading)));
    line.push_str("\n");
    line
}

// How many intervals of these streams haven't ended by a reading of the clock.
fn left_in(schedules: &[Schedule], reading: u64) -> u64
    requires few { length schedules.now ≤ 16 }
    ensures is { result ≡ left_in schedules.now reading }
    ensures small { result ≤ length schedules.now * 4294967296 }
{
    match schedules {
        [schedule, others @ ..] => left_at(*schedule, reading) + left_in(others, reading),
        [] => 0,
    }
}

// How many intervals of a stream haven't ended by a reading of the clock: 0 behind the last one.
fn left_at(schedule: Schedule, reading: u64) -> u64
    ensures is { result ≡ left_at schedule reading }
    ensures small { result ≤ 4294967296 }
{
    let intervals = u64::from(schedule.last()) + 1;
    match schedule.interval_at(reading) {
        Some(interval) => intervals.saturating_sub(interval),
        None => intervals,
    }
}

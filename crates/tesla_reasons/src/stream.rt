//! The streams of the setups that words name.

use crate::weak::word_of;
use std::alloc::Global;
use tesla_commit::{Setup, read_setup};

/// The names of the setups with which a live command begins and ends: both are the same where it has one.
#[derive(Clone, Copy, Debug)]
pub struct LiveSetups<'a> {
    /// The setup of the first stream.
    pub first: &'a str,
    /// The setup of the last stream.
    pub last: &'a str,
}

/// The names of the setups for a live command, which the first of these words names, told the command's form: those of the list of
/// a feed, and else the one. `None` of all other commands.
pub fn live_setups<'a>(words: &'a [String], form: Option<&'static str>) -> Option<LiveSetups<'a>> {
    let [command, ..] = words else {
        return None;
    };
    match command.as_str() {
        "feed" => Some(ends_of(word_of("SETUPS", words, form)?)),
        "receive" | "record" | "watch" => {
            let name = word_of("SETUP", words, form)?;
            Some(LiveSetups {
                first: name,
                last: name,
            })
        }
        _ => None,
    }
}

// The first and the last name of a list.
fn ends_of(list: &str) -> LiveSetups<'_> {
    let (first, _) = list.split_once(',').unwrap_or((list, ""));
    let (_, last) = list.rsplit_once(',').unwrap_or(("", list));
    LiveSetups { first, last }
}

/// The number of the stream of the setup that a text spells, and the microseconds since 1970 at which it begins and at which its last
/// interval has ended, 2^64 - 1 where they lie behind that. `None` where it spells no setup.
pub fn stream_in(alloc: Global, text: &[u8]) -> Option<(u64, u64, u64)> {
    match read_setup(alloc, text) {
        Ok(setup) => Some((setup.stream().0, setup.schedule().start(), end_of(&setup))),
        Err(_) => None,
    }
}

// When the last interval of a setup has ended.
fn end_of(setup: &Setup) -> u64 {
    let schedule = setup.schedule();
    let intervals = u64::from(schedule.last()).saturating_add(1);
    let whole = u64::from(schedule.length()).saturating_mul(intervals);
    schedule.start().saturating_add(whole)
}

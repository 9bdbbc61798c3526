//! Tests of the clocks of a run.

use std::fmt::Display;
use std::sync::atomic::AtomicU64;
use std::sync::atomic::Ordering::SeqCst;
use std::time::Duration;
use std::{io, time};
use tesla_desk::Clock;
use tesla_live::{
    Anchor, Command, Gates, MachineClock, Times, receiver_reading, sender_reading, times_now,
};

/// Where the rule is tried: a run that began at these readings.
const BEGAN: Anchor = Anchor {
    since_1970: 1_250_000,
    since_boot: 70_000,
};

/// The readings of both clocks, and what a sender and a receiver read then.
const RULE: [(Option<u64>, Option<u64>, u64, u64); 8] = [
    (Some(1_250_000), Some(70_000), 1_250_000, 1_250_000),
    // The date is set ahead, and back.
    (Some(9_000_000), Some(80_000), 1_260_000, 9_000_000),
    (Some(u64::MAX), Some(80_000), 1_260_000, u64::MAX),
    (Some(1_000_000), Some(90_000), 1_000_000, 1_270_000),
    (Some(0), Some(u64::MAX), 0, u64::MAX),
    // A clock that can't be read.
    (None, Some(80_000), u64::MAX, u64::MAX),
    (Some(1_260_000), None, u64::MAX, u64::MAX),
    (None, None, u64::MAX, u64::MAX),
];

/// A system whose date always reads the same, or can't be read. It counts the lines on standard error.
#[derive(Drop)]
struct StillClock {
    since: Option<Duration>,
    lines: AtomicU64,
}

impl time::Clock for StillClock {
    fn monotonic(&self) -> io::Result<Duration> {
        self.since_1970()
    }

    fn since_1970(&self) -> io::Result<Duration> {
        match self.since {
            Some(since) => Ok(since),
            None => Err(io::Error::from(io::ErrorKind::Other)),
        }
    }
}

impl Eprint for StillClock {
    fn eprint<D: Display + Drop>(&self, _value: D) -> io::Result<()> {
        Ok(())
    }

    fn eprintln<D: Display + Drop>(&self, _value: D) -> io::Result<()> {
        self.lines.fetch_add(1, SeqCst);
        Ok(())
    }
}

#[test]
fn the_rule_at_every_step(rt: HostRuntime) {
    for (since_1970, since_boot, sender, receiver) in RULE {
        let now = Times {
            since_1970,
            since_boot,
        };
        assert_eq!(rt; sender_reading(&BEGAN, now), sender, "{now:?}");
        assert_eq!(rt; receiver_reading(&BEGAN, now), receiver, "{now:?}");
        let both = since_1970.is_some() && since_boot.is_some();
        assert_eq!(rt; Anchor::at(now).is_some(), both, "{now:?}");
    }
}

// What the clock of a command reads on a system whose run began at 3 seconds, and whose date stands here now; and how many lines
// two readings of two clocks were told by.
fn read_at(command: Command, since: Option<Duration>) -> (u64, u64) {
    let system = StillClock {
        since,
        lines: AtomicU64::new(0),
    };
    let gates = Gates::new();
    let anchor = Anchor {
        since_1970: 3_000_000,
        since_boot: times_now(&system).since_boot.unwrap_or(0),
    };
    let mut read = 0;
    for _ in 0..2 {
        let mut clock = MachineClock::new(&system, command, anchor, &gates);
        clock.now();
        read = clock.now();
    }
    (read, system.lines.load(SeqCst))
}

/// A command, the seconds of the date, and what is read: the least and the greatest reading, and how many lines tell of it.
const DATES: &[(&str, Option<u64>, (u64, u64), u64)] = &[
    // It is set an hour ahead: a sender goes on from 3 seconds.
    ("feed", Some(3_603), (3_000_000, 60_000_000), 1),
    ("play", Some(3_603), (3_000_000, 60_000_000), 1),
    ("receive", Some(3_603), (3_603_000_000, 3_603_000_000), 1),
    // It is set back: a receiver goes on from 3 seconds.
    ("record", Some(1), (3_000_000, 60_000_000), 1),
    ("feed", Some(1), (1_000_000, 1_000_000), 1),
    // It agrees, or can't be read.
    ("feed", Some(3), (3_000_000, 3_000_000), 0),
    ("watch", None, (u64::MAX, u64::MAX), 0),
    ("feed", None, (u64::MAX, u64::MAX), 0),
    ("play", None, (0, 0), 0),
];

#[test]
fn clocks_of_commands_where_the_date_is_set(rt: HostRuntime) {
    for (name, seconds, (least, most), lines) in DATES {
        let command = Command::named(name);
        let (read, reported) = read_at(command, seconds.map(Duration::from_secs));
        assert_eq!(rt; command.name(), *name);
        assert!(rt; *least <= read && read <= *most, "{name} {read}");
        assert_eq!(rt; reported, *lines, "{name}");
    }
    for name in ["capture", "follow", "relay"] {
        assert_eq!(rt; Command::named(name).name(), name);
    }
    assert_eq!(rt; Command::named("replay"), Command::Other);
}

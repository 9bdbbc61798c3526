//! The opening of a feed.

ghost use Rattle.std.specs.Prelude.{◌≡◌, true};
ghost use Rattle.tesla_feed.specs.Fed.{has_ended};
ghost use Rattle.tesla_feed.specs.Feed.{OpensAt};

use crate::readings::is_unread;
use std::sync::Wait;
use tesla_desk::{Clock, Gate};
use tesla_sender::Sender;

/// How many microseconds the gate rests at most between two readings of a clock that can't be read.
const BETWEEN_READINGS: u64 = 1_000_000;

/// How many intervals a feed may be opened behind the end of the last one and the delay of a chain.
const LATEST_OPENING: u64 = 64;

/// Reads the clock until it can be read, and gives that reading, in microseconds. The gate rests between two readings.
pub fn first_reading<R: Wait, C: Clock, G: Gate>(rt: &R, clock: &mut C, gate: &mut G) -> u64
    ensures opens { OpensAt result (C.told clock.old) (C.told clock.new) }
    ensures gave { C.gave result ≡ true }
{
    for _ in rt.forever() {
        let reading = clock.now();
        if !is_unread(reading) {
            return reading;
        }
        gate.rest_for(BETWEEN_READINGS);
    }
    unreachable!()
}

/// Whether a feed that is opened at this reading is over: on each chain the last key was due at the latest 65 intervals
/// before that of the microsecond before the reading.
pub fn has_ended(sender: &Sender, opening: u64) -> bool
    ensures { result ≡ has_ended sender.now.stream opening }
{
    let last = u64::from(sender.schedule().last());
    let interval = sender.interval_at(opening.saturating_sub(1));
    sender.tells_all(last, interval.saturating_sub(LATEST_OPENING + 1))
}

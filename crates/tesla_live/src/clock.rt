//! The clock of a run over the system's clocks.

ghost use Rattle.std.specs.Prelude.{None};

use crate::notices::DIFFERENCE;
use crate::rule::{Anchor, Times};
use crate::times::times_now;
use crate::{Command, Gates};
use std::sync::Wait;
use std::time;
use std::time::Duration;
use tesla_desk::Clock;

/// How many seconds a run waits before it asks again for a clock that can't be read.
const PAUSE: u64 = 1;

/// Reads the system's clocks until both can be read, a second apart. It tells once on standard error that it waits.
pub(crate) fn anchor_of<R: time::Clock + Eprint + Wait>(rt: &R, command: Command) -> Anchor {
    let mut is_returned = false;
    for _ in rt.forever() {
        if let Some(anchor) = Anchor::at(times_now(rt)) {
            return anchor;
        }
        if !is_returned {
            let _ = eprintln!(rt;
                "tesla: {}: the system's clock can't be read; waiting until it can",
                command.name()
            );
            is_returned = true;
        }
        rt.sleep(Duration::from_secs(PAUSE));
    }
    unreachable!()
}

/// The clock of a run, in microseconds since 1970: by [`Command::reading`] of the command, from the system's clock and one
/// that can't be set. Where the two differ by more than a second it says so on standard error, and once a minute while
/// they do. That the end of the stream is near it says once. What it gives isn't told.
#[derive(Drop)]
pub struct MachineClock<'a, R> {
    rt: &'a R,
    command: Command,
    anchor: Anchor,
    gates: &'a Gates,
}

impl<'a, R> MachineClock<'a, R> {
    /// The clock of a command whose run began at this anchor. Those that share the gates tell a difference once.
    pub fn new(
        rt: &'a R,
        command: Command,
        anchor: Anchor,
        gates: &'a Gates,
    ) -> MachineClock<'a, R> {
        MachineClock {
            rt,
            command,
            anchor,
            gates,
        }
    }
}

impl<'a, R: Eprint> MachineClock<'a, R> {
    // Tells by how much the system's clock differs from the steady one, where that is to be told.
    fn tell_difference(&self, now: Times) {
        let (Some(since_1970), Some(since_boot)) = (now.since_1970, now.since_boot) else {
            return;
        };
        let steady = self.anchor.steady(since_boot);
        let difference = since_1970.abs_diff(steady);
        if !self
            .gates
            .notices
            .is_due(difference > DIFFERENCE, since_boot)
        {
            return;
        }
        let way = if steady < since_1970 {
            "ahead of"
        } else {
            "behind"
        };
        let _ = eprintln!(self.rt;
            "tesla: {}: the system's clock is {} s {way} the steady clock of this run",
            self.command.name(),
            difference / 1_000_000
        );
    }

    // Tells that the end of the stream is near at this reading, where that is to be told.
    fn tell_end(&self, reading: u64) {
        if let Some((stream, left)) = self.gates.end.due_at(reading) {
            let _ = eprintln!(self.rt;
                "tesla: {}: stream {stream:016x} ends in {left} s",
                self.command.name()
            );
        }
    }
}

impl<'a, R: time::Clock + Eprint> Clock for MachineClock<'a, R> {
    ghost told = { λ _. None };

    fn now(&mut self) -> u64 {
        let now = times_now(self.rt);
        self.tell_difference(now);
        let reading = self.command.reading(&self.anchor, now);
        if is_held(now, reading) {
            self.gates.events.tallies.held.raise();
        }
        self.tell_end(reading);
        reading
    }

    fn now_for(&mut self, _datagram: &[u8]) -> u64 {
        self.now()
    }
}

// Whether a reading at these times isn't the system's: by more than what is told, or since that can't be read.
fn is_held(now: Times, reading: u64) -> bool {
    match now.since_1970 {
        Some(since_1970) => since_1970.abs_diff(reading) > DIFFERENCE,
        None => true,
    }
}

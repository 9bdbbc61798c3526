//! Gates at which workers of the running system wait for one another.

use crate::StreamEnd;
use crate::ending::EndNotice;
use crate::notices::Notices;
use std::rt::Files;
use std::sync::Wait;
use std::sync::atomic::AtomicU64;
use std::sync::atomic::Ordering::SeqCst;
use std::time::Duration;
use tesla_desk::Gate;
use tesla_reports::{Events, FailurePolicy};

/// How many microseconds a gate rests at most.
const REST: u64 = 100_000;

/// What the gates of one desk share, and its clocks.
#[derive(Drop)]
pub struct Gates {
    // What the clocks told.
    pub(crate) notices: Notices,
    pub(crate) end: EndNotice,
    // What all parts of the run share.
    pub(crate) events: Events,
    // How often something was released.
    generation: AtomicU64,
    // How many gates rest.
    resting: AtomicU64,
}

impl Gates {
    /// Nothing was released yet, and no gate rests. Nothing ends the links of the run from without.
    pub fn new() -> Gates {
        Gates::of(Events::new(None, 0, FailurePolicy::GoOn), None)
    }

    /// The same of a run of which this is told, and over this stream, where that is known.
    pub fn of(events: Events, stream: Option<StreamEnd>) -> Gates {
        Gates {
            notices: Notices::new(),
            end: EndNotice::of(stream),
            events,
            generation: AtomicU64::new(0),
            resting: AtomicU64::new(0),
        }
    }

    fn generation(&self) -> u64 {
        self.generation.load(SeqCst)
    }

    // Ends the rest of each gate. A gate is counted before it looks at the generation for the last time, so it is
    // either counted here or sees that the generation is another.
    fn release(&self) {
        self.generation.fetch_add(1, SeqCst);
        if 0 < self.resting.load(SeqCst) {
            self.generation.wake_all();
        }
    }

    // Rests while the generation is this one, so long at most. The system compares 32 bits of it.
    fn rest<R: Wait>(&self, rt: &R, generation: u64, most: Duration) {
        self.resting.fetch_add(1, SeqCst);
        let seen = (generation % (1 << 32)) as u32;
        self.generation.park_timeout(rt, seen, most);
        self.resting.fetch_sub(1, SeqCst);
    }
}

/// A gate that rests until another gate of its desk, behind a turn, tells that something was released, and at most 100
/// milliseconds. What was told since `before` ends the rest at once.
#[derive(Drop)]
pub struct LiveGate<'a, R> {
    rt: &'a R,
    gates: &'a Gates,
    // The generation before the turn.
    seen: u64,
    // Whether something was released since then, at this gate.
    marked: bool,
}

impl<'a, R> LiveGate<'a, R> {
    /// A gate that shares this with others.
    pub(crate) fn new(rt: &'a R, gates: &'a Gates) -> LiveGate<'a, R> {
        LiveGate {
            rt,
            gates,
            seen: gates.generation(),
            marked: false,
        }
    }
}

impl<'a, R: Files + Wait> Gate for LiveGate<'a, R> {
    ghost use Rattle.std.specs.Prelude.{true};

    ghost over = { true };

    fn before(&mut self) {
        self.seen = self.gates.generation();
        self.marked = false;
    }

    /// Wakes the gates that rest, where something was released. It asks the system only where one rests.
    fn after(&mut self) {
        if self.marked {
            self.gates.release();
        }
    }

    fn rest(&mut self) {
        self.rest_for(REST);
    }

    /// Rests so long, and at most 100 milliseconds.
    fn rest_for(&mut self, microseconds: u64) {
        let most = Duration::from_micros(microseconds.min(REST));
        self.gates.rest(self.rt, self.seen, most);
    }

    fn released(&mut self) {
        self.marked = true;
    }

    /// Does nothing, since a link waits by itself.
    fn quiet(&mut self) {}
    /// Whether something stands at the path that ends the run. It looks there each 100 milliseconds at most.
    fn is_over(&mut self) -> bool {
        self.gates.events.ending.has_begun(self.rt)
    }
}

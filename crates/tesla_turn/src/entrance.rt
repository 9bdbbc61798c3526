//! The entrance before the turns, at which threads wait. Nothing is claimed of it, and the rule doesn't rest on it.

use std::hint::spin_loop;
use std::sync::Wait;
use std::sync::atomic::AtomicU64;
use std::sync::atomic::Ordering::SeqCst;

/// Nobody is inside.
const OPEN: u64 = 0;

/// A thread is inside, and none sleeps before the entrance.
const TAKEN: u64 = 1;

/// A thread is inside, and others may sleep before the entrance.
pub(crate) const AWAITED: u64 = 2;

/// How often a thread looks again before it sleeps.
const LOOKS: u32 = 100;

/// Lets one thread at a time draw a ticket, so that its turn is there at once.
///
/// Tickets are served in their order, also where the system has taken the processor from the thread of the next one: all
/// others would wait for that. Who comes while the entrance is open goes in, whoever came before.
#[derive(Drop)]
pub(crate) struct Entrance {
    pub(crate) state: AtomicU64,
}

impl Entrance {
    /// An entrance that is open.
    pub(crate) fn new() -> Entrance {
        Entrance {
            state: AtomicU64::new(OPEN),
        }
    }

    fn goes_in(&self) -> bool {
        self.state
            .compare_exchange(OPEN, TAKEN, SeqCst, SeqCst)
            .is_ok()
    }

    /// Waits until nobody is inside, and goes in. Who has slept leaves word that others may sleep.
    pub(crate) fn enter<R: Wait>(&self, rt: &R) {
        if self.goes_in() {
            return;
        }
        for _ in 0..LOOKS {
            spin_loop();
            if self.state.load(SeqCst) == OPEN && self.goes_in() {
                return;
            }
        }
        for _ in rt.forever() {
            if self.state.swap(AWAITED, SeqCst) == OPEN {
                return;
            }
            self.state.park(rt, AWAITED as u32);
        }
    }

    /// Goes out, and wakes one of those that sleep, if any may. That one leaves word in its turn.
    pub(crate) fn leave(&self) {
        if self.state.swap(OPEN, SeqCst) == AWAITED {
            self.state.wake_one();
        }
    }
}

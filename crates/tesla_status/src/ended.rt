//! Whether what a monitor runs beside has ended.

use std::sync::Wait;
use std::sync::atomic::AtomicU64;
use std::sync::atomic::Ordering::SeqCst;
use std::time::Duration;

/// Whether what a monitor runs beside has ended. Nothing is claimed of it.
#[derive(Drop)]
pub struct Ended {
    word: AtomicU64,
}

impl Ended {
    /// It has not.
    pub fn new() -> Ended {
        Ended {
            word: AtomicU64::new(0),
        }
    }

    /// It has. Whoever rests is woken.
    pub fn set(&self) {
        self.word.store(1, SeqCst);
        self.word.wake_all();
    }

    /// Whether it has.
    pub fn is_set(&self) -> bool {
        self.word.load(SeqCst) != 0
    }

    /// Rests until it has, so many microseconds at most.
    pub fn rest<R: Wait>(&self, rt: &R, microseconds: u64) {
        self.word
            .park_timeout(rt, 0, Duration::from_micros(microseconds));
    }
}

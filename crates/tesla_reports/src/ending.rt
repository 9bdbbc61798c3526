//! When the links of a run end, whatever still comes.

use crate::moments::monotonic;
use std::fs;
use std::rt::Files;
use std::sync::atomic::AtomicU64;
use std::sync::atomic::Ordering::SeqCst;

/// How many microseconds lie between two looks at the system's files at least.
pub const LOOKS_APART: u64 = 100_000;

/// The path at which something is to be put that ends the links of a run, where there is one, and whether they end.
#[derive(Drop)]
pub struct Ending {
    path: Option<String>,
    // When the path was looked at last, in microseconds of a clock that isn't set back.
    looked: AtomicU64,
    // 1 once the links end.
    is_over: AtomicU64,
}

impl Ending {
    /// Links end where something comes to stand at this path; without one they go on.
    pub fn at(path: Option<String>) -> Ending {
        Ending {
            path,
            looked: AtomicU64::new(0),
            is_over: AtomicU64::new(0),
        }
    }

    /// The path, where something stands there now.
    pub fn stands<R: Files>(&self, rt: &R) -> Option<&str> {
        let Some(path) = &self.path else {
            return None;
        };
        match fs::symlink_metadata(rt, path.as_str()) {
            Ok(_) => Some(path.as_str()),
            Err(_) => None,
        }
    }

    /// Lets the links end.
    pub fn begin(&self) {
        self.is_over.store(1, SeqCst);
    }

    /// Whether the links end. It looks at the path each 100 milliseconds at most, however many links ask.
    pub fn has_begun<R: Files>(&self, rt: &R) -> bool {
        if self.is_over.load(SeqCst) != 0 {
            return true;
        }
        if self.path.is_none() || !self.may_look() || self.stands(rt).is_none() {
            return false;
        }
        self.begin();
        true
    }

    // Whether this one looks at the path now. Of several that ask at once one does.
    fn may_look(&self) -> bool {
        let (now, looked) = (monotonic(), self.looked.load(SeqCst));
        if now < looked.saturating_add(LOOKS_APART) {
            return false;
        }
        self.looked
            .compare_exchange(looked, now, SeqCst, SeqCst)
            .is_ok()
    }
}

//! Additions under a lock of std.

use std::alloc::{AllocError, Global};
use std::sync::{Mutex, Wait};
use std::thread::{Threads, map_indices};

/// A sum under a lock.
#[derive(Drop)]
struct Locked {
    total: u64,
}

impl Locked {
    fn add(&mut self, number: u64) {
        self.total = self.total.wrapping_add(number);
    }
}

// Adds one, `calls` times.
fn add_locked<R: Wait>(rt: &R, sum: &Mutex<Locked>, calls: u64) {
    for _ in 0..calls {
        sum.lock(rt).add(1);
    }
}

/// Adds one, `calls` times in each of the threads, and gives the sum.
pub fn under_a_lock<R: Threads + Wait + Sync>(
    rt: &R,
    alloc: Global,
    threads: u8,
    calls: u64,
) -> Result<u64, AllocError> {
    let sum = Mutex::new(Locked { total: 0 });
    map_indices(
        rt,
        alloc,
        usize::from(threads),
        &|_| add_locked(rt, &sum, calls),
    )?;
    Ok(sum.into_inner().total)
}

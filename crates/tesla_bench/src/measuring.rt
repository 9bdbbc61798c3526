//! How many turns a second threads take whose act is an addition, beside the same under a lock of std.

ghost use Rattle.std.specs.Prelude.{◌<◌};

use crate::lock::under_a_lock;
use crate::turns::in_turns;
use std::io;
use std::rt::Clock;
use std::sync::Wait;
use std::thread::Threads;
use std::time::Instant;

/// The additions that all threads make together.
const ADDITIONS: u64 = 1_000_000;

// How many of `count` fall on a second, where they took this many nanoseconds.
fn per_second(count: u64, nanos: u128) -> u64 {
    let most = count as u128 * 1_000_000_000 / nanos.max(1);
    most.min(u64::MAX as u128) as u64
}

/// Measures with 1, 2, 4 and 8 threads, and prints a line for each.
pub fn measure_turns<R: Threads + Wait + Sync + Clock + Print + AllocGlobal>(
    rt: &R,
) -> io::Result<()> {
    for threads in [1, 2, 4, 8] {
        measure_with(rt, threads)?;
    }
    Ok(())
}

// Measures with so many threads, and prints a line.
fn measure_with<R: Threads + Wait + Sync + Clock + Print + AllocGlobal>(
    rt: &R,
    threads: u8,
) -> io::Result<()>
    requires { (0 < threads) × (threads < 255) }
{
    let each = ADDITIONS / u64::from(threads);
    let start = Instant::now(rt)?;
    let turned = in_turns(rt, rt.alloc(), threads, each);
    let turns = per_second(ADDITIONS, start.elapsed(rt)?.as_nanos());
    let start = Instant::now(rt)?;
    let locked = under_a_lock(rt, rt.alloc(), threads, each);
    let locks = per_second(ADDITIONS, start.elapsed(rt)?.as_nanos());
    if turned.is_ok() && locked.is_ok() {
        println!(rt; "threads {threads}: turns {turns} a second, locks {locks} a second")?;
    }
    Ok(())
}

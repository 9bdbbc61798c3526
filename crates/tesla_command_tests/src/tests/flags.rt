//! That all workers of a run are at work at the same time, which no contract says.

ghost use Rattle.std.specs.Prelude.{◌≡◌};
ghost use Rattle.tesla_memory_desk.specs.Memory.{told_by};

use super::pages::new_desk;
use std::alloc::Global;
use std::sync::Wait;
use std::sync::atomic::AtomicU64;
use std::sync::atomic::Ordering::SeqCst;
use std::test::*;
use std::thread::{Threads, yield_now};
use tesla_cli_live::run_live;
use tesla_desk::{Environment, Gate, OpenRefusal, SinkOutput};
use tesla_memory_desk::{Heap, Letters, MemoryDesk, Outbox, Pages, Readings};
use tesla_test_desk::words_of;

/// How many workers there are.
const WORKERS: u64 = 4;

/// How often a worker looks whether all flags are raised, at most.
const LOOKS: u64 = 1_000_000;

/// What the workers share.
#[derive(Drop)]
struct Flags {
    raised: AtomicU64,
    // How many workers looked in vain.
    missed: AtomicU64,
}

/// A gate that raises a flag before its first turn, and waits until all flags are raised.
#[derive(Drop)]
struct FlagGate<'a> {
    flags: &'a Flags,
    is_first: bool,
}

impl Gate for FlagGate<'_> {
    fn before(&mut self) {
        if !self.is_first {
            return;
        }
        self.is_first = false;
        self.flags.raised.fetch_add(1, SeqCst);
        for _ in 0..LOOKS {
            if self.flags.raised.load(SeqCst) == WORKERS {
                return;
            }
            yield_now();
        }
        self.flags.missed.fetch_add(1, SeqCst);
    }

    fn after(&mut self) {}

    fn rest(&mut self) {
        yield_now();
    }
}

/// A desk in memory with such gates.
#[derive(Drop)]
struct FlagDesk<'a> {
    desk: MemoryDesk,
    flags: &'a Flags,
}

impl<'a> Environment for FlagDesk<'a> {
    type In = Pages;

    type Out = Heap;

    type Pieces = SinkOutput<Heap>;

    type Wire = Letters;

    type Port = Outbox;

    type Time = Readings;

    type Pause = FlagGate<'a>;

    ghost told = { λ it. told_by it.desk };

    fn open_source(&mut self, name: &str) -> Result<Pages, OpenRefusal> {
        self.desk.open_source(name)
    }

    fn open_console(&mut self) -> Result<Heap, OpenRefusal> {
        self.desk.open_console()
    }

    fn open_output(&mut self, name: &str) -> Result<SinkOutput<Heap>, OpenRefusal> {
        self.desk.open_output(name)
    }

    fn close_source(&mut self, it: Pages) {
        self.desk.close_source(it);
    }

    fn close_sink(&mut self, it: Heap) {
        self.desk.close_sink(it);
    }

    fn close_output(&mut self, it: SinkOutput<Heap>) {
        self.desk.close_output(it);
    }

    fn open_link(&mut self, name: &str) -> Result<Letters, OpenRefusal> {
        self.desk.open_link(name)
    }

    fn close_link(&mut self, it: Letters) {
        self.desk.close_link(it);
    }

    fn open_post(&mut self, name: &str) -> Result<Outbox, OpenRefusal> {
        self.desk.open_post(name)
    }

    fn close_post(&mut self, it: Outbox) {
        self.desk.close_post(it);
    }

    fn clock(&mut self) -> Readings {
        self.desk.clock()
    }

    fn gate(&mut self) -> FlagGate<'a> {
        FlagGate {
            flags: self.flags,
            is_first: true,
        }
    }
}

// The status of a run of two links and two sinks with such gates.
fn side_by_side<R: Threads + Wait + Sync>(
    rt: &R,
    alloc: Global,
    flags: &Flags,
) -> Result<u8, Fail> {
    let words = words_of(alloc, "receive setup 30000 16 hi,yo out,other")?;
    let mut desk = FlagDesk {
        desk: new_desk(alloc)?,
        flags,
    };
    let status = run_live(rt, alloc, words.as_slice(), &mut desk).status;
    drop(desk);
    Ok(status)
}

#[test]
fn workers_side_by_side(rt: HostRuntime) -> Result<(), Fail> {
    let flags = Flags {
        raised: AtomicU64::new(0),
        missed: AtomicU64::new(0),
    };
    assert_eq!(rt; side_by_side(&rt, rt.alloc(), &flags)?, 0);
    assert_eq!(rt; flags.raised.load(SeqCst), WORKERS);
    assert_eq!(rt; flags.missed.load(SeqCst), 0);
    Ok(())
}

//! How often the system did what no answer tells.

use std::sync::atomic::AtomicU64;
use std::sync::atomic::Ordering::SeqCst;
use tesla_desk::Incidents;

/// A count that each part of a run raises. It wraps round behind 2^64 - 1, which no run lives to see.
#[derive(Drop)]
pub struct Tally {
    count: AtomicU64,
}

impl Tally {
    /// At 0.
    pub fn new() -> Tally {
        Tally {
            count: AtomicU64::new(0),
        }
    }

    /// Counts once more.
    pub fn raise(&self) {
        self.count.fetch_add(1, SeqCst);
    }

    /// Takes back one time that it was raised.
    pub fn lower(&self) {
        self.count.fetch_sub(1, SeqCst);
    }

    /// How often it was raised, less those times that were taken back.
    pub fn so_far(&self) -> u64 {
        self.count.load(SeqCst)
    }
}

/// What the parts of one run count.
#[derive(Drop)]
pub struct Tallies {
    pub held: Tally,
    pub unsent: Tally,
    /// Sinks of records that fail now: for good, or until they are written again.
    pub failed_sinks: Tally,
}

impl Tallies {
    /// Each at 0.
    pub fn new() -> Tallies {
        Tallies {
            held: Tally::new(),
            unsent: Tally::new(),
            failed_sinks: Tally::new(),
        }
    }
}

/// The counts of a run, as they stand whenever they are asked for.
#[derive(Drop)]
pub struct LiveIncidents<'a> {
    pub tallies: &'a Tallies,
}

impl Incidents for LiveIncidents<'_> {
    fn held(&self) -> u64 {
        self.tallies.held.so_far()
    }

    fn unsent(&self) -> u64 {
        self.tallies.unsent.so_far()
    }

    fn failed_sinks(&self) -> u64 {
        self.tallies.failed_sinks.so_far()
    }
}

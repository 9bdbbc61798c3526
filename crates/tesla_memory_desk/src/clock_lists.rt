//! The readings of the clocks of a desk in memory.

ghost use Rattle.std.specs.Prelude.{◌≡◌, ◌≢◌, ℕ, map, is_ok, if◌then◌else◌};
ghost use Rattle.tesla_memory_desk.specs.LiveMemory.{MadeClocks, no_clocks, numbered, listed, with_readings, readings_in, after_made, AreCopied};
ghost use Rattle.tesla_memory_desk.specs.Stored.{entries_in};

use crate::entries::Entries;
use std::alloc::Global;
use std::marker::Model;
use std::mem;
use tesla_base::NoMemory;

/// The readings of the clock with this number.
#[derive(Drop)]
pub struct ClockList {
    pub number: u64,
    pub readings: Vec<u64>,
}

/// The readings of clocks, a copy of those of each clock that is still to be made, so that its making takes no memory,
/// and how many were made.
#[derive(Drop)]
pub struct ClockLists {
    lists: Entries<ClockList>,
    copies: Entries<ClockList>,
    made: u64,
}

impl Model for ClockLists {
    ghost Value = { MadeClocks };

    ghost view = { λ it. record { lists = map numbered (entries_in it.lists); made = it.made } };

    ghost invariant = { λ it. AreCopied it.made (map numbered (entries_in it.lists)) (map numbered (entries_in it.copies)) };
}

impl ClockLists {
    /// No readings, and no clock made.
    pub fn new() -> ClockLists
        ensures { result ≡ no_clocks }
    {
        ClockLists {
            lists: Entries::Empty,
            copies: Entries::Empty,
            made: 0,
        }
    }

    /// Puts a copy of these readings there for the clock with this number, in the place of what was there.
    pub fn put(&mut self, alloc: Global, number: u64, list: &[u64]) -> Result<(), NoMemory>
        ensures { self.new ≡ (if is_ok result then with_readings number list.now self.old else self.old) }
    {
        let (spare, copy_spare) = (Entries::spare(alloc)?, Entries::spare(alloc)?);
        let readings = Vec::from_slice(alloc, list)?;
        let copy = Vec::from_slice(alloc, list)?;
        self.lists.put(ClockList { number, readings }, spare);
        let readings = copy;
        self.copies.put(ClockList { number, readings }, copy_spare);
        Ok(())
    }

    /// The readings of the next clock, which is then made.
    pub fn next(&mut self, alloc: Global) -> Vec<u64>
        ensures readings { result.items ≡ readings_in self.old.lists self.old.made }
        ensures made { self.new ≡ after_made self.old }
    {
        let number = self.made;
        if number == u64::MAX {
            return Vec::new(alloc);
        }
        self.made = number + 1;
        take_readings(&mut self.copies, alloc, number)
    }
}

// Takes the readings of the clock with this number out.
fn take_readings(lists: &mut Entries<ClockList>, alloc: Global, number: u64) -> Vec<u64>
    ensures taken { result.items ≡ listed (map numbered (entries_in lists.old)) number }
    ensures others { (n : ℕ) → n ≢ number → listed (map numbered (entries_in lists.new)) n ≡ listed (map numbered (entries_in lists.old)) n }
{
    match lists {
        Entries::Empty => Vec::new(alloc),
        Entries::Newest(entry, rest) => {
            if entry.number == number {
                mem::replace(&mut entry.readings, Vec::new(alloc))
            } else {
                take_readings(rest, alloc, number)
            }
        }
    }
}

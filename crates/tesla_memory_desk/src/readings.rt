//! A clock in memory.

ghost use Rattle.std.specs.Prelude.{◌≡◌};
ghost use Rattle.tesla_desk.specs.Clocks.{Ticks};

use tesla_desk::Clock;

/// A clock that gives the readings of a list, and then the last of them again and again, or 0 where the list is empty.
/// It tells them for 2^64 - 1 calls.
#[derive(Drop)]
pub struct Readings {
    list: Vec<u64>,
    count: u64,
}

impl Readings {
    ghost use Rattle.tesla_memory_desk.specs.LiveMemory.{clock_told_of, told_after, reading_after};

    /// A clock that has given none of these readings yet.
    pub(crate) fn new(list: Vec<u64>) -> Readings
        ensures { clock_told_of result ≡ told_after 0 list.items }
    {
        Readings { list, count: 0 }
    }

    // The reading behind so many others.
    fn after(&self, count: u64) -> u64
        ensures { result ≡ reading_after count self.now.list.items }
    {
        if self.list.is_empty() {
            return 0;
        }
        let last = self.list.len() - 1;
        self.list[count.min(last as u64) as usize]
    }
}

impl Clock for Readings {
    ghost use Rattle.tesla_memory_desk.specs.LiveMemory.{clock_told_of, reading_after};

    ghost told = { clock_told_of };

    fn now(&mut self) -> u64
        ensures ticks { Ticks (clock_told_of self.old) (clock_told_of self.new) result }
        ensures exact { result ≡ reading_after self.old.count self.old.list.items }
    {
        let count = self.count;
        self.count = count.saturating_add(1);
        self.after(count)
    }

    fn now_for(&mut self, _datagram: &[u8]) -> u64
        ensures ticks { Ticks (clock_told_of self.old) (clock_told_of self.new) result }
        ensures exact { result ≡ reading_after self.old.count self.old.list.items }
    {
        self.now()
    }
}

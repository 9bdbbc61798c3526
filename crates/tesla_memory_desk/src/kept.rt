//! What a desk in memory keeps of an object while it is open.

ghost use Rattle.std.specs.Prelude.{◌≡◌, IfOk, if◌then◌else◌};
ghost use Rattle.tesla_desk.specs.Faults.{raised};
ghost use Rattle.tesla_memory_desk.specs.Calls.{next_fails, after_call};

use crate::calls::Calls;
use crate::entries::{Entries, Named};
use std::alloc::Global;
use tesla_base::NoMemory;

/// A value under the name of an open object, the calls of the object, how many faults it had, and the box that puts the
/// value before others.
#[derive(Drop)]
pub struct Kept<T> {
    pub entry: Named<T>,
    pub calls: Calls,
    pub faults: u64,
    pub spare: Box<Entries<Named<T>>>,
}

impl<T: Drop> Kept<T> {
    /// A value under this name, of an object that has not failed yet.
    pub fn new(alloc: Global, name: &str, value: T, calls: Calls) -> Result<Kept<T>, NoMemory>
        ensures entry { IfOk result (λ it. it.entry ≡ record { name = name.now; value = value }) }
        ensures calls { IfOk result (λ it. it.calls ≡ calls) }
        ensures faults { IfOk result (λ it. it.faults ≡ 0) }
    {
        let (name, spare) = Entries::spare_under(alloc, name)?;
        Ok(Kept {
            entry: Named { name, value },
            calls,
            faults: 0,
            spare,
        })
    }

    /// Counts a call, and a fault where the call fails. Gives whether it does.
    pub fn fails(&mut self) -> bool
        ensures fails { result ≡ next_fails self.old.calls }
        ensures entry { self.new.entry ≡ self.old.entry }
        ensures calls { self.new.calls ≡ after_call self.old.calls }
        ensures faults { self.new.faults ≡ (if result then raised self.old.faults else self.old.faults) }
    {
        let fails = self.calls.next_fails();
        self.calls.count();
        if fails {
            self.faults = self.faults.saturating_add(1);
        }
        fails
    }
}

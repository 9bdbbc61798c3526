//! The queue of released packets that wait to be taken.

ghost use Rattle.std.specs.Prelude.{◌≡◌, ◌<◌, ◌≤◌, [], ◌∷◌, ◌++◌, length, drop, slice_get, IfOk};
ghost use Rattle.tesla_release.specs.Released.{given_after};

use circular_buffer::HeapCircularBuffer;
use std::alloc::Global;
use std::marker::Model;
use tesla_base::{NoMemory, Place};

/// A released packet that waits to be taken: its place in the buffer, and the number of the chain whose key
/// proved it.
#[derive(Clone, Copy, Debug, PartialEq, Eq)]
pub struct Waiting {
    /// The place of the packet in the receiver's buffer.
    pub place: Place,
    /// The number of the key chain that proved the packet, the least where several did.
    pub chain: u8,
}

/// Released packets that wait to be taken, in the order of their release, and how many were given.
#[derive(Drop)]
pub struct Queue {
    entries: HeapCircularBuffer<Waiting>,
    given: u64,
}

impl Model for Queue {
    ghost use Rattle.std.specs.Prelude.{◌≤◌, length};
    ghost use Rattle.tesla_release.specs.Released.{Released};

    ghost Value = { Released };

    ghost view = { λ q. record { capacity = q.entries.capacity; waiting = q.entries.items; given = q.given } };

    ghost invariant = { λ q. (length q.entries.items ≤ q.entries.capacity) × (q.entries.capacity ≤ 65536) };
}

impl Queue {
    /// An empty queue of this capacity, of which no entry was given. All memory is taken here.
    pub fn open(alloc: Global, capacity: u32) -> Result<Queue, NoMemory>
        requires some { 1 ≤ capacity }
        requires most { capacity ≤ 65536 }
        ensures { IfOk result (λ q. q ≡ record { capacity = capacity; waiting = []; given = 0 }) }
    {
        Ok(Queue {
            entries: HeapCircularBuffer::with_capacity(alloc, capacity as usize)?,
            given: 0,
        })
    }

    /// Puts an entry behind those that wait. It takes no memory.
    pub fn push(&mut self, entry: Waiting)
        requires room { length self.old.waiting < self.old.capacity }
        ensures { self.new ≡ record self.old { waiting = self.old.waiting ++ entry ∷ [] } }
    {
        self.entries.push_back(entry);
    }

    /// Gives the first entry that waits and counts it; `None` exactly where none waits. The count of what was
    /// given stands still at 2^64 - 1.
    pub fn pop(&mut self) -> Option<Waiting>
        ensures value { result ≡ slice_get self.old.waiting 0 }
        ensures waiting { self.new.waiting ≡ drop 1 self.old.waiting }
        ensures given { self.new.given ≡ given_after self.old.given result }
        ensures capacity { self.new.capacity ≡ self.old.capacity }
    {
        let entry = self.entries.pop_front()?;
        self.given = self.given.saturating_add(1);
        Some(entry)
    }

    /// Lets go of all entries that wait, and counts from 0 again. It takes no memory.
    pub fn clear(&mut self)
        ensures { self.new ≡ record self.old { waiting = []; given = 0 } }
    {
        self.entries.clear();
        self.given = 0;
    }

    /// How many entries were given, at most 2^64 - 1.
    pub fn given(&self) -> u64
        ensures { result ≡ self.now.given }
    {
        self.given
    }

    /// How many entries wait.
    pub fn waiting(&self) -> u32
        ensures waiting { result ≡ length self.now.waiting }
        ensures within { result ≤ self.now.capacity }
    {
        self.entries.len() as u32
    }

    /// How many entries can wait.
    pub fn capacity(&self) -> u32
        ensures capacity { result ≡ self.now.capacity }
        ensures most { result ≤ 65536 }
    {
        self.entries.capacity() as u32
    }
}

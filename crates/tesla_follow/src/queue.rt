//! The messages that were accepted on arrival and wait to be given.

ghost use Rattle.std.specs.Prelude.{◌≡◌, ◌<◌, ◌≤◌, ◌==◌, [], ◌∷◌, ◌++◌, length, drop, nat_lt, slice_get, IfOk, take};
ghost use Rattle.tesla_follow.specs.Kept.{PoppedKeepsBehind, popped_shown};

use circular_buffer::HeapCircularBuffer;
use std::alloc::Global;
use std::marker::Model;
use tesla_base::{MOST_PAYLOAD, Name, NoMemory};

/// A message that waits, and its epoch. The payload is the first bytes, so many of them.
#[derive(Clone, Copy)]
pub struct Waiting {
    epoch: u32,
    name: Name,
    length: u16,
    bytes: [u8; MOST_PAYLOAD],
    ghost short: { length ≤ 1200 },
}

/// What is told of a message that was let go, beside its payload.
#[derive(Clone, Copy, Debug, PartialEq, Eq)]
pub struct Popped {
    pub epoch: u32,
    pub name: Name,
    pub length: u16,
}

/// The messages that were accepted, in order.
#[derive(Drop)]
pub struct Queue {
    entries: HeapCircularBuffer<Waiting>,
}

impl Model for Queue {
    ghost use Rattle.std.specs.Prelude.{◌≤◌, length, map};
    ghost use Rattle.tesla_follow.specs.Kept.{Waits};
    ghost use Rattle.tesla_follow.specs.Queued.{accepted_of};

    ghost Value = { Waits };

    ghost view = { λ q. record { capacity = q.entries.capacity; waiting = map accepted_of q.entries.items } };

    ghost invariant = { λ q. length q.entries.items ≤ q.entries.capacity };
}

impl Queue {
    /// No message waits; so many may. All memory is taken here, 1,212 bytes for each.
    pub fn open(alloc: Global, capacity: u32) -> Result<Queue, NoMemory>
        ensures { IfOk result (λ q. q ≡ record { capacity = capacity; waiting = [] }) }
    {
        Ok(Queue {
            entries: HeapCircularBuffer::with_capacity(alloc, capacity as usize)?,
        })
    }

    /// Whether a further message may wait.
    pub fn has_room(&self) -> bool
        ensures { result ≡ nat_lt (length self.now.waiting) self.now.capacity }
    {
        self.entries.len() < self.entries.capacity()
    }

    /// Whether no message waits.
    pub fn is_empty(&self) -> bool
        ensures { result ≡ (length self.now.waiting == 0) }
    {
        self.entries.len() == 0
    }

    /// How many messages wait.
    pub fn len(&self) -> u64
        ensures value { result ≡ length self.now.waiting }
        ensures few { result ≤ self.now.capacity }
    {
        self.entries.len() as u64
    }

    /// Puts a message behind those that wait. It takes no memory.
    pub fn push(&mut self, epoch: u32, name: Name, payload: &[u8])
        requires room { length self.old.waiting < self.old.capacity }
        requires short { length payload.now ≤ 1200 }
        ensures { self.new ≡ record self.old { waiting = self.old.waiting ++ record { epoch = epoch; message = record { name = name; payload = payload.now } } ∷ [] } }
    {
        let mut bytes = [0; MOST_PAYLOAD];
        bytes[..payload.len()].copy_from_slice(payload);
        self.entries.push_back(Waiting {
            epoch,
            name,
            length: payload.len() as u16,
            bytes,
        });
    }

    /// Lets the first message go that waits; its payload is then at the front of the buffer, whose rest stays as it was.
    /// `None` exactly where none waits. It takes no memory.
    pub fn pop(&mut self, into: &mut [u8; MOST_PAYLOAD]) -> Option<Popped>
        ensures value { popped_shown result into.new ≡ slice_get self.old.waiting 0 }
        ensures waiting { self.new.waiting ≡ drop 1 self.old.waiting }
        ensures capacity { self.new.capacity ≡ self.old.capacity }
        ensures behind { PoppedKeepsBehind result into.old into.new }
    {
        let Some(waiting) = self.entries.pop_front() else {
            return None;
        };
        let length = usize::from(waiting.length);
        into[..length].copy_from_slice(&waiting.bytes[..length]);
        Some(Popped {
            epoch: waiting.epoch,
            name: waiting.name,
            length: waiting.length,
        })
    }
}

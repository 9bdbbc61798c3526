//! The buffer of a receiver.

ghost use Rattle.std.specs.Prelude.{◌≡◌, ◌<◌, ◌≤◌, [], ◌∷◌, ◌++◌, ◌&&◌, false, true, not, length, map, option_map, IfOk, IfSome, MatchOption, Some, cond, count_by};
ghost use Rattle.std.specs.List.{filter, find, list_any};
ghost use Rattle.tesla_base.specs.Members.{Distinct, is_in};
ghost use Rattle.tesla_buffer.specs.Held.{Held, IsMadeOf, changed, first_slot, is_at, is_live, is_of, is_released_as, is_resting, is_unreleased_at, is_unreleased_of, is_untaken, next_slot, next_unreleased, settled};

use crate::parts::{key_of_name, rests, vacant_slot, write_parts};
use crate::{Fate, Item};
use std::alloc::Global;
use std::marker::Model;
use tesla_base::{Name, NoMemory, Place};
use tesla_frame::DataView;
use tesla_links::{Index, KeyTable};

/// 1 for a packet that wasn't taken, and else 0.
fn untaken(item: &Item) -> u32
    ensures value { result ≡ cond (not item.now.taken) 1 0 }
    ensures few { result ≤ 1 }
{
    if item.taken { 0 } else { 1 }
}

/// Packets that are held, each at a place that it keeps until it is gone, in the order in which they came.
///
/// The packets of an interval are found by it, also those alone that were not released, and a released packet by its
/// name. No call but `clear` goes over packets, whatever is held. A place that was never used is never touched, and the
/// place that became vacant last is the first to be used again.
#[derive(Drop)]
pub struct Buffer {
    capacity: u32,
    slots: Vec<Item>,
    free: Vec<u32>,
    index: Index,
    released: KeyTable,
    /// Of each place, whether its packet doesn't wait to be taken, beside the slots: a packet that is let go long after
    /// it was taken isn't looked at again.
    resting: Vec<bool>,
}

impl Model for Buffer {
    ghost use Rattle.std.specs.Prelude.{◌≤◌, ◌+◌, map};
    ghost use Rattle.std.specs.Vec.{vec_capacity};
    ghost use Rattle.tesla_buffer.specs.Held.{Holding};
    ghost use Rattle.tesla_buffer.specs.Stored.{IsBeside, IsStored, held_at};

    ghost Value = { Holding };

    ghost view = { λ b. record {
      capacity = b.capacity;
      held = map (held_at b.slots.items) b.index.entries;
      reserved = vec_capacity b.slots + vec_capacity b.free + b.index.reserved + b.released.reserved + vec_capacity b.resting;
    } };

    ghost invariant = { λ b. IsStored b.capacity b.slots.items b.free.items b.index b.released.slots × (b.capacity ≤ vec_capacity b.slots) × (b.capacity ≤ vec_capacity b.free) × IsBeside b.capacity b.slots.items b.resting.items };
}

impl Buffer {
    /// A buffer that can hold so many packets and holds none. All memory is taken here.
    pub fn open(alloc: Global, capacity: u32) -> Result<Buffer, NoMemory>
        requires some { 1 ≤ capacity }
        requires most { capacity ≤ 65536 }
        ensures { IfOk result (λ b. b ≡ record { capacity = capacity; held = []; reserved = b.reserved }) }
    {
        Ok(Buffer {
            capacity,
            slots: Vec::with_capacity(alloc, capacity as usize)?,
            free: Vec::with_capacity(alloc, capacity as usize)?,
            index: Index::open(alloc, capacity)?,
            released: KeyTable::open(alloc, capacity)?,
            resting: vec![in alloc; true; capacity as usize]?,
        })
    }

    /// Holds a packet, behind the others, at a vacant place. It takes no memory.
    pub fn put(&mut self, item: &Item) -> Place
        requires { length self.old.held < self.old.capacity }
        ensures held { self.new.held ≡ self.old.held ++ record { place = result.0; item = item.now } ∷ [] }
        ensures vacant { is_live result.0 self.old.held ≡ false }
        ensures within { result.0 < self.old.capacity }
        ensures capacity { self.new.capacity ≡ self.old.capacity }
        ensures reserved { self.new.reserved ≡ self.old.reserved }
    {
        let place = vacant_slot(&mut self.slots, &mut self.free);
        self.slots[place as usize] = *item;
        self.resting[place as usize] = rests(item);
        self.index.append(u64::from(item.name.interval), place);
        if item.released {
            self.released.enter(place, key_of_name(item.name));
            self.index.mark(place);
        }
        Place(place)
    }

    /// Holds the packet of a data frame, behind the others, at a vacant place: not released and not taken. Only the
    /// bytes and the tags that are there are copied, from the datagram into the place; the bytes behind the payload and
    /// the tags behind those of the frame are left as they were. It takes no memory.
    pub fn put_frame(&mut self, order: u64, chains: u8, frame: &DataView<'_>) -> Place
        requires { length self.old.held < self.old.capacity }
        ensures held { (item : Item) × IsMadeOf order chains frame.now item × (self.new.held ≡ self.old.held ++ record { place = result.0; item = item } ∷ []) }
        ensures vacant { is_live result.0 self.old.held ≡ false }
        ensures within { result.0 < self.old.capacity }
        ensures capacity { self.new.capacity ≡ self.old.capacity }
        ensures reserved { self.new.reserved ≡ self.old.reserved }
        ensures few { length frame.now.rows ≤ 8 }
        ensures payload { length frame.now.payload ≤ 1200 }
    {
        let place = vacant_slot(&mut self.slots, &mut self.free);
        write_parts(&mut self.slots[place as usize], order, chains, frame);
        self.resting[place as usize] = true;
        self.index.append(u64::from(frame.name().interval), place);
        Place(place)
    }

    /// How many packets are held. Their places differ and are below the capacity.
    pub fn held(&self) -> u32
        ensures held { result ≡ length self.now.held }
        ensures within { result ≤ self.now.capacity }
        ensures distinct { Distinct (map (λ h. h.place) self.now.held) }
    {
        self.index.len()
    }

    /// How many packets can be held.
    pub fn capacity(&self) -> u32
        ensures { result ≡ self.now.capacity }
    {
        self.capacity
    }

    /// How many packets of an interval are held.
    pub fn held_in(&self, interval: u32) -> u32
        ensures { result ≡ length (filter (is_of interval) self.now.held) }
    {
        self.index.count(u64::from(interval))
    }

    /// The packet at a place.
    pub fn item(&self, place: Place) -> &Item
        requires { is_live place.0 self.now.held ≡ true }
        ensures item { find (is_at place.0) self.now.held ≡ Some (record { place = place.0; item = result.now }) }
        ensures within { place.0 < self.now.capacity }
    {
        &self.slots[place.0 as usize]
    }

    /// Whether the packet at a place doesn't wait to be taken: it was not released, or it was taken. The packet itself
    /// isn't looked at.
    pub fn is_resting(&self, place: Place) -> bool
        requires { is_live place.0 self.now.held ≡ true }
        ensures { option_map (λ h. is_resting h.item) (find (is_at place.0) self.now.held) ≡ Some result }
    {
        self.resting[place.0 as usize]
    }

    /// The place of the first packet of an interval; `None` exactly where none is held.
    pub fn first_of(&self, interval: u32) -> Option<Place>
        ensures place { result ≡ first_slot (filter (is_of interval) self.now.held) }
        ensures live { IfSome result (λ p. is_live p.0 self.now.held ≡ true) }
    {
        let Some(place) = self.index.first(u64::from(interval)) else {
            return None;
        };
        Some(Place(place))
    }

    /// The place of the next packet of the same interval as the one at a place; `None` exactly where that is the
    /// last.
    pub fn next_of(&self, place: Place) -> Option<Place>
        requires { is_live place.0 self.now.held ≡ true }
        ensures place { result ≡ next_slot place.0 self.now.held }
        ensures live { IfSome result (λ p. is_live p.0 self.now.held ≡ true) }
    {
        let Some(next) = self.index.next(place.0) else {
            return None;
        };
        Some(Place(next))
    }

    /// How many packets of an interval are held that were not released.
    pub fn unreleased_in(&self, interval: u32) -> u32
        ensures { result ≡ length (filter (is_unreleased_of interval) self.now.held) }
    {
        self.index.count_unmarked(u64::from(interval))
    }

    /// The place of the first packet of an interval that was not released; `None` exactly where none is held.
    pub fn first_unreleased(&self, interval: u32) -> Option<Place>
        ensures place { result ≡ first_slot (filter (is_unreleased_of interval) self.now.held) }
        ensures live { IfSome result (λ p. is_live p.0 self.now.held ≡ true) }
        ensures unreleased { IfSome result (λ p. list_any (is_unreleased_at p.0) self.now.held ≡ true) }
    {
        let Some(place) = self.index.first_unmarked(u64::from(interval)) else {
            return None;
        };
        Some(Place(place))
    }

    /// The place of the next packet that was not released, of the same interval as the one at a place, which was not
    /// released either; `None` exactly where that is the last.
    pub fn next_unreleased(&self, place: Place) -> Option<Place>
        requires { list_any (is_unreleased_at place.0) self.now.held ≡ true }
        ensures place { result ≡ next_unreleased place.0 self.now.held }
        ensures live { IfSome result (λ p. is_live p.0 self.now.held ≡ true) }
        ensures unreleased { IfSome result (λ p. list_any (is_unreleased_at p.0) self.now.held ≡ true) }
    {
        let Some(behind) = self.index.next_unmarked(place.0) else {
            return None;
        };
        Some(Place(behind))
    }

    /// The place of a packet of this name that was released; `None` exactly where none is held. Where there are
    /// several, it is any of them.
    pub fn released_named(&self, name: Name) -> Option<Place>
        ensures place { MatchOption result (list_any (is_released_as name) self.now.held ≡ false) (λ p. list_any (λ h. is_at p.0 h && is_released_as name h) self.now.held ≡ true) }
        ensures live { IfSome result (λ p. is_live p.0 self.now.held ≡ true) }
    {
        let Some(place) = self.released.find(key_of_name(name)) else {
            return None;
        };
        Some(Place(place))
    }

    /// Marks the packet at a place as released.
    fn mark_released(&mut self, place: u32)
        requires { is_live place self.old.held ≡ true }
        ensures held { self.new.held ≡ settled place Fate.Released self.old.held }
        ensures capacity { self.new.capacity ≡ self.old.capacity }
        ensures reserved { self.new.reserved ≡ self.old.reserved }
    {
        let item = &mut self.slots[place as usize];
        item.released = true;
        let (name, taken) = (item.name, item.taken);
        self.resting[place as usize] = taken;
        self.released.enter(place, key_of_name(name));
        self.index.mark(place);
    }

    /// Marks the packet at a place as taken.
    fn mark_taken(&mut self, place: u32)
        requires { is_live place self.old.held ≡ true }
        ensures held { self.new.held ≡ settled place Fate.Taken self.old.held }
        ensures capacity { self.new.capacity ≡ self.old.capacity }
        ensures reserved { self.new.reserved ≡ self.old.reserved }
    {
        self.slots[place as usize].taken = true;
        self.resting[place as usize] = true;
    }

    /// Holds the packet at a place no longer.
    fn remove(&mut self, place: u32)
        requires { is_live place self.old.held ≡ true }
        ensures held { self.new.held ≡ settled place Fate.Gone self.old.held }
        ensures capacity { self.new.capacity ≡ self.old.capacity }
        ensures reserved { self.new.reserved ≡ self.old.reserved }
    {
        self.index.remove(place);
        self.released.clear(place);
        self.free.push_reserved(place);
    }

    /// The place of the packet that came first of all; `None` exactly where none is held.
    fn oldest(&self) -> Option<Place>
        ensures place { result ≡ first_slot self.now.held }
        ensures distinct { Distinct (map (λ h. h.place) self.now.held) }
    {
        let Some(place) = self.index.oldest() else {
            return None;
        };
        Some(Place(place))
    }

    /// Holds no packet any more: all places are vacant. It tells how many of those that were held weren't taken. It takes no
    /// memory, and goes over the packets that were held.
    pub fn clear(&mut self) -> u32
        ensures dropped { result ≡ count_by is_untaken self.old.held }
        ensures held { self.new.held ≡ [] }
        ensures capacity { self.new.capacity ≡ self.old.capacity }
        ensures reserved { self.new.reserved ≡ self.old.reserved }
    {
        let mut dropped = 0;
        for _gone in 0..self.held() {
            let Some(place) = self.oldest() else {
                return dropped;
            };
            dropped += untaken(self.item(place));
            self.remove(place.0);
        }
        dropped
    }

    /// Settles what becomes of the packet at a place: it is marked as released or as taken, or is held no longer.
    /// All others stay as they are, in order. It takes no memory.
    pub fn settle(&mut self, place: Place, fate: Fate)
        requires { is_live place.0 self.old.held ≡ true }
        ensures held { self.new.held ≡ settled place.0 fate self.old.held }
        ensures capacity { self.new.capacity ≡ self.old.capacity }
        ensures reserved { self.new.reserved ≡ self.old.reserved }
    {
        match fate {
            Fate::Released => self.mark_released(place.0),
            Fate::Taken => self.mark_taken(place.0),
            Fate::Gone => self.remove(place.0),
        }
    }
}

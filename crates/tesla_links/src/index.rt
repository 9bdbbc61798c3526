//! Places that are listed in order, and by their keys.

ghost use Rattle.std.specs.Prelude.{◌≡◌, ◌+◌, ◌<◌, ◌≤◌, ◌⊎◌, [], ◌∷◌, ◌++◌, false, true, not, length, replicate, slice_get, slice_set, IfOk};
ghost use Rattle.std.specs.List.{filter, list_any};
ghost use Rattle.tesla_links.specs.Entries.{first_slot, is_at, is_under, is_unmarked_at, is_unmarked_under, marked_at, next_slot, next_unmarked};
ghost use Rattle.tesla_links.specs.Slots.{has_key, is_vacant};

use crate::{KeyTable, Links};
use std::alloc::Global;
use std::marker::Model;
use tesla_base::NoMemory;

/// Entries of a key and a slot, in the order in which they came. A slot has one entry at most; a key may have
/// many. The entries of a key are found by it, and each leads to the next. An entry may be marked; the unmarked ones
/// of a key are found in the same way, and marked ones are not passed on the way.
///
/// The slots of a key in use are a group, found by a hash table of as many slots as there may be entries. So no
/// call goes over entries, be they of the same key or of others.
#[derive(Drop)]
pub struct Index {
    capacity: u32,
    order: Links,
    members: Links,
    /// For each group its unmarked slots, and behind these lists one of the marked slots of all groups.
    unmarked: Links,
    groups: Vec<u32>,
    keys: KeyTable,
}

impl Model for Index {
    ghost use Rattle.std.specs.Prelude.{◌+◌};
    ghost use Rattle.std.specs.Vec.{vec_capacity};
    ghost use Rattle.tesla_links.specs.Entries.{Entries};
    ghost use Rattle.tesla_links.specs.Indexed.{IsIndexed, IsMarked, entries_of, is_marked};

    ghost Value = { Entries };

    ghost view = { λ t. record {
      capacity = t.capacity;
      entries = entries_of t.order t.keys.slots t.groups.items (is_marked t.capacity t.unmarked);
      reserved = t.order.reserved + t.members.reserved + t.unmarked.reserved + vec_capacity t.groups + t.keys.reserved;
    } };

    ghost invariant = { λ t. IsIndexed t.capacity t.order t.members t.groups.items t.keys.slots × IsMarked t.capacity t.order t.members t.unmarked };
}

/// The group of a key, which is a vacant one where the key has none yet.
fn enter_group(keys: &mut KeyTable, key: u64) -> u32
    requires { list_any is_vacant keys.old.slots ≡ true }
    ensures keys { keys.new.slots ≡ slice_set keys.old.slots result (Some key) }
    ensures group { (slice_get keys.old.slots result ≡ Some (Some key)) ⊎ ((slice_get keys.old.slots result ≡ Some None) × (list_any (has_key key) keys.old.slots ≡ false)) }
    ensures reserved { keys.new.reserved ≡ keys.old.reserved }
{
    if let Some(group) = keys.find(key) {
        return group;
    }
    let Some(group) = keys.vacant() else {
        unreachable!()
    };
    keys.enter(group, key);
    group
}

impl Index {
    /// An index without entries, for so many. All memory is taken here.
    pub fn open(alloc: Global, capacity: u32) -> Result<Index, NoMemory>
        requires some { 1 ≤ capacity }
        requires most { capacity ≤ 65536 }
        ensures { IfOk result (λ t. t ≡ record { capacity = capacity; entries = []; reserved = t.reserved }) }
    {
        Ok(Index {
            capacity,
            order: Links::open(alloc, 1, capacity)?,
            members: Links::open(alloc, capacity, capacity)?,
            unmarked: Links::open(alloc, capacity + 1, capacity)?,
            groups: vec![in alloc; 0; capacity as usize]?,
            keys: KeyTable::open(alloc, capacity)?,
        })
    }

    /// Puts an entry behind the others. It is not marked.
    pub fn append(&mut self, key: u64, slot: u32)
        requires room { length self.old.entries < self.old.capacity }
        requires slot { slot < self.old.capacity }
        requires absent { list_any (is_at slot) self.old.entries ≡ false }
        ensures capacity { self.new.capacity ≡ self.old.capacity }
        ensures reserved { self.new.reserved ≡ self.old.reserved }
        ensures entries { self.new.entries ≡ self.old.entries ++ record { key = key; place = slot; marked = false } ∷ [] }
    {
        let group = enter_group(&mut self.keys, key);
        self.groups[slot as usize] = group;
        self.members.append(group, slot);
        self.order.append(0, slot);
        self.unmarked.append(group, slot);
    }

    /// Marks the entry of a slot; the others stay as they are. One that is marked stays so.
    pub fn mark(&mut self, slot: u32)
        requires { list_any (is_at slot) self.old.entries ≡ true }
        ensures capacity { self.new.capacity ≡ self.old.capacity }
        ensures reserved { self.new.reserved ≡ self.old.reserved }
        ensures entries { self.new.entries ≡ marked_at slot self.old.entries }
    {
        self.unmarked.transfer(self.capacity, slot);
    }

    /// Removes the entry of a slot; the others stay in order.
    pub fn remove(&mut self, slot: u32)
        requires { list_any (is_at slot) self.old.entries ≡ true }
        ensures capacity { self.new.capacity ≡ self.old.capacity }
        ensures reserved { self.new.reserved ≡ self.old.reserved }
        ensures entries { self.new.entries ≡ filter (λ e. not (is_at slot e)) self.old.entries }
    {
        let group = self.groups[slot as usize];
        self.members.remove(slot);
        self.order.remove(slot);
        self.unmarked.remove(slot);
        if self.members.count(group) == 0 {
            self.keys.clear(group);
        }
    }

    /// The slot of the first entry with a key; `None` exactly where there is none.
    pub fn first(&self, key: u64) -> Option<u32>
        ensures { result ≡ first_slot (filter (is_under key) self.now.entries) }
    {
        let Some(group) = self.keys.find(key) else {
            return None;
        };
        self.members.first(group)
    }

    /// The slot of the next entry with the same key as that of a slot; `None` exactly where there is none.
    pub fn next(&self, slot: u32) -> Option<u32>
        requires { list_any (is_at slot) self.now.entries ≡ true }
        ensures { result ≡ next_slot slot self.now.entries }
    {
        let group = self.groups[slot as usize];
        self.members.next(group, slot)
    }

    /// How many entries have a key.
    pub fn count(&self, key: u64) -> u32
        ensures { result ≡ length (filter (is_under key) self.now.entries) }
    {
        match self.keys.find(key) {
            Some(group) => self.members.count(group),
            None => 0,
        }
    }

    /// The slot of the first unmarked entry with a key; `None` exactly where there is none.
    pub fn first_unmarked(&self, key: u64) -> Option<u32>
        ensures { result ≡ first_slot (filter (is_unmarked_under key) self.now.entries) }
    {
        let Some(group) = self.keys.find(key) else {
            return None;
        };
        self.unmarked.first(group)
    }

    /// The slot of the next unmarked entry with the same key as that of a slot, which is unmarked; `None` exactly
    /// where there is none.
    pub fn next_unmarked(&self, slot: u32) -> Option<u32>
        requires { list_any (is_unmarked_at slot) self.now.entries ≡ true }
        ensures { result ≡ next_unmarked slot self.now.entries }
    {
        let group = self.groups[slot as usize];
        self.unmarked.next(group, slot)
    }

    /// How many entries have a key and are not marked.
    pub fn count_unmarked(&self, key: u64) -> u32
        ensures { result ≡ length (filter (is_unmarked_under key) self.now.entries) }
    {
        match self.keys.find(key) {
            Some(group) => self.unmarked.count(group),
            None => 0,
        }
    }

    /// The slot of the entry that came first of all; `None` exactly where there is none.
    pub fn oldest(&self) -> Option<u32>
        ensures { result ≡ first_slot self.now.entries }
    {
        self.order.first(0)
    }

    /// How many entries there are.
    pub fn len(&self) -> u32
        ensures { result ≡ length self.now.entries }
    {
        self.order.count(0)
    }
}

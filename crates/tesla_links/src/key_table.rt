//! Places that are found by their keys.

ghost use Rattle.std.specs.Prelude.{◌≡◌, ◌+◌, ◌^◌, ◌<◌, ◌≤◌, ◌==◌, [], false, true, length, replicate, slice_get, slice_index, slice_set, IfOk, MatchOption, ℕ};
ghost use Rattle.std.specs.List.{list_any, range_with_len};
ghost use Rattle.tesla_base.specs.Members.{is_in};
ghost use Rattle.tesla_links.specs.Lists.{list_of};
ghost use Rattle.tesla_links.specs.Slots.{has_key, is_vacant};
ghost use Rattle.tesla_links.specs.Tables.{bucket_of};

use crate::Links;
use std::alloc::Global;
use std::marker::Model;
use tesla_base::NoMemory;

/// A hash table of a fixed number of slots. Each slot has a key or is vacant. A slot is found by its key, and
/// a vacant one by being so.
///
/// The slots whose keys have one bucket are linked, so a look-up goes over these alone. There are as many
/// buckets as slots. Keys below 2^32 that follow one another have different buckets.
#[derive(Drop)]
pub struct KeyTable {
    capacity: u32,
    chains: Links,
    keys: Vec<u64>,
}

impl Model for KeyTable {
    ghost use Rattle.std.specs.Prelude.{◌+◌};
    ghost use Rattle.std.specs.Vec.{vec_capacity};
    ghost use Rattle.tesla_links.specs.Slots.{Slots};
    ghost use Rattle.tesla_links.specs.Tables.{IsKeyed, slots_of};

    ghost Value = { Slots };

    ghost view = { λ t. record { slots = slots_of t.capacity t.chains t.keys.items; reserved = t.chains.reserved + vec_capacity t.keys } };

    ghost invariant = { λ t. IsKeyed t.capacity t.chains t.keys.items (slots_of t.capacity t.chains t.keys.items) };
}

/// The bucket of a key.
fn bucket(buckets: u32, key: u64) -> u32
    requires { 1 ≤ buckets }
    ensures value { result ≡ bucket_of buckets key }
    ensures within { result < buckets }
{
    let mixed = key % 0x1_0000_0000 + key / 0x1_0000_0000 * 40503;
    (mixed % u64::from(buckets)) as u32
}

/// Lists for so many buckets, which are empty, and one for the vacant slots, which has all.
fn vacant_chains(alloc: Global, capacity: u32) -> Result<Links, NoMemory>
    requires { capacity ≤ 65536 }
    ensures { IfOk result (λ l. l ≡ record { slot_count = capacity; lists = slice_set (replicate (capacity + 1) []) capacity (range_with_len 0 capacity); reserved = l.reserved }) }
{
    let mut chains = Links::open(alloc, capacity + 1, capacity)?;
    for slot in 0..capacity {
        chains.append(capacity, slot);
    }
    Ok(chains)
}

/// The first slot of a list that has a key.
fn find_in(chains: &Links, keys: &[u64], list: u32, key: u64) -> Option<u32>
    requires list { list < length chains.now.lists }
    requires keyed { (p : ℕ) → is_in p (list_of chains.now list) ≡ true → p < length keys.now }
    ensures { MatchOption result (list_any (λ p. slice_index keys.now p == key) (list_of chains.now list) ≡ false) (λ p. (is_in p (list_of chains.now list) ≡ true) × (slice_index keys.now p ≡ key)) }
{
    let mut next = chains.first(list);
    for _ in 0..chains.count(list) {
        let Some(slot) = next else { return None };
        if keys[slot as usize] == key {
            return Some(slot);
        }
        next = chains.next(list, slot);
    }
    None
}

impl KeyTable {
    /// A table of so many slots, all vacant. All memory is taken here.
    pub fn open(alloc: Global, capacity: u32) -> Result<KeyTable, NoMemory>
        requires some { 1 ≤ capacity }
        requires most { capacity ≤ 65536 }
        ensures { IfOk result (λ t. t.slots ≡ replicate capacity None) }
    {
        Ok(KeyTable {
            capacity,
            chains: vacant_chains(alloc, capacity)?,
            keys: vec![in alloc; 0; capacity as usize]?,
        })
    }

    /// Gives a slot a key.
    pub fn enter(&mut self, slot: u32, key: u64)
        requires { slot < length self.old.slots }
        ensures slots { self.new.slots ≡ slice_set self.old.slots slot (Some key) }
        ensures reserved { self.new.reserved ≡ self.old.reserved }
    {
        self.chains.transfer(bucket(self.capacity, key), slot);
        self.keys[slot as usize] = key;
    }

    /// Makes a slot vacant.
    pub fn clear(&mut self, slot: u32)
        requires { slot < length self.old.slots }
        ensures slots { self.new.slots ≡ slice_set self.old.slots slot None }
        ensures reserved { self.new.reserved ≡ self.old.reserved }
    {
        self.chains.transfer(self.capacity, slot);
    }

    /// A slot that has a key; `None` exactly where no slot has it.
    pub fn find(&self, key: u64) -> Option<u32>
        ensures { MatchOption result (list_any (has_key key) self.now.slots ≡ false) (λ p. slice_get self.now.slots p ≡ Some (Some key)) }
    {
        find_in(&self.chains, &self.keys, bucket(self.capacity, key), key)
    }

    /// A vacant slot; `None` exactly where there is none.
    pub fn vacant(&self) -> Option<u32>
        ensures { MatchOption result (list_any is_vacant self.now.slots ≡ false) (λ p. slice_get self.now.slots p ≡ Some None) }
    {
        self.chains.first(self.capacity)
    }
}

//! Circular lists over one table of nodes.

ghost use Rattle.std.specs.Prelude.{◌≡◌, ◌+◌, ◌-◌, ◌^◌, ◌<◌, ◌≤◌, [], ◌∷◌, ◌++◌, false, true, length, map, replicate, slice_get, slice_set, IfOk};
ghost use Rattle.std.specs.List.{list_any, range_with_len};
ghost use Rattle.tesla_base.specs.Members.{Distinct, is_in, next_in, without};
ghost use Rattle.tesla_links.specs.Lists.{list_of, moved};

use std::alloc::{AllocError, Global};
use std::marker::Model;
use tesla_base::NoMemory;

/// Lists of numbers below a bound. A number stands in one list at most, and there once. Every call but `open` takes
/// the same time, however many numbers the lists have.
///
/// Each list is a ring, linked both ways, so that its first and its last number are changed as any other. Node p of
/// the tables is the number p; node `slot_count + k` is the head of list k.
#[derive(Drop)]
pub struct Links {
    slot_count: u32,
    after: Vec<u32>,
    before: Vec<u32>,
    owners: Vec<u32>,
    counts: Vec<u32>,
}

impl Model for Links {
    ghost use Rattle.std.specs.Prelude.{◌+◌};
    ghost use Rattle.std.specs.Vec.{vec_capacity};
    ghost use Rattle.tesla_links.specs.Lists.{Lists};
    ghost use Rattle.tesla_links.specs.Rings.{IsLinked, lists_of};

    ghost Value = { Lists };

    ghost view = { λ l. record {
      slot_count = l.slot_count;
      lists = lists_of l.slot_count l.after.items l.counts.items;
      reserved = vec_capacity l.after + vec_capacity l.before + vec_capacity l.owners + vec_capacity l.counts;
    } };

    ghost invariant = { λ l. IsLinked l.slot_count l.after.items l.before.items l.owners.items l.counts.items (lists_of l.slot_count l.after.items l.counts.items) };
}

/// The numbers from 0 up to a bound.
fn numbers(alloc: Global, count: u32) -> Result<Vec<u32>, AllocError>
    ensures { IfOk result (λ v. v.items ≡ range_with_len 0 count) }
{
    let mut numbers = Vec::with_capacity(alloc, count as usize)?;
    for number in 0..count {
        numbers.push(number)?;
    }
    Ok(numbers)
}

impl Links {
    /// So many empty lists of numbers below `slot_count`. All memory is taken here.
    pub fn open(alloc: Global, lists: u32, slot_count: u32) -> Result<Links, NoMemory>
        requires few { lists ≤ 2 ^ 20 }
        requires small { slot_count ≤ 2 ^ 20 }
        ensures { IfOk result (λ l. l ≡ record { slot_count = slot_count; lists = replicate lists []; reserved = l.reserved }) }
    {
        Ok(Links {
            slot_count,
            after: numbers(alloc, slot_count + lists)?,
            before: numbers(alloc, slot_count + lists)?,
            owners: vec![in alloc; 0; slot_count as usize]?,
            counts: vec![in alloc; 0; lists as usize]?,
        })
    }

    /// Puts a number at the end of a list.
    pub fn append(&mut self, list: u32, slot: u32)
        requires list { list < length self.old.lists }
        requires slot { slot < self.old.slot_count }
        requires nowhere { list_any (is_in slot) self.old.lists ≡ false }
        ensures slot_count { self.new.slot_count ≡ self.old.slot_count }
        ensures reserved { self.new.reserved ≡ self.old.reserved }
        ensures lists { self.new.lists ≡ slice_set self.old.lists list (list_of self.old list ++ slot ∷ []) }
    {
        let head = self.slot_count + list;
        let last = self.before[head as usize];
        self.after[last as usize] = slot;
        self.after[slot as usize] = head;
        self.before[slot as usize] = last;
        self.before[head as usize] = slot;
        self.owners[slot as usize] = list;
        self.counts[list as usize] += 1;
    }

    /// Takes a number out of the list in which it stands.
    pub fn remove(&mut self, slot: u32)
        requires somewhere { list_any (is_in slot) self.old.lists ≡ true }
        ensures slot_count { self.new.slot_count ≡ self.old.slot_count }
        ensures reserved { self.new.reserved ≡ self.old.reserved }
        ensures lists { self.new.lists ≡ map (without slot) self.old.lists }
        ensures within { slot < self.old.slot_count }
    {
        let after = self.after[slot as usize];
        let before = self.before[slot as usize];
        let list = self.owners[slot as usize];
        self.after[before as usize] = after;
        self.before[after as usize] = before;
        self.counts[list as usize] -= 1;
    }

    /// Takes a number out of the list in which it stands, and puts it at the end of a list.
    pub fn transfer(&mut self, list: u32, slot: u32)
        requires list { list < length self.old.lists }
        requires somewhere { list_any (is_in slot) self.old.lists ≡ true }
        ensures slot_count { self.new.slot_count ≡ self.old.slot_count }
        ensures reserved { self.new.reserved ≡ self.old.reserved }
        ensures lists { self.new.lists ≡ moved slot list self.old.lists }
    {
        self.remove(slot);
        self.append(list, slot);
    }

    /// The first number of a list; `None` exactly where the list is empty.
    pub fn first(&self, list: u32) -> Option<u32>
        requires { list < length self.now.lists }
        ensures value { result ≡ slice_get (list_of self.now list) 0 }
        ensures distinct { Distinct (list_of self.now list) }
    {
        let head = self.slot_count + list;
        let first = self.after[head as usize];
        if first == head {
            return None;
        }
        Some(first)
    }

    /// The number behind another one in its list; `None` exactly where it is the last.
    pub fn next(&self, list: u32, slot: u32) -> Option<u32>
        requires list { list < length self.now.lists }
        requires slot { is_in slot (list_of self.now list) ≡ true }
        ensures value { result ≡ next_in slot (list_of self.now list) }
        ensures distinct { Distinct (list_of self.now list) }
    {
        let next = self.after[slot as usize];
        if next == self.slot_count + list {
            return None;
        }
        Some(next)
    }

    /// How many numbers stand in a list.
    pub fn count(&self, list: u32) -> u32
        requires { list < length self.now.lists }
        ensures { result ≡ length (list_of self.now list) }
    {
        self.counts[list as usize]
    }
}

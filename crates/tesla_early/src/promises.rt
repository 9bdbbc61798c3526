//! The last promises that were learnt.

ghost use Rattle.std.specs.Prelude.{◌≡◌, ◌≤◌, ◌<◌, ◌++◌, ◌∷◌, [], IfOk, ℕ, false, true, find, length};
ghost use Rattle.std.specs.List.{list_any};
ghost use Rattle.sha2.specs.Sha256.{sha256};
ghost use Rattle.tesla_base.specs.Members.{is_in};
ghost use Rattle.tesla_links.specs.Lists.{list_of};
ghost use Rattle.tesla_early.specs.Kept.{is_of_message, is_of_name, use_first_kept};
ghost use Rattle.tesla_early.specs.Learnt.{last_of};
ghost use Rattle.tesla_early.specs.Ring.{IsDigest, bucket_of, count_after, is_found, kept_in, index_after, room_made, without_below};

use crate::{Promise, hash_of};
use std::alloc::Global;
use std::marker::Model;
use tesla_base::{Name, NoMemory};
use tesla_links::Links;

/// A promise at its place, and whether it is used.
#[derive(Clone, Copy)]
struct Slot {
    promise: Promise,
    used: bool,
}

/// A place that has no promise yet.
const EMPTY: Slot = Slot {
    promise: Promise {
        name: Name {
            interval: 0,
            number: 0,
        },
        hash: [0; 32],
    },
    used: false,
};

/// The last promises that were learnt, in a ring of fixed size. A promise is found by the name that it is of, without
/// going over those in other buckets; one that is used isn't found any more, and stays in its place until newer ones
/// push it out.
#[derive(Drop)]
pub struct Promises {
    most: u32,
    /// How many places are taken.
    count: u32,
    /// The place of the next promise: that of the oldest, once all places are taken.
    next: u32,
    /// For each bucket the places of its promises, in the order in which they were learnt. There are as many as places.
    buckets: Links,
    slots: Vec<Slot>,
}

impl Model for Promises {
    ghost use Rattle.std.specs.Prelude.{◌+◌, map, vec_capacity};
    ghost use Rattle.tesla_early.specs.Ring.{IsRing, kept_at, order_of};
    ghost use Rattle.tesla_early.specs.Stands.{PromiseState};

    ghost Value = { PromiseState };

    ghost view = { λ p. record {
      most = p.most;
      kept = map (kept_at p.slots.items) (order_of p.count p.next);
      reserved = p.buckets.reserved + vec_capacity p.slots;
    } };

    ghost invariant = { λ p. IsRing p.most p.count p.next p.buckets p.slots.items };
}

/// The bucket of a name. The names of one interval have different buckets, up to as many as there are, and those of the
/// next interval begin 61 buckets further on.
fn bucket(buckets: u32, name: Name) -> u32
    requires { 1 ≤ buckets }
    ensures value { result ≡ bucket_of buckets name }
    ensures within { result < buckets }
{
    let number = u64::from(name.interval) * 61 + u64::from(name.number);
    (number % u64::from(buckets)) as u32
}

/// The place behind this one, round a ring of so many places.
fn index_after(most: u32, place: u32) -> u32
    requires { place < most }
    ensures { result ≡ index_after most place }
{
    if place + 1 == most { 0 } else { place + 1 }
}

/// How many places are taken once one promise more is learnt.
fn count_after(most: u32, count: u32) -> u32
    requires { count ≤ most }
    ensures { result ≡ count_after most count }
{
    if count == most { most } else { count + 1 }
}

/// Makes room for one promise more: where all places are taken, this one is taken out of its bucket.
fn make_room(buckets: &mut Links, most: u32, count: u32, place: u32)
    requires { count ≡ most → list_any (is_in place) buckets.old.lists ≡ true }
    ensures slot_count { buckets.new.slot_count ≡ buckets.old.slot_count }
    ensures reserved { buckets.new.reserved ≡ buckets.old.reserved }
    ensures lists { buckets.new.lists ≡ room_made most count place buckets.old.lists }
{
    if count == most {
        buckets.remove(place);
    }
}

/// Tells whether a promise isn't used and is of a message of this name.
fn is_of_name(slot: &Slot, name: Name) -> bool
    ensures { result ≡ is_of_name name (kept_in slot.now) }
{
    let own = slot.promise.name;
    !slot.used && own.interval == name.interval && own.number == name.number
}

/// The digest of a payload, which is hashed where its digest isn't known.
fn digest_of(known: Option<[u8; 32]>, payload: &[u8]) -> [u8; 32]
    requires { IsDigest known payload.now }
    ensures { result ≡ sha256 payload.now }
{
    match known {
        Some(digest) => digest,
        None => hash_of(payload),
    }
}

/// Tells whether a promise isn't used and is of a message of this name with this payload. The payload is hashed where its
/// digest isn't known, and only where a promise of this name isn't used; then its digest is known.
fn is_of_message(slot: &Slot, name: Name, payload: &[u8], digest: &mut Option<[u8; 32]>) -> bool
    requires { IsDigest digest.old payload.now }
    ensures known { IsDigest digest.new payload.now }
    ensures value { result ≡ is_of_message name (sha256 payload.now) (kept_in slot.now) }
{
    if !is_of_name(slot, name) {
        return false;
    }
    let hash = digest_of(*digest, payload);
    *digest = Some(hash);
    slot.promise.hash.as_slice() == hash.as_slice()
}

/// Takes the places below this number out of their buckets.
fn take_out(buckets: &mut Links, places: u32)
    requires { (p : ℕ) → p < places → list_any (is_in p) buckets.old.lists ≡ true }
    ensures slot_count { buckets.new.slot_count ≡ buckets.old.slot_count }
    ensures reserved { buckets.new.reserved ≡ buckets.old.reserved }
    ensures lists { buckets.new.lists ≡ without_below places buckets.old.lists }
{
    for place in 0..places {
        buckets.remove(place);
    }
}

/// The first place of a bucket whose promise isn't used and is of a message of this name with this payload; `None` exactly
/// where there is none. The payload is hashed once at most, and only where a promise of this name isn't used.
fn find_index(
    buckets: &Links,
    slots: &[Slot],
    bucket: u32,
    name: Name,
    payload: &[u8],
) -> Option<u32>
    requires bucket { bucket < length buckets.now.lists }
    requires within { (p : ℕ) → is_in p (list_of buckets.now bucket) ≡ true → p < length slots.now }
    ensures { result ≡ find (is_found slots.now name (sha256 payload.now)) (list_of buckets.now bucket) }
{
    let mut digest = None;
    let mut next = buckets.first(bucket);
    for _ in 0..buckets.count(bucket) {
        let Some(place) = next else { return None };
        if is_of_message(&slots[place as usize], name, payload, &mut digest) {
            return Some(place);
        }
        next = buckets.next(bucket, place);
    }
    None
}

impl Promises {
    /// Room for so many promises, and none of them learnt. All memory is taken here: `reserved` tells for how many
    /// entries the tables have room, and no other call changes it. `NoMemory`: there wasn't enough.
    pub fn open(alloc: Global, most: u32) -> Result<Promises, NoMemory>
        requires some { 1 ≤ most }
        requires few { most ≤ 4096 }
        ensures most { IfOk result (λ promises. promises.most ≡ most) }
        ensures none { IfOk result (λ promises. promises.kept ≡ []) }
    {
        Ok(Promises {
            most,
            count: 0,
            next: 0,
            buckets: Links::open(alloc, most, most)?,
            slots: vec![in alloc; EMPTY; most as usize]?,
        })
    }

    /// Learns a promise: where all places are taken, the oldest is forgotten. It takes no memory.
    pub fn learn(&mut self, promise: &Promise)
        ensures most { self.new.most ≡ self.old.most }
        ensures reserved { self.new.reserved ≡ self.old.reserved }
        ensures kept { self.new.kept ≡ last_of self.old.most (self.old.kept ++ record { promise = promise.now; used = false } ∷ []) }
    {
        let place = self.next;
        make_room(&mut self.buckets, self.most, self.count, place);
        self.buckets.append(bucket(self.most, promise.name), place);
        self.slots[place as usize] = Slot {
            promise: *promise,
            used: false,
        };
        self.count = count_after(self.most, self.count);
        self.next = index_after(self.most, place);
    }

    /// Tells whether a promise isn't used and is of a message of this name with this payload. The payload is hashed only
    /// where a promise of this name isn't used.
    pub fn has(&self, name: Name, payload: &[u8]) -> bool
        ensures { result ≡ list_any (is_of_message name (sha256 payload.now)) self.now.kept }
    {
        let bucket = bucket(self.most, name);
        match find_index(&self.buckets, self.slots.as_slice(), bucket, name, payload) {
            Some(_place) => true,
            None => false,
        }
    }

    /// Forgets all promises. It takes no memory, and goes over those that were kept.
    pub fn clear(&mut self)
        ensures most { self.new.most ≡ self.old.most }
        ensures reserved { self.new.reserved ≡ self.old.reserved }
        ensures none { self.new.kept ≡ [] }
    {
        take_out(&mut self.buckets, self.count);
        self.count = 0;
        self.next = 0;
    }

    /// Uses the first promise that isn't used and is of a message of this name with this payload, and tells whether there is
    /// one. The payload is hashed only where a promise of this name isn't used. It takes no memory.
    pub fn use_up(&mut self, name: Name, payload: &[u8]) -> bool
        ensures most { self.new.most ≡ self.old.most }
        ensures reserved { self.new.reserved ≡ self.old.reserved }
        ensures found { result ≡ list_any (is_of_message name (sha256 payload.now)) self.old.kept }
        ensures used { self.new.kept ≡ use_first_kept (is_of_message name (sha256 payload.now)) self.old.kept }
    {
        let bucket = bucket(self.most, name);
        let Some(place) = find_index(&self.buckets, self.slots.as_slice(), bucket, name, payload)
        else {
            return false;
        };
        self.slots[place as usize].used = true;
        true
    }
}

//! The packets that are held, each in its place, and those that wait to be taken.

ghost use Rattle.std.specs.Prelude.{◌≡◌, ◌+◌, ◌<◌, ◌≤◌, ◌∷◌, ◌++◌, [], true, false, not, IfOk, length, map, filter, find, slice_get, option_map, is_some, Some, All, ℕ, count_by};
ghost use Rattle.std.specs.List.{list_any};
ghost use Rattle.tesla_fitting.specs.Rows.{tag_in};
ghost use Rattle.tesla_base.specs.Members.{Distinct};
ghost use Rattle.tesla_state.specs.Stored.{Placed, holding_at, stands_at, rests_at, waits, is_proved_by, with_released, without, slot_of, is_of, is_unreleased_at, is_unreleased_of, first_slot, next_slot, next_unreleased};
ghost use Rattle.tesla_walks.specs.ItemShown.{holding_in, IsItem};
ghost use Rattle.tesla_state.specs.Steps.{in_interval, is_named_so, is_untaken};

use std::alloc::Global;
use std::marker::Model;
use tesla_base::{Name, NoMemory, Place};
use tesla_buffer::{Buffer, Fate, Item};
use tesla_frame::DataView;
use tesla_release::{Queue, Waiting};
use tesla_walks::Proved;

/// The packets that are held, each in its place, and those that were released and wait to be taken. All memory is
/// taken when it is opened.
#[derive(Drop)]
pub struct Store {
    pub(super) buffer: Buffer,
    pub(super) queue: Queue,
    chains: u8,
}

impl Model for Store {
    ghost use Rattle.std.specs.Prelude.{◌+◌, map};
    ghost use Rattle.tesla_state.specs.Stored.{Stored, IsStore, placed_in, release_in};

    ghost Value = { Stored };

    ghost view = { λ s. record {
      capacity = s.buffer.capacity;
      chains = s.chains;
      held = map (placed_in s.chains) s.buffer.held;
      waiting = map (release_in (map (placed_in s.chains) s.buffer.held)) s.queue.waiting;
      given = s.queue.given;
      reserved = s.buffer.reserved + s.queue.capacity;
    } };

    ghost invariant = { λ s. IsStore s.buffer.capacity s.queue.capacity s.chains s.buffer.held s.queue.waiting };
}

impl Store {
    /// An empty store of this capacity, for packets with so many tags. All memory is taken here.
    pub fn open(alloc: Global, capacity: u32, chains: u8) -> Result<Store, NoMemory>
        requires some { 1 ≤ capacity }
        requires most { capacity ≤ 65536 }
        ensures { IfOk result (λ s. s ≡ record { capacity = capacity; chains = chains; held = []; waiting = []; given = 0; reserved = s.reserved }) }
    {
        Ok(Store {
            buffer: Buffer::open(alloc, capacity)?,
            queue: Queue::open(alloc, capacity)?,
            chains,
        })
    }

    /// Holds no packet any more and lets none wait, counts from 0 again, and is then for packets with so many tags. It tells
    /// how many of the packets that were held weren't taken. It takes no memory.
    pub fn clear(&mut self, chains: u8) -> u32
        ensures dropped { result ≡ count_by is_untaken (map holding_at self.old.held) }
        ensures cleared { self.new ≡ record self.old { chains = chains; held = []; waiting = []; given = 0 } }
    {
        let dropped = self.buffer.clear();
        self.queue.clear();
        self.chains = chains;
        dropped
    }

    /// How many packets are held.
    pub fn held(&self) -> u32
        ensures value { result ≡ length self.now.held }
        ensures most { result ≤ self.now.capacity }
        ensures apart { Distinct (map slot_of self.now.held) }
    {
        self.buffer.held()
    }

    /// How many released packets wait to be taken.
    pub fn waiting(&self) -> u32
        ensures { result ≡ length self.now.waiting }
    {
        self.queue.waiting()
    }

    /// How many packets of an interval are held.
    pub fn held_in(&self, interval: u32) -> u32
        ensures { result ≡ length (filter (λ x. in_interval interval x.holding) self.now.held) }
    {
        self.buffer.held_in(interval)
    }

    /// Whether a packet of this name is held that was released.
    pub fn is_released(&self, name: Name) -> bool
        ensures { result ≡ list_any (λ x. is_named_so name x.holding) self.now.held }
    {
        self.buffer.released_named(name).is_some()
    }

    /// The packet in a place.
    pub fn item(&self, place: Place) -> &Item
        requires { list_any (stands_at place.0) self.now.held ≡ true }
        ensures item { find (stands_at place.0) self.now.held ≡ Some (record { place = place.0; holding = holding_in self.now.chains result.now }) }
        ensures room { IsItem self.now.chains result.now }
    {
        self.buffer.item(place)
    }

    /// Whether the packet in a place doesn't wait to be taken. The packet itself isn't looked at.
    pub fn is_resting(&self, place: Place) -> bool
        requires { list_any (stands_at place.0) self.now.held ≡ true }
        ensures { (x : Placed) × (find (stands_at place.0) self.now.held ≡ Some x) × (result ≡ not (waits x)) }
    {
        self.buffer.is_resting(place)
    }

    /// The place of the first packet of an interval; `None` exactly where none is held.
    pub fn first_of(&self, interval: u32) -> Option<Place>
        ensures { result ≡ first_slot (filter (is_of interval) self.now.held) }
    {
        self.buffer.first_of(interval)
    }

    /// The place of the next packet of the same interval as the one in a place; `None` exactly where that is the
    /// last.
    pub fn next_of(&self, place: Place) -> Option<Place>
        requires { list_any (stands_at place.0) self.now.held ≡ true }
        ensures { result ≡ next_slot place.0 self.now.held }
    {
        self.buffer.next_of(place)
    }

    /// How many packets of an interval are held that aren't released.
    pub fn unreleased_in(&self, interval: u32) -> u32
        ensures { result ≡ length (filter (is_unreleased_of interval) self.now.held) }
    {
        self.buffer.unreleased_in(interval)
    }

    /// The place of the first packet of an interval that isn't released; `None` exactly where none is held.
    pub fn first_unreleased(&self, interval: u32) -> Option<Place>
        ensures { result ≡ first_slot (filter (is_unreleased_of interval) self.now.held) }
    {
        self.buffer.first_unreleased(interval)
    }

    /// The place of the next packet that isn't released, of the same interval as the one in a place, which isn't
    /// released either; `None` exactly where that is the last.
    pub fn next_unreleased(&self, place: Place) -> Option<Place>
        requires { list_any (is_unreleased_at place.0) self.now.held ≡ true }
        ensures { result ≡ next_unreleased place.0 self.now.held }
    {
        self.buffer.next_unreleased(place)
    }

    /// Holds the packet of a data frame, behind the others: it isn't released. These chains are safe.
    pub fn put(&mut self, order: u64, chains: u8, frame: &DataView<'_>)
        requires room { length self.old.held < self.old.capacity }
        requires rows { length frame.now.rows ≡ self.old.chains }
        ensures capacity { self.new.capacity ≡ self.old.capacity }
        ensures reserved { self.new.reserved ≡ self.old.reserved }
        ensures chains { self.new.chains ≡ self.old.chains }
        ensures held { (place : ℕ) × (self.new.held ≡ self.old.held ++ record { place = place; holding = record { order = order; name = frame.now.name; chains = chains; payload = frame.now.payload; tags = map tag_in frame.now.rows; released = false; taken = false } } ∷ []) }
        ensures waiting { self.new.waiting ≡ self.old.waiting }
        ensures given { self.new.given ≡ self.old.given }
    {
        let _place = self.buffer.put_frame(order, chains, frame);
    }

    /// Releases a packet that new keys prove. It waits behind the others.
    pub fn release(&mut self, proved: &Proved)
        requires { list_any (is_proved_by proved.now) self.old.held ≡ true }
        ensures capacity { self.new.capacity ≡ self.old.capacity }
        ensures reserved { self.new.reserved ≡ self.old.reserved }
        ensures chains { self.new.chains ≡ self.old.chains }
        ensures held { self.new.held ≡ map (with_released proved.now.place.0) self.old.held }
        ensures waiting { self.new.waiting ≡ self.old.waiting ++ proved.now.release ∷ [] }
        ensures given { self.new.given ≡ self.old.given }
    {
        self.buffer.settle(proved.place, Fate::Released);
        self.queue.push(Waiting {
            place: proved.place,
            chain: proved.release.chain.0,
        });
    }

    /// Lets a packet go that doesn't wait to be taken: its place is free.
    pub fn discard(&mut self, place: Place)
        requires { list_any (rests_at place.0) self.old.held ≡ true }
        ensures capacity { self.new.capacity ≡ self.old.capacity }
        ensures reserved { self.new.reserved ≡ self.old.reserved }
        ensures chains { self.new.chains ≡ self.old.chains }
        ensures held { self.new.held ≡ without place.0 self.old.held }
        ensures waiting { self.new.waiting ≡ self.old.waiting }
        ensures given { self.new.given ≡ self.old.given }
    {
        self.buffer.settle(place, Fate::Gone);
    }
}

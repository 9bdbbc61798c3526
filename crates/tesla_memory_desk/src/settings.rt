//! What a desk in memory was told of the objects that it opens.

ghost use Rattle.std.specs.Prelude.{◌≡◌, ◌≤◌, ◌∷◌, ◌++◌, List, ℕ, IfOk, OnOk, is_ok, if◌then◌else◌};
ghost use Rattle.std.specs.Option.{ForSome};
ghost use Rattle.tesla_memory_desk.specs.Calls.{new_calls};
ghost use Rattle.tesla_memory_desk.specs.Stored.{entries_in, newest, values_under};
ghost use Rattle.tesla_memory_desk.specs.Settings.{NamedSettings, no_settings, with_room, with_piece, with_failing_call, room_for, piece_for, failing_for, within_piece};

use crate::calls::Calls;
use crate::entries::{Entries, Named, collect_under, newest_under, put_under};
use std::alloc::Global;
use std::marker::Model;
use tesla_base::NoMemory;

/// Rooms, greatest pieces and failing calls, by name.
#[derive(Drop)]
pub struct Settings {
    room: usize,
    rooms: Entries<Named<usize>>,
    pieces: Entries<Named<usize>>,
    failing: Entries<Named<u64>>,
}

impl Model for Settings {
    ghost Value = { NamedSettings };

    ghost view = { λ it. record { room = it.room; rooms = entries_in it.rooms; pieces = entries_in it.pieces; failing = entries_in it.failing } };

    ghost invariant = { λ it. (name : List ℕ) → ForSome (newest (entries_in it.pieces) name) (λ most. 1 ≤ most) };
}

impl Settings {
    /// Nothing said of any name. Sinks and posts have this room.
    pub fn new(room: usize) -> Settings
        ensures { result ≡ no_settings room }
    {
        Settings {
            room,
            rooms: Entries::Empty,
            pieces: Entries::Empty,
            failing: Entries::Empty,
        }
    }

    /// Sets the room of sinks and posts under the name.
    pub fn set_room(&mut self, alloc: Global, name: &str, room: usize) -> Result<(), NoMemory>
        ensures { self.new ≡ (if is_ok result then with_room name.now room self.old else self.old) }
    {
        put_under(&mut self.rooms, alloc, name, room)
    }

    /// Sets the greatest piece of sources and sinks under the name.
    pub fn set_piece(&mut self, alloc: Global, name: &str, most: usize) -> Result<(), NoMemory>
        requires { 1 ≤ most }
        ensures { self.new ≡ (if is_ok result then with_piece name.now most self.old else self.old) }
    {
        put_under(&mut self.pieces, alloc, name, most)
    }

    /// Lets the call with this number fail, of each source, sink, link and post under the name.
    pub fn fail_call(&mut self, alloc: Global, name: &str, call: u64) -> Result<(), NoMemory>
        ensures { self.new ≡ (if is_ok result then with_failing_call name.now call self.old else self.old) }
    {
        put_under(&mut self.failing, alloc, name, call)
    }

    /// How many bytes a sink or a post under the name takes.
    pub fn room(&self, name: &str) -> usize
        ensures { result ≡ room_for self.now name.now }
    {
        match newest_under(&self.rooms, name.as_bytes()) {
            Some(room) => *room,
            None => self.room,
        }
    }

    /// The greatest piece under the name, where one was set.
    pub fn piece(&self, name: &str) -> Option<usize>
        ensures value { result ≡ piece_for self.now name.now }
        ensures some { ForSome result (λ most. 1 ≤ most) }
    {
        match newest_under(&self.pieces, name.as_bytes()) {
            Some(most) => Some(*most),
            None => None,
        }
    }

    /// The calls of a source, a sink, a link or a post under the name.
    pub fn calls(&self, alloc: Global, name: &str) -> Result<Calls, NoMemory>
        ensures { IfOk result (λ calls. calls ≡ new_calls (failing_for self.now name.now)) }
    {
        let mut failing = Vec::new(alloc);
        collect_under(&self.failing, name.as_bytes(), &mut failing)?;
        Ok(Calls::new(failing))
    }
}

/// The most bytes of this many that a call moves under a greatest piece, if there is one.
pub fn within_piece(piece: Option<usize>, count: usize) -> usize
    ensures exact { result ≡ within_piece piece count }
    ensures bound { result ≤ count }
    ensures moves { ForSome piece (λ most. 1 ≤ most) → 1 ≤ count → 1 ≤ result }
{
    match piece {
        Some(most) => count.min(most),
        None => count,
    }
}

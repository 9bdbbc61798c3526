//! A sink in memory.

ghost use Rattle.std.specs.Prelude.{◌≡◌, ◌≤◌, ◌+◌, ◌-◌, nat_lt, length, vec_len, vec_capacity, Some, IfOk};
ghost use Rattle.tesla_desk.specs.Faults.{HasCause};
ghost use Rattle.tesla_desk.specs.Outside.{Writes, Stalls};

use crate::calls::Calls;
use crate::entries::Named;
use crate::kept::Kept;
use crate::settings::within_piece;
use crate::stored::{StoredPage, StoredPages};
use std::alloc::Global;
use tesla_base::NoMemory;
use tesla_desk::{Sink, WriteStep};

/// Bytes written in memory, with a room that is taken at the opening. A write fails exactly where its
/// number is listed; one that finds no room takes nothing. Either counts as a fault.
pub struct Heap {
    kept: Kept<StoredPage>,
    room: usize,
    piece: Option<usize>,
    ghost fits: { vec_len kept.entry.value.bytes + room ≤ vec_capacity kept.entry.value.bytes },
}

impl Heap {
    ghost use Rattle.tesla_memory_desk.specs.Memory.{MadeSink, name_of, bytes_of, write_faults_of};

    /// An empty sink under this name, which takes `room` bytes and has not failed yet.
    pub(crate) fn new(
        alloc: Global,
        name: &str,
        room: usize,
        piece: Option<usize>,
        calls: Calls,
    ) -> Result<Heap, NoMemory>
        ensures { IfOk result (MadeSink name.now room piece calls) }
    {
        let page = StoredPage {
            bytes: Vec::with_capacity(alloc, room)?,
            failed: false,
        };
        let kept = Kept::new(alloc, name, page, calls)?;
        Ok(Heap { kept, room, piece })
    }

    /// The bytes as a page, and the box that puts it before the others.
    pub(crate) fn close(self) -> (Named<StoredPage>, Box<StoredPages>)
        ensures name { result.0.name ≡ name_of self }
        ensures bytes { result.0.value.bytes.items ≡ bytes_of self }
        ensures failed { result.0.value.failed ≡ nat_lt 0 (write_faults_of self) }
    {
        let Heap {
            kept,
            room: _,
            piece: _,
        } = self;
        let mut entry = kept.entry;
        entry.value.failed = 0 < kept.faults;
        (entry, kept.spare)
    }
}

impl Sink for Heap {
    ghost use Rattle.tesla_memory_desk.specs.Calls.{after_call};
    ghost use Rattle.tesla_memory_desk.specs.Memory.{name_of, bytes_of, write_faults_of, write_calls_of, write_piece_of, room_of, write_answer, taken, faults_after};

    ghost written = { λ it. Some (bytes_of it) };

    ghost faults = { write_faults_of };

    ghost name = { name_of };

    /// Takes the least of the piece's length, the greatest piece where one was set, and the room.
    /// `Failed` exactly where the number of the call is listed.
    fn write(&mut self, piece: &[u8]) -> WriteStep
        ensures step { Writes (Some (bytes_of self.old)) (Some (bytes_of self.new)) piece.now result }
        ensures cause { HasCause (write_faults_of self.old) (write_faults_of self.new) (Stalls piece.now result) }
        ensures name { name_of self.new ≡ name_of self.old }
        ensures exact { result ≡ write_answer (length piece.now) self.old }
        ensures counted { write_faults_of self.new ≡ faults_after piece.now result (write_faults_of self.old) }
        ensures calls { write_calls_of self.new ≡ after_call (write_calls_of self.old) }
        ensures piece { write_piece_of self.new ≡ write_piece_of self.old }
        ensures room { room_of self.new ≡ room_of self.old - taken result }
    {
        if self.kept.fails() {
            return WriteStep::Failed;
        }
        let count = within_piece(self.piece, piece.len()).min(self.room);
        if count == 0 && !piece.is_empty() {
            self.kept.faults = self.kept.faults.saturating_add(1);
        }
        self.room -= count;
        let _ = self
            .kept
            .entry
            .value
            .bytes
            .extend_from_slice(&piece[..count]);
        WriteStep::Took(count)
    }
}

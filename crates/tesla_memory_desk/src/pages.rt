//! A source over bytes in memory.

ghost use Rattle.std.specs.Prelude.{◌≡◌, ◌<◌, ◌≤◌, length, Some, IfOk, if◌then◌else◌};
ghost use Rattle.std.specs.Option.{ForSome};
ghost use Rattle.tesla_desk.specs.Faults.{HasCause, raised};
ghost use Rattle.tesla_desk.specs.Outside.{Reads};

use crate::calls::Calls;
use crate::entries::Named;
use crate::kept::Kept;
use crate::stored::{StoredRest, StoredRests};
use std::alloc::Global;
use tesla_base::NoMemory;
use tesla_desk::{ReadStep, Source};

/// The bytes that a page held when it was opened. A read fails exactly where its number is listed.
pub struct Pages {
    kept: Kept<StoredRest>,
    piece: Option<usize>,
    ghost moves: { ForSome piece (λ most. 1 ≤ most) },
}

impl Pages {
    ghost use Rattle.tesla_memory_desk.specs.Memory.{unread, read_faults_of, read_calls_of, read_piece_of, source_name_of, stored_of};

    /// A source under this name of a copy of these bytes, which has not failed yet.
    pub(crate) fn new(
        alloc: Global,
        name: &str,
        bytes: &[u8],
        piece: Option<usize>,
        calls: Calls,
    ) -> Result<Pages, NoMemory>
        requires { ForSome piece (λ most. 1 ≤ most) }
        ensures name { IfOk result (λ it. source_name_of it ≡ name.now) }
        ensures bytes { IfOk result (λ it. unread it ≡ bytes.now) }
        ensures faults { IfOk result (λ it. read_faults_of it ≡ 0) }
        ensures calls { IfOk result (λ it. read_calls_of it ≡ calls) }
        ensures piece { IfOk result (λ it. read_piece_of it ≡ piece) }
    {
        let bytes = Vec::from_slice(alloc, bytes)?;
        let kept = Kept::new(alloc, name, StoredRest { bytes, at: 0 }, calls)?;
        Ok(Pages { kept, piece })
    }

    /// What is left, the box that puts it before others, and how often its reads failed.
    pub(crate) fn close(self) -> (Named<StoredRest>, Box<StoredRests>, u64)
        ensures rest { result.0 ≡ stored_of self }
        ensures faults { result.2 ≡ read_faults_of self }
    {
        let Pages { kept, piece: _ } = self;
        (kept.entry, kept.spare, kept.faults)
    }
}

impl Source for Pages {
    ghost use Rattle.tesla_memory_desk.specs.Calls.{next_fails, after_call};
    ghost use Rattle.tesla_memory_desk.specs.Memory.{unread, read_faults_of, read_calls_of, read_piece_of, read_answer, source_name_of};

    ghost left = { λ it. Some (unread it) };

    ghost faults = { read_faults_of };

    ghost name = { source_name_of };

    /// Moves the least of the slice's length, the greatest piece where one was set, and what is left.
    /// `Failed` exactly where the number of the call is listed.
    fn read(&mut self, into: &mut [u8]) -> ReadStep
        requires { 0 < length into.old }
        ensures step { Reads (Some (unread self.old)) (Some (unread self.new)) into.new result }
        ensures cause { HasCause (read_faults_of self.old) (read_faults_of self.new) (result ≡ ReadStep.Failed) }
        ensures name { source_name_of self.new ≡ source_name_of self.old }
        ensures exact { result ≡ read_answer (length into.old) self.old }
        ensures counted { read_faults_of self.new ≡ (if next_fails (read_calls_of self.old) then raised (read_faults_of self.old) else read_faults_of self.old) }
        ensures calls { read_calls_of self.new ≡ after_call (read_calls_of self.old) }
        ensures piece { read_piece_of self.new ≡ read_piece_of self.old }
    {
        if self.kept.fails() {
            return ReadStep::Failed;
        }
        self.kept.entry.value.read(self.piece, into)
    }
}

//! A link in memory.

ghost use Rattle.std.specs.Prelude.{◌≡◌, nat_lt, Some, IfOk, if◌then◌else◌};
ghost use Rattle.tesla_desk.specs.Faults.{HasCause, raised};
ghost use Rattle.tesla_desk.specs.Links.{Gets};

use crate::calls::Calls;
use crate::entries::Named;
use crate::kept::Kept;
use crate::stored_letters::{StoredLetters, StoredRemainder, StoredRemainders};
use std::alloc::Global;
use tesla_base::{MOST_DATAGRAM, NoMemory};
use tesla_desk::{Got, Link};

/// The letters that a desk had when the link was opened. A call fails exactly where its number is listed.
#[derive(Drop)]
pub struct Letters {
    kept: Kept<StoredRemainder>,
}

impl Letters {
    ghost use Rattle.tesla_memory_desk.specs.LiveMemory.{letters_left, link_faults_of, link_calls_of, link_name_of, remainder_stored};
    ghost use Rattle.tesla_desk.specs.Live.{remainder_of};

    /// A link under this name of a copy of these letters, which has not failed yet.
    pub(crate) fn new(
        alloc: Global,
        name: &str,
        letters: &StoredLetters,
        calls: Calls,
    ) -> Result<Letters, NoMemory>
        ensures name { IfOk result (λ it. link_name_of it ≡ name.now) }
        ensures letters { IfOk result (λ it. letters_left it ≡ letters.now.items.items) }
        ensures faults { IfOk result (λ it. link_faults_of it ≡ 0) }
        ensures calls { IfOk result (λ it. link_calls_of it ≡ calls) }
    {
        let rest = StoredRemainder {
            letters: StoredLetters::copy(alloc, &letters.items)?,
            at: 0,
            failed: false,
        };
        let kept = Kept::new(alloc, name, rest, calls)?;
        Ok(Letters { kept })
    }

    /// What is left, with whether a call failed, and the box that puts it before others.
    pub(crate) fn close(self) -> (Named<StoredRemainder>, Box<StoredRemainders>)
        ensures name { result.0.name ≡ link_name_of self }
        ensures rest { Some (remainder_stored result.0.value) ≡ remainder_of (Some (letters_left self)) (link_faults_of self) }
        ensures failed { result.0.value.failed ≡ nat_lt 0 (link_faults_of self) }
    {
        let Letters { kept } = self;
        let mut entry = kept.entry;
        entry.value.failed = 0 < kept.faults;
        (entry, kept.spare)
    }
}

impl Link for Letters {
    ghost use Rattle.tesla_memory_desk.specs.Calls.{next_fails, after_call};
    ghost use Rattle.tesla_memory_desk.specs.LiveMemory.{letters_left, link_faults_of, link_calls_of, link_name_of, link_answer};

    ghost left = { λ it. Some (letters_left it) };

    ghost faults = { link_faults_of };

    ghost name = { link_name_of };

    /// `Failed` exactly where the number of the call is listed.
    fn next(&mut self, into: &mut [u8; MOST_DATAGRAM]) -> Got
        ensures step { Gets (Some (letters_left self.old)) (Some (letters_left self.new)) into.new result }
        ensures cause { HasCause (link_faults_of self.old) (link_faults_of self.new) (result ≡ Got.Failed) }
        ensures name { link_name_of self.new ≡ link_name_of self.old }
        ensures exact { result ≡ link_answer self.old }
        ensures counted { link_faults_of self.new ≡ (if next_fails (link_calls_of self.old) then raised (link_faults_of self.old) else link_faults_of self.old) }
        ensures calls { link_calls_of self.new ≡ after_call (link_calls_of self.old) }
    {
        if self.kept.fails() {
            return Got::Failed;
        }
        self.kept.entry.value.next(into)
    }
}

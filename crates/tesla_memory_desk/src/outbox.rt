//! A post in memory.

ghost use Rattle.std.specs.Prelude.{◌≡◌, ◌≤◌, ◌+◌, nat_lt, length, vec_len, vec_capacity, Some, IfOk};
ghost use Rattle.tesla_desk.specs.Faults.{HasCause};
ghost use Rattle.tesla_desk.specs.Posts.{Posts};

use crate::calls::Calls;
use crate::entries::Named;
use crate::kept::Kept;
use crate::stored_mail::{StoredMail, StoredMails};
use std::alloc::Global;
use tesla_base::NoMemory;
use tesla_desk::{Post, PostStep};

/// Datagrams sent in memory, with a room in bytes that is taken at the opening. A datagram takes as much of it as it
/// has bytes, and one byte where it has none. A call fails exactly where its number is listed or the room
/// that is left is less than that.
pub struct Outbox {
    kept: Kept<StoredMail>,
    room: usize,
    ghost fits: { vec_len kept.entry.value.bytes + room ≤ vec_capacity kept.entry.value.bytes },
    ghost counts: { vec_len kept.entry.value.lengths + room ≤ vec_capacity kept.entry.value.lengths },
}

impl Outbox {
    ghost use Rattle.tesla_desk.specs.Live.{mail_of};
    ghost use Rattle.tesla_memory_desk.specs.LiveMemory.{mail_stored, sent_by, post_name_of, post_faults_of};
    ghost use Rattle.tesla_memory_desk.specs.Memory.{MadePost};

    /// A post under this name that has sent nothing, takes `room` bytes and has not failed yet.
    pub(crate) fn new(
        alloc: Global,
        name: &str,
        room: usize,
        calls: Calls,
    ) -> Result<Outbox, NoMemory>
        ensures { IfOk result (MadePost name.now room calls) }
    {
        let mail = StoredMail {
            bytes: Vec::with_capacity(alloc, room)?,
            lengths: Vec::with_capacity(alloc, room)?,
            failed: false,
        };
        let kept = Kept::new(alloc, name, mail, calls)?;
        Ok(Outbox { kept, room })
    }

    /// What was sent, with whether a call failed, and the box that puts it before others.
    pub(crate) fn close(self) -> (Named<StoredMail>, Box<StoredMails>)
        ensures name { result.0.name ≡ post_name_of self }
        ensures mail { mail_stored (Some result.0.value) ≡ mail_of (Some (sent_by self)) (post_faults_of self) }
        ensures failed { result.0.value.failed ≡ nat_lt 0 (post_faults_of self) }
    {
        let Outbox { kept, room: _ } = self;
        let mut entry = kept.entry;
        entry.value.failed = 0 < kept.faults;
        (entry, kept.spare)
    }
}

impl Post for Outbox {
    ghost use Rattle.tesla_memory_desk.specs.Calls.{after_call};
    ghost use Rattle.tesla_memory_desk.specs.LiveMemory.{sent_by, post_name_of, post_faults_of, post_calls_of, post_room_of, post_answer, post_room_after, post_faults_after};

    ghost sent = { λ it. Some (sent_by it) };

    ghost faults = { post_faults_of };

    ghost name = { post_name_of };

    /// `Failed` exactly where the number of the call is listed or there is no room for the datagram.
    fn send(&mut self, datagram: &[u8]) -> PostStep
        requires { length datagram.now ≤ 2048 }
        ensures step { Posts (Some (sent_by self.old)) (Some (sent_by self.new)) datagram.now result }
        ensures cause { HasCause (post_faults_of self.old) (post_faults_of self.new) (result ≡ PostStep.Failed) }
        ensures name { post_name_of self.new ≡ post_name_of self.old }
        ensures exact { result ≡ post_answer (length datagram.now) self.old }
        ensures counted { post_faults_of self.new ≡ post_faults_after result (post_faults_of self.old) }
        ensures calls { post_calls_of self.new ≡ after_call (post_calls_of self.old) }
        ensures room { post_room_of self.new ≡ post_room_after (length datagram.now) result (post_room_of self.old) }
    {
        if self.kept.fails() {
            return PostStep::Failed;
        }
        let takes = datagram.len().max(1);
        if self.room < takes {
            self.kept.faults = self.kept.faults.saturating_add(1);
            return PostStep::Failed;
        }
        self.room -= takes;
        self.kept.entry.value.add(datagram);
        PostStep::Sent
    }
}

//! The frames that were sent.

ghost use Rattle.std.specs.Prelude.{◌≡◌, ◌+◌, ◌<◌, ◌≤◌, ◌++◌, ◌∷◌, [], length, take, slice_get, option_map, IfSome, OnErr, OnOk};

use std::alloc::Global;
use std::marker::Model;
use tesla_base::{MOST_DATAGRAM, NoMemory};

/// A frame, at the front of a room. Contracts see its bytes.
#[derive(Drop)]
pub struct SentFrame {
    room: [u8; MOST_DATAGRAM],
    length: usize,
}

impl Model for SentFrame {
    ghost use Rattle.std.specs.Prelude.{◌≤◌, ℕ, List, take};

    ghost Value = { List ℕ };

    ghost view = { λ f. take f.length f.room };

    ghost invariant = { λ f. f.length ≤ 2048 };
}

impl SentFrame {
    /// The frame of so many bytes at the front of the room.
    pub fn new(room: [u8; MOST_DATAGRAM], length: usize) -> SentFrame
        requires { length ≤ 2048 }
        ensures { result ≡ take length room }
    {
        SentFrame { room, length }
    }

    /// Its bytes.
    pub fn bytes(&self) -> &[u8]
        ensures { result.now ≡ self.now }
    {
        &self.room[..self.length]
    }
}

/// The frames that were sent, in order. Contracts see their bytes, and for how many there is room in all.
#[derive(Drop)]
pub struct Frames {
    slots: Option<Vec<SentFrame>>,
}

impl Model for Frames {
    ghost use Rattle.std.specs.Prelude.{[], option_map, unwrap_or, vec_capacity};
    ghost use Rattle.tesla_world.specs.Frames.{FramesState};

    ghost Value = { FramesState };

    ghost view = { λ f. record {
      sent = unwrap_or (option_map (λ frames. frames.items) f.slots) [];
      reserved = unwrap_or (option_map (λ frames. vec_capacity frames) f.slots) 0;
    } };
}

impl Frames {
    /// None, and room for none.
    pub fn none() -> Frames
        ensures sent { result.sent ≡ [] }
        ensures reserved { result.reserved ≡ 0 }
    {
        Frames { slots: None }
    }

    /// How many there are.
    pub fn count(&self) -> usize
        ensures { result ≡ length self.now.sent }
    {
        match &self.slots {
            Some(frames) => frames.len(),
            None => 0,
        }
    }

    /// Takes room for one more, unless there is some. `NoMemory`: there wasn't enough, and the room is as before.
    pub fn make_room(&mut self, alloc: Global) -> Result<(), NoMemory>
        ensures sent { self.new.sent ≡ self.old.sent }
        ensures room { OnOk result (length self.new.sent < self.new.reserved) }
        ensures grows { self.old.reserved ≤ self.new.reserved }
        ensures kept { length self.old.sent < self.old.reserved → self.new.reserved ≡ self.old.reserved }
        ensures missing { OnErr result (self.old.reserved ≤ length self.old.sent) }
        ensures same { OnErr result (self.new.reserved ≡ self.old.reserved) }
    {
        match &mut self.slots {
            Some(frames) => {
                if frames.len() == frames.capacity() {
                    frames.reserve(1)?;
                }
            }
            None => self.slots = Some(Vec::with_capacity(alloc, 1)?),
        }
        Ok(())
    }

    /// Puts a frame behind the others.
    pub fn push(&mut self, frame: SentFrame)
        requires { length self.old.sent < self.old.reserved }
        ensures sent { self.new.sent ≡ self.old.sent ++ frame ∷ [] }
        ensures reserved { self.new.reserved ≡ self.old.reserved }
    {
        let Some(frames) = &mut self.slots else {
            unreachable!()
        };
        frames.push_reserved(frame);
    }

    /// The bytes of that one.
    pub fn get(&self, number: usize) -> Option<&[u8]>
        ensures { option_map (λ bytes. bytes.now) result ≡ slice_get self.now.sent number }
    {
        match &self.slots {
            Some(frames) => frames.get(number).map(|frame| frame.bytes()),
            None => None,
        }
    }
}

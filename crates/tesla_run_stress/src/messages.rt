//! The sender of a load, with the frames that it made last.

ghost use Rattle.std.specs.Prelude.{◌≡◌, ℕ, ◌+◌, ◌<◌, ◌≤◌, length, take, IfOk};
ghost use Rattle.tesla_run_stress.specs.Base.{base_seeds, base_setup, base_stream, last_of};
ghost use Rattle.tesla_run_stress.specs.Load.{disclosure_text, end_reading, message_text, text_before};
ghost use Rattle.tesla_run_stress.specs.Steps.{HasSent, Keeps};

use crate::choices::reading_of;
use crate::frames::FrameText;
use circular_buffer::HeapCircularBuffer;
use std::alloc::Global;
use std::sync::ledger::Ledger;
use tesla_base::{MOST_DATAGRAM, NoMemory, Steps};
use tesla_commit::Setup;
use tesla_seeds::Seeds;
use tesla_sender::{Sender, SenderRefusal};

/// How many frames are kept.
const KEPT: usize = 30;

/// The sender of so many messages, with the last frames that it made.
#[derive(Drop)]
pub struct Messages {
    pub count: u32,
    pub sender: Sender,
    pub kept: HeapCircularBuffer<FrameText>,
}

// The sender of a stream whose commitments are those that its seeds give.
fn sender_of<L: Ledger>(
    alloc: Global,
    setup: Setup,
    seeds: &Seeds,
    steps: &mut Steps<L>,
) -> Result<Sender, NoMemory>
    requires { (count : ℕ) × (setup ≡ base_setup (last_of count)) × (seeds.now ≡ base_seeds) }
    ensures { (count : ℕ) → setup ≡ base_setup (last_of count) → IfOk result (HasSent count 0) }
{
    match Sender::open(alloc, setup, seeds, steps) {
        Ok(sender) => Ok(sender),
        Err(SenderRefusal::NoMemory) => Err(NoMemory),
        Err(SenderRefusal::WrongSeed { .. }) => unreachable!(),
    }
}

impl Messages {
    /// The sender of so many messages, which has made none. All memory is taken here.
    pub fn open<L: Ledger>(
        alloc: Global,
        count: u32,
        setup: Setup,
        seeds: &Seeds,
        steps: &mut Steps<L>,
    ) -> Result<Messages, NoMemory>
        requires setup { setup ≡ base_setup (last_of count) }
        requires seeds { seeds.now ≡ base_seeds }
        ensures count { IfOk result (λ messages. messages.count ≡ count) }
        ensures sent { IfOk result (λ messages. HasSent count 0 messages.sender) }
        ensures kept { IfOk result (λ messages. Keeps count 0 messages.kept) }
    {
        Ok(Messages {
            count,
            sender: sender_of(alloc, setup, seeds, steps)?,
            kept: HeapCircularBuffer::with_capacity(alloc, KEPT)?,
        })
    }

    /// Makes the frame of message `k` at the front of the room, and gives its length.
    pub fn send<L: Ledger>(
        &mut self,
        k: u32,
        room: &mut [u8; MOST_DATAGRAM],
        steps: &mut Steps<L>,
    ) -> usize
        requires within { k < self.old.count }
        requires most { self.old.count ≤ 100000 }
        requires sent { HasSent self.old.count k self.old.sender }
        ensures sent { HasSent self.new.count (k + 1) self.new.sender }
        ensures text { take result room.new ≡ message_text (base_stream self.new.count) k }
        ensures short { result ≤ 129 }
        ensures count { self.new.count ≡ self.old.count }
        ensures kept { self.new.kept ≡ self.old.kept }
    {
        let payload = u64::from(k).to_be_bytes();
        match self.sender.message(reading_of(k), &payload, room, steps) {
            Ok(length) => length,
            Err(_) => unreachable!(),
        }
    }

    /// Keeps the frame of message `k` in place of that of message `k - 30`, which is given where there is one.
    pub fn keep(&mut self, k: u32, frame: &[u8]) -> Option<FrameText>
        requires short { length frame.now ≤ 129 }
        requires text { frame.now ≡ message_text (base_stream self.old.count) k }
        requires kept { Keeps self.old.count k self.old.kept }
        ensures before { result ≡ text_before (base_stream self.new.count) k }
        ensures kept { Keeps self.new.count (k + 1) self.new.kept }
        ensures count { self.new.count ≡ self.old.count }
        ensures sender { self.new.sender ≡ self.old.sender }
    {
        let _ = k;
        self.kept.push_back(FrameText::of(frame))
    }

    /// Makes the frame of the disclosure after all messages at the front of the room, and gives its length.
    pub fn disclose<L: Ledger>(
        &mut self,
        reading: u64,
        room: &mut [u8; MOST_DATAGRAM],
        steps: &mut Steps<L>,
    ) -> usize
        requires some { 1 ≤ self.old.count }
        requires most { self.old.count ≤ 100000 }
        requires reading { reading ≡ end_reading (last_of self.old.count) }
        requires sent { HasSent self.old.count self.old.count self.old.sender }
        ensures text { take result room.new ≡ disclosure_text (base_stream self.old.count) self.old.count }
        ensures count { self.new.count ≡ self.old.count }
        ensures room { result ≤ 2048 }
    {
        match self.sender.disclose(reading, room, steps) {
            Ok(length) => length,
            Err(_) => unreachable!(),
        }
    }
}

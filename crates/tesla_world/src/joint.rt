//! A sender and a receiver in one world.

ghost use Rattle.std.specs.Prelude.{◌≡◌, ◌+◌, ◌^◌, ◌<◌, ◌≤◌, ◌++◌, ◌∷◌, [], List, OnErr, length, slice_get};
ghost use Rattle.tesla_receiver.specs.History.{Arrives, Ends, Takes, entry_of, reply_to};
ghost use Rattle.tesla_receiver.specs.Stands.{Stands};
ghost use Rattle.tesla_receiver.specs.Entries.{Entry};
ghost use Rattle.tesla_sender.specs.Made.{Call, Disclose, Message, made_disclosure, made_message};
ghost use Rattle.tesla_sender.specs.Stands as sending;
ghost use Rattle.tesla_state.specs.Replies.{KeepsBehind, reply_shown};
ghost use Rattle.tesla_world.specs.Joint.{Delivers, HasCome, HasHad, IsLawful, JointState, KeepsReserved, RefusesDisclosure, RefusesMessage, ReservesFrame, Sends, StandsFor};
ghost use Rattle.tesla_world.specs.World.{Moment};

use crate::frames::{Frames, SentFrame};
use crate::{JointRefusal, NoSuch, laws};
use std::alloc::Global;
use std::marker::Model;
use std::sync::ledger::Ledger;
use tesla_base::{MOST_DATAGRAM, MOST_PAYLOAD, Steps};
use tesla_fitting::Verdict;
use tesla_receiver::{Receiver, Take};
use tesla_sender::Sender;

/// A sender and a receiver of one setup, with the frames that were sent: so what is sent, what of it comes, in which order
/// and when, and what else comes, make a world.
///
/// Contracts see the worlds, the logs and the histories that it stands for; the laws hold of each (`lawful`).
#[derive(Drop)]
pub struct Joint {
    sender: Sender,
    receiver: Receiver,
    frames: Frames,
}

impl Model for Joint {
    ghost use Rattle.std.specs.Prelude.{◌<◌, ◌^◌, length};
    ghost use Rattle.tesla_world.specs.Joint.{JointState};

    ghost Value = { JointState };

    ghost view = { λ j. record {
      sender = j.sender;
      receiver = j.receiver;
      frames = j.frames.sent;
      reserved = j.frames.reserved;
    } };

    ghost invariant = { λ j. length j.frames.sent < 2 ^ 32 };
}

/// The security condition, the honest completeness and the law of the future hold of each world that a joint stands for.
fn each_is_lawful()
    ensures { (joint : JointState) → IsLawful joint }
{
    laws::safe();
    laws::complete();
    laws::not_future();
}

impl Joint {
    /// A joint of a sender and a receiver that stand for nothing yet. The receiver has one ingest. It takes no memory.
    pub fn open(sender: Sender, receiver: Receiver) -> Joint
        requires setup { sender.stream.setup ≡ receiver.config.setup }
        requires seeds { length sender.stream.seeds ≡ length sender.stream.setup.rows }
        requires sends { sending.Stands sender [] }
        requires receives { Stands receiver [] }
        requires ingest { receiver.config.ingests ≡ 1 }
        ensures parts { result ≡ record { sender = sender; receiver = receiver; frames = []; reserved = 0 } }
        ensures stands { StandsFor result [] [] [] }
        ensures lawful { IsLawful result }
    {
        each_is_lawful();
        Joint {
            sender,
            receiver,
            frames: Frames::none(),
        }
    }

    /// How many frames were sent. They are numbered from 0.
    pub fn sent(&self) -> u32
        ensures { result ≡ length self.now.frames }
    {
        self.frames.count() as u32
    }

    /// How many events the receiver has had.
    pub fn calls(&self) -> u64
        ensures { result ≡ self.now.receiver.calls }
    {
        self.receiver.calls()
    }

    /// Sends a message at this reading of the sender's clock, in microseconds, and gives the number of its frame.
    ///
    /// `Send`: the sender doesn't accept it. `NoMemory`: there was none for the frame. After either nothing has changed but
    /// for how many frames there is room, and no step was counted. Room is taken before the sender is asked, and where there
    /// is some for one frame more, none is taken (`reserved`).
    pub fn send<L: Ledger>(
        &mut self,
        alloc: Global,
        reading: u64,
        payload: &[u8],
        steps: &mut Steps<L>,
    ) -> Result<u32, JointRefusal>
        requires { length self.old.frames + 1 < 2 ^ 32 }
        ensures sends { Sends self.old self.new (Message reading payload.now) result }
        ensures refuses { (world : List Moment) (log : List Call) (history : List Entry) → StandsFor self.old world log history →
            RefusesMessage result (made_message self.old.sender.stream log reading payload.now) }
        ensures idle { OnErr result (steps.new ≡ steps.old) }
        ensures reserved { ReservesFrame self.old self.new result }
        ensures lawful { IsLawful self.new }
    {
        each_is_lawful();
        self.frames.make_room(alloc)?;
        let number = self.frames.count() as u32;
        let mut room = [0; MOST_DATAGRAM];
        match self.sender.message(reading, payload, &mut room, steps) {
            Ok(length) => {
                self.frames.push(SentFrame::new(room, length));
                Ok(number)
            }
            Err(refusal) => Err(JointRefusal::Send(refusal)),
        }
    }

    /// Sends a disclosure at this reading of the sender's clock, in microseconds, and gives the number of its frame.
    ///
    /// `Disclose`: the sender doesn't accept it. `NoMemory`: there was none for the frame. After either nothing has changed
    /// but for how many frames there is room, and no step was counted. Room is taken as by `send`.
    pub fn disclose<L: Ledger>(
        &mut self,
        alloc: Global,
        reading: u64,
        steps: &mut Steps<L>,
    ) -> Result<u32, JointRefusal>
        requires { length self.old.frames + 1 < 2 ^ 32 }
        ensures sends { Sends self.old self.new (Disclose reading) result }
        ensures refuses { (world : List Moment) (log : List Call) (history : List Entry) → StandsFor self.old world log history →
            RefusesDisclosure result (made_disclosure self.old.sender.stream log reading) }
        ensures idle { OnErr result (steps.new ≡ steps.old) }
        ensures reserved { ReservesFrame self.old self.new result }
        ensures lawful { IsLawful self.new }
    {
        each_is_lawful();
        self.frames.make_room(alloc)?;
        let number = self.frames.count() as u32;
        let mut room = [0; MOST_DATAGRAM];
        match self.sender.disclose(reading, &mut room, steps) {
            Ok(size) => {
                self.frames.push(SentFrame::new(room, size));
                Ok(number)
            }
            Err(refusal) => Err(JointRefusal::Disclose(refusal)),
        }
    }

    /// The frame of that number comes at this reading of the receiver's clock, in microseconds, and is judged. A frame may
    /// come more than once, and in any order. `NoSuch`: none of that number was sent, and nothing has changed. It takes no
    /// memory.
    pub fn deliver<L: Ledger>(
        &mut self,
        number: u32,
        reading: u64,
        steps: &mut Steps<L>,
    ) -> Result<Verdict, NoSuch>
        requires { self.old.receiver.calls + 1 < 2 ^ 64 }
        ensures delivers { Delivers self.old self.new reading (slice_get self.old.frames number) result }
        ensures reserved { KeepsReserved self.old self.new }
        ensures lawful { IsLawful self.new }
    {
        each_is_lawful();
        match self.frames.get(number as usize) {
            Some(frame) => Ok(self.receiver.arrive(0, reading, frame, steps)),
            None => Err(NoSuch),
        }
    }

    /// A datagram of these bytes, which nobody has to have sent, comes at this reading of the receiver's clock, in
    /// microseconds, and is judged. It takes no memory.
    pub fn inject<L: Ledger>(&mut self, reading: u64, bytes: &[u8], steps: &mut Steps<L>) -> Verdict
        requires { self.old.receiver.calls + 1 < 2 ^ 64 }
        ensures comes { HasCome self.old self.new reading bytes.now result }
        ensures reserved { KeepsReserved self.old self.new }
        ensures lawful { IsLawful self.new }
    {
        each_is_lawful();
        self.receiver.arrive(0, reading, bytes, steps)
    }

    /// Gives the next released packet, whose payload is then at the front of the buffer, or says whether the datagrams
    /// have ended. The rest of the buffer stays as it was. It takes no memory.
    pub fn take(&mut self, into: &mut [u8; MOST_PAYLOAD]) -> Take
        requires { self.old.receiver.calls + 1 < 2 ^ 64 }
        ensures answer { (world : List Moment) (log : List Call) (history : List Entry) → StandsFor self.old world log history →
            reply_shown result into.new ≡ reply_to self.old.receiver.config history }
        ensures takes { HasHad self.old self.new (Takes 0) }
        ensures behind { KeepsBehind result into.old into.new }
        ensures reserved { KeepsReserved self.old self.new }
        ensures lawful { IsLawful self.new }
    {
        each_is_lawful();
        self.receiver.take(0, into)
    }

    /// Ends the datagrams. It takes no memory.
    pub fn end(&mut self)
        requires { self.old.receiver.calls + 1 < 2 ^ 64 }
        ensures ends { HasHad self.old self.new (Ends 0) }
        ensures reserved { KeepsReserved self.old self.new }
        ensures lawful { IsLawful self.new }
    {
        each_is_lawful();
        self.receiver.end(0);
    }
}

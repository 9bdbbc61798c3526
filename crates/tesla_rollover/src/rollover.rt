//! The calls of the epochs' receivers.

ghost use Rattle.std.specs.Prelude.{◌≡◌, ◌+◌, ◌^◌, ◌<◌, ◌≤◌, ◌++◌, ◌∷◌, [], List, IfOk, true};
ghost use Rattle.tesla_receiver.specs.Costs.{most_evaluations};
ghost use Rattle.tesla_receiver.specs.History.{Arrives, Ends, Takes, arrivals_in};
ghost use Rattle.tesla_rollover.specs.Epochs.{roll_entry_of};
ghost use Rattle.tesla_rollover.specs.History.{RollArrived, RollEntry, config_at, epoch_count, history_at, roll_given_in};
ghost use Rattle.tesla_rollover.specs.Events.{roll_waiting_in};
ghost use Rattle.tesla_rollover.specs.Replies.{RollKeepsBehind, RollTakesRoom, has_memory, reply_in, roll_shown};
ghost use Rattle.tesla_rollover.specs.Stands.{RollStands, rooms_in};

use crate::asking::{Asked, ask, end_all, waiting_in};
use crate::epoch::Epoch;
use crate::finding::epoch_for;
use crate::opening::{MOST, hand_over};
use crate::{RollTake, RollVerdict};
use std::alloc::Global;
use std::marker::Model;
use std::sync::ledger::Ledger;
use tesla_base::{MOST_PAYLOAD, NoMemory, Steps};
use tesla_commit::Setup;
use tesla_fitting::Config;
use tesla_frame::read_frame;
use tesla_receiver::Receiver;

/// The epochs of a feed: the stream of a trusted setup, and those that it hands over to, one after another, by a packet
/// that was given. Each has a receiver of its own, with the same lag, capacity and ingests; a setup that is opened is
/// trusted as the packet is that carried it.
#[derive(Drop)]
pub struct Rollover {
    config: Config,
    epochs: Vec<Epoch>,
    given: u64,
    calls: u64,
}

impl Model for Rollover {
    ghost use Rattle.std.specs.Prelude.{vec_capacity};
    ghost use Rattle.tesla_rollover.specs.Kept.{IsRollKept, receivers_of};
    ghost use Rattle.tesla_rollover.specs.Stands.{RollState};

    ghost Value = { RollState };

    ghost view = { λ r. record { config = r.config; receivers = receivers_of r.epochs.items; given = r.given; calls = r.calls } };

    ghost invariant = { λ r. IsRollKept r.config r.epochs.items (vec_capacity r.epochs) r.given r.calls };
}

impl Rollover {
    /// The first epoch of a feed, in which nothing has happened. The lag is in microseconds; the capacity is the number of
    /// packets that each epoch's receiver holds at most, 1 to 4,096, and its quota of one interval too; each ingest below
    /// `ingests`, of which there is one at least, has to end before a take answers `Over`. There is room for sixteen epochs.
    /// Memory is taken here for that and for the receiver, `rooms_in` tells for how many entries the tables of each
    /// receiver have room, and only a take that opens an epoch changes that. `NoMemory`: there wasn't enough.
    pub fn open(
        alloc: Global,
        setup: Setup,
        lag: i64,
        capacity: u32,
        ingests: u8,
    ) -> Result<Rollover, NoMemory>
        requires some { 1 ≤ capacity }
        requires few { capacity ≤ 4096 }
        requires ingests { 1 ≤ ingests }
        ensures config { IfOk result (λ r. r.config ≡ record { setup = setup; lag = lag; capacity = capacity; quota = capacity; ingests = ingests }) }
        ensures stands { IfOk result (λ r. RollStands r []) }
    {
        let config = Config {
            setup: setup.copy(alloc)?,
            lag,
            capacity,
            quota: capacity,
            ingests,
        };
        let mut epochs = Vec::with_capacity(alloc, MOST)?;
        let stream = setup.stream();
        let receiver = Receiver::open(alloc, setup, lag, capacity, capacity, ingests)?;
        epochs.push_reserved(Epoch { stream, receiver });
        Ok(Rollover {
            config,
            epochs,
            given: 0,
            calls: 0,
        })
    }

    /// Judges a datagram of an ingest, with the reading of the receiver's clock in microseconds: in the epoch whose stream
    /// is the frame's, and in the first where there is none or the bytes aren't a frame. The datagram is read once. It
    /// takes no memory, and as many counted steps as that epoch's receiver.
    pub fn arrive<L: Ledger>(
        &mut self,
        ingest: u8,
        reading: u64,
        bytes: &[u8],
        steps: &mut Steps<L>,
    ) -> RollVerdict
        requires { self.old.calls < 2 ^ 56 }
        ensures answer { (h : List RollEntry) → RollStands self.old h →
            RollArrived result.epoch (record { ingest = ingest; reading = reading; bytes = bytes.now; verdict = result.verdict }) ≡ roll_entry_of self.old.config h true (Arrives ingest reading bytes.now) }
        ensures stands { (h : List RollEntry) → RollStands self.old h → RollStands self.new (h ++ roll_entry_of self.old.config h true (Arrives ingest reading bytes.now) ∷ []) }
        ensures evaluations { (h : List RollEntry) → RollStands self.old h →
            steps.new ≤ steps.old + most_evaluations (config_at self.old.config h result.epoch) (arrivals_in (history_at self.old.config.ingests h result.epoch)) reading bytes.now }
        ensures config { self.new.config ≡ self.old.config }
        ensures calls { self.new.calls ≡ self.old.calls + 1 }
        ensures rooms { rooms_in self.new ≡ rooms_in self.old }
    {
        let frame = read_frame(bytes);
        let epoch = epoch_for(self.epochs.as_slice(), frame.as_ref());
        self.calls += 1;
        let verdict = self.epochs[epoch]
            .receiver
            .arrive_read(ingest, reading, bytes, frame.as_ref(), steps);
        RollVerdict {
            epoch: epoch as u8,
            verdict,
        }
    }

    /// Gives the next released packet: it asks the epochs in order, one take each, until one gives. The payload is then at
    /// the front of the buffer, whose rest stays as it was. Where it hands over to a stream of its own, the next epoch is
    /// opened; so only a packet that was released and given can open one. Memory is taken for that alone, and where it is
    /// wanting the packet is given all the same.
    pub fn take(&mut self, alloc: Global, releaser: u8, into: &mut [u8; MOST_PAYLOAD]) -> RollTake
        requires { self.old.calls < 2 ^ 56 }
        ensures answer { (h : List RollEntry) → RollStands self.old h → roll_shown result into.new ≡ reply_in (roll_entry_of self.old.config h (has_memory result) (Takes releaser)) }
        ensures stands { (h : List RollEntry) → RollStands self.old h → RollStands self.new (h ++ roll_entry_of self.old.config h (has_memory result) (Takes releaser) ∷ []) }
        ensures behind { RollKeepsBehind result into.old into.new }
        ensures config { self.new.config ≡ self.old.config }
        ensures calls { self.new.calls ≡ self.old.calls + 1 }
        ensures rooms { RollTakesRoom result (rooms_in self.old) (rooms_in self.new) }
    {
        self.calls += 1;
        match ask(self.epochs.as_mut_slice(), 0, releaser, into) {
            Asked::Given { epoch, head } => {
                self.given += 1;
                let payload = &into[..usize::from(head.length)];
                let next = hand_over(alloc, &self.config, &mut self.epochs, epoch, payload);
                RollTake::Given { epoch, head, next }
            }
            Asked::Empty => RollTake::Empty,
            Asked::Over => RollTake::Over,
        }
    }

    /// Ends an ingest in every epoch that is open. One at or above the number of ingests counts for nothing. It takes no
    /// memory.
    pub fn end(&mut self, ingest: u8)
        requires { self.old.calls < 2 ^ 56 }
        ensures stands { (h : List RollEntry) → RollStands self.old h → RollStands self.new (h ++ roll_entry_of self.old.config h true (Ends ingest) ∷ []) }
        ensures config { self.new.config ≡ self.old.config }
        ensures calls { self.new.calls ≡ self.old.calls + 1 }
        ensures rooms { rooms_in self.new ≡ rooms_in self.old }
    {
        self.calls += 1;
        end_all(self.epochs.as_mut_slice(), ingest);
    }

    /// How many epochs are open: 1 to 16.
    pub fn epochs(&self) -> u8
        ensures { (h : List RollEntry) → RollStands self.now h → result ≡ epoch_count h }
    {
        self.epochs.len() as u8
    }

    /// How many packets were given.
    pub fn given(&self) -> u64
        ensures { (h : List RollEntry) → RollStands self.now h → result ≡ roll_given_in h }
    {
        self.given
    }

    /// How many released packets wait to be taken, in all epochs.
    pub fn waiting(&self) -> u64
        ensures value { (h : List RollEntry) → RollStands self.now h → result ≡ roll_waiting_in self.now.config h }
        ensures few { result < 2 ^ 36 }
    {
        waiting_in(self.epochs.as_slice())
    }

    /// How many events there were.
    pub fn calls(&self) -> u64
        ensures { result ≡ self.now.calls }
    {
        self.calls
    }
}

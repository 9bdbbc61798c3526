//! The calls of a follower.

ghost use Rattle.std.specs.Prelude.{◌≡◌, ◌+◌, ◌^◌, ◌<◌, ◌≤◌, ◌++◌, ◌∷◌, [], List, IfOk, length};
ghost use Rattle.tesla_follow.specs.History.{FollowEntry, entry_of, epoch_at, followed};
ghost use Rattle.tesla_follow.specs.Counted.{waiting_over};
ghost use Rattle.tesla_follow.specs.Followed.{open_epochs, place_for};
ghost use Rattle.tesla_follow.specs.Stands.{FollowStands};
ghost use Rattle.tesla_receiver.specs.Costs.{most_evaluations};
ghost use Rattle.tesla_receiver.specs.History.{Arrives, Ends, Takes, arrivals_in};
ghost use Rattle.tesla_receiver.specs.declared.history.Entry.TheVariants.{Arrived};

use crate::FollowVerdict;
use crate::asking::waiting_in;
use crate::epoch::OpenEpoch;
use crate::finding::place_for;
use crate::keeping::{NOTHING, end_open, mark, open_epochs, unqueued_by, wait};
use crate::known::Known;
use crate::queue::Queue;
use std::alloc::Global;
use std::marker::Model;
use std::sync::ledger::Ledger;
use tesla_base::{NoMemory, Steps};
use tesla_commit::Setup;
use tesla_fitting::Config;
use tesla_frame::read_frame;
use tesla_receiver::Report;

/// The live epochs of a feed: the newest three of those that the stream of a trusted setup hands over to, one after another,
/// by a packet that was released and given. Each has a receiver of its own, with the same lag, capacity, quota and ingests,
/// and the promises of its packets; messages that they accept on arrival wait to be given too.
#[derive(Drop)]
pub struct Follower {
    pub(super) alloc: Global,
    pub(super) config: Config,
    /// How many epochs were opened.
    pub(super) opened: u64,
    /// Those that are open, from the oldest on.
    pub(super) epochs: Vec<OpenEpoch>,
    /// Those that may be opened without closing one.
    pub(super) spares: Vec<OpenEpoch>,
    pub(super) known: Known,
    pub(super) queue: Queue,
    pub(super) turn: bool,
    pub(super) ended: Vec<bool>,
    pub(super) records: u64,
    pub(super) early: u64,
    pub(super) unqueued: u64,
    pub(super) dropped: u64,
    /// The counts of the epochs that were closed.
    pub(super) closed: Report,
    pub(super) calls: u64,
}

impl Model for Follower {
    ghost use Rattle.std.specs.Prelude.{◌+◌, vec_capacity};
    ghost use Rattle.tesla_follow.specs.Kept.{IsFollowKept, reserved_in};
    ghost use Rattle.tesla_follow.specs.Stands.{FollowState};

    ghost Value = { FollowState };

    ghost view = { λ f. record {
      config = f.config;
      opened = f.opened;
      receiving = f.epochs.items;
      known = f.known;
      queue = f.queue.waiting;
      turn = f.turn;
      ended = f.ended.items;
      records = f.records;
      early = f.early;
      unqueued = f.unqueued;
      dropped = f.dropped;
      closed = f.closed;
      calls = f.calls;
      reserved = reserved_in f.epochs.items f.spares.items (vec_capacity f.epochs + vec_capacity f.spares) f.queue.capacity (vec_capacity f.ended);
    } };

    ghost invariant = { λ f. IsFollowKept f.config f.epochs.items f.spares.items (vec_capacity f.epochs) (vec_capacity f.spares) f.opened f.queue f.ended.items f.records f.early f.unqueued f.dropped f.calls };
}

impl Follower {
    /// The epoch of a trusted setup, in which nothing has happened. The lag is in microseconds; the capacity is the number of
    /// packets that each epoch holds at most, and of accepted messages that wait; the quota is a number of packets of one
    /// interval; each ingest below `ingests`, of which there is one at least, has to end before a take answers `Over`. All
    /// memory is taken here, for three epochs with 4,096 promises each, the messages and 64 streams: `reserved` tells for how
    /// many entries all tables have room, and no other call changes it. `NoMemory`: there wasn't enough.
    pub fn open(
        alloc: Global,
        setup: Setup,
        lag: i64,
        capacity: u32,
        quota: u32,
        ingests: u8,
    ) -> Result<Follower, NoMemory>
        requires some { 1 ≤ quota }
        requires within { quota ≤ capacity }
        requires few { capacity ≤ 4096 }
        requires ingests { 1 ≤ ingests }
        ensures config { IfOk result (λ f. f.config ≡ record { setup = setup; lag = lag; capacity = capacity; quota = quota; ingests = ingests }) }
        ensures stands { IfOk result (λ f. FollowStands f []) }
    {
        let config = Config {
            setup,
            lag,
            capacity,
            quota,
            ingests,
        };
        let epochs = open_epochs(alloc, &config, 1)?;
        let spares = open_epochs(alloc, &config, 2)?;
        Ok(Follower {
            alloc,
            opened: 1,
            epochs,
            spares,
            known: Known::open(alloc)?,
            queue: Queue::open(alloc, capacity)?,
            turn: true,
            ended: vec![in alloc; false; usize::from(ingests)]?,
            records: 0,
            early: 0,
            unqueued: 0,
            dropped: 0,
            closed: NOTHING,
            calls: 0,
            config,
        })
    }

    /// Judges a datagram of an ingest, with the reading of the receiver's clock in microseconds: in the open epoch whose
    /// stream is the frame's, and in the oldest where there is none or the bytes aren't a frame. A message that was promised
    /// in this epoch waits to be given, where there is a place for it. The datagram is read once, and its payload hashed once
    /// at most. It takes no memory, and as many counted steps as that epoch's receiver.
    pub fn arrive<L: Ledger>(
        &mut self,
        ingest: u8,
        reading: u64,
        bytes: &[u8],
        steps: &mut Steps<L>,
    ) -> FollowVerdict
        requires { self.old.calls < 2 ^ 63 }
        ensures answer { (h : List FollowEntry) → FollowStands self.old h →
            Arrived (record { ingest = ingest; reading = reading; bytes = bytes.now; verdict = result }) ≡ entry_of self.old.config (followed self.old.config h) (Arrives ingest reading bytes.now) }
        ensures stands { (h : List FollowEntry) → FollowStands self.old h → FollowStands self.new (h ++ entry_of self.old.config (followed self.old.config h) (Arrives ingest reading bytes.now) ∷ []) }
        ensures evaluations { (h : List FollowEntry) → FollowStands self.old h → let made = followed self.old.config h in let epoch = epoch_at self.old.config made (place_for made bytes.now) in
            steps.new ≤ steps.old + most_evaluations epoch.config (arrivals_in epoch.history) reading bytes.now }
        ensures config { self.new.config ≡ self.old.config }
        ensures calls { self.new.calls ≡ self.old.calls + 1 }
        ensures reserved { self.new.reserved ≡ self.old.reserved }
    {
        let frame = read_frame(bytes);
        let place = place_for(self.epochs.as_slice(), frame.as_ref());
        let room = self.queue.has_room();
        let number = (self.opened - self.epochs.len() as u64 + place as u64) as u32;
        let judged = self.epochs[place].arrive(ingest, reading, bytes, frame.as_ref(), room, steps);
        wait(&mut self.queue, number, judged.acceptance, frame.as_ref());
        self.unqueued += unqueued_by(judged.acceptance);
        self.calls += 1;
        FollowVerdict {
            epoch: number,
            verdict: judged.verdict,
            acceptance: judged.acceptance,
        }
    }

    /// Ends an ingest in every epoch that is open, and in those that are opened later. One at or above the number of ingests
    /// counts for nothing. It takes no memory.
    pub fn end(&mut self, ingest: u8)
        requires { self.old.calls < 2 ^ 63 }
        ensures stands { (h : List FollowEntry) → FollowStands self.old h → FollowStands self.new (h ++ entry_of self.old.config (followed self.old.config h) (Ends ingest) ∷ []) }
        ensures config { self.new.config ≡ self.old.config }
        ensures calls { self.new.calls ≡ self.old.calls + 1 }
        ensures reserved { self.new.reserved ≡ self.old.reserved }
    {
        end_open(&mut self.epochs, ingest);
        mark(&mut self.ended, usize::from(ingest));
        self.calls += 1;
    }

    /// How many epochs were opened: 1 at least.
    pub fn epochs(&self) -> u64
        ensures { (h : List FollowEntry) → FollowStands self.now h → result ≡ length (followed self.now.config h).epochs }
    {
        self.opened
    }

    /// How many epochs are open: 1 to 3.
    pub fn open_count(&self) -> u8
        ensures { (h : List FollowEntry) → FollowStands self.now h → result ≡ length (open_epochs (followed self.now.config h)) }
    {
        self.epochs.len() as u8
    }

    /// How many messages and packets wait to be given.
    pub fn waiting(&self) -> u64
        ensures { (h : List FollowEntry) → FollowStands self.now h → result ≡ waiting_over (followed self.now.config h) }
    {
        self.queue.len() + waiting_in(self.epochs.as_slice())
    }

    /// How many records were given.
    pub fn records(&self) -> u64
        ensures { (h : List FollowEntry) → FollowStands self.now h → result ≡ (followed self.now.config h).records }
    {
        self.records
    }

    /// How many records were of messages that were accepted on arrival.
    pub fn early(&self) -> u64
        ensures { (h : List FollowEntry) → FollowStands self.now h → result ≡ (followed self.now.config h).early }
    {
        self.early
    }

    /// How many messages were promised and found no place.
    pub fn unqueued(&self) -> u64
        ensures { (h : List FollowEntry) → FollowStands self.now h → result ≡ (followed self.now.config h).unqueued }
    {
        self.unqueued
    }

    /// How many packets were held, and not given, in epochs when these were closed.
    pub fn dropped(&self) -> u64
        ensures { (h : List FollowEntry) → FollowStands self.now h → result ≡ (followed self.now.config h).dropped }
    {
        self.dropped
    }

    /// How many events there were.
    pub fn calls(&self) -> u64
        ensures { result ≡ self.now.calls }
    {
        self.calls
    }
}

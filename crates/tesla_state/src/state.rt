//! What a receiver keeps, moved by each event.

ghost use Rattle.std.specs.Prelude.{◌≡◌, ◌+◌, ◌^◌, ◌<◌, ◌≤◌, [], IfOk, get_or, length, map, option_copied, option_map, replicate, false, count_by};
ghost use Rattle.tesla_fitting.specs.Config.{chains};
ghost use Rattle.tesla_frame.specs.Reading.{frame_of};
ghost use Rattle.tesla_frame.specs.Shown.{shown};
ghost use Rattle.tesla_base.specs.declared.names.ChainNo.{ChainNo};
ghost use Rattle.tesla_state.specs.Costs.{most_by, offers_by};
ghost use Rattle.tesla_state.specs.Kept.{CountsWithin};
ghost use Rattle.tesla_state.specs.Replies.{reply_shown, KeepsBehind};
ghost use Rattle.tesla_state.specs.Steps.{is_untaken, opened, judged, after_arrival, reply_by, after_take, after_end, after_limit};
ghost use Rattle.tesla_walks.specs.Tips.{first_tip};

use crate::arriving::receive;
use crate::counts::count;
use crate::ended::{all_set, mark, unset};
use crate::tables::Tables;
use crate::{Report, Store, Take};
use std::alloc::Global;
use std::marker::Model;
use std::sync::ledger::Ledger;
use tesla_base::{MOST_PAYLOAD, NoMemory, Steps};
use tesla_commit::Setup;
use tesla_fitting::{Config, Verdict};
use tesla_frame::FrameView;
use tesla_walks::{begin_tips, first_tips};

/// The counts before any event.
const NOTHING: Report = Report {
    arrivals: 0,
    malformed: 0,
    foreign: 0,
    misfit: 0,
    future: 0,
    badkey: 0,
    late: 0,
    repeat: 0,
    full: 0,
    kept: 0,
    keys: 0,
    given: 0,
};

/// What a receiver of one stream keeps: the newest keys, the packets that have a place, those that wait to be taken,
/// which ingests have ended, and the counts. All memory is taken when it is opened. It knows of no history.
#[derive(Drop)]
pub struct ReceiverState {
    tables: Tables,
    ended: Vec<bool>,
    counts: Report,
    calls: u64,
}

impl Model for ReceiverState {
    ghost use Rattle.std.specs.Prelude.{vec_capacity};
    ghost use Rattle.tesla_state.specs.Kept.{reserved_in, state_in, IsKept};
    ghost use Rattle.tesla_state.specs.State.{State};

    ghost Value = { State };

    ghost view = { λ k. state_in k.tables k.ended.items k.counts k.calls (reserved_in (vec_capacity k.tables.tips) k.tables.store (vec_capacity k.tables.walks) (vec_capacity k.tables.batch) (vec_capacity k.ended)) };

    ghost invariant = { λ k. IsKept k.tables.config k.tables.tips.items k.tables.store (vec_capacity k.tables.tips) (vec_capacity k.tables.walks) (vec_capacity k.tables.batch) (vec_capacity k.ended) k.counts k.calls };
}

impl ReceiverState {
    /// A receiver to which nothing has happened. The lag is in microseconds; the capacity is a number of packets, at
    /// most 65,536, and the quota one of packets of an interval, from 1 to the capacity; each ingest below `ingests`,
    /// of which there is one at least, has to end before a take answers `Over`. All memory is taken here: `reserved` tells
    /// for how many entries all tables have room, and no other call changes it. `NoMemory`: there was none for the packets
    /// that may be held, or for a flag of each ingest.
    pub fn open(
        alloc: Global,
        setup: Setup,
        lag: i64,
        capacity: u32,
        quota: u32,
        ingests: u8,
    ) -> Result<ReceiverState, NoMemory>
        requires some { 1 ≤ quota }
        requires within { quota ≤ capacity }
        requires few { capacity ≤ 65536 }
        requires ingests { 1 ≤ ingests }
        ensures { IfOk result (λ k. k ≡ opened (record { setup = setup; lag = lag; capacity = capacity; quota = quota; ingests = ingests }) k.reserved) }
    {
        // Room for any number of ingests, since it may be limited to a greater one too.
        let mut ended = Vec::with_capacity(alloc, 255)?;
        unset(&mut ended, ingests);
        let config = Config {
            setup,
            lag,
            capacity,
            quota,
            ingests,
        };
        let tips = first_tips(alloc, &config)?;
        let store = Store::open(alloc, capacity, config.setup.count())?;
        Ok(ReceiverState {
            tables: Tables {
                config,
                tips,
                store,
                walks: Vec::with_capacity(alloc, 8)?,
                batch: Vec::with_capacity(alloc, capacity as usize)?,
            },
            ended,
            counts: NOTHING,
            calls: 0,
        })
    }

    /// Judges a datagram of an ingest, that was read as this frame or as none, with the reading of the receiver's clock in
    /// microseconds. It takes no memory. No step is counted where a datagram is refused before its keys are looked at; else at most two for each interval
    /// from a newer key down to the newest of its chain, and two for each held packet that isn't released and each chain
    /// on which the new keys reach it. Where a key is bad, they are at most one for each interval from a newer key down to
    /// the newest of its chain.
    pub fn arrive<L: Ledger>(
        &mut self,
        _ingest: u8,
        reading: u64,
        bytes: &[u8],
        frame: Option<&FrameView<'_>>,
        steps: &mut Steps<L>,
    ) -> Verdict
        requires read { option_map shown (option_copied frame) ≡ frame_of bytes.now }
        requires calls { self.old.calls + 1 < 2 ^ 64 }
        ensures verdict { result ≡ judged self.old reading bytes.now }
        ensures state { self.new ≡ after_arrival self.old reading bytes.now }
        ensures reserved { self.new.reserved ≡ self.old.reserved }
        ensures cost { steps.new ≤ steps.old + most_by self.old reading bytes.now }
        ensures badkey { (chain : ChainNo) → result ≡ Verdict.BadKey chain → steps.new ≤ steps.old + offers_by self.old bytes.now }
    {
        let verdict = receive(
            &mut self.tables,
            self.counts.arrivals,
            reading,
            bytes,
            frame,
            steps,
        );
        count(&mut self.counts, verdict);
        self.calls += 1;
        verdict
    }

    /// Gives the next released packet, whose payload is then at the front of the buffer, or says whether all ingests
    /// have ended. The rest of the buffer stays as it was. It takes no memory.
    pub fn take(&mut self, into: &mut [u8; MOST_PAYLOAD]) -> Take
        requires { self.old.calls + 1 < 2 ^ 64 }
        ensures answer { reply_shown result into.new ≡ reply_by self.old }
        ensures state { self.new ≡ after_take self.old }
        ensures reserved { self.new.reserved ≡ self.old.reserved }
        ensures behind { KeepsBehind result into.old into.new }
    {
        self.calls += 1;
        let head = self.tables.store.take(
            &self.tables.config,
            self.tables.tips.as_slice(),
            self.counts.given,
            into,
        );
        let Some(head) = head else {
            return if all_set(&self.ended) {
                Take::Over
            } else {
                Take::Empty
            };
        };
        self.counts.given += 1;
        Take::Given(head)
    }

    /// Ends an ingest. One at or above the number of ingests counts for nothing. It takes no memory.
    pub fn end(&mut self, ingest: u8)
        requires { self.old.calls + 1 < 2 ^ 64 }
        ensures state { self.new ≡ after_end self.old ingest }
        ensures reserved { self.new.reserved ≡ self.old.reserved }
    {
        mark(&mut self.ended, ingest as usize);
        self.calls += 1;
    }

    /// Keeps only the first ingests, at most so many of them. It takes no memory, and gives none back.
    pub fn limit_ingests(&mut self, ingests: u8)
        ensures state { self.new ≡ after_limit self.old ingests }
        ensures reserved { self.new.reserved ≡ self.old.reserved }
    {
        self.tables.config.ingests = ingests;
        self.ended.truncate(ingests as usize);
    }

    /// Begins anew with another setup, as if it had been opened with it and the same lag, capacity, quota and ingests. It
    /// tells how many of the packets that were held weren't taken. It takes no memory, and goes over those packets.
    pub fn reopen(&mut self, setup: Setup) -> u32
        ensures dropped { result ≡ count_by is_untaken self.old.held }
        ensures opened { self.new ≡ opened (record self.old.config { setup = setup }) self.old.reserved }
    {
        let chains = setup.count();
        self.tables.config.setup = setup;
        begin_tips(&mut self.tables.tips, &self.tables.config);
        let dropped = self.tables.store.clear(chains);
        unset(&mut self.ended, self.tables.config.ingests);
        self.counts = NOTHING;
        self.calls = 0;
        dropped
    }

    /// Whether an ingest has ended. One at or above the number of ingests hasn't.
    pub fn has_ended(&self, ingest: u8) -> bool
        ensures { result ≡ get_or self.now.ended ingest false }
    {
        self.ended
            .get(usize::from(ingest))
            .copied()
            .unwrap_or(false)
    }

    /// How many events the receiver has had.
    pub fn calls(&self) -> u64
        ensures { result ≡ self.now.calls }
    {
        self.calls
    }

    /// The counts of what happened.
    pub fn report(&self) -> Report
        ensures value { result ≡ self.now.counts }
        ensures few { CountsWithin self.now.calls result }
    {
        self.counts
    }

    /// How many released packets wait to be taken.
    pub fn waiting(&self) -> u32
        ensures { result ≡ length self.now.waiting }
    {
        self.tables.store.waiting()
    }

    /// How many packets are held.
    pub fn held(&self) -> u32
        ensures value { result ≡ length self.now.held }
        ensures most { result ≤ self.now.config.capacity }
    {
        self.tables.store.held()
    }
}

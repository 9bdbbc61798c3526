//! A station with the last entries of its history.

ghost use Rattle.std.specs.Prelude.{◌≡◌, ◌≤◌, ◌-◌, ◌++◌, [], List, length, flat_map, min, IfOk};
ghost use Rattle.tesla_receiver.specs.Entries.{Entry};
ghost use Rattle.tesla_trace.specs.Trace.{entry_text};
ghost use Rattle.tesla_recorder.specs.Recorded.{RecordedStands, last_entries};

use crate::tail::LastEntries;
use std::alloc::Global;
use std::marker::Model;
use tesla_base::{Chronicle, MOST_PAYLOAD, NoMemory};
use tesla_capture::Gatherer;
use tesla_receiver::{Config, Receiver, Reply, Report, Take, Verdict};
use tesla_shared::{Gathered, Receiving, Station};

/// A station, and the last entries of its history: each arrival with its verdict, each take with its answer, and each end.
#[derive(Drop)]
pub struct Recorded<V = Receiver> {
    station: V,
    last: LastEntries,
}

/// What a station is set up with, and how many entries of its history are kept at most.
#[derive(Debug, Drop)]
pub struct RecordedConfig<C = Config> {
    /// What the station is set up with.
    pub config: C,
    /// How many entries are kept at most: 1 to 4,096.
    pub keep: u32,
}

impl<V> Model for Recorded<V> {
    ghost use Rattle.tesla_recorder.specs.Recorded.{RecordedState};

    ghost Value = { RecordedState V };

    ghost view = { λ r. record { station = r.station; keep = r.last.keep; texts = r.last.texts; reserved = r.last.reserved } };
}

impl<V: Receiving> Chronicle for Recorded<V> {
    ghost use Rattle.tesla_recorder.specs.Recorded.{RecordedStands};

    type Entry = tesla_receiver::Entry;

    type Config = RecordedConfig<V::Config>;

    ghost config = { λ recorded. record { config = V.config recorded.station; keep = recorded.keep } };

    ghost stands = { RecordedStands V.stands };
}

impl<V: Receiving> Recorded<V> {
    /// Records of this station, which has had no event, the last entries from now on: so many, from 1 to 4,096. All memory
    /// is taken here, 2,072 bytes for each entry. `NoMemory`: there wasn't enough.
    pub fn open(alloc: Global, station: V, keep: u32) -> Result<Recorded<V>, NoMemory>
        requires new { V.stands station [] }
        requires some { 1 ≤ keep }
        requires few { keep ≤ 4096 }
        ensures stands { IfOk result (λ r. RecordedStands V.stands r []) }
        ensures station { IfOk result (λ r. r.station ≡ station) }
        ensures keep { IfOk result (λ r. r.keep ≡ keep) }
    {
        let last = LastEntries::open(alloc, keep)?;
        Ok(Recorded { station, last })
    }

    /// How many entries are kept.
    pub fn kept(&self) -> usize
        ensures count { result ≡ length self.now.texts }
        ensures least { (h : List Entry) → RecordedStands V.stands self.now h → result ≡ min (length h) self.now.keep }
    {
        self.last.count()
    }

    /// How many entries of the history stand before those that are kept.
    pub fn first(&self) -> u64
        ensures { (h : List Entry) → RecordedStands V.stands self.now h → result ≡ length h - length self.now.texts }
    {
        self.calls().saturating_sub(self.last.count() as u64)
    }

    /// The entries that are kept, each as it is spelled in a tail, one behind the other and the oldest first. The second slice
    /// goes on where the first ends.
    pub fn texts(&self) -> (&[u8], &[u8])
        ensures texts { result.0.now ++ result.1.now ≡ flat_map (λ text. text) self.now.texts }
        ensures spelled { (h : List Entry) → RecordedStands V.stands self.now h → result.0.now ++ result.1.now ≡ flat_map entry_text (last_entries self.now.keep h) }
    {
        self.last.texts()
    }
}

impl<V: Receiving> Station for Recorded<V> {
    type Verdict = Verdict;

    type Reply = Reply;

    type Take = Take;

    ghost ingests = { λ config. V.ingests config.config };

    ghost is_legal = { λ config. V.is_legal config.config };

    ghost shown = { V.shown };

    ghost keeps_behind = { V.keeps_behind };

    ghost yields = { V.yields };

    ghost legal = { λ recorded h stood. V.legal recorded.station h stood.stood };

    fn arrive(&mut self, ingest: u8, reading: u64, bytes: &[u8]) -> Verdict {
        let verdict = self.station.arrive(ingest, reading, bytes);
        self.last.put_arrival(ingest, reading, bytes, verdict);
        verdict
    }

    fn take(&mut self, releaser: u8, into: &mut [u8; MOST_PAYLOAD]) -> Take {
        let reply = self.station.take(releaser, into);
        self.last.put_take(releaser, reply, into);
        reply
    }

    fn gather(take: Take, payload: &[u8; MOST_PAYLOAD], gatherer: &mut Gatherer) -> Gathered {
        V::gather(take, payload, gatherer)
    }

    fn let_go(verdict: Verdict) {
        V::let_go(verdict);
    }

    fn end(&mut self, ingest: u8) {
        self.station.end(ingest);
        self.last.put_end(ingest);
    }

    fn may_wait(&self) -> bool {
        self.station.may_wait()
    }

    fn calls(&self) -> u64 {
        self.station.calls()
    }
}

impl<V: Receiving> Receiving for Recorded<V> {
    ghost receiver = { λ config. V.receiver config.config };

    ghost ingests_are = { λ config. V.ingests_are config.config };

    ghost legal_is = { λ config. V.legal_is config.config };

    ghost shown_is = { V.shown_is };

    ghost keeps_is = { V.keeps_is };

    ghost yields_are = { V.yields_are };

    fn report(&self) -> Report {
        self.station.report()
    }
}

//! A station, with its counts beside it.

ghost use Rattle.std.specs.Prelude.{◌≡◌, ◌+◌, ◌<◌, ◌^◌, ◌++◌, ◌∷◌, [], ℕ, List, IfOk, cond, length, map, if◌then◌else◌, nat_lt, slice_index_or, slice_set};
ghost use Rattle.std.specs.List.{range_with_len};
ghost use Rattle.tesla_receiver.specs.Entries.{Entry};
ghost use Rattle.tesla_receiver.specs.declared.history.Entry.TheVariants.{Taken};
ghost use Rattle.tesla_state.specs.Replies.{reply_shown};
ghost use Rattle.tesla_counters.specs.Counts.{NoneFalls, no_counts};
ghost use Rattle.tesla_recorder.specs.watched.Chains.{chain_in, is_chain};
ghost use Rattle.tesla_recorder.specs.watched.Watched.{WatchedStands, counts_in, counts_of};

use std::alloc::Global;
use std::marker::Model;
use tesla_base::{Chronicle, MOST_PAYLOAD, NoMemory};
use tesla_capture::Gatherer;
use tesla_counters::{Counters, Reader, Writer};
use tesla_receiver::{Config, Receiver, Reply, Report, Take, Verdict};
use tesla_shared::{Gathered, Receiving, Station};

/// How many counts of a report there are, but for its arrivals.
pub const REPORT_COUNTS: usize = 11;

// How many chains a setup has at most.
const CHAINS: usize = 8;

/// How many counts there are: those of a report but for its arrivals, in the order of its lines, and then one for each
/// chain.
pub const COUNTS: usize = 19;

/// A station, and the counts of its history, which another thread may read at any time.
#[derive(Drop)]
pub struct Watched<V = Receiver> {
    station: V,
    counts: Writer<COUNTS>,
}

/// What a station is set up with, and which counts are those of its history.
pub struct WatchedConfig<C = Config> {
    /// What the station is set up with.
    pub config: C,
    /// The counts that are read.
    pub counters: Counters<COUNTS>,
}

impl<V> Model for Watched<V> {
    ghost use Rattle.tesla_recorder.specs.watched.Watched.{WatchedState};

    ghost Value = { WatchedState V };

    ghost view = { λ w. record { station = w.station; counters = w.counts.counters; counts = w.counts.counts } };
}

impl<V: Receiving> Chronicle for Watched<V> {
    ghost use Rattle.tesla_recorder.specs.watched.Watched.{WatchedStands};

    type Entry = tesla_receiver::Entry;

    type Config = WatchedConfig<V::Config>;

    ghost config = { λ watched. record { config = V.config watched.station; counters = watched.counters } };

    ghost stands = { WatchedStands V.stands };
}

// The chain on which the packet that was given was released.
fn chain_of(reply: Take) -> Option<u8>
    ensures { (releaser : ℕ) (into : List ℕ) → chain_in (Taken releaser (reply_shown reply into)) ≡ result }
{
    match reply {
        Take::Given(head) => Some(head.chain),
        Take::Empty | Take::Over => None,
    }
}

// One packet more was released on this chain.
fn raise(counts: &mut [u64; COUNTS], chain: u8)
    requires { (k : ℕ) → slice_index_or counts.old (11 + k) 0 + 1 < 2 ^ 64 }
    ensures { counts.new ≡ (if nat_lt chain 8 then slice_set counts.old (11 + chain) (slice_index_or counts.old (11 + chain) 0 + 1) else counts.old) }
{
    let chain = usize::from(chain);
    if chain < CHAINS {
        counts[REPORT_COUNTS + chain] += 1;
    }
}

// The counts of a report but for its arrivals, in the order of its lines, and behind them those by chain as they were.
fn counts_with(report: &Report, before: &[u64; COUNTS]) -> [u64; COUNTS]
    ensures { result ≡ counts_in report.now ++ map (λ k. slice_index_or before.now (11 + k) 0) (range_with_len 0 8) }
{
    [
        report.malformed,
        report.foreign,
        report.misfit,
        report.future,
        report.badkey,
        report.late,
        report.repeat,
        report.full,
        report.kept,
        report.keys,
        report.given,
        before[11],
        before[12],
        before[13],
        before[14],
        before[15],
        before[16],
        before[17],
        before[18],
    ]
}

// The counts behind an event, with this report: where a packet was given, one more was released on its chain.
fn counts_after(report: &Report, before: &[u64; COUNTS], chain: Option<u8>) -> [u64; COUNTS]
    requires { (k : ℕ) → slice_index_or before.now (11 + k) 0 + 1 < 2 ^ 64 }
    ensures { result ≡ counts_in report.now ++ map (λ k. cond (is_chain k chain) (slice_index_or before.now (11 + k) 0 + 1) (slice_index_or before.now (11 + k) 0)) (range_with_len 0 8) }
{
    let mut counts = counts_with(report, before);
    match chain {
        Some(chain) => {
            raise(&mut counts, chain);
            counts
        }
        None => counts,
    }
}

impl<V: Receiving> Watched<V> {
    /// Counts from now on what this station answers, which has had no event. The reader has the counts as they stand at
    /// any time. `NoMemory`: there wasn't enough.
    pub fn open(alloc: Global, station: V) -> Result<(Watched<V>, Reader<COUNTS>), NoMemory>
        requires { V.stands station [] }
        ensures stands { IfOk result (λ it. WatchedStands V.stands it.0 []) }
        ensures station { IfOk result (λ it. it.0.station ≡ station) }
        ensures counters { IfOk result (λ it. it.1.counters ≡ it.0.counters) }
        ensures zero { IfOk result (λ it. it.1.counts ≡ no_counts 19) }
    {
        let (counts, reader) = Counters::open(alloc)?;
        Ok((Watched { station, counts }, reader))
    }

    /// The counts of the whole history: those of its report but for its arrivals, in the order of its lines, and then how
    /// many packets were released on each chain.
    pub fn counts(&self) -> [u64; COUNTS]
        ensures { (h : List Entry) → WatchedStands V.stands self.now h → result ≡ counts_of h }
    {
        *self.counts.counts()
    }

    /// Takes the reader back. What it read last is not above the counts.
    pub fn compare(&mut self, reader: Reader<COUNTS>)
        requires { reader.counters ≡ self.old.counters }
        ensures below { NoneFalls reader.counts self.old.counts }
        ensures same { self.new ≡ self.old }
    {
        self.counts.compare(reader);
    }

    // Sets the counts behind an event, to those of the history that the station stands for now, told the chain on which
    // the packet was released that was given.
    fn count(&mut self, chain: Option<u8>)
        requires { (h : List Entry) × (entry : Entry) × (length h < 2 ^ 63) × V.stands self.old.station (h ++ entry ∷ []) × (self.old.counts ≡ counts_of h) × (chain_in entry ≡ chain) }
        ensures stands { (h : List Entry) (entry : Entry) → V.stands self.old.station (h ++ entry ∷ []) → self.old.counts ≡ counts_of h → chain_in entry ≡ chain → WatchedStands V.stands self.new (h ++ entry ∷ []) }
        ensures same { (self.new.station ≡ self.old.station) × (self.new.counters ≡ self.old.counters) }
    {
        let counts = counts_after(&self.station.report(), self.counts.counts(), chain);
        self.counts.set(&counts);
    }
}

impl<V: Receiving> Station for Watched<V> {
    type Verdict = Verdict;

    type Reply = Reply;

    type Take = Take;

    ghost ingests = { λ config. V.ingests config.config };

    ghost is_legal = { λ config. V.is_legal config.config };

    ghost shown = { V.shown };

    ghost keeps_behind = { V.keeps_behind };

    ghost yields = { V.yields };

    ghost legal = { λ watched h stood. V.legal watched.station h stood.stood };

    fn arrive(&mut self, ingest: u8, reading: u64, bytes: &[u8]) -> Verdict {
        let verdict = self.station.arrive(ingest, reading, bytes);
        self.count(None);
        verdict
    }

    fn take(&mut self, releaser: u8, into: &mut [u8; MOST_PAYLOAD]) -> Take {
        let reply = self.station.take(releaser, into);
        self.count(chain_of(reply));
        reply
    }

    fn gather(take: Take, payload: &[u8; MOST_PAYLOAD], gatherer: &mut Gatherer) -> Gathered {
        V::gather(take, payload, gatherer)
    }

    fn let_go(verdict: Verdict) {
        V::let_go(verdict);
    }

    fn end(&mut self, ingest: u8) {
        self.station.end(ingest);
        self.count(None);
    }

    fn may_wait(&self) -> bool {
        self.station.may_wait()
    }

    fn calls(&self) -> u64 {
        self.station.calls()
    }
}

impl<V: Receiving> Receiving for Watched<V> {
    ghost receiver = { λ config. V.receiver config.config };

    ghost ingests_are = { λ config. V.ingests_are config.config };

    ghost legal_is = { λ config. V.legal_is config.config };

    ghost shown_is = { V.shown_is };

    ghost keeps_is = { V.keeps_is };

    ghost yields_are = { V.yields_are };

    fn report(&self) -> Report {
        self.station.report()
    }
}

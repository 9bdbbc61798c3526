//! A station whose arrivals are datagrams that links brought, at readings that clocks gave for them.

ghost use Rattle.std.specs.Prelude.{◌≡◌};

use crate::receiving::Receiving;
use crate::station::{Gathered, Station};
use std::marker::PhantomData;
use tesla_base::{Chronicle, MOST_PAYLOAD};
use tesla_capture::Gatherer;
use tesla_desk::Clock;
use tesla_receiver::{Entry, Report};
use tesla_turn::Permitting;

/// A station whose calls are permitted to its workers alone: each to the pass of its worker, and an arrival of each ingest
/// as the next datagram of its link, at a reading that a clock of this type gave when it was asked for that one.
#[derive(Drop)]
pub struct Witnessed<V, C> {
    station: V,
    clock: PhantomData<C>,
}

impl<V: Station, C: Clock> Witnessed<V, C> {
    /// The station with no history, whose calls are permitted so from now on.
    pub fn new(station: V) -> Witnessed<V, C>
        ensures { result.station ≡ station }
    {
        Witnessed {
            station,
            clock: PhantomData,
        }
    }

    /// The station.
    pub fn into_station(self) -> V
        ensures { result ≡ self.station }
    {
        let Witnessed { station, clock: _ } = self;
        station
    }
}

impl<V: Station, C: Clock> Chronicle for Witnessed<V, C> {
    type Entry = Entry<V::Verdict, V::Reply>;

    type Config = V::Config;

    ghost config = { λ it. V.config it.station };

    ghost stands = { λ it h. V.stands it.station h };
}

impl<V: Station, C: Clock> Permitting for Witnessed<V, C> {
    ghost use Rattle.tesla_shared.specs.Due.{IsOfWorker};

    ghost permits = { λ cfg. IsOfWorker C.read_for (V.ingests cfg) };
}

impl<V: Station, C: Clock + Drop> Station for Witnessed<V, C> {
    type Verdict = V::Verdict;

    type Reply = V::Reply;

    type Take = V::Take;

    ghost ingests = { V.ingests };

    ghost is_legal = { V.is_legal };

    ghost shown = { V.shown };

    ghost keeps_behind = { V.keeps_behind };

    ghost yields = { V.yields };

    ghost legal = { λ it h stood. V.legal it.station h stood };

    fn arrive(&mut self, ingest: u8, reading: u64, bytes: &[u8]) -> V::Verdict {
        self.station.arrive(ingest, reading, bytes)
    }

    fn take(&mut self, releaser: u8, into: &mut [u8; MOST_PAYLOAD]) -> V::Take {
        self.station.take(releaser, into)
    }

    fn gather(take: V::Take, payload: &[u8; MOST_PAYLOAD], gatherer: &mut Gatherer) -> Gathered {
        V::gather(take, payload, gatherer)
    }

    fn let_go(verdict: V::Verdict) {
        V::let_go(verdict);
    }

    fn end(&mut self, ingest: u8) {
        self.station.end(ingest);
    }

    fn may_wait(&self) -> bool {
        self.station.may_wait()
    }

    fn calls(&self) -> u64 {
        self.station.calls()
    }
}

impl<V: Receiving, C: Clock + Drop> Receiving for Witnessed<V, C> {
    ghost receiver = { V.receiver };

    ghost ingests_are = { V.ingests_are };

    ghost legal_is = { V.legal_is };

    ghost shown_is = { V.shown_is };

    ghost keeps_is = { V.keeps_is };

    ghost yields_are = { V.yields_are };

    fn report(&self) -> Report {
        self.station.report()
    }
}

//! What a worker does in a turn.

ghost use Rattle.std.specs.Prelude.{◌≡◌, ◌<◌, ◌≤◌, ◌^◌, ◌++◌, ◌∷◌, [], List, length, true};
ghost use Rattle.tesla_receiver.specs.declared.history.Entry.TheVariants.{Arrived};

use crate::station::Station;
use tesla_base::MOST_PAYLOAD;
use tesla_desk::Clock;
use tesla_turn::Act;

/// Reads the clock for a datagram of at most 2,048 bytes, and makes an arrival of it.
#[derive(Drop)]
pub(crate) struct Hear<'a, 'b, C: Clock> {
    pub(crate) ingest: u8,
    /// Its number among the datagrams of its link, counted from 0.
    pub(crate) number: u64,
    pub(crate) bytes: &'a [u8],
    pub(crate) clock: &'b mut C,
    ghost few: { length bytes.now ≤ 2048 },
    ghost asked: { C.may_ask number bytes.now ≡ true },
}

/// When a datagram came, its verdict, and whether packets may wait then.
pub(crate) struct Heard<A> {
    pub(crate) reading: u64,
    pub(crate) verdict: A,
    pub(crate) waits: bool,
}

impl<V: Station, C: Clock> Act<V> for Hear<'_, '_, C> {
    ghost use Rattle.std.specs.Prelude.{◌≡◌, true};
    ghost use Rattle.tesla_receiver.specs.declared.history.Entry.TheVariants.{Arrived};
    ghost use Rattle.tesla_desk.specs.Clocks.{Ticks};

    type Reply = Heard<V::Verdict>;

    ghost entry = { λ act heard. Arrived (record { ingest = act.ingest; reading = heard.reading; bytes = act.bytes.now; verdict = heard.verdict }) };

    ghost relation = { λ before after heard. (after.ingest ≡ before.ingest) × (after.bytes ≡ before.bytes) × (after.clock.ghost_name ≡ before.clock.ghost_name) × Ticks (C.told before.clock.now) (C.told after.clock.now) heard.reading × (C.read_for before.number before.bytes.now heard.reading ≡ true) };

    fn run(&mut self, value: &mut V) -> Heard<V::Verdict> {
        let reading = self.clock.now_for(self.bytes);
        let verdict = value.arrive(self.ingest, reading, self.bytes);
        let waits = value.may_wait();
        Heard {
            reading,
            verdict,
            waits,
        }
    }
}

/// Takes the next released packet.
#[derive(Drop)]
pub(crate) struct TakeNext {
    pub(crate) releaser: u8,
    pub(crate) payload: [u8; MOST_PAYLOAD],
}

impl<V: Station> Act<V> for TakeNext {
    ghost use Rattle.std.specs.Prelude.{◌≡◌};
    ghost use Rattle.tesla_receiver.specs.declared.history.Entry.TheVariants.{Taken};

    type Reply = V::Take;

    ghost entry = { λ act reply. Taken act.releaser (V.shown reply act.payload) };

    ghost relation = { λ before after reply. (after.releaser ≡ before.releaser) × V.keeps_behind reply before.payload after.payload };

    fn run(&mut self, value: &mut V) -> V::Take {
        value.take(self.releaser, &mut self.payload)
    }
}

/// Ends an ingest.
#[derive(Drop)]
pub(crate) struct EndIngest {
    pub(crate) ingest: u8,
}

impl<V: Station> Act<V> for EndIngest {
    ghost use Rattle.std.specs.Prelude.{◌≡◌};
    ghost use Rattle.tesla_receiver.specs.declared.history.Entry.TheVariants.{Ended};

    type Reply = ();

    ghost entry = { λ act _. Ended act.ingest };

    ghost relation = { λ before after _. after ≡ before };

    fn run(&mut self, value: &mut V) {
        value.end(self.ingest);
    }
}

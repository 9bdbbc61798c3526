//! Who reads the counts.

ghost use Rattle.std.specs.Prelude.{◌≡◌};
ghost use Rattle.tesla_counters.specs.Counts.{NoneFalls};
ghost use Rattle.tesla_counters.specs.Steps.{IsReading};

use crate::counters::Counters;
use crate::plays::Look;
use crate::view::CountsSeat;
use std::marker::Model;
use std::sync::Arc;

/// Reads the counts. It may go to another thread.
#[derive(Drop)]
pub struct Reader<const N: usize> {
    pub(crate) counters: Arc<Counters<N>>,
    pub(crate) seat: CountsSeat,
    // What it read last.
    pub(crate) counts: [u64; N],
}

impl<const N: usize> Model for Reader<N> {
    ghost use Rattle.std.specs.Arc.{arc_value};
    ghost use Rattle.tesla_counters.specs.Counts.{KnownCounts};
    ghost use Rattle.tesla_counters.specs.Steps.{IsReading};

    ghost Value = { KnownCounts };

    ghost view = { λ r. record { counters = arc_value r.counters; counts = r.counts } };

    ghost invariant = { λ r. IsReading (arc_value r.counters) r.counts r.seat };
}

impl<const N: usize> Reader<N> {
    /// The counts now, each read by itself, the last one first.
    pub fn read(&mut self) -> [u64; N]
        ensures counts { result ≡ self.new.counts }
        ensures rise { NoneFalls self.old.counts self.new.counts }
        ensures counters { self.new.counters ≡ self.old.counters }
    {
        look(&self.counters, &mut self.seat, &mut self.counts);
        self.counts
    }
}

// Reads each word, and keeps what it found.
fn look<const N: usize>(counters: &Counters<N>, seat: &mut CountsSeat, counts: &mut [u64; N])
    requires { IsReading counters.now counts.old seat.old }
    ensures seat { IsReading counters.now counts.new seat.new }
    ensures rise { NoneFalls counts.old counts.new }
{
    for index in (0..N).rev() {
        counts[index] = counters.table.shared.load::<Look>(seat, index);
    }
}

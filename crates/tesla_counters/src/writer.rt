//! Who sets the counts.

ghost use Rattle.std.specs.Prelude.{◌≡◌, []};
ghost use Rattle.tesla_counters.specs.Counts.{NoneFalls};
ghost use Rattle.tesla_counters.specs.Steps.{IsSetting};

use crate::counters::Counters;
use crate::plays::{Merge, Put, Tell};
use crate::reader::Reader;
use crate::view::CountsSeat;
use std::marker::Model;
use std::sync::Arc;

/// Sets the counts. It may go to another thread.
#[derive(Drop)]
pub struct Writer<const N: usize> {
    pub(crate) counters: Arc<Counters<N>>,
    pub(crate) seat: CountsSeat,
    // What it has set, so that a count that stays is not stored.
    pub(crate) counts: [u64; N],
}

impl<const N: usize> Model for Writer<N> {
    ghost use Rattle.std.specs.Arc.{arc_value};
    ghost use Rattle.tesla_counters.specs.Counts.{KnownCounts};
    ghost use Rattle.tesla_counters.specs.Steps.{IsSetting};

    ghost Value = { KnownCounts };

    ghost view = { λ w. record { counters = arc_value w.counters; counts = w.counts } };

    ghost invariant = { λ w. IsSetting (arc_value w.counters) w.counts w.seat };
}

impl<const N: usize> Writer<N> {
    /// What was set last: zeros at first.
    pub fn counts(&self) -> &[u64; N]
        ensures { result.now ≡ self.now.counts }
    {
        &self.counts
    }

    /// Sets the counts, of which none falls, the first one first. A count that stays is not stored.
    pub fn set(&mut self, counts: &[u64; N])
        requires { NoneFalls self.old.counts counts.now }
        ensures counts { self.new.counts ≡ counts.now }
        ensures counters { self.new.counters ≡ self.old.counters }
    {
        store_changes(&self.counters, &mut self.seat, &mut self.counts, counts);
    }

    /// Takes the reader back: what it read last isn't above the counts.
    pub fn compare(&mut self, reader: Reader<N>)
        requires { reader.counters ≡ self.old.counters }
        ensures below { NoneFalls reader.entry.counts self.old.counts }
        ensures same { self.new ≡ self.old }
    {
        let Reader {
            counters: _,
            seat,
            counts: _,
        } = reader;
        take_in(&self.counters, &mut self.seat, seat);
    }
}

// Stores the words that change, and keeps in `held` what was stored.
fn store_changes<const N: usize>(
    counters: &Counters<N>,
    seat: &mut CountsSeat,
    held: &mut [u64; N],
    counts: &[u64; N],
)
    requires seat { IsSetting counters.now held.old seat.old }
    requires rise { NoneFalls held.old counts.now }
    ensures seat { IsSetting counters.now held.new seat.new }
    ensures counts { held.new ≡ counts.now }
{
    for index in 0..N {
        if held[index] != counts[index] {
            counters
                .table
                .shared
                .store::<Put>(seat, index, counts[index]);
            held[index] = counts[index];
        }
    }
}

// Joins the other seat. The load behind it changes nothing, and tells what the other had seen: a join tells nothing.
fn take_in<const N: usize>(counters: &Counters<N>, seat: &mut CountsSeat, other: CountsSeat)
    requires seat { IsSetting counters.now seat.old.me.0.exact seat.old }
    requires other { (other.table_id ≡ counters.now) × (other.me.1 ≡ []) }
    ensures below { NoneFalls other.me.0.below seat.old.me.0.exact }
    ensures seat { IsSetting counters.now seat.old.me.0.exact seat.new }
{
    counters.table.shared.join_seat::<Merge>(seat, other);
    counters.table.shared.load::<Tell>(seat, 0);
}

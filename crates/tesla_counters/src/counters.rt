//! The counts, with who sets and who reads them.

ghost use Rattle.std.specs.Prelude.{◌≡◌, ◌≤◌, IfOk};
ghost use Rattle.tesla_counters.specs.Counts.{no_counts};
ghost use Rattle.tesla_counters.specs.Steps.{IsReading};

use crate::plays::Enter;
use crate::reader::Reader;
use crate::rule::CountsRule;
use crate::view::{CountsSeat, View};
use crate::writer::Writer;
use atomic_table::Table;
use std::alloc::Global;
use std::marker::Model;
use std::sync::Arc;
use tesla_base::NoMemory;

/// So many counts, as a configuration names them.
#[derive(Drop)]
pub struct Counters<const N: usize> {
    pub(crate) table: Table<u8, View, (), CountsRule<N>, Global>,
}

impl<const N: usize> Model for Counters<N> {
    ghost use Rattle.std.specs.Prelude.{◌≡◌, ◌≤◌};
    ghost use Rattle.tesla_counters.specs.Counts.{CountersId};

    ghost Value = { CountersId };

    ghost view = { λ t. t.table.shared.table_id };

    ghost invariant = { λ t. (t.table.shared.table_id.words ≡ N) × (1 ≤ N) };
}

impl<const N: usize> Counters<N> {
    /// Opens the counts, of which there is one at least. They are all 0. All memory is taken here.
    ///
    /// `NoMemory`: there wasn't enough.
    pub fn open(alloc: Global) -> Result<(Writer<N>, Reader<N>), NoMemory>
        requires { 1 ≤ N }
        ensures counters { IfOk result (λ it. it.1.counters ≡ it.0.counters) }
        ensures zero { IfOk result (λ it. (it.0.counts ≡ no_counts N) × (it.1.counts ≡ no_counts N)) }
    {
        let (table, first) = Table::of_words(alloc, &[0; N], &())?;
        let counters = Arc::new(alloc, Counters { table })?;
        let same = Arc::try_clone(&counters)?;
        let seat = enter(&same);
        let writer = Writer {
            counters,
            seat: first,
            counts: [0; N],
        };
        let reader = Reader {
            counters: same,
            seat,
            counts: [0; N],
        };
        Ok((writer, reader))
    }
}

// A seat that has seen nothing.
fn enter<const N: usize>(counters: &Counters<N>) -> CountsSeat
    ensures { IsReading counters.now (no_counts N) result }
{
    let (_, seat) = counters.table.shared.load_new_seat::<Enter<N>>(0);
    seat
}

//! A value that threads share by turns.
ghost use Rattle.std.specs.Prelude.{◌≡◌, ◌*◌, ◌<◌, ◌≤◌, ◌^◌, [], ◌∷◌, IfOk, Some};
ghost use Rattle.tesla_turn.specs.Steps.{IsTurn, first_view};
ghost use Rattle.tesla_turn.specs.Held.{first_pass};

use crate::entrance::Entrance;
use crate::pass::Pass;
use crate::permitting::Permitting;
use crate::rule::{Law, Plan};
use crate::view::View;
use atomic_table::{Refused, Seat, Table};
use std::alloc::Global;
use std::marker::Model;
use std::snapshot::Snapshot;
use tesla_base::{Chronicle, NoMemory};

/// A value that threads share by turns. Threads share it by `&`.
///
/// It has two words, of which the first counts the tickets that were drawn and the second the turns that
/// were passed, one slot for the value, and the entrance at which threads wait. The history is not kept:
/// it stands in proofs alone.
#[derive(Drop)]
pub struct Turn<V: Permitting + Drop> {
    pub(crate) table: Table<Option<V>, View<V::Config, V::Entry>, Plan<V>, Law<V>, Global>,
    pub(crate) entrance: Entrance,
}

impl<V: Permitting + Drop> Model for Turn<V> {
    ghost use Rattle.tesla_turn.specs.Held.{TurnId};
    ghost use Rattle.tesla_turn.specs.Steps.{IsTurn};

    ghost Value = { TurnId };

    ghost view = { λ t. t.table.shared.table_id };

    ghost invariant = { λ t. IsTurn t.table.shared.table_id };
}

impl<V: Permitting + Drop> Turn<V> {
    /// Opens a turn over a value with no history, for up to `passes` passes of `calls` calls each.
    ///
    /// `NoMemory` drops the value.
    pub fn open(
        alloc: Global,
        value: V,
        passes: u8,
        calls: u64,
    ) -> Result<(Turn<V>, Pass<V>), NoMemory>
        requires stands { V.stands value [] }
        requires passes { 1 ≤ passes }
        requires bound { passes * calls < 2 ^ 63 }
        ensures { IfOk result (λ t. t.1 ≡ first_pass t.0 (V.config value) passes calls) }
    {
        let plan = Plan {
            value: Snapshot::of(&value),
            passes: u64::from(passes),
            calls,
        };
        let mut slots = Vec::with_capacity(alloc, 1)?;
        slots.push(Some(value))?;
        let (table, seat) = lay(alloc, slots, &plan)?;
        let turn = Turn {
            table,
            entrance: Entrance::new(),
        };
        let first = Pass {
            seat,
            left: calls,
            room: u64::from(passes) - 1,
            calls,
            first: true,
        };
        Ok((turn, first))
    }
}

type Laid<V> = (
    Table<
        Option<V>,
        View<<V as Chronicle>::Config, <V as Chronicle>::Entry>,
        Plan<V>,
        Law<V>,
        Global,
    >,
    Seat<Option<V>, View<<V as Chronicle>::Config, <V as Chronicle>::Entry>>,
);

// The table, with the first seat.
fn lay<V: Permitting + Drop>(
    alloc: Global,
    slots: Vec<Option<V>>,
    plan: &Plan<V>,
) -> Result<Laid<V>, NoMemory>
    requires slots { slots.items ≡ Some plan.now.value.value ∷ [] }
    requires plan { V.stands plan.now.value.value [] × (1 ≤ plan.now.passes) × (plan.now.passes * plan.now.calls < 2 ^ 63) }
    ensures { IfOk result (λ t. IsTurn t.0.shared.table_id × (t.1.table_id ≡ t.0.shared.table_id) × (t.1.me ≡ (first_view (V.config plan.now.value.value) plan.now.passes plan.now.calls, []))) }
{
    match Table::new(alloc, &[0, 0], slots, plan) {
        Ok(laid) => Ok(laid),
        Err(Refused { slots }) => {
            drop(slots);
            Err(NoMemory)
        }
    }
}

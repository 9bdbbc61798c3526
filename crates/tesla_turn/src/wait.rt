//! Waiting for a turn. No clause says that it comes.
ghost use Rattle.std.specs.Prelude.{◌≡◌, ℕ, ◌<◌, ◌∷◌, [], Some, None};
ghost use Rattle.tesla_turn.specs.declared.view.Phase.TheVariants.{Idle, Waits};
ghost use Rattle.tesla_turn.specs.Steps.{IsTurn, IsSameSeat, IsLive, Reached, with_ticket};

use crate::entrance::Entrance;
use crate::permitting::Permitting;
use crate::plays::Look;
use crate::seats::{Place, Top, draw};
use std::sync::Wait;
use std::thread::yield_now;

// Waits for the turn of this ticket, and takes the slot. Behind the entrance it has come.
fn await_turn<V: Permitting, R: Wait>(rt: &R, top: &Top<V>, seat: &mut Place<V>, ticket: u64)
    requires table { (seat.old.table_id ≡ top.now.table_id) × IsTurn top.now.table_id }
    requires ready { IsLive seat.old.me.0 × (seat.old.me.0.phase ≡ Waits ticket) × (seat.old.me.1 ≡ []) }
    ensures { IsSameSeat seat.old seat.new × (x : V) × (seat.new.me.1 ≡ (0, Some x) ∷ []) × Reached V.config V.stands V.permits seat.old.me.0 seat.new.me.0 ticket x }
{
    for _ in rt.forever() {
        let found = top.load::<Look<V>>(seat, 1);
        if found == ticket {
            return;
        }
        yield_now();
    }
    unreachable!()
}

/// Goes in at the entrance, draws a ticket, waits for its turn, and lifts the value out of the slot.
pub(crate) fn enter<V: Permitting, R: Wait>(
    rt: &R,
    top: &Top<V>,
    entrance: &Entrance,
    seat: &mut Place<V>,
) -> V
    requires table { (seat.old.table_id ≡ top.now.table_id) × IsTurn top.now.table_id }
    requires ready { IsLive seat.old.me.0 × (seat.old.me.0.phase ≡ Idle) × (0 < seat.old.me.0.tickets) × (seat.old.me.1 ≡ []) }
    ensures { IsSameSeat seat.old seat.new × (seat.new.me.1 ≡ (0, None) ∷ []) × ((t : ℕ) × Reached V.config V.stands V.permits (with_ticket seat.old.me.0 (Waits t)) seat.new.me.0 t result) }
{
    entrance.enter(rt);
    let ticket = draw(top, seat);
    await_turn(rt, top, seat, ticket);
    top.exchange(seat, 0, None).unwrap()
}

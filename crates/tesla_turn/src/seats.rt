//! The steps of a turn, by the seat of a pass: a ticket is drawn, its turn is awaited, and the turn is passed on.
ghost use Rattle.std.specs.Prelude.{◌≡◌, ℕ, ◌<◌, ◌^◌, ◌++◌, ◌∷◌, [], length, Some, None};
ghost use Rattle.tesla_turn.specs.declared.view.Phase.TheVariants.{Idle, Waits, Acts};
ghost use Rattle.tesla_turn.specs.History.{entries};
ghost use Rattle.tesla_turn.specs.Held.{held};
ghost use Rattle.tesla_turn.specs.Permitted.{MayAdd};
ghost use Rattle.tesla_turn.specs.Steps.{IsTurn, IsSameSeat, IsLive, Reached, with_ticket, with_call};

use crate::act::Act;
use crate::permitting::Permitting;
use crate::plays::{Adding, Draw, GiveBack, HandOn, Look};
use crate::rule::{Law, Plan};
use crate::view::View;
use atomic_table::{Seat, Shared};
use tesla_base::Chronicle;

/// What the threads share of the table.
pub(crate) type Top<V> = Shared<
    Option<V>,
    View<<V as Chronicle>::Config, <V as Chronicle>::Entry>,
    Plan<V>,
    Law<V>,
>;

/// The seat of a pass.
pub(crate) type Place<V> = Seat<Option<V>, View<<V as Chronicle>::Config, <V as Chronicle>::Entry>>;

/// Draws a ticket.
pub(crate) fn draw<V: Permitting>(top: &Top<V>, seat: &mut Place<V>) -> u64
    requires table { (seat.old.table_id ≡ top.now.table_id) × IsTurn top.now.table_id }
    requires ready { IsLive seat.old.me.0 × (seat.old.me.0.phase ≡ Idle) × (0 < seat.old.me.0.tickets) }
    ensures { IsSameSeat seat.old seat.new × (seat.new.me ≡ (with_ticket seat.old.me.0 (Waits result), seat.old.me.1)) }
{
    top.fetch_add::<Draw>(seat, 0, 1)
}

/// Puts the value back into the slot.
pub(crate) fn put_back<V: Permitting>(top: &Top<V>, seat: &mut Place<V>, value: V)
    requires table { seat.old.table_id ≡ top.now.table_id }
    requires empty { seat.old.me.1 ≡ (0, None) ∷ [] }
    ensures { IsSameSeat seat.old seat.new × (seat.new.me ≡ (seat.old.me.0, (0, Some value) ∷ [])) }
{
    match top.exchange(seat, 0, Some(value)) {
        None => {}
        Some(_value) => unreachable!(),
    }
}

/// Passes the turn on, with the entry of the act in the history. The value is back in the slot.
pub(crate) fn hand_on<V: Permitting, A: Act<V>, X: Adding<V::Entry>>(
    top: &Top<V>,
    seat: &mut Place<V>,
    _act: &A,
    _reply: &A::Reply,
)
    requires table { (seat.old.table_id ≡ top.now.table_id) × IsTurn top.now.table_id }
    requires entry { X.entries ≡ A.entry _act.now _reply.now ∷ [] }
    requires acts { (t : ℕ) × (seat.old.me.0.phase ≡ Acts t) }
    requires back { (x : V) × (seat.old.me.1 ≡ (0, Some x) ∷ []) × V.stands x (entries seat.old.me.0.seen ++ A.entry _act.now _reply.now ∷ []) × (seat.old.me.0.config ≡ Some (V.config x)) }
    requires left { length seat.old.me.0.made < seat.old.me.0.calls }
    requires permitted { MayAdd V.permits (held seat.old.table_id seat.old.me.0) (A.entry _act.now _reply.now) }
    ensures { IsSameSeat seat.old seat.new × (seat.new.me ≡ (with_call seat.old.me.0 (A.entry _act.now _reply.now), [])) }
{
    top.fetch_add::<HandOn<X>>(seat, 1, 1);
}

/// Gives the empty slot back. The pass stays in its turn for good.
pub(crate) fn give_back<V: Permitting>(top: &Top<V>, seat: &mut Place<V>)
    requires table { (seat.old.table_id ≡ top.now.table_id) × IsTurn top.now.table_id }
    requires acts { IsLive seat.old.me.0 × (t : ℕ) × (seat.old.me.0.phase ≡ Acts t) × (seat.old.me.1 ≡ (0, None) ∷ []) }
    ensures { IsSameSeat seat.old seat.new × (seat.new.me ≡ (seat.old.me.0, [])) }
{
    top.load::<GiveBack>(seat, 0);
}

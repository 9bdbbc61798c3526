//! The right of one thread to act in its turns.
ghost use Rattle.std.specs.Prelude.{◌≡◌, ◌+◌, ◌↔◌, IsTrue, length};
ghost use Rattle.tesla_turn.specs.Held.{left_of};

use crate::seats::Place;
use std::marker::Model;
use tesla_base::Chronicle;

/// The right of one thread to act in its turns, a bounded number of times. It may go to another thread.
///
/// Contracts see which turn it belongs to, its number, the history that it has seen, its own calls, and by
/// number the calls of each pass that was joined into it (`Held` in `specs/Held.antt`).
///
/// A pass that is dropped makes no more calls. What it has made stays in the history.
#[derive(Drop)]
pub struct Pass<V: Chronicle> {
    pub(crate) seat: Place<V>,
    pub(crate) left: u64,
    pub(crate) room: u64,
    pub(crate) calls: u64,
    pub(crate) first: bool,
}

impl<V: Chronicle> Model for Pass<V> {
    ghost use Rattle.tesla_turn.specs.Held.{Held, held};

    ghost Value = { Held V.Config V.Entry };

    ghost use Rattle.tesla_turn.specs.Passes.{IsPass};

    ghost view = { λ p. held p.seat.table_id p.seat.me.0 };

    ghost invariant = { λ p. IsPass p.seat.me p.left p.room p.calls p.first };
}

impl<V: Chronicle> Pass<V> {
    /// The calls that it has left.
    pub fn left(&self) -> u64
        ensures left { result ≡ left_of self.now }
        ensures all { length self.now.made + result ≡ self.now.calls }
    {
        self.left
    }

    /// Whether it is the pass that `open` gave, which alone has room, takes in others and closes.
    pub fn first(&self) -> bool
        ensures { IsTrue result ↔ (self.now.number ≡ 0) }
    {
        self.first
    }
}

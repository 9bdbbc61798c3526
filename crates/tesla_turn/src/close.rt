//! The end of a turn.
ghost use Rattle.std.specs.Prelude.{◌≡◌, slice_set, Some};
ghost use Rattle.tesla_turn.specs.History.{entries, BeginsWith, HasCalls};
ghost use Rattle.tesla_turn.specs.Permitted.{ArePermitted};

use crate::pass::Pass;
use crate::permitting::Permitting;
use crate::seats::give_back;
use crate::turn::Turn;
use crate::view::View;
use crate::wait::enter;
use atomic_table::Badge;
use std::marker::Model;
use std::sync::Wait;
use tesla_base::Chronicle;

/// The whole history of a turn that was closed. It takes no bytes.
///
/// Contracts see the history, and by number the calls of each pass that was joined (`Ended` in
/// `specs/Held.antt`).
#[derive(Drop)]
pub struct Last<V: Chronicle> {
    badge: Badge<View<V::Config, V::Entry>>,
}

impl<V: Chronicle> Model for Last<V> {
    ghost use Rattle.tesla_turn.specs.Held.{Ended};

    ghost Value = { Ended V.Entry };

    ghost use Rattle.tesla_turn.specs.Passes.{ended, HasEnded};

    ghost view = { λ l. ended l.badge.views };

    ghost invariant = { λ l. HasEnded l.badge.views };
}

impl<V: Chronicle> Last<V> {
    /// The same history, as that of a value of another type with the same configuration and entries: of the one that
    /// was shared inside another, or of one that has it inside.
    pub fn of_value<W: Chronicle<Config = V::Config, Entry = V::Entry>>(self) -> Last<W>
        ensures { result ≡ self }
    {
        let Last { badge } = self;
        Last { badge }
    }
}

impl<V: Permitting + Drop> Turn<V> {
    /// Waits for the first pass's turn, and takes the value out.
    ///
    /// The value stands for the whole history, which has the calls of the first pass and of each pass that
    /// was joined into it, each once and each pass's in its own order. Each call in it was permitted.
    pub fn close<R: Wait>(self, rt: &R, pass: Pass<V>) -> (V, Last<V>)
        requires own { pass.turn ≡ self }
        requires first { pass.number ≡ 0 }
        ensures value { V.stands result.0 (entries result.1.history) × (pass.config ≡ Some (V.config result.0)) }
        ensures seen { BeginsWith result.1.history pass.seen }
        ensures passes { result.1.passes ≡ slice_set pass.joined 0 (Some pass.made) }
        ensures calls { HasCalls result.1.history result.1.passes }
        ensures permitted { ArePermitted (V.permits (V.config result.0)) result.1.history }
    {
        let Pass {
            mut seat,
            left: _,
            room: _,
            calls: _,
            first: _,
        } = pass;
        let Turn { table, entrance } = self;
        let value = enter(rt, &table.shared, &entrance, &mut seat);
        give_back(&table.shared, &mut seat);
        let last = Last {
            badge: seat.into_badge(),
        };
        (value, last)
    }
}

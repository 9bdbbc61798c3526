//! What each step on the table tells.
ghost use Rattle.std.specs.Prelude.{List, [], ◌∷◌};
ghost use Rattle.tesla_turn.specs.Steps.{drew, looked, handed_on, gave_back, gave_pass, new_view, both_views, spent_view};

use crate::permitting::Permitting;
use crate::view::View;
use atomic_table::{Join, Play, Split};
use std::marker::{Brand, PhantomData};

/// A ticket is drawn.
pub(crate) struct Draw;

impl<V, C, E> Play<Option<V>, View<C, E>> for Draw {
    ghost then = { drew };
}

/// Word 1 is read, and the value is taken where it is the pass's turn.
pub(crate) struct Look<V> {
    value: PhantomData<V>,
}

impl<V: Permitting> Play<Option<V>, View<V::Config, V::Entry>> for Look<V> {
    ghost then = { looked V.config V.stands V.permits };
}

/// The entries that a step adds to the history. Each call picks them.
pub trait Adding<E> {
    ghost entries: { List E };
}

impl<E> Adding<E> for Brand {
    ghost entries = { [] };
}

/// The turn is passed on.
pub(crate) struct HandOn<X> {
    adding: PhantomData<X>,
}

impl<V, C, E, X: Adding<E>> Play<Option<V>, View<C, E>> for HandOn<X> {
    ghost then = { handed_on X.entries };
}

/// The slot is given back at the close.
pub(crate) struct GiveBack;

impl<V, C, E> Play<Option<V>, View<C, E>> for GiveBack {
    ghost then = { gave_back };
}

pub(crate) struct Cut;

impl<C, E> Split<View<C, E>> for Cut {
    ghost left = { gave_pass };

    ghost right = { new_view };
}

pub(crate) struct Merge;

impl<C, E> Join<View<C, E>> for Merge {
    ghost both = { both_views };

    ghost spent = { spent_view };
}

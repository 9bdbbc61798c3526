//! The rule of the table that threads share.

use crate::permitting::Permitting;
use crate::view::View;
use atomic_table::TableRule;
use std::marker::PhantomData;
use std::snapshot::Snapshot;

/// What a turn is opened with.
#[derive(Drop)]
pub struct Plan<V> {
    pub value: Snapshot<V>,
    pub passes: u64,
    pub calls: u64,
}

pub struct Law<V> {
    value: PhantomData<V>,
}

impl<V: Permitting> TableRule<Option<V>, View<V::Config, V::Entry>, Plan<V>> for Law<V> {
    ghost use Rattle.tesla_turn.specs.Rule.{Ruled};
    ghost use Rattle.tesla_turn.specs.Steps.{first_view};

    ghost holds = { λ key. Ruled V.config V.stands V.permits (V.config key.value.value) key.calls };

    ghost first = { λ key. first_view (V.config key.value.value) key.passes key.calls };
}

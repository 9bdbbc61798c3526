//! The rule of the table.

use crate::view::View;
use atomic_table::TableRule;

/// What the words, so many, are to the views of the seats.
pub struct CountsRule<const N: usize>;

impl<const N: usize> TableRule<u8, View, ()> for CountsRule<N> {
    ghost use Rattle.tesla_counters.specs.Steps.{Ruled, first_view};

    ghost holds = { λ _. Ruled };

    ghost first = { λ _. first_view N };
}

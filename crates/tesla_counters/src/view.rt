//! What a seat at the table knows. No value of this type is made: it stands in proofs alone.

use atomic_table::Seat;
use std::collections::LinkedList;

/// The view of a seat at the table.
pub struct View {
    /// What the words are, in the view of the first seat, which is the writer's.
    pub exact: LinkedList<u64>,
    /// Counts that the words are not below.
    pub below: LinkedList<u64>,
}

// The table has no slot, so any type serves.
pub(crate) type CountsSeat = Seat<u8, View>;

//! What a pass knows. No value of these types is made: they stand in proofs alone.

use std::collections::LinkedList;

/// An entry of the history, and the number of the pass whose call it is.
pub struct Call<E> {
    pub by: u64,
    pub entry: E,
}

/// Where a pass is with its turn.
pub enum Phase {
    Idle,
    /// It has drawn this ticket.
    Waits(u64),
    /// It is this ticket's turn, and the pass holds the value.
    Acts(u64),
}

/// The view of a seat at the table.
pub struct View<C, E> {
    pub number: u64,
    /// The configuration of the value. `None` where the pass was joined into another.
    pub config: Option<C>,
    /// How many tickets the pass may still draw, with those for the passes that it may still give.
    pub tickets: u64,
    /// A beginning of the history.
    pub seen: LinkedList<Call<E>>,
    /// The calls of this pass.
    pub made: LinkedList<E>,
    /// How many passes it may still give.
    pub room: u64,
    /// How many calls each pass may make.
    pub calls: u64,
    /// By number, the calls of each pass that was joined.
    pub joined: LinkedList<Option<LinkedList<E>>>,
    pub phase: Phase,
}

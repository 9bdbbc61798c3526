//! What calls answer.

/// The call did what it says.
pub(crate) const OK: u32 = 0;
/// A text is refused: the line and the kind are told.
pub(crate) const REFUSED: u32 = 1;
/// A number is outside its limits: which one is told.
pub(crate) const BAD_NUMBER: u32 = 2;
/// There wasn't enough memory.
pub(crate) const NO_MEMORY: u32 = 3;
/// The slot is full where an empty one is wanted, or empty where a full one is.
pub(crate) const WRONG_SLOT: u32 = 4;
/// As many calls were made as can be counted: 2^64 - 1.
pub(crate) const SPENT: u32 = 5;
/// No packet waits now.
pub(crate) const EMPTY: u32 = 6;
/// No packet waits, and every ingest has ended.
pub(crate) const OVER: u32 = 7;
/// The text doesn't fit in the room: its size is told. (8 is the status of a NULL, which the header tests.)
pub(crate) const TOO_SMALL: u32 = 9;

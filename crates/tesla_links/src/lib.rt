//! Lists of numbers that are linked in memory of a fixed size: each change takes the same time, however long the
//! lists are.
#![tactic(auto)]

mod index;
mod key_table;
mod links;

pub use index::Index;
pub use key_table::KeyTable;
pub use links::Links;

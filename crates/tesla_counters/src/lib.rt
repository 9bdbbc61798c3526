//! Counts that one thread sets and another reads at any time.
#![tactic(auto)]

mod counters;
mod plays;
mod reader;
mod rule;
mod view;
mod writer;

pub use counters::Counters;
pub use reader::Reader;
pub use writer::Writer;

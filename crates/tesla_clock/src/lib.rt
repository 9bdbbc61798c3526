//! The intervals of a stream, the bound on the sender's interval, and the safe packet test.
#![tactic(auto)]

mod safe;
mod schedule;

pub use schedule::Schedule;

//! The file to which a live command writes its counts while it runs: when a line is due, its numbers, the writing of it, and
//! whether the command has ended.
#![tactic(auto)]

mod due;
mod ended;
mod number;
mod status;

pub use due::Due;
pub use ended::Ended;
pub use number::add_number;
pub use status::Status;

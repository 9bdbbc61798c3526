//! The epochs of a feed: a stream, and those that it hands over to, with one receiver each.
#![tactic(auto)]

mod answers;
mod asking;
mod epoch;
mod finding;
mod handover;
pub mod laws;
mod opening;
mod rollover;

pub use answers::{Next, RollTake, RollVerdict};
pub use handover::{HANDOVER_MARK, handover_text};
pub use rollover::Rollover;

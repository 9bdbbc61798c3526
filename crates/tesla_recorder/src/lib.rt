//! Stations that do more than a receiver: one that records the last entries of its history, and one whose counts are read while it works.
#![tactic(auto)]

mod recorded;
mod tail;
pub mod watched;

pub use recorded::{Recorded, RecordedConfig};

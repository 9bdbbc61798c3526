//! A follower of a feed that threads share by turns, with its counts beside it, which another thread reads meanwhile.
#![tactic(auto)]

mod by_chain;
mod counted;
mod station;

pub use counted::{CountedConfig, CountedFollower, FOLLOW_COUNTS};

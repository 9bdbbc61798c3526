//! The command `follow`: the datagrams of live links are judged by one follower of a feed, what it gives is written to sinks, and
//! its counts are written to a file while it goes on.
#![tactic(auto)]

mod follow;
mod forms;
mod lines;
mod monitor;
mod monitoring;
mod setup;
mod words;

pub use follow::run_follow;
pub use forms::FOLLOW;

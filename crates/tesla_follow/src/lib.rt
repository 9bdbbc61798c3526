//! The live epochs of a feed: a receiver for each of the newest three streams, which hand over one to the next, and messages
//! that are accepted on arrival where an authentic message before promised them.
#![tactic(auto)]

mod answers;
mod asking;
mod counting;
mod epoch;
mod finding;
mod follower;
mod giving;
mod keeping;
mod known;
pub mod laws;
mod opening;
mod queue;

pub use answers::{Acceptance, FollowNext, FollowReply, FollowTake, FollowVerdict};
pub use follower::Follower;

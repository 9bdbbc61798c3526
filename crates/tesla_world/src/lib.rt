//! Worlds of a sender and a receiver, and the laws that say what a right clock and an honest stream buy.
#![tactic(auto)]

mod frames;
mod joint;
pub mod laws;
mod refusal;

pub use joint::Joint;
pub use refusal::{JointRefusal, NoSuch};

//! The commands `seeds` and `info`, for an operator: seeds are drawn from the system, and a setup is told in plain words.
#![tactic(auto)]

pub mod info;
pub mod seeds;

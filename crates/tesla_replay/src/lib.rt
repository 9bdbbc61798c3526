//! What a capture plays to a receiver, and the release records of what the receiver gave.
#![tactic(auto)]

pub mod laws;

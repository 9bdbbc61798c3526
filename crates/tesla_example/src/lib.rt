//! A history of three packets, and the definitions of a receiver applied to it, step by step.
#![tactic(auto)]

pub mod laws;

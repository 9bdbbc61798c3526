//! The theorem in the words of RFC 4082, as laws over the definitions of a receiver.
#![tactic(auto)]

pub mod laws;

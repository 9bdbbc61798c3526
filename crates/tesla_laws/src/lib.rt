//! What holds of the whole program, of a feed with the receivers of its stream, and of the two receivers of a stream that hands over, as
//! laws: contracts of functions that do nothing, or run words over a desk on which no call from outside fails.
#![tactic(auto)]

pub mod commands;
pub mod epochs;
pub mod feeds;
pub mod live_commands;

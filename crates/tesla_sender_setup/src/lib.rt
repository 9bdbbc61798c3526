//! The setup of a stream, made from its parameters and the sender's seeds.
#![tactic(auto)]

mod making;
mod parameters;

pub use making::make_setup;
pub use parameters::Parameters;

//! The command `stress`: many messages are made, lost, altered and delayed, and played to a receiver.
#![tactic(auto)]

mod arguments;
mod base;
mod choices;
mod form;
mod frames;
pub mod laws;
pub mod load_laws;
mod messages;
mod play;
mod player;
mod run;

pub use form::STRESS;
pub use play::play_load;
pub use run::run_stress;

//! The command `roll`: a capture is played to the epochs of a feed, and what they release is written.
#![tactic(auto)]

mod forms;
pub mod laws;
mod run;
mod target;

pub use forms::ROLL;
pub use run::run_roll;

//! The command `early`: a capture is played to a receiver that accepts promised messages on arrival, and what it releases
//! and accepts is written.
#![tactic(auto)]

mod forms;
pub mod laws;
mod run;
mod target;

pub use forms::EARLY;
pub use run::run_early;

//! The command `trace`: a capture is played to a receiver, and its history is written with every answer.

mod forms;
pub mod laws;
mod run;
mod target;

pub use forms::TRACE;
pub use run::run_trace;

//! The command `replay`: a capture is played to a receiver, and what it releases is written. With it, what each command
//! shares that reads a setup and plays a capture under it.
#![tactic(auto)]

mod arguments;
mod converter;
mod forms;
pub mod laws;
mod playing;
mod replay;
mod report;
mod run;
mod target;
mod words;

pub use arguments::{Arguments, Capacity, Form};
pub use forms::REPLAY;
pub use replay::run_replay;
pub use report::{add_report, report_lines};
pub use run::run_played;
pub use target::{PlayedEvent, Target, open_receiver, put_or_fault};

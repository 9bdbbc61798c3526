//! The command `capture`: the live datagrams of a link are recorded in a capture.
#![tactic(auto)]

mod form;
mod recorder;
mod recording;
mod run;

pub use form::CAPTURE;
pub use run::run_capture;

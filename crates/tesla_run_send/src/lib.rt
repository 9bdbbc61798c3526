//! The command `send`: the records of a script become the frames of a stream, in a capture.
#![tactic(auto)]

mod converter;
mod form;
pub mod laws;
mod opening;
mod run;
mod script_kind;

pub use converter::message_kind;
pub use form::SEND;
pub use opening::{SeededSetup, no_sender, open_sender, read_seeded};
pub use run::run_send;
pub use script_kind::ScriptKind;

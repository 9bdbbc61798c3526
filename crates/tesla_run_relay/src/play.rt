//! The command `play`: the arrivals of a capture are sent as live datagrams.

mod form;
mod run;

pub use form::PLAY;
pub use run::run_play;

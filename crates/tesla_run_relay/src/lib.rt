//! The commands `relay`, `watch-relay` and `play`: the live datagrams of a link, or the arrivals of a capture, are sent on to
//! posts.
#![tactic(auto)]

mod arguments;
mod form;
mod lines;
pub mod play;
mod room;
mod run;
pub mod watch;

pub use form::RELAY;
pub use run::run_relay;

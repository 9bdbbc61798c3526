//! The command `watch-relay`: a relay that tells its counts while it runs.

mod arguments;
mod form;
mod line;
mod monitor;
mod open;
mod run;

pub use form::WATCH_RELAY;
pub use run::run_watch_relay;

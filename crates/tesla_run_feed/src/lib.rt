//! The command `feed`: the live datagrams of a link are sent as the messages of a stream, with keys on time.
#![tactic(auto)]

mod arguments;
mod beside;
mod chains;
mod counted;
mod form;
mod later;
mod line;
mod lines;
mod listing;
mod ready;
mod run;
mod seeds;
mod senders;
mod telling;

pub use form::{FEED, FEED_STATUS};
pub use run::run_feed;

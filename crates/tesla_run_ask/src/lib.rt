//! The commands `ask`, `reply` and `lag`: the exchange by which a receiver learns the sender's time, and the lag that it comes to.
#![tactic(auto)]

mod arguments;
mod asking;
mod form;
pub mod lag;
pub mod laws;
mod replying;
mod writing;

pub use asking::run_ask;
pub use form::{ASK, REPLY};
pub use replying::run_reply;

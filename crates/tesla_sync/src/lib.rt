//! Direct time synchronisation of a receiver with a sender (RFC 4082, section 3.3.1): asks, replies, the shared key and
//! the lag.
#![tactic(auto)]

mod ask;
mod key;
mod lag;
pub mod laws;
mod reply;

pub use ask::{read_ask, write_ask};
pub use key::read_key;
pub use lag::{LagTooLarge, lag_of};
pub use reply::{SyncRefusal, read_reply, write_reply};

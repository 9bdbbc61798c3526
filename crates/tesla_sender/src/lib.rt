//! The sender of a stream: messages with their tags, and the disclosure of keys (RFC 4082, sections 3.2 to 3.4).
#![tactic(auto)]

mod chain;
mod chain_opening;
mod judging;
pub mod laws;
mod limits;
mod namer;
mod opening;
mod refusal;
mod rows;
mod sender;
mod writing;

pub use chain_opening::{ChainOpening, chain_openings};
pub use namer::Namer;
pub use refusal::{DiscloseRefusal, SendRefusal, SenderRefusal};
pub use sender::Sender;

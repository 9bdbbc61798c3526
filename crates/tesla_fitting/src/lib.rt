//! What a frame is to a receiver: whether it fits the setup and the time, and which keys it carries.
#![tactic(auto)]

mod chains;
mod config;
mod fitting;
mod rows;
mod verdict;

pub use chains::{chain_row, has_chain};
pub use config::Config;
pub use fitting::{stream_of, unfit};
pub use rows::{key_above, may_be_above, row_count};
pub use verdict::Verdict;

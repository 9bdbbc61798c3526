//! The receiver: judges each arrival, and releases each authentic packet once.
#![tactic(auto)]

mod chronicle;
mod history;
pub mod laws;
mod packet;
mod receiver;
pub mod state_laws;

pub use history::{Arrival, Entry};
pub use packet::Packet;
pub use receiver::Receiver;
pub use tesla_fitting::{Config, Verdict};
pub use tesla_state::{Release, Reply, Report, Take};

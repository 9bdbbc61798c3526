//! The workers of a live receiver: threads share a station by turns. Some make arrivals of the datagrams of a link,
//! others write the records of released packets to a sink.
#![tactic(auto)]

mod acts;
mod draining;
mod ingesting;
pub mod laws;
mod receiving;
mod station;
mod witnessed;

pub use draining::{SinkEnd, drain};
pub use ingesting::{LinkEnd, ingest};
pub use receiving::Receiving;
pub use station::{Gathered, Station};
pub use witnessed::Witnessed;

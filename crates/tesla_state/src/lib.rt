//! What a receiver keeps, moved by each event: an arrival, a take and an end. It knows of no history, and takes no memory
//! after its opening.
#![tactic(auto)]

mod arriving;
mod counts;
mod ended;
mod holding;
mod judging;
mod keys;
mod newest;
mod passing;
mod reach;
mod releasing;
mod replies;
mod report;
mod state;
mod store;
mod tables;
mod taking;
mod trying;

pub use replies::{Reply, Take};
pub use report::Report;
pub use state::ReceiverState;
use store::Store;
pub use tesla_walks::Release;

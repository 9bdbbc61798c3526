//! The workers of a station that threads share by turns, over a desk: from the openings of their links and sinks to their closings.
#![tactic(auto)]

mod beside;
mod engine;
mod running;
mod session;
mod stop;
mod worker;

pub use beside::Beside;
pub use engine::{Ran, Session, close_all, open_session, prepared, run_opened};
pub use session::{Links, Sinks};
pub use tesla_status::Ended;
pub use worker::{LinkWorker, SinkWorker};

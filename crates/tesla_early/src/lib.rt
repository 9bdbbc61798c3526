//! A receiver that accepts a message on arrival where an authentic message before promised it.
#![tactic(auto)]

mod accepting;
mod early;
pub mod laws;
pub mod payload_laws;
mod promise;
mod promises;
mod weaving;

pub use early::{Early, EarlyVerdict};
pub use promise::{Promise, hash_of, promise_of};
pub use promises::Promises;
pub use weaving::{MOST_BODY, weave};

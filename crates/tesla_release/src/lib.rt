//! What a receiver has released and nobody has taken yet: first in, first out, and counted.
#![tactic(auto)]

mod queue;

pub use queue::{Queue, Waiting};

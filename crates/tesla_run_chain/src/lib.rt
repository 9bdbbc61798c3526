//! The commands `chain` and `chain2`: seeds become the setup of a stream, with a key chain for each delay.
#![tactic(auto)]

mod arguments;
mod forms;
pub mod laws;
mod making;
mod run;
mod words;

pub use forms::{CHAIN, CHAIN_TWO};
pub use run::run_chain;

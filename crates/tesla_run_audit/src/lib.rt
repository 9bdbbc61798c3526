//! The commands over traces: `audit` judges each entry of one against the one answer of a receiver, `trace` writes one of a capture, and
//! `show` prints the entries of one.
#![tactic(auto)]

mod arguments;
mod form;
mod judging;
pub mod laws;
mod lines;
mod run;
pub mod show;
pub mod trace;

pub use form::AUDIT;
pub use run::run_audit;

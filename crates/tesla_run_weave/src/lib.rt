//! The command `weave`: a script whose messages promise one another is made of a script.
#![tactic(auto)]

mod collector;
mod form;
pub mod laws;
mod nowhere;
mod plan;
mod reading;
mod run;
mod weave_kind;
mod writing;

pub use form::WEAVE;
pub use run::run_weave;
pub use weave_kind::WeaveKind;

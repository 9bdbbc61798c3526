//! The command `show`: the entries of a trace, or of the tail of one, are printed as lines while they are read.

mod form;
pub mod laws;
mod lines;
mod listing;
mod reader;
mod run;
mod settling;

pub use form::SHOW;
pub use run::run_show;

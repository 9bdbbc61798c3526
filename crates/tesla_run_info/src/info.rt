//! The command `info`: what a setup says, in plain words and dates.

mod calendar;
mod equal;
mod form;
pub mod laws;
mod left;
mod lines;
mod run;

pub use equal::unequal;
pub use form::INFO;
pub use run::run_info;

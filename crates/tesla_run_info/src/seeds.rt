//! The command `seeds`: the seeds of a stream are drawn from the system's random bytes, and written.

mod arguments;
mod drawing;
mod form;
pub mod laws;
mod run;

pub use form::SEEDS;
pub use run::run_seeds;

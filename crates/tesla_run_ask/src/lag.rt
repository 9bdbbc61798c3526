//! The command `lag`: an ask, a reply and a shared key become the lag of the sender's clock.

mod form;
mod judging;
pub mod laws;
mod lines;
mod run;
mod texts;

pub use form::LAG;
pub use run::run_lag;

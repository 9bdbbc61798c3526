//! The seeds of a stream's key chains, and their text.
#![tactic(auto)]

mod laws;
mod reading;
mod refusal;
mod seeds;
mod weak;
mod writing;

pub use laws::seed_texts;
pub use reading::read_seeds;
pub use refusal::{SeedsKind, SeedsRefusal};
pub use seeds::Seeds;
pub use weak::{WeakSeed, first_weak};
pub use writing::write_seeds;

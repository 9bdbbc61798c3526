//! What a receiver does with new keys, before it looks at any place: it offers them to the newest keys of their chains,
//! walks down from those that are good, and finds out which packets they prove. It takes no memory but that of
//! `first_tips`.
#![tactic(auto)]

mod offers;
mod ordering;
mod proving;
mod reaching;
mod release;
mod tips;
mod walk;

pub use offers::{offer_keys, raise};
pub use ordering::{Proved, sort, span};
pub use proving::{prove, proving_chain};
pub use reaching::{highest_reached, indices};
pub use release::Release;
pub use tips::{begin_tips, first_tips};
pub use walk::Walk;

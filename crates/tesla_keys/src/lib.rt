//! The newest key of a key chain, and the judging of keys that are offered to it.
#![tactic(auto)]

mod offer;
mod verifier;

pub use offer::Offer;
pub use verifier::Verifier;

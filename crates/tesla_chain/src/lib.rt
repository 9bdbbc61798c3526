//! One-way key chains: a key by its index. The definitions bound what it costs to give all keys of a chain in order.
#![tactic(auto)]

mod keys;
mod level;
mod opening;
mod skipping;
mod traversal;

pub use keys::key_at;
pub use traversal::Traversal;

//! HMAC over SHA-256, the two one-way functions of a key chain, and the tags of messages.
#![tactic(auto)]

mod hmac;
mod keys;
mod prepared;
mod tags;

pub use hmac::hmac_sha256;
pub use keys::{mac_key, next_key, walk_back};
pub use prepared::PreparedKey;
pub use tags::{same, tag, wide_tag};

//! The packets that a receiver holds, at places of a fixed number.
#![tactic(auto)]

mod buffer;
mod item;
mod parts;

pub use buffer::Buffer;
pub use item::{Fate, Item};

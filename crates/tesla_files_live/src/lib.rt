//! Files of the running system: those that are opened, and sources over them.
#![tactic(auto)]

mod files;
mod identity;
mod regular;
mod source;

pub use files::{Making, Opened, OpenedFiles};
pub use regular::read_front;
pub use source::{FRONT, FileSource};

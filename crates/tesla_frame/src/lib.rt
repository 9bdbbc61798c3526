//! Frames: data frames with tags and keys, and disclosure frames.
#![tactic(auto)]

mod fields;
pub mod laws;
mod reading;
mod row;
mod rows;
mod view;
mod writing;

pub use reading::read_frame;
pub use row::KeyRow;
pub use view::{DataView, FrameView, KeysView};
pub use writing::{write_data, write_disclosure};

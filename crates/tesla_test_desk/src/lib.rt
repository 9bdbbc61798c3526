//! What tests share: the setups and frames of a stream, and rows of plain text that set a desk in memory, name a run, and say what
//! it has to come to.
#![tactic(auto)]

mod checks;
mod frames;
mod links;
mod rows;
mod settings;
mod spelled;

pub use checks::{held_by, run_result};
pub use frames::{
    SEEDS, SETUP, SETUP_OF_ONE_CHAIN, SETUP_WITH_TAGS_OF_10_BYTES, SETUP_WITH_TAGS_OF_32_BYTES,
    frame,
};
pub use rows::Row;
pub use settings::{set_pieces, words_of};
pub use spelled::bytes_of;

//! The setup of a stream, and its text.
#![tactic(auto)]

mod chain_row;
mod chain_rows;
mod equal;
mod laws;
mod line_words;
mod lines;
mod parsing;
mod refusal;
mod setup;
mod writing;

pub use chain_row::ChainRow;
pub use equal::first_equal;
pub use laws::setups;
pub use line_words::{cut, hex_in, value_in};
pub use parsing::read_setup;
pub use refusal::{SetupKind, SetupRefusal};
pub use setup::Setup;
pub use writing::write_setup;

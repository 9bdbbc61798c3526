//! A file of records is read, and another file is written of it: what every command does that reads records.
#![tactic(auto)]

mod conversion;
mod converter;
mod files;
mod settling;

pub use conversion::{Conversion, Ending, Stopped};
pub use converter::{Converted, Converter, Halt, TakenRecord};
pub use files::{close_files, open_files};

//! The command `record`: the command `receive`, whose receiver keeps the last entries of its history for a file.

mod forms;
mod record;
mod tail;

pub use forms::RECORD;
pub use record::run_record;

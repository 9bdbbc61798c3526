//! What all commands share: what a command is and comes to, its words and files, the setup and the seeds, and the console.
#![tactic(auto)]

mod console;
mod fault;
mod files;
mod forms;
mod lines;
mod names;
mod outcome;
mod printed;
mod refusal;
mod seeds;
mod setup;
mod table;
mod words;

pub use console::tell;
pub use fault::Fault;
pub use files::{read_file, read_up_to, write_file};
pub use forms::{FormText, Word, Words, words_in};
pub use lines::{Lines, add_count, refused};
pub use names::{Names, is_among, read_names};
pub use outcome::{LiveRun, Outcome, outcome_of, without_history};
pub use printed::{Printed, tell_printed};
pub use refusal::{Refusal, Stop};
pub use seeds::seeds_under;
pub use setup::setup_under;
pub use table::{is_named, open_console, report_run, run_table};
pub use words::{Count, Name, PacketLimits, is_name, limits_in, number_in, stream_in};

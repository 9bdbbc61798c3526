//! Captures of a stream, scripts of a sender and records of released packets, read and written.
#![tactic(auto)]

mod format;
mod gathering;
mod judging;
mod kinds;
pub mod laws;
mod reader;
mod record;
mod record_reader;
mod script;
mod sizes;
mod writing;

pub use format::{CaptureFormat, Format, ScriptFormat};
pub use gathering::Gatherer;
pub use reader::Reader;
pub use record::{RecordKind, RecordStep, ScriptStep, Step};
pub use record_reader::RecordReader;
pub use script::ScriptReader;
pub use tesla_base::Head;
pub use writing::{
    head_bytes, write_arrival, write_disclose, write_head, write_message, write_record,
    write_script_head, write_take,
};

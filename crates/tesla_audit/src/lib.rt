//! Traces and tails read entry by entry, and each entry judged against the one answer of a receiver.
#![tactic(auto)]

mod answers;
mod auditor;
mod formats;
pub mod laws;
mod reader;
mod step;

pub use answers::{add_answer, add_number, add_reply, add_verdict};
pub use auditor::{Answer, Auditor};
pub use formats::{EntryFormat, TailFormat, TraceFormat};
pub use reader::{EntryReader, TailReader, TraceReader};
pub use step::TraceStep;

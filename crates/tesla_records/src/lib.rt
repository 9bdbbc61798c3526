//! A reader of files of records, for any grammar.
#![tactic(auto)]

mod format;
mod found;
pub mod laws;
mod pieces;
mod reader;
mod refusal;
mod step;

pub use format::{Format, HeadJudged, Judged};
pub use reader::RecordsReader;
pub use refusal::Refusal;
pub use step::RecordsStep;

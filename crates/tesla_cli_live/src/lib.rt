//! The commands that run with threads or wait, over live streams, in three tables: which word names each, and one run
//! of any words.
#![tactic(auto)]

pub mod live;
pub mod live_tools;
pub mod recorded;

pub use live::{Done, is_live, run_live};
pub use live_tools::{LiveToolsDone, is_live_tool, run_live_tools};
pub use recorded::{RecordedDone, is_recorded, run_recorded};

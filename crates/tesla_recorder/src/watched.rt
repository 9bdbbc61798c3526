//! A receiver whose counts are read while it works.

mod laws;
mod watched;

pub use laws::chains_add_up;
pub use watched::{COUNTS, REPORT_COUNTS, Watched, WatchedConfig};

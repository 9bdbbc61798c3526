//! The command `watch`: the command `receive`, whose counts are written to a file while it goes on. And what a command over
//! another station needs to write the counts of that one.

mod forms;
mod line;
mod monitor;
mod monitoring;
mod watch;

pub use forms::WATCH;
pub use monitor::LineWriter;
pub use watch::run_watch;

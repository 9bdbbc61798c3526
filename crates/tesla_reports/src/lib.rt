//! What the parts of a run over the system share: lines on standard error, counts of what no answer tells, and when the links end.
#![tactic(auto)]

mod cause;
mod ending;
mod events;
mod incidents;
mod limit;
mod moments;
mod reporter;

pub use cause::Cause;
pub use ending::{Ending, LOOKS_APART};
pub use events::{Events, FailurePolicy};
pub use incidents::{LiveIncidents, Tallies, Tally};
pub use limit::Limit;
pub use moments::{SINCE_BOOT, monotonic, read_clock};
pub use reporter::Reporter;

//! The outside of the project: sources, sinks, links and posts, clocks and gates, and the desk that opens, makes and closes
//! them, with what each tells and how often it failed.
#![tactic(auto)]

mod clock;
mod desk;
mod environment;
mod gate;
mod incidents;
mod link;
mod output;
mod post;
mod sink;
mod source;

pub use clock::Clock;
pub use desk::{CONSOLE, Desk, OpenRefusal};
pub use environment::Environment;
pub use gate::{Gate, OpenGate};
pub use incidents::{Incidents, NoIncidents, Observed};
pub use link::{Got, Letter, Link};
pub use output::{Output, SinkOutput};
pub use post::{Post, PostStep};
pub use sink::{Sink, WriteStep, write_all};
pub use source::{ReadStep, Source};

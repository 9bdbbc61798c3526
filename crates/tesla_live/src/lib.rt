//! The desk of the running system, its clocks and its gates.
#![tactic(auto)]

mod clock;
mod command;
mod desk;
mod ending;
mod feeding;
mod gate;
mod label;
mod notices;
mod rule;
mod stack;
mod times;

pub use clock::MachineClock;
pub use command::Command;
pub use desk::LiveDesk;
pub use ending::StreamEnd;
pub use gate::{Gates, LiveGate};
pub use label::label_of;
pub use rule::{Anchor, Times, receiver_reading, sender_reading};
pub use tesla_reports::Events;
pub use times::times_now;

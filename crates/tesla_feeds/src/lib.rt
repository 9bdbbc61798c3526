//! A live feed over a list of streams, each of which follows the one before. The senders of later streams are brought to it while it
//! runs.
#![tactic(auto)]

mod bringing;
mod disclosing;
mod events;
mod feeding;
mod hearing;
mod later;
pub mod laws;
mod listed;
mod notes;
mod opening;
mod order;
mod stepping;
mod taking;
mod waits;

pub use bringing::bring_needed;
pub use disclosing::disclose_all;
pub use events::{Feeders, FeedsCounts};
pub use feeding::{FeedsEnd, feeds};
pub use later::{LaterSenders, LaterStream, NoLater, later_streams};
pub use listed::{Handover, ListedFeeder};
pub use notes::{NoNotes, Notes};
pub use opening::{ListedSender, OpenFeeds, has_setup_ended, lasting_setups, open_feeds};
pub use order::{Disorder, first_disorder, greatest_delay, has_window, is_in_window};
pub use stepping::{hand_over_on, say_on};
pub use taking::take_event;

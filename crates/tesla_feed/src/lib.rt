//! The live sender of one stream: a feeder, which tags the messages that come and discloses keys when they are due (RFC 4082,
//! sections 3.2 to 3.4), the posts to each of which a frame is handed, and the opening of a feed.
#![tactic(auto)]

mod counts;
mod feeder;
mod feeding;
mod hearing;
pub mod laws;
mod opening;
mod posts;
mod readings;

pub use counts::FeedCounts;
pub use feeder::Feeder;
pub use feeding::{Instruments, MOST_POSTS};
pub use hearing::Hearing;
pub use opening::{first_reading, has_ended};
pub use posts::{hand, has_one_failed, have_all_failed};
pub use readings::is_unread;

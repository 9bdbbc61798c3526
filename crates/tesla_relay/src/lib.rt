//! Datagrams handed on to many posts: those of a link as they come, or those of a capture at its times.
#![tactic(auto)]

mod basis;
mod buffers;
mod feed;
mod hearing;
mod line;
mod playing;
mod post_queues;
mod posts;
mod queues;
mod relayed;
mod relaying;
mod server;
mod serving;
mod tally;

pub use playing::{PlayEnd, play};
pub use post_queues::PostQueues;
pub use posts::{close_posts, open_posts};
pub use relayed::{PostCount, RelayEnd, Relayed};
pub use relaying::relay;
pub use tally::{PostSide, PostTally, SoFar};

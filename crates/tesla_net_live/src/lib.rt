//! UDP sockets of the running system as links and posts.
#![tactic(auto)]

mod address;
mod holding;
mod inherited;
mod link;
mod passing;
mod post;
mod quiets;
mod socket;

pub use holding::{HeldName, hold};
pub use link::{Listening, UdpLink, bind};
pub use passing::is_passing;
pub use post::{Sending, UdpPost, direct};

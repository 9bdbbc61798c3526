//! What a slot holds.

use tesla_follow::Follower;
use tesla_receiver::Receiver;
use tesla_sender::Sender;

/// What was opened into a slot.
#[derive(Drop)]
pub enum Engine {
    /// A receiver of one stream.
    Receiving(Receiver),
    /// A sender of one stream.
    Sending(Sender),
    /// A receiver of the streams of a feed, one after the other.
    Following(Follower),
}

//! One epoch of a feed.

ghost use Rattle.std.specs.Prelude.{◌≡◌};

use tesla_base::StreamId;
use tesla_receiver::Receiver;

/// An epoch: the receiver of a stream. The stream's number stands beside it, so that it's found without the receiver.
#[derive(Drop)]
pub struct Epoch {
    pub stream: StreamId,
    pub receiver: Receiver,
    ghost same: { stream ≡ receiver.config.setup.stream },
}

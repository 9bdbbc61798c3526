//! The epoch of a stream.

ghost use Rattle.std.specs.Prelude.{◌≡◌, ◌<◌, ◌≤◌, length, option_copied, option_map};
ghost use Rattle.std.specs.List.{position};
ghost use Rattle.tesla_frame.specs.Shown.{shown};
ghost use Rattle.tesla_rollover.specs.Epochs.{epoch_with, has_stream};
ghost use Rattle.tesla_follow.specs.Kept.{configs_of};

use crate::epoch::OpenEpoch;
use tesla_base::StreamId;
use tesla_fitting::stream_of;
use tesla_frame::FrameView;

/// The place of the epoch of a stream, if it's among these.
pub fn place_of(epochs: &[OpenEpoch], stream: StreamId) -> Option<usize>
    ensures { result ≡ position (has_stream stream) (configs_of epochs.now) }
{
    epochs.iter().position(|epoch| epoch.has_stream(stream))
}

/// The place of the epoch that a datagram goes to, which was read as this frame or as none: that of the frame's stream,
/// and 0 where none of these has it or there is no frame.
pub fn place_for(epochs: &[OpenEpoch], frame: Option<&FrameView<'_>>) -> usize
    requires { 1 ≤ length epochs.now }
    ensures value { result ≡ epoch_with (configs_of epochs.now) (option_map shown (option_copied frame.entry)) }
    ensures within { result < length epochs.now }
{
    match frame {
        Some(frame) => place_of(epochs, stream_of(frame)).unwrap_or(0),
        None => 0,
    }
}

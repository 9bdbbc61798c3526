//! Why a joint sends nothing, or has nothing to deliver.

ghost use Rattle.std.specs.Prelude.{◌≡◌};
ghost use Rattle.tesla_world.specs.declared.refusal.JointRefusal.TheVariants as refusals;

use tesla_base::NoMemory;
use tesla_sender::{DiscloseRefusal, SendRefusal};

/// Why no frame was sent. Nothing has changed then.
#[derive(Clone, Copy, Debug, PartialEq, Eq)]
pub enum JointRefusal {
    /// The sender doesn't accept the message.
    Send(SendRefusal),
    /// The sender doesn't accept the disclosure.
    Disclose(DiscloseRefusal),
    /// The allocator had no memory for the frame.
    NoMemory,
}

impl From<NoMemory> for JointRefusal {
    ghost from_gives = { λ _ e. e ≡ refusals.NoMemory };

    fn from(_: NoMemory) -> JointRefusal {
        JointRefusal::NoMemory
    }
}

/// No frame of that number was sent.
#[derive(Clone, Copy, Debug, PartialEq, Eq)]
pub struct NoSuch;

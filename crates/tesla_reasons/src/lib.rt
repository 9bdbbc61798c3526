//! Why words are none of a command's form, as far as it can be told simply, which keys in a file that they name give no safety, and
//! when the stream of a live command ends.
#![tactic(auto)]

mod asked;
mod reason;
mod stream;
mod weak;

pub use reason::{Reason, reason_of};
pub use stream::{LiveSetups, live_setups, stream_in};
pub use weak::{KeyFile, Keys, WeakKey, key_file, weak_keys};

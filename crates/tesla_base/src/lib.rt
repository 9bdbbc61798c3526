//! What every crate of the project speaks of: typed numbers, bytes, decimals, big-endian fields, and
//! the count of HMAC evaluations.
#![tactic(auto)]

mod chronicle;
mod field;
mod kind;
mod limits;
mod memory;
mod names;
mod number;
mod prefix;
mod release;
mod steps;
mod text;
mod version;

pub use chronicle::Chronicle;
pub use field::{u16_at, u32_at, u64_at};
pub use kind::Kind;
pub use limits::{KEY_BYTES, MOST_DATAGRAM, MOST_PAYLOAD, MOST_TAG_BYTES, TAG_BYTES};
pub use memory::NoMemory;
pub use names::{ChainNo, Key, Name, Place, StreamId, Tag, WideTag};
pub use number::{NumberFault, read_decimal, read_signed};
pub use prefix::{take_u16, take_u32, take_u64};
pub use release::Head;
pub use steps::Steps;
pub use text::Text;
pub use version::Version;

//! The typed numbers and byte strings of the protocol (RFC 4082, sections 3.2 to 3.4).

ghost use Rattle.std.specs.Prelude.{◌≡◌, ◌≤◌, length, codes, Some};
ghost use Rattle.tesla_base.specs.Tag.{tag_bytes, wide_tag};

use crate::limits::{KEY_BYTES, MOST_TAG_BYTES, TAG_BYTES};
use std::fmt;

/// The number of a stream.
#[derive(Clone, Copy, Debug, PartialEq, Eq)]
pub struct StreamId(pub u64);

/// The number of a key chain within its stream, counted from 0 in the order of rising disclosure delay.
#[derive(Clone, Copy, Debug, PartialEq, Eq)]
pub struct ChainNo(pub u8);

/// A key of a chain, or a MAC key made from one: 32 bytes. `Debug` shows none of them.
#[derive(Clone, Copy, PartialEq, Eq)]
pub struct Key(pub [u8; KEY_BYTES]);

impl fmt::Debug for Key {
    ghost debug_output = { λ _. Some (codes "Key(..)") };

    fn fmt<W: fmt::Write>(&self, f: &mut fmt::Formatter<W>) -> fmt::Result {
        f.write_str("Key(..)")
    }
}

/// The tag of a message on one chain where tags have 16 bytes: the first ones of an HMAC-SHA-256.
#[derive(Clone, Copy, Debug, PartialEq, Eq)]
pub struct Tag(pub [u8; TAG_BYTES]);

/// The tag of a message on one chain: the first `length` bytes of an HMAC-SHA-256. A tag of this project
/// has zeros from `length` on, so two are equal where their bytes and their lengths are.
#[derive(Clone, Copy, Debug, PartialEq, Eq)]
pub struct WideTag {
    /// The room of a tag; its bytes stand first.
    pub bytes: [u8; MOST_TAG_BYTES],
    /// How many bytes the tag has: at most 32.
    pub length: u8,
}

impl WideTag {
    /// The tag that has these bytes, at most 32, and zeros behind them.
    pub fn of(bytes: &[u8]) -> WideTag
        requires { length bytes.now ≤ 32 }
        ensures { result ≡ wide_tag bytes.now }
    {
        let mut room = [0; MOST_TAG_BYTES];
        room[..bytes.len()].copy_from_slice(bytes);
        WideTag {
            bytes: room,
            length: bytes.len() as u8,
        }
    }

    /// The bytes that the tag has.
    pub fn as_slice(&self) -> &[u8]
        requires { self.now.length ≤ 32 }
        ensures { result.now ≡ tag_bytes self.now }
    {
        &self.bytes[..self.length as usize]
    }
}

/// The name of a message: its interval, and its number within the interval.
#[derive(Clone, Copy, Debug, PartialEq, Eq)]
pub struct Name {
    /// The interval in which the message was made.
    pub interval: u32,
    /// Which of the interval's messages it is, counted from 0.
    pub number: u16,
}

/// The place of a packet in a receiver's buffer, counted from 0. A packet keeps its place as long as it is held.
#[derive(Clone, Copy, Debug, PartialEq, Eq)]
pub struct Place(pub u32);

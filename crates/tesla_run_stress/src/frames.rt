//! The bytes of a frame that is kept.

ghost use Rattle.std.specs.Prelude.{◌≡◌, ◌≤◌, length};

use std::marker::Model;

/// The most bytes of a frame of a load: it has a payload of 8 bytes, and a tag and perhaps a key for each of two chains.
const LONGEST: usize = 129;

/// The bytes of a frame of a load.
#[derive(Drop)]
pub struct FrameText {
    bytes: [u8; LONGEST],
    length: u8,
}

impl Model for FrameText {
    ghost use Rattle.std.specs.Prelude.{◌≤◌, ℕ, List, take};

    ghost Value = { List ℕ };

    ghost view = { λ f. take f.length f.bytes };

    ghost invariant = { λ f. f.length ≤ 129 };
}

impl FrameText {
    /// These bytes.
    pub fn of(bytes: &[u8]) -> FrameText
        requires { length bytes.now ≤ 129 }
        ensures { result ≡ bytes.now }
    {
        let mut room = [0; LONGEST];
        room[..bytes.len()].copy_from_slice(bytes);
        FrameText {
            bytes: room,
            length: bytes.len() as u8,
        }
    }

    /// The bytes.
    pub fn as_slice(&self) -> &[u8]
        ensures { result.now ≡ self.now }
    {
        &self.bytes[..self.length as usize]
    }
}

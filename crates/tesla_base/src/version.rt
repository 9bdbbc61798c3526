//! The versions of the formats of setups and frames.

ghost use Rattle.std.specs.Prelude.{◌≡◌};
ghost use Rattle.tesla_base.specs.Version.{number_of, version_of, most_chains, shortest_tag, longest_tag};

use crate::limits::{MOST_TAG_BYTES, TAG_BYTES};

/// A version of the formats of setups and frames. A stream's frames have the version of its setup.
#[derive(Clone, Copy, Debug, PartialEq, Eq)]
pub enum Version {
    /// One to four key chains, and tags of 16 bytes.
    One,
    /// One to eight key chains, and tags of 10 to 32 bytes, as the setup says.
    Two,
}

impl Version {
    /// The version of a number. `None` where it is neither 1 nor 2.
    pub fn of(number: u8) -> Option<Version>
        ensures { result ≡ version_of number }
    {
        match number {
            1 => Some(Version::One),
            2 => Some(Version::Two),
            _ => None,
        }
    }

    /// The number of the version: 1 or 2.
    pub fn number(self) -> u8
        ensures { result ≡ number_of self }
    {
        match self {
            Version::One => 1,
            Version::Two => 2,
        }
    }

    /// How many key chains a stream has at most: 4 or 8.
    pub fn most_chains(self) -> u8
        ensures { result ≡ most_chains self }
    {
        match self {
            Version::One => 4,
            Version::Two => 8,
        }
    }

    /// How many bytes a tag has at least: 16 or 10.
    pub fn shortest_tag(self) -> u8
        ensures { result ≡ shortest_tag self }
    {
        match self {
            Version::One => TAG_BYTES as u8,
            Version::Two => 10,
        }
    }

    /// How many bytes a tag has at most: 16 or 32.
    pub fn longest_tag(self) -> u8
        ensures { result ≡ longest_tag self }
    {
        match self {
            Version::One => TAG_BYTES as u8,
            Version::Two => MOST_TAG_BYTES as u8,
        }
    }
}

//! The promise of a payload.

ghost use Rattle.std.specs.Prelude.{◌≡◌};
ghost use Rattle.sha2.specs.Sha256.{sha256};
ghost use Rattle.tesla_early.specs.Payloads.{promise_of};

use sha2::{Digest, Sha256};
use tesla_base::Name;

/// The bytes before the body of a payload that promises: the byte 1, the name and the digest.
pub(crate) const HEADER_LENGTH: usize = 39;

/// What a payload promises: the name of a later message, and the SHA-256 digest of its payload (FIPS 180-4).
#[derive(Clone, Copy, Debug, PartialEq, Eq)]
pub struct Promise {
    pub name: Name,
    pub hash: [u8; 32],
}

/// The SHA-256 digest of a payload. It takes no memory.
pub fn hash_of(payload: &[u8]) -> [u8; 32]
    ensures { result ≡ sha256 payload.now }
{
    Sha256::digest(payload)
}

/// The promise of a payload. `None` exactly where the payload has fewer than 39 bytes, or its first byte isn't 1. It takes
/// no memory.
pub fn promise_of(payload: &[u8]) -> Option<Promise>
    ensures { result ≡ promise_of payload.now }
{
    if payload.len() < HEADER_LENGTH || payload[0] != 1 {
        return None;
    }
    let fields = &payload[1..];
    let name = Name {
        interval: u32::from_be_bytes([fields[0], fields[1], fields[2], fields[3]]),
        number: u16::from_be_bytes([fields[4], fields[5]]),
    };
    let mut hash = [0; 32];
    hash.copy_from_slice(&fields[6..HEADER_LENGTH - 1]);
    Some(Promise { name, hash })
}

//! Hashing again and again.

ghost use Rattle.std.specs.Prelude.{◌≡◌, ◌+◌, ◌-◌, ◌^◌, min, slice_index};
ghost use Rattle.tesla_prf.specs.Keys.{walk};

use sha2::{Digest, Sha256};
use std::sync::ledger::Ledger;
use tesla_base::{KEY_BYTES, Key, Steps};
use tesla_prf::walk_back;

/// How many blocks are hashed as one text.
const BLOCKS: u64 = 1024;

/// Hashes so many blocks of 64 bytes by SHA-256, up to 1,023 more so that the last text is whole, as long texts of
/// which each has one compression beside those of its blocks. It gives a sum over the digests.
pub fn compress_often(blocks: u64) -> u64 {
    let text = [0x5a; 65_536];
    let mut sum = 0u64;
    for _ in 0..blocks.div_ceil(BLOCKS) {
        let digest = Sha256::digest(&text[..]);
        sum = sum.wrapping_add(u64::from(digest[31]));
    }
    sum
}

/// A payload, at most.
const ROOM: usize = 1200;

/// Makes the SHA-256 digest of a payload of so many bytes, at most 1,200, so many times: each payload begins with a byte of
/// the digest before. It gives that of the last one.
pub fn digest_often(bytes: u64, times: u64) -> u64 {
    let mut room = [0x5a; ROOM];
    let length = bytes.min(ROOM as u64) as usize;
    for _ in 0..times {
        let digest = Sha256::digest(&room[..length]);
        room[0] = digest[31];
    }
    u64::from(room[0])
}

/// The key from which is walked.
const FIRST: Key = Key([0x11; KEY_BYTES]);

/// Walks back from a key so many times, at most 2^32 - 1: one evaluation of HMAC each. It gives the last byte of the key
/// that is reached.
pub fn evaluate_often<L: Ledger>(times: u64, steps: &mut Steps<L>) -> u64
    ensures value { result ≡ slice_index (walk FIRST (min times (2 ^ 32 - 1))).0 31 }
    ensures cost { steps.new ≡ steps.old + min times (2 ^ 32 - 1) }
{
    let times = times.min(u64::from(u32::MAX)) as u32;
    u64::from(walk_back(&FIRST, times, steps).0[31])
}

//! HMAC over SHA-256 (RFC 2104, section 2; FIPS 180-4).

ghost use Rattle.std.specs.Prelude.{◌≡◌, ℕ, ◌+◌, ◌-◌, ◌≤◌, List, ◌++◌, length, replicate};
ghost use Rattle.sha2.specs.Hashers.{Holds256};
ghost use Rattle.sha2.specs.Sha256.{sha256};
ghost use Rattle.tesla_prf.specs.Begun.{BegunUnder};
ghost use Rattle.tesla_prf.specs.Hmac.{block_key, hmac_of, padded_with};

use sha2::{Digest, Sha256};
use std::sync::ledger::Ledger;
use tesla_base::Steps;

/// The bytes of a block of SHA-256.
const BLOCK: usize = 64;

/// The bytes of a digest of SHA-256, and so of HMAC.
pub const DIGEST: usize = 32;

/// What each byte of the key's block is combined with before the text, and before the inner digest.
const INNER_PAD: u8 = 0x36;

const OUTER_PAD: u8 = 0x5c;

/// The bytes, followed by zeros up to a block.
fn filled(bytes: &[u8]) -> [u8; BLOCK]
    requires { length bytes.now ≤ 64 }
    ensures { result ≡ bytes.now ++ replicate (64 - length bytes.now) 0 }
{
    let mut block = [0; BLOCK];
    block[..bytes.len()].copy_from_slice(bytes);
    block
}

/// The key filled up to a block; a key that is longer than a block is hashed first.
fn block_of(key: &[u8]) -> [u8; BLOCK]
    ensures { result ≡ block_key key.now }
{
    if key.len() > BLOCK {
        filled(&Sha256::digest(key))
    } else {
        filled(key)
    }
}

/// Each byte of the block, exclusive or with the pad.
fn padded(block: &[u8; BLOCK], pad: u8) -> [u8; BLOCK]
    ensures { result ≡ padded_with pad block.now }
{
    let mut out = *block;
    for byte in out.iter_mut() {
        *byte ^= pad;
    }
    out
}

// Each move of a hash copies its 104 bytes, so the functions below make, feed and end a hash in one place.

/// The digest of the block, combined with the pad, and the text after it.
fn digest_under(block: &[u8; BLOCK], pad: u8, text: &[u8]) -> [u8; DIGEST]
    ensures { result ≡ sha256 (padded_with pad block.now ++ text.now) }
{
    let mut hash = Sha256::new();
    hash.update(padded(block, pad));
    hash.update(text);
    hash.finalize()
}

/// The digest of what the hash has taken in and the text after it. The hash stays as it is; its copy needs no memory,
/// and so cannot fail.
fn digest_after(begun: &Sha256, text: &[u8]) -> [u8; DIGEST]
    ensures { (taken : List ℕ) → Holds256 begun.now taken → result ≡ sha256 (taken ++ text.now) }
{
    let mut hash = begun.clone().unwrap();
    hash.update(text);
    hash.finalize()
}

/// The digest of what the hash has taken in and both pieces after it, as by `digest_after`.
fn digest_after_two(begun: &Sha256, first: &[u8], second: &[u8]) -> [u8; DIGEST]
    ensures { (taken : List ℕ) → Holds256 begun.now taken → result ≡ sha256 (taken ++ (first.now ++ second.now)) }
{
    let mut hash = begun.clone().unwrap();
    hash.update(first);
    hash.update(second);
    hash.finalize()
}

/// What every evaluation of HMAC under one key begins with: both hashes have taken in the key's block, each combined
/// with its own pad.
#[derive(Drop)]
pub struct Begun {
    inner: Sha256,
    outer: Sha256,
}

impl Begun {
    /// The beginning of each evaluation under the key: two compressions of SHA-256, where the key is no longer than
    /// a block, and no counted step.
    pub fn new(key: &[u8]) -> Begun
        ensures { BegunUnder result key.now }
    {
        let block = block_of(key);
        let mut begun = Begun {
            inner: Sha256::new(),
            outer: Sha256::new(),
        };
        begun.inner.update(padded(&block, INNER_PAD));
        begun.outer.update(padded(&block, OUTER_PAD));
        begun
    }

    /// HMAC of a text: one counted step, which hashes neither block of the key.
    #[tactic(auto, unfolding(crate::specs::Hmac::hmac_of))]
    pub fn hmac<L: Ledger>(&self, text: &[u8], steps: &mut Steps<L>) -> [u8; DIGEST]
        ensures value { (key : List ℕ) → BegunUnder self.now key → result ≡ hmac_of key text.now }
        ensures cost { steps.new ≡ steps.old + 1 }
    {
        steps.tick();
        let digest = digest_after(&self.inner, text);
        digest_after(&self.outer, &digest)
    }

    /// HMAC of a text in two pieces, as by `hmac`: one counted step.
    #[tactic(auto, unfolding(crate::specs::Hmac::hmac_of))]
    pub fn hmac_of_two<L: Ledger>(
        &self,
        first: &[u8],
        second: &[u8],
        steps: &mut Steps<L>,
    ) -> [u8; DIGEST]
        ensures value { (key : List ℕ) → BegunUnder self.now key → result ≡ hmac_of key (first.now ++ second.now) }
        ensures cost { steps.new ≡ steps.old + 1 }
    {
        steps.tick();
        let digest = digest_after_two(&self.inner, first, second);
        digest_after(&self.outer, &digest)
    }
}

/// HMAC-SHA-256 of a text under a key (RFC 2104): one counted step, which hashes both blocks of the key too. No key is
/// prepared.
#[tactic(auto, unfolding(crate::specs::Hmac::hmac_of))]
pub fn hmac_sha256<L: Ledger>(key: &[u8], text: &[u8], steps: &mut Steps<L>) -> [u8; DIGEST]
    ensures value { result ≡ hmac_of key.now text.now }
    ensures cost { steps.new ≡ steps.old + 1 }
{
    steps.tick();
    let block = block_of(key);
    let digest = digest_under(&block, INNER_PAD, text);
    digest_under(&block, OUTER_PAD, &digest)
}

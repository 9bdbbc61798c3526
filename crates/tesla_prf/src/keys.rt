//! The two one-way functions of a key chain (RFC 4082, sections 3.2 and 3.4).

ghost use Rattle.std.specs.Prelude.{◌≡◌, ◌+◌};
ghost use Rattle.tesla_prf.specs.Keys.{mac_of, next_of, walk};

use crate::hmac::hmac_sha256;
use std::sync::ledger::Ledger;
use tesla_base::{Key, Steps};

/// What a key is hashed with to give the key of the interval before, and the MAC key of its own interval.
pub const NEXT: u8 = 0;

pub const MAC: u8 = 1;

/// The key of the interval before (`F` of RFC 4082): one counted step. No key is prepared.
pub fn next_key<L: Ledger>(key: &Key, steps: &mut Steps<L>) -> Key
    ensures value { result ≡ next_of key.now }
    ensures cost { steps.new ≡ steps.old + 1 }
{
    Key(hmac_sha256(&key.0, &[NEXT], steps))
}

/// The MAC key of the key's own interval (`F'` of RFC 4082): one counted step. No key is prepared.
pub fn mac_key<L: Ledger>(key: &Key, steps: &mut Steps<L>) -> Key
    ensures value { result ≡ mac_of key.now }
    ensures cost { steps.new ≡ steps.old + 1 }
{
    Key(hmac_sha256(&key.0, &[MAC], steps))
}

/// The key so many intervals before: `distance` counted steps. No key is prepared.
#[tactic(auto, using(crate::proofs::Walks::walk_none, crate::proofs::Walks::walk_more))]
pub fn walk_back<L: Ledger>(key: &Key, distance: u32, steps: &mut Steps<L>) -> Key
    ensures value { result ≡ walk key.now distance }
    ensures cost { steps.new ≡ steps.old + distance }
{
    let mut walked = *key;
    for _ in 0..distance {
        walked = next_key(&walked, steps);
    }
    walked
}

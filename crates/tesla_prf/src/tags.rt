//! The tags of messages (RFC 4082, section 3.4).

ghost use Rattle.std.specs.Int.{w16, w32, w64, to_be_bytes};
ghost use Rattle.std.specs.Prelude.{◌≡◌, ◌+◌, ◌≤◌, ◌↔◌, ℕ, List, [], ◌∷◌, ◌++◌, IsTrue, bytes_eq, take};
ghost use Rattle.tesla_base.specs.Tag.{wide_tag};
ghost use Rattle.tesla_prf.specs.Begun.{BegunUnder};
ghost use Rattle.tesla_prf.specs.Hmac.{hmac_of};
ghost use Rattle.tesla_prf.specs.Keys.{tag_text, tag_under};

use crate::hmac::{Begun, DIGEST};
use std::sync::ledger::Ledger;
use tesla_base::{ChainNo, Key, Name, Steps, StreamId, TAG_BYTES, Tag, WideTag};

/// The bytes that the text of a tag has before the payload.
const HEADING: usize = 15;

/// The bytes of a tag of version 1.
const TAG_LENGTH: usize = TAG_BYTES;

/// What the text of a tag has before the payload: the stream, the chain, the interval and the number, in 8, 1, 4
/// and 2 bytes, each number with its highest byte first.
fn heading(stream: StreamId, chain: ChainNo, name: Name) -> [u8; HEADING]
    ensures { result ≡ to_be_bytes w64 stream.0 ++ chain.0 ∷ [] ++ to_be_bytes w32 name.interval ++ to_be_bytes w16 name.number }
{
    let mut bytes = [0; HEADING];
    bytes[..8].copy_from_slice(&stream.0.to_be_bytes());
    bytes[8] = chain.0;
    bytes[9..13].copy_from_slice(&name.interval.to_be_bytes());
    bytes[13..].copy_from_slice(&name.number.to_be_bytes());
    bytes
}

/// The HMAC of a message on a chain, of which a tag has the first bytes: one counted step. The payload is fed from
/// where it lies.
pub fn message_mac<L: Ledger>(
    begun: &Begun,
    stream: StreamId,
    chain: ChainNo,
    name: Name,
    payload: &[u8],
    steps: &mut Steps<L>,
) -> [u8; DIGEST]
    ensures value { (key : List ℕ) → BegunUnder begun.now key → result ≡ hmac_of key (tag_text stream chain name payload.now) }
    ensures cost { steps.new ≡ steps.old + 1 }
{
    begun.hmac_of_two(&heading(stream, chain, name), payload, steps)
}

/// The tag of 16 bytes that an HMAC begins with.
pub fn prefix_of(digest: &[u8; DIGEST]) -> Tag
    ensures { result.0 ≡ take 16 digest.now }
{
    let mut prefix = [0; TAG_LENGTH];
    prefix.copy_from_slice(&digest[..TAG_LENGTH]);
    Tag(prefix)
}

/// The tag of a message on a chain, under the MAC key of the message's interval, where tags have `length`
/// bytes, 10 to 32: one counted step, which hashes both blocks of the key too. It is the first bytes of the message's
/// HMAC. No key is prepared.
pub fn wide_tag<L: Ledger>(
    mac: &Key,
    stream: StreamId,
    chain: ChainNo,
    name: Name,
    payload: &[u8],
    length: u8,
    steps: &mut Steps<L>,
) -> WideTag
    requires shortest { 10 ≤ length }
    requires longest { length ≤ 32 }
    ensures value { result ≡ wide_tag (tag_under length mac.now stream chain name payload.now) }
    ensures length { result.length ≡ length }
    ensures cost { steps.new ≡ steps.old + 1 }
{
    let digest = message_mac(&Begun::new(&mac.0), stream, chain, name, payload, steps);
    WideTag::of(&digest[..length as usize])
}

/// The tag of a message on a chain, under the MAC key of the message's interval, where tags have 16 bytes:
/// one counted step, which hashes both blocks of the key too. It is the first bytes of the message's HMAC. No key is
/// prepared.
pub fn tag<L: Ledger>(
    mac: &Key,
    stream: StreamId,
    chain: ChainNo,
    name: Name,
    payload: &[u8],
    steps: &mut Steps<L>,
) -> Tag
    ensures value { result.0 ≡ tag_under 16 mac.now stream chain name payload.now }
    ensures cost { steps.new ≡ steps.old + 1 }
{
    let digest = message_mac(&Begun::new(&mac.0), stream, chain, name, payload, steps);
    prefix_of(&digest)
}

/// Whether both tags are the same bytes.
pub fn same(a: &Tag, b: &Tag) -> bool
    ensures value { result ≡ bytes_eq a.now.0 b.now.0 }
    ensures equal { IsTrue result ↔ (a.now ≡ b.now) }
{
    a.0.as_slice() == b.0.as_slice()
}

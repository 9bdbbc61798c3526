//! A key that many things are made from (RFC 2104, section 4).

ghost use Rattle.std.specs.Prelude.{◌≡◌, ◌+◌, ◌≤◌, [], ◌∷◌, Some, codes};
ghost use Rattle.tesla_base.specs.Tag.{wide_tag};
ghost use Rattle.tesla_prf.specs.Begun.{BegunUnder};
ghost use Rattle.tesla_prf.specs.Hmac.{hmac_of};
ghost use Rattle.tesla_prf.specs.Keys.{mac_of, next_of, tag_under};

use crate::hmac::Begun;
use crate::keys::{MAC, NEXT};
use crate::tags::{message_mac, prefix_of};
use std::fmt;
use std::marker::Model;
use std::sync::ledger::Ledger;
use tesla_base::{ChainNo, Key, Name, Steps, StreamId, Tag, WideTag};

/// A key, with the two blocks that HMAC makes of it hashed already. Whatever is made from it goes on from
/// these hashes.
///
/// A counted step is an evaluation of HMAC, and to prepare a key is none: the two compressions of SHA-256 that
/// this takes stand beside the counted steps. Each evaluation under the prepared key takes two compressions
/// fewer than one under the key: a key of the chain or a MAC key two, not four, and a tag whose text, padded,
/// fills `n` blocks `n + 1`, not `n + 3`. So the compressions are more than those of the counted steps alone only
/// where nothing is made from the prepared key.
///
/// Its `Debug` text shows no byte of the key.
#[derive(Drop)]
pub struct PreparedKey {
    key: Key,
    begun: Begun,
}

impl Model for PreparedKey {
    ghost use Rattle.tesla_base.specs.declared.names.Key.{Key};
    ghost use Rattle.tesla_prf.specs.Begun.{BegunUnder};

    ghost Value = { Key };

    ghost view = { λ p. p.key };

    ghost invariant = { λ p. BegunUnder p.begun p.key.0 };
}

impl PreparedKey {
    /// The key, prepared: no counted step, and two compressions of SHA-256 beside them.
    pub fn new(key: &Key) -> PreparedKey
        ensures { result ≡ key.now }
    {
        PreparedKey {
            key: *key,
            begun: Begun::new(&key.0),
        }
    }

    /// The key itself.
    pub fn key(&self) -> Key
        ensures { result ≡ self.now }
    {
        self.key
    }

    /// HMAC of one byte under the key.
    fn made_with<L: Ledger>(&self, text: u8, steps: &mut Steps<L>) -> Key
        ensures value { result.0 ≡ hmac_of self.now.0 (text ∷ []) }
        ensures cost { steps.new ≡ steps.old + 1 }
    {
        Key(self.begun.hmac(&[text], steps))
    }

    /// The key of the interval before (`F` of RFC 4082): one counted step. No other key is prepared.
    pub fn next_key<L: Ledger>(&self, steps: &mut Steps<L>) -> Key
        ensures value { result ≡ next_of self.now }
        ensures cost { steps.new ≡ steps.old + 1 }
    {
        self.made_with(NEXT, steps)
    }

    /// The MAC key of the key's own interval (`F'` of RFC 4082): one counted step. No other key is prepared.
    pub fn mac_key<L: Ledger>(&self, steps: &mut Steps<L>) -> Key
        ensures value { result ≡ mac_of self.now }
        ensures cost { steps.new ≡ steps.old + 1 }
    {
        self.made_with(MAC, steps)
    }

    /// The tag of a message on a chain, where this is the MAC key of the message's interval and tags have
    /// `length` bytes, 10 to 32: one counted step. It is the first bytes of the message's HMAC. No other key is
    /// prepared.
    pub fn wide_tag<L: Ledger>(
        &self,
        stream: StreamId,
        chain: ChainNo,
        name: Name,
        payload: &[u8],
        length: u8,
        steps: &mut Steps<L>,
    ) -> WideTag
        requires shortest { 10 ≤ length }
        requires longest { length ≤ 32 }
        ensures value { result ≡ wide_tag (tag_under length self.now stream chain name payload.now) }
        ensures length { result.length ≡ length }
        ensures cost { steps.new ≡ steps.old + 1 }
    {
        let digest = message_mac(&self.begun, stream, chain, name, payload, steps);
        WideTag::of(&digest[..length as usize])
    }

    /// The tag of a message on a chain, where this is the MAC key of the message's interval and tags have 16
    /// bytes: one counted step. It is the first bytes of the message's HMAC. No other key is prepared.
    pub fn tag<L: Ledger>(
        &self,
        stream: StreamId,
        chain: ChainNo,
        name: Name,
        payload: &[u8],
        steps: &mut Steps<L>,
    ) -> Tag
        ensures value { result.0 ≡ tag_under 16 self.now stream chain name payload.now }
        ensures cost { steps.new ≡ steps.old + 1 }
    {
        let digest = message_mac(&self.begun, stream, chain, name, payload, steps);
        prefix_of(&digest)
    }
}

impl fmt::Debug for PreparedKey {
    ghost debug_output = { λ _. Some (codes "PreparedKey { .. }") };

    fn fmt<W: fmt::Write>(&self, f: &mut fmt::Formatter<W>) -> fmt::Result {
        f.write_str("PreparedKey { .. }")
    }
}

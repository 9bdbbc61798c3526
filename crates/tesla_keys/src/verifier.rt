//! The newest key of a chain.

ghost use Rattle.std.specs.Prelude.{◌≡◌, ◌≢◌, ℕ, ◌+◌, ◌-◌, ◌<◌, ◌≤◌, ◌↔◌};
ghost use Rattle.tesla_base.specs.declared.names.Key.{Key};
ghost use Rattle.tesla_prf.specs.Keys.{walk};
ghost use Rattle.tesla_keys.specs.Offers.{offer_of, answer_to, IsGood};

use crate::offer::Offer;
use std::marker::Model;
use std::sync::ledger::Ledger;
use tesla_base::{Key, Steps};
use tesla_prf::{PreparedKey, walk_back};

/// Holds the newest key of a chain that was verified, with its index, and judges the keys that are offered
/// (RFC 4082, section 3.5, key tests). The first one is the commitment.
///
/// Its `Debug` text shows no byte of a key.
#[derive(Debug, Drop)]
pub struct Verifier {
    index: u32,
    key: Key,
}

impl Model for Verifier {
    ghost use Rattle.tesla_keys.specs.Tip.{Tip};

    ghost Value = { Tip };

    ghost view = { λ v. record { index = v.index; key = v.key } };
}

/// The key so many intervals before a prepared one: `distance` counted steps.
#[tactic(auto, using(crate::proofs::Offers::walk_before, tesla_prf::proofs::Walks::walk_none))]
fn walk_prepared<L: Ledger>(key: &PreparedKey, distance: u32, steps: &mut Steps<L>) -> Key
    ensures value { result ≡ walk key.now distance }
    ensures cost { steps.new ≡ steps.old + distance }
{
    if distance == 0 {
        return key.key();
    }
    walk_back(&key.next_key(steps), distance - 1, steps)
}

impl Verifier {
    /// A verifier whose newest key is this one, of the interval `index`.
    pub fn new(index: u32, key: Key) -> Verifier
        ensures { result ≡ record { index = index; key = key } }
    {
        Verifier { index, key }
    }

    /// The index of the newest key, and the key.
    pub fn newest(&self) -> (u32, Key)
        ensures index { result.0 ≡ self.now.index }
        ensures key { result.1 ≡ self.now.key }
    {
        (self.index, self.key)
    }

    /// The answer to a key that walks to `walked` over `gap` intervals, by which its index is above the newest one.
    fn answer(&self, gap: u32, walked: Key) -> Offer
        ensures { result ≡ answer_to self.now.key gap walked }
    {
        if gap == 0 {
            Offer::Old
        } else if walked == self.key {
            Offer::Good { gap }
        } else {
            Offer::Bad { walked }
        }
    }

    /// Judges a key of the interval `index`: whether it is above the newest key, and walks to it. It takes as many
    /// counted steps as the index is above the newest one, and none where it isn't.
    pub fn offer<L: Ledger>(&self, index: u32, key: &Key, steps: &mut Steps<L>) -> Offer
        ensures value { result ≡ offer_of self.now index key.now }
        ensures old { result ≡ Offer.Old ↔ index ≤ self.now.index }
        ensures good { (gap : ℕ) → (result ≡ Offer.Good gap ↔ (self.now.index < index) × (gap ≡ index - self.now.index) × (walk key.now gap ≡ self.now.key)) }
        ensures bad { (walked : Key) → (result ≡ Offer.Bad walked ↔ (self.now.index < index) × (walk key.now (index - self.now.index) ≡ walked) × (walked ≢ self.now.key)) }
        ensures cost { steps.new ≡ steps.old + (index - self.now.index) }
    {
        let gap = index.saturating_sub(self.index);
        self.answer(gap, walk_back(key, gap, steps))
    }

    /// Judges a prepared key as `offer` does, with the same counted steps. The blocks that the key was prepared with
    /// aren't hashed again.
    pub fn offer_prepared<L: Ledger>(
        &self,
        index: u32,
        key: &PreparedKey,
        steps: &mut Steps<L>,
    ) -> Offer
        ensures value { result ≡ offer_of self.now index key.now }
        ensures old { result ≡ Offer.Old ↔ index ≤ self.now.index }
        ensures good { (gap : ℕ) → (result ≡ Offer.Good gap ↔ (self.now.index < index) × (gap ≡ index - self.now.index) × (walk key.now gap ≡ self.now.key)) }
        ensures bad { (walked : Key) → (result ≡ Offer.Bad walked ↔ (self.now.index < index) × (walk key.now (index - self.now.index) ≡ walked) × (walked ≢ self.now.key)) }
        ensures cost { steps.new ≡ steps.old + (index - self.now.index) }
    {
        let gap = index.saturating_sub(self.index);
        self.answer(gap, walk_prepared(key, gap, steps))
    }

    /// Takes a key that was found good: it is the newest from now on.
    pub fn take(&mut self, index: u32, key: Key)
        requires { IsGood (offer_of self.old index key) }
        ensures { self.new ≡ record { index = index; key = key } }
    {
        self.index = index;
        self.key = key;
    }
}

//! A walk back along a key chain, from a new key.

ghost use Rattle.std.specs.Prelude.{◌≡◌, ◌+◌, ◌-◌, ◌<◌, ◌≤◌, ◌&&◌, true, nat_le};
ghost use Rattle.tesla_keys.specs.Offers.{offer_of};
ghost use Rattle.tesla_prf.specs.Keys.{walk, mac_of};
ghost use Rattle.tesla_walks.specs.Walking.{fresh, unmade};

use std::marker::Model;
use std::sync::ledger::Ledger;
use tesla_base::{Key, Steps};
use tesla_frame::KeyRow;
use tesla_keys::{Offer, Verifier};
use tesla_prf::{PreparedKey, walk_back};

/// A walk from a new key down its chain. It keeps the key that it has reached, and the MAC key of that key's
/// interval once it is asked for, both prepared, so that no block of theirs is hashed twice.
#[derive(Drop)]
pub struct Walk {
    row: KeyRow,
    reached: u32,
    key: PreparedKey,
    mac: Option<PreparedKey>,
}

impl Model for Walk {
    ghost use Rattle.std.specs.Prelude.{is_some};
    ghost use Rattle.tesla_walks.specs.Walking.{Walking, HasReached};

    ghost Value = { Walking };

    ghost view = { λ w. record { row = w.row; reached = w.reached; made = is_some w.mac } };

    ghost invariant = { λ w. HasReached w.row w.reached w.key w.mac };
}

/// The key so many intervals before a prepared one, at least one: `distance` counted steps.
#[tactic(auto, using(crate::proofs::Reached::walk_first))]
fn walk_prepared<L: Ledger>(key: &PreparedKey, distance: u32, steps: &mut Steps<L>) -> Key
    requires { 0 < distance }
    ensures value { result ≡ walk key.now distance }
    ensures cost { steps.new ≡ steps.old + distance }
{
    walk_back(&key.next_key(steps), distance - 1, steps)
}

impl Walk {
    /// A walk that stands at its key, which is prepared here: no counted step.
    pub fn new(row: KeyRow) -> Walk
        ensures { result ≡ fresh row }
    {
        Walk {
            row,
            reached: row.index,
            key: PreparedKey::new(&row.key),
            mac: None,
        }
    }

    /// The new key.
    pub fn row(&self) -> KeyRow
        ensures { result ≡ self.now.row }
    {
        self.row
    }

    /// What the verifier of its chain answers to the key that was reached, in as many counted steps as that is
    /// above the newest key.
    pub fn offer<L: Ledger>(&self, verifier: &Verifier, steps: &mut Steps<L>) -> Offer
        requires { self.now.reached ≡ self.now.row.index }
        ensures value { result ≡ offer_of verifier.now self.now.row.index self.now.row.key }
        ensures cost { steps.new ≡ steps.old + (self.now.row.index - verifier.now.index) }
    {
        verifier.offer_prepared(self.reached, &self.key, steps)
    }

    /// Walks down to the key of an interval: as many counted steps as that is below the one reached.
    fn walk_to<L: Ledger>(&mut self, interval: u32, steps: &mut Steps<L>)
        requires { interval ≤ self.old.reached }
        ensures walked { self.new ≡ record { row = self.old.row; reached = interval; made = self.old.made && nat_le self.old.reached interval } }
        ensures cost { steps.new + interval ≡ steps.old + self.old.reached }
    {
        if interval == self.reached {
            return;
        }
        let walked = walk_prepared(&self.key, self.reached - interval, steps);
        self.key = PreparedKey::new(&walked);
        self.reached = interval;
        self.mac = None;
    }

    /// Makes the MAC key of the interval that was reached, where it isn't made yet: one counted step.
    fn make_mac<L: Ledger>(&mut self, steps: &mut Steps<L>)
        ensures made { self.new ≡ record { row = self.old.row; reached = self.old.reached; made = true } }
        ensures cost { steps.new ≡ steps.old + unmade self.old self.old.reached }
    {
        if self.mac.is_none() {
            let mac = self.key.mac_key(steps);
            self.mac = Some(PreparedKey::new(&mac));
        }
    }

    /// Walks down to an interval and makes its MAC key. Neither is done twice: the counted steps are those down to
    /// the interval, and one for the MAC key, where the walk doesn't stand there with it.
    pub fn reach<L: Ledger>(&mut self, interval: u32, steps: &mut Steps<L>)
        requires { interval ≤ self.old.reached }
        ensures reached { self.new ≡ record { row = self.old.row; reached = interval; made = true } }
        ensures cost { steps.new + interval ≡ steps.old + self.old.reached + unmade self.old interval }
    {
        if self.reached == interval && self.mac.is_some() {
            return;
        }
        self.walk_to(interval, steps);
        self.make_mac(steps);
    }

    /// The MAC key of the interval that was reached.
    pub fn mac(&self) -> &PreparedKey
        requires { self.now.made ≡ true }
        ensures { result.now ≡ mac_of (walk self.now.row.key (self.now.row.index - self.now.reached)) }
    {
        let Some(mac) = &self.mac else { unreachable!() };
        mac
    }
}

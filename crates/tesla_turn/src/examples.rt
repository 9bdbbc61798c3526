//! Three small chronicles: a sum, a sum to which not every call is permitted, and a list of numbers whose replies stand
//! in its history.
ghost use Rattle.std.specs.Prelude.{◌≡◌, ◌<◌, ◌≤◌, Some, ◌++◌, ◌∷◌, [], List, length, vec_len, vec_capacity, IfOk};
ghost use Rattle.tesla_turn.specs.Examples.{sum_after, taken, IsLegal, index_at};
ghost use Rattle.tesla_turn.specs.Held.{OnlyCalls, left_of};

use crate::act::Act;
use crate::pass::Pass;
use crate::permitting::Permitting;
use crate::turn::Turn;
use std::alloc::Global;
use std::sync::Wait;
use tesla_base::{Chronicle, NoMemory};

/// A sum modulo 2^64.
#[derive(Clone, Copy, Debug, PartialEq, Eq)]
pub struct Sum {
    pub total: u64,
}

impl Chronicle for Sum {
    ghost use Rattle.std.specs.Prelude.{◌≡◌};
    ghost use Rattle.tesla_turn.specs.Examples.{sum_after};

    /// The number that was added.
    type Entry = u64;

    type Config = ();

    ghost config = { λ _. tt };

    ghost stands = { λ s h. s.total ≡ sum_after h };
}

impl Permitting for Sum {
    ghost permits = { λ _ _ _ _. Unit {0} };
}

/// Adds a number.
#[derive(Clone, Copy, Debug, PartialEq, Eq)]
pub struct Add {
    pub number: u64,
}

impl Act<Sum> for Add {
    ghost use Rattle.std.specs.Prelude.{◌≡◌};

    type Reply = ();

    ghost entry = { λ act _. act.number };

    ghost relation = { λ before after _. after ≡ before };

    fn run(&mut self, value: &mut Sum) {
        value.total = value.total.wrapping_add(self.number);
    }
}

/// A sum modulo 2^64 to which a call may add at most `most`.
#[derive(Clone, Copy)]
pub struct LimitedSum {
    pub total: u64,
    pub most: u64,
}

impl Chronicle for LimitedSum {
    ghost use Rattle.std.specs.Prelude.{◌≡◌};
    ghost use Rattle.tesla_turn.specs.Examples.{sum_after};

    type Entry = u64;

    type Config = u64;

    ghost config = { λ s. s.most };

    ghost stands = { λ s h. s.total ≡ sum_after h };
}

impl Permitting for LimitedSum {
    ghost use Rattle.std.specs.Prelude.{◌≤◌};

    ghost permits = { λ most _ _ number. number ≤ most };
}

impl Act<LimitedSum> for Add {
    ghost use Rattle.std.specs.Prelude.{◌≡◌};

    type Reply = ();

    ghost entry = { λ act _. act.number };

    ghost relation = { λ before after _. after ≡ before };

    fn run(&mut self, value: &mut LimitedSum) {
        value.total = value.total.wrapping_add(self.number);
    }
}

/// Adds the most that a call may add.
pub fn add_most<R: Wait>(rt: &R, turn: &Turn<LimitedSum>, pass: &mut Pass<LimitedSum>, most: u64)
    requires own { pass.old.turn ≡ turn.now }
    requires left { 0 < left_of pass.old }
    requires config { pass.old.config ≡ Some most }
    ensures calls { OnlyCalls pass.old pass.new }
{
    turn.take_turn(rt, pass, &mut Add { number: most });
}

/// A list that takes up to `limit` numbers.
#[derive(Drop)]
pub struct Numbers {
    pub items: Vec<u64>,
    pub limit: u64,
    ghost room: { limit ≤ vec_capacity items },
}

impl Numbers {
    /// An empty list.
    pub fn new(alloc: Global, limit: u64) -> Result<Numbers, NoMemory>
        ensures { IfOk result (λ n. (n.items.items ≡ []) × (n.limit ≡ limit)) }
    {
        let items = Vec::with_capacity(alloc, limit as usize)?;
        Ok(Numbers { items, limit })
    }
}

/// A number that was to be taken, and its place in the list, or `None` where the list was full.
#[derive(Clone, Copy, Debug, PartialEq, Eq)]
pub struct Appended {
    pub number: u64,
    pub place: Option<u64>,
}

impl Chronicle for Numbers {
    ghost use Rattle.std.specs.Prelude.{◌≡◌};
    ghost use Rattle.tesla_turn.specs.Examples.{taken, IsLegal};

    type Entry = Appended;

    type Config = u64;

    ghost config = { λ n. n.limit };

    ghost stands = { λ n h. (n.items.items ≡ taken h) × IsLegal n.limit h };
}

impl Permitting for Numbers {
    ghost permits = { λ _ _ _ _. Unit {0} };
}

/// Appends a number. The reply is its place.
#[derive(Clone, Copy, Debug, PartialEq, Eq)]
pub struct Append {
    pub number: u64,
}

impl Act<Numbers> for Append {
    ghost use Rattle.std.specs.Prelude.{◌≡◌};
    ghost use Rattle.tesla_turn.specs.Examples.{appended};

    type Reply = Option<u64>;

    ghost entry = { λ act reply. appended act.number reply };

    ghost relation = { λ before after _. after ≡ before };

    fn run(&mut self, value: &mut Numbers) -> Option<u64> {
        let place = value.items.len() as u64;
        if place >= value.limit {
            return None;
        }
        value.items.push_reserved(self.number);
        Some(place)
    }
}

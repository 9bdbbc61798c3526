//! The walk along the chain that opens a traversal.

ghost use Rattle.std.specs.Prelude.{◌≡◌, ℕ, ◌+◌, ◌-◌, ◌^◌, ◌<◌, ◌≤◌, length};
ghost use Rattle.tesla_base.specs.declared.names.Key.{Key};
ghost use Rattle.tesla_prf.specs.Keys.{walk};
ghost use Rattle.tesla_chain.specs.Levels.{Marks, Stand, Travellers};

use crate::level::{Level, span};
use std::sync::ledger::Ledger;
use tesla_base::{Key, Steps};
use tesla_prf::next_key;

/// Leaves the key at the distance `ahead`, which is the mark of one level.
fn leave_mark(levels: &mut [Level], ahead: u32, key: Key)
    requires some { 0 < ahead }
    requires within { ahead < 2 ^ length levels.old }
    requires few { length levels.old ≤ 20 }
    ensures marks { (seed : Key) (base before free : ℕ) → ahead ≡ before + 1 → key ≡ walk seed (base + ahead) → Marks seed base before free levels.old → Marks seed base ahead free levels.new }
    ensures travellers { (seed : Key) (base given reached : ℕ) → Travellers seed base given reached levels.old → Travellers seed base given reached levels.new }
{
    let Some((level, lower)) = levels.split_first_mut() else {
        unreachable!()
    };
    let span = span(lower);
    if ahead < span {
        leave_mark(lower, ahead, key);
    } else if ahead == span {
        level.mark = key;
    } else {
        leave_mark(lower, ahead - span, key);
    }
}

/// Leaves the key at the distance `at` where a traveller stands there, as the key at the distance `ahead` is the next to
/// give.
fn leave_traveller(levels: &mut [Level], ahead: u32, at: u32, key: Key)
    requires within { ahead < 2 ^ length levels.old }
    requires few { length levels.old ≤ 20 }
    requires near { at ≤ ahead }
    ensures marks { (seed : Key) (base given free : ℕ) → Marks seed base given free levels.old → Marks seed base given free levels.new }
    ensures travellers { (seed : Key) (base reached : ℕ) → reached ≡ (base + at) + 1 → key ≡ walk seed (base + at) → Travellers seed base ahead (base + at) levels.old → Travellers seed base ahead reached levels.new }
{
    let Some((level, lower)) = levels.split_first_mut() else {
        return;
    };
    let span = span(lower);
    if ahead < span {
        leave_traveller(lower, ahead, at, key);
    } else if span <= at {
        leave_traveller(lower, ahead - span, at - span, key);
    } else if at + ahead + 1 == 2 * span {
        level.traveller = key;
    }
}

/// Walks from the mark `high` to the key that is `ahead` keys below it, and leaves in the levels what a traversal keeps that
/// gives this key next.
pub fn fill<L: Ledger>(levels: &mut [Level], ahead: u32, high: Key, steps: &mut Steps<L>) -> Key
    requires within { ahead < 2 ^ length levels.old }
    requires few { length levels.old ≤ 20 }
    ensures key { result ≡ walk high ahead }
    ensures stand { (seed : Key) (base free : ℕ) → high ≡ walk seed base → Marks seed base 0 free levels.old → Stand seed base ahead free levels.new }
    ensures cost { steps.new ≡ steps.old + ahead }
{
    leave_traveller(levels, ahead, 0, high);
    let mut key = high;
    for before in 0..ahead {
        key = next_key(&key, steps);
        leave_mark(levels, before + 1, key);
        leave_traveller(levels, ahead, before + 1, key);
    }
    key
}

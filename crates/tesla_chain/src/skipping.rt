//! How the levels of a traversal go on over many keys at once.

ghost use Rattle.std.specs.Prelude.{◌≡◌, ℕ, ◌+◌, ◌-◌, ◌*◌, ◌^◌, ◌<◌, ◌≤◌, length};
ghost use Rattle.tesla_base.specs.declared.names.Key.{Key};
ghost use Rattle.tesla_prf.specs.Keys.{walk};
ghost use Rattle.tesla_chain.specs.Levels.{Marks, Stand, Travellers};

use crate::level::{Level, set_out, span};
use crate::opening::fill;
use std::sync::ledger::Ledger;
use tesla_base::{Key, Steps};
use tesla_prf::next_key;

/// Leaves the key `distance` keys above the base, where this is the mark of a level.
fn hand_down(levels: &mut [Level], distance: u32, key: Key)
    requires { length levels.old ≤ 20 }
    ensures marks { (seed : Key) (base left free : ℕ) → distance ≡ free + 1 → left < distance → key ≡ walk seed (base - distance) → Marks seed base left distance levels.old → Marks seed base left free levels.new }
    ensures travellers { (seed : Key) (base ahead reached : ℕ) → Travellers seed base ahead reached levels.old → Travellers seed base ahead reached levels.new }
{
    let Some((level, lower)) = levels.split_first_mut() else {
        return;
    };
    let span = span(lower);
    if distance < span {
        hand_down(lower, distance, key);
    } else if distance == span {
        level.mark = key;
    }
}

/// Walks a traveller on as the next key comes from `ahead` keys below the base to `left` below it, and leaves the marks
/// that it passes. Its key there.
fn walk_down<L: Ledger>(
    levels: &mut [Level],
    ahead: u32,
    left: u32,
    traveller: Key,
    steps: &mut Steps<L>,
) -> Key
    requires order { left ≤ ahead }
    requires few { length levels.old ≤ 20 }
    ensures key { result ≡ walk traveller (ahead - left) }
    ensures marks { (seed : Key) (base : ℕ) → ahead < base → traveller ≡ walk seed (base - (ahead + 1)) → Marks seed base left ahead levels.old → Marks seed base left 0 levels.new }
    ensures travellers { (seed : Key) (base given reached : ℕ) → Travellers seed base given reached levels.old → Travellers seed base given reached levels.new }
    ensures cost { steps.new ≡ steps.old + (ahead - left) }
{
    let mut walked = traveller;
    for done in 0..ahead - left {
        walked = next_key(&walked, steps);
        hand_down(levels, ahead - done, walked);
    }
    walked
}

/// Goes on from the key `ahead` keys below the mark `high` to the one `left` below it, and gives the key before that. The
/// marks that the traveller from `high` leaves meanwhile are left free.
pub fn skip<L: Ledger>(
    levels: &mut [Level],
    ahead: u32,
    left: u32,
    high: Key,
    steps: &mut Steps<L>,
) -> Key
    requires order { left < ahead }
    requires within { ahead < 2 ^ length levels.old }
    requires few { length levels.old ≤ 20 }
    ensures key { (seed : Key) (base free : ℕ) → high ≡ walk seed base → Stand seed base ahead free levels.old → result ≡ walk seed (base + (left + 1)) }
    ensures stand { (seed : Key) (base free more : ℕ) → free ≤ more → ahead ≤ more → high ≡ walk seed base → Stand seed base ahead free levels.old → Stand seed base left more levels.new }
    ensures whole { steps.new ≤ steps.old + (left + 1) }
    ensures half { ahead + 1 ≡ 2 ^ length levels.old → 2 * (ahead - left) ≤ left → 2 * steps.new ≤ 2 * steps.old + (ahead + 1) }
    ensures each { (digits extra : ℕ) → digits ≤ length levels.old → ahead - left < 2 ^ digits → ahead - left ≤ extra → 2 ^ digits ≤ extra + (ahead - left) → steps.new ≤ steps.old + ((ahead - left) * (length levels.old - digits) + extra) }
{
    if left < 2 * (ahead - left) {
        let next = fill(levels, left, high, steps);
        return next_key(&next, steps);
    }
    let Some((level, lower)) = levels.split_first_mut() else {
        unreachable!()
    };
    let span = span(lower);
    if ahead < span {
        return skip(lower, ahead, left, high, steps);
    }
    if span <= left {
        let key = skip(lower, ahead - span, left - span, level.mark, steps);
        level.traveller = walk_down(lower, ahead - span, left - span, level.traveller, steps);
        return key;
    }
    let _ = walk_down(lower, ahead - span, 0, level.traveller, steps);
    set_out(lower, high);
    if left + 1 == span {
        return level.mark;
    }
    skip(lower, span - 1, left, high, steps)
}

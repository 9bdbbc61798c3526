//! The levels of a traversal, from the highest on: what they keep, and how they go on by one key.

ghost use Rattle.std.specs.Prelude.{◌≡◌, ℕ, ◌+◌, ◌-◌, ◌^◌, ◌<◌, ◌≤◌, length};
ghost use Rattle.tesla_base.specs.declared.names.Key.{Key};
ghost use Rattle.tesla_prf.specs.Keys.{walk};
ghost use Rattle.tesla_chain.specs.Levels.{Marks, Stand};

use std::sync::ledger::Ledger;
use tesla_base::{Key, Steps};
use tesla_prf::next_key;

/// What one level keeps. With n levels below it, its span is 2^n keys.
#[derive(Clone, Copy)]
pub struct Level {
    /// The key that the level gives next.
    pub mark: Key,
    /// The key that walks towards the one that is given after the mark.
    pub traveller: Key,
}

/// How many keys a level with these below it spans.
pub fn span(lower: &[Level]) -> u32
    requires { length lower.now ≤ 20 }
    ensures { result ≡ 2 ^ length lower.now }
{
    1 << lower.len()
}

/// Lets each level's traveller begin at the mark above it. `high` is the mark above the first level.
pub fn set_out(levels: &mut [Level], high: Key)
    ensures { (seed : Key) (base top ahead free : ℕ) → top ≡ base + 2 ^ length levels.old → ahead + 1 ≡ 2 ^ length levels.old → high ≡ walk seed base → Marks seed top 0 0 levels.old → Stand seed base ahead free levels.new }
{
    let Some((level, lower)) = levels.split_first_mut() else {
        return;
    };
    level.traveller = high;
    set_out(lower, level.mark);
}

/// Gives the key that is `ahead` keys below the mark `high`, and goes on to the one after it: each traveller that is not
/// yet at the end of its way walks one step. `traveller` is the key that the one of the level above has come to, `ahead`
/// keys above `high`.
pub fn pass<L: Ledger>(
    levels: &mut [Level],
    ahead: u32,
    high: Key,
    traveller: Key,
    steps: &mut Steps<L>,
) -> Key
    requires some { 0 < ahead }
    requires within { ahead < 2 ^ length levels.old }
    requires few { length levels.old ≤ 20 }
    ensures key { (seed : Key) (base free : ℕ) → Marks seed base ahead free levels.old → result ≡ walk seed (base + ahead) }
    ensures stand { (seed : Key) (base left free : ℕ) → ahead ≡ left + 1 → high ≡ walk seed base → traveller ≡ walk seed (base - ahead) → Stand seed base ahead free levels.old → Stand seed base left free levels.new }
    ensures cost { steps.new ≤ steps.old + length levels.old }
{
    let Some((level, lower)) = levels.split_first_mut() else {
        unreachable!()
    };
    let span = span(lower);
    if ahead < span {
        return pass(lower, ahead, high, traveller, steps);
    }
    let mark = level.mark;
    if ahead == span {
        level.mark = traveller;
        set_out(lower, high);
        return mark;
    }
    level.traveller = next_key(&level.traveller, steps);
    pass(lower, ahead - span, mark, level.traveller, steps)
}

//! A traversal of a chain of keys.

ghost use Rattle.std.specs.Prelude.{◌≡◌, ◌+◌, ◌*◌, ◌-◌, ◌^◌, ◌<◌, ◌≤◌, Some, codes, IfOk, OnErr};
ghost use Rattle.tesla_prf.specs.Keys.{walk};
ghost use Rattle.tesla_chain.specs.Cost.{bits};
ghost use Rattle.tesla_chain.specs.Traversal.{HasComeTo, HasGiven, IsOpened, next_given};

use crate::level::{Level, pass};
use crate::opening::fill;
use crate::skipping::skip;
use std::alloc::Global;
use std::fmt;
use std::marker::Model;
use std::sync::ledger::Ledger;
use tesla_base::{Key, NoMemory, Steps};
use tesla_prf::next_key;

/// Gives the keys of a chain from index 1 up to the seed, each once, though the chain can only be walked down
/// (Jakobsson 2002; Coppersmith and Jakobsson 2002; Yum, Seo, Eom and Lee 2009).
///
/// It keeps the commitment, the seed and two keys for each of its levels, of which it has no more than the number of
/// keys has binary digits. Each call takes at most one counted step a level, so none walks long. Its whole life takes at
/// most `N * bits(N) + N` counted steps for a chain of `N` keys, with `bits(N)` the number of binary digits, and
/// at most `2 * bits(N) + 2` keys are kept at a time.
///
/// Its `Debug` text shows no byte of a key.
#[derive(Drop)]
pub struct Traversal {
    last: u32,
    given: u32,
    seed: Key,
    commitment: Key,
    levels: Vec<Level>,
}

impl Model for Traversal {
    ghost use Rattle.std.specs.Prelude.{◌+◌, ◌-◌, ◌*◌, length, vec_capacity};
    ghost use Rattle.tesla_chain.specs.Cost.{bits};
    ghost use Rattle.tesla_chain.specs.Traversal.{Traversing};
    ghost use Rattle.tesla_chain.specs.Kept.{IsKept};

    ghost Value = { Traversing };

    ghost view = { λ t. record {
      seed = t.seed;
      last = t.last;
      given = t.given;
      kept = 2 * length t.levels.items + 2;
      left = (t.last - t.given) * bits t.last;
      reserved = vec_capacity t.levels;
    } };

    ghost invariant = { λ t. IsKept t.last t.given t.seed t.commitment t.levels.items };
}

impl Traversal {
    /// A traversal of the chain whose key of index `last`, 1 to 1,048,576, is the seed: `last` counted steps. No key
    /// is prepared. All its memory is taken here. `Err` where there is none; then nothing was walked.
    pub fn open<L: Ledger>(
        alloc: Global,
        seed: Key,
        last: u32,
        steps: &mut Steps<L>,
    ) -> Result<Traversal, NoMemory>
        requires least { 1 ≤ last }
        requires most { last ≤ 2 ^ 20 }
        ensures opened { IfOk result (IsOpened seed last) }
        ensures cost { IfOk result (λ _. steps.new ≡ steps.old + last) }
        ensures refused { OnErr result (steps.new ≡ steps.old) }
    {
        let depth = (2 * last - 1).ilog2() as usize;
        let unset = Level {
            mark: seed,
            traveller: seed,
        };
        let mut levels = vec![in alloc; unset; depth]?;
        let first = fill(levels.as_mut_slice(), last - 1, seed, steps);
        Ok(Traversal {
            last,
            given: 0,
            seed,
            commitment: next_key(&first, steps),
            levels,
        })
    }

    /// The next key, in at most `bits(last)` counted steps: the first call gives the key of index 1, and the last one
    /// the seed. `None` exactly after the seed; then nothing changes. It takes no memory: what was reserved at opening
    /// stays as it was. No key is prepared.
    pub fn next<L: Ledger>(&mut self, steps: &mut Steps<L>) -> Option<Key>
        ensures key { result ≡ next_given self.old }
        ensures given { self.old.given < self.old.last → HasGiven self.old self.new }
        ensures call { steps.new ≤ steps.old + bits self.old.last }
        ensures left { steps.new + self.new.left ≤ steps.old + self.old.left }
        ensures over { self.old.given ≡ self.old.last → (self.new ≡ self.old) × (steps.new ≡ steps.old) }
        ensures reserved { self.new.reserved ≡ self.old.reserved }
    {
        if self.given == self.last {
            return None;
        }
        self.given += 1;
        let ahead = self.last - self.given;
        if ahead == 0 {
            return Some(self.seed);
        }
        Some(pass(
            self.levels.as_mut_slice(),
            ahead,
            self.seed,
            self.seed,
            steps,
        ))
    }

    /// Goes on over the keys up to the one of `index`, which is above those that were given and at most `last`, and gives
    /// this one. For `d` indexes that takes at most `d * (bits(last) - bits(d) + 1)` counted steps, so at most `bits(last)`
    /// for each of them, and at most `last - index` in all. It takes no memory, as `next` does. No key is prepared.
    pub fn advance<L: Ledger>(&mut self, index: u32, steps: &mut Steps<L>) -> Key
        requires after { self.old.given < index }
        requires within { index ≤ self.old.last }
        ensures key { result ≡ walk self.old.seed (self.old.last - index) }
        ensures given { HasComeTo index self.old self.new }
        ensures call { let gap = index - self.old.given in steps.new ≤ steps.old + gap * ((bits self.old.last - bits gap) + 1) }
        ensures each { steps.new ≤ steps.old + (index - self.old.given) * bits self.old.last }
        ensures whole { steps.new ≤ steps.old + (self.old.last - index) }
        ensures left { steps.new + self.new.left ≤ steps.old + self.old.left }
        ensures reserved { self.new.reserved ≡ self.old.reserved }
    {
        let ahead = self.last - self.given - 1;
        self.given = index;
        if index == self.last {
            return self.seed;
        }
        let left = self.last - index - 1;
        skip(self.levels.as_mut_slice(), ahead, left, self.seed, steps)
    }

    /// The commitment of the chain: its key of index 0.
    pub fn commitment(&self) -> Key
        ensures { result ≡ walk self.now.seed self.now.last }
    {
        self.commitment
    }

    /// How many keys are kept now, the commitment included.
    pub fn kept(&self) -> u32
        ensures value { result ≡ self.now.kept }
        ensures most { result ≤ 2 * bits self.now.last + 2 }
    {
        2 * self.levels.len() as u32 + 2
    }
}

impl fmt::Debug for Traversal {
    ghost debug_output = { λ _. Some (codes "Traversal { .. }") };

    fn fmt<W: fmt::Write>(&self, f: &mut fmt::Formatter<W>) -> fmt::Result {
        f.write_str("Traversal { .. }")
    }
}

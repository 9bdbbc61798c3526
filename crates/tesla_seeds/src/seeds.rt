//! The seeds of a stream's key chains.

ghost use Rattle.std.specs.Prelude.{◌≡◌, ◌<◌, List, length, slice_get, codes, Some};
ghost use Rattle.std.specs.List.{AllByRecursion};
ghost use Rattle.tesla_seeds.specs.Text.{IsKey};

use std::fmt;
use std::marker::Model;
use tesla_base::Key;

/// The seeds of a stream: of each of its key chains, in their order, the last key, from which its other
/// keys follow (RFC 4082, section 3.2). They are the sender's secret; `Debug` shows no byte of them.
#[derive(Drop)]
pub struct Seeds {
    keys: Vec<Key>,
}

impl Model for Seeds {
    ghost use Rattle.std.specs.Prelude.{◌<◌, List, length};
    ghost use Rattle.std.specs.List.{AllByRecursion};
    ghost use Rattle.tesla_base.specs.declared.names.Key.{Key};
    ghost use Rattle.tesla_seeds.specs.Text.{IsKey};

    ghost Value = { List Key };

    ghost view = { λ s. s.keys.items };

    ghost invariant = { λ s. (length s.keys.items < 256) × AllByRecursion IsKey s.keys.items };
}

impl Seeds {
    /// The seeds that are these keys, one for each chain.
    pub fn assemble(keys: Vec<Key>) -> Seeds
        requires few { length keys.items < 256 }
        requires keys { AllByRecursion IsKey keys.items }
        ensures { result ≡ keys.items }
    {
        Seeds { keys }
    }

    /// The seeds, in the order of the chains.
    pub fn as_slice(&self) -> &[Key]
        ensures { result.now ≡ self.now }
    {
        self.keys.as_slice()
    }

    /// How many seeds there are: one for each chain.
    pub fn count(&self) -> u8
        ensures value { result ≡ length self.now }
        ensures keys { AllByRecursion IsKey self.now }
    {
        self.keys.len() as u8
    }

    /// The seed of one chain, below `count`.
    pub fn get(&self, chain: u8) -> Key
        requires { chain < length self.now }
        ensures value { slice_get self.now chain ≡ Some result }
        ensures whole { IsKey result }
    {
        self.keys[chain as usize]
    }
}

impl fmt::Debug for Seeds {
    ghost debug_output = { λ _. Some (codes "Seeds { .. }") };

    fn fmt<W: fmt::Write>(&self, f: &mut fmt::Formatter<W>) -> fmt::Result {
        f.write_str("Seeds { .. }")
    }
}

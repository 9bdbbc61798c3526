//! Seeds that give no safety: all zeros, or the seed of another chain.

ghost use Rattle.std.specs.Prelude.{◌≡◌, None, IfSome};
ghost use Rattle.std.specs.List.{list_any};
ghost use Rattle.std.specs.Str.{bytes_eq};
ghost use Rattle.tesla_seeds.specs.Weak.{AreSound, IsFirstWeak, weak_name, weakness};

use crate::Seeds;
use tesla_base::{KEY_BYTES, Key, Kind};

/// Why a seed gives its chain no safety. The texts are the names.
#[derive(Clone, Copy, Debug, PartialEq, Eq)]
pub enum WeakSeed {
    /// All its bytes are zeros.
    ZeroSeed,
    /// A chain before has the same seed.
    EqualSeeds,
}

impl Kind for WeakSeed {
    ghost printed = { weak_name };

    fn name(self) -> &'static str {
        match self {
            WeakSeed::ZeroSeed => "ZeroSeed",
            WeakSeed::EqualSeeds => "EqualSeeds",
        }
    }
}

// Whether a seed is one of these.
fn is_among(seed: &Key, before: &[Key]) -> bool
    ensures { result ≡ list_any (λ other. bytes_eq seed.now.0 other.0) before.now }
{
    match before {
        [other, others @ ..] => {
            seed.0.as_slice() == other.0.as_slice() || is_among(seed, others)
        }
        [] => false,
    }
}

// Why a seed gives no safety behind these.
fn weakness(seed: &Key, before: &[Key]) -> Option<WeakSeed>
    ensures { result ≡ weakness before.now seed.now }
{
    if seed.0.as_slice() == [0; KEY_BYTES].as_slice() {
        return Some(WeakSeed::ZeroSeed);
    }
    if is_among(seed, before) {
        return Some(WeakSeed::EqualSeeds);
    }
    None
}

/// The first chain, counted from 0, whose seed gives no safety: it is all zeros, or a chain before has the same. `None`
/// exactly where each seed has another byte than zero and no two are the same.
pub fn first_weak(seeds: &Seeds) -> Option<(u8, WeakSeed)>
    ensures found { IfSome result (λ weak. IsFirstWeak seeds.now weak.0 weak.1) }
    ensures none { result ≡ None → AreSound seeds.now }
{
    let keys = seeds.as_slice();
    for chain in 0..seeds.count() {
        let place = usize::from(chain);
        if let Some(kind) = weakness(&keys[place], &keys[..place]) {
            return Some((chain, kind));
        }
    }
    None
}

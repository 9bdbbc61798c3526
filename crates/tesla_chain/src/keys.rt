//! A key of a chain by its index (RFC 4082, section 3.2).

ghost use Rattle.std.specs.Prelude.{◌≡◌, ◌+◌, ◌-◌, ◌≤◌};
ghost use Rattle.tesla_prf.specs.Keys.{walk};

use std::sync::ledger::Ledger;
use tesla_base::{Key, Steps};
use tesla_prf::walk_back;

/// The key of `index` of the chain whose key of index `last` is the seed: `last - index` counted steps. No key
/// is prepared.
pub fn key_at<L: Ledger>(seed: &Key, last: u32, index: u32, steps: &mut Steps<L>) -> Key
    requires { index ≤ last }
    ensures value { result ≡ walk seed.now (last - index) }
    ensures cost { steps.new ≡ steps.old + (last - index) }
{
    walk_back(seed, last - index, steps)
}

//! Walking along a key chain.

use std::alloc::Global;
use std::sync::ledger::Ledger;
use tesla_base::{KEY_BYTES, Key, Steps};
use tesla_chain::Traversal;

/// The sum of the last bytes of the next keys of a traversal, at most so many.
fn walk_on<L: Ledger>(traversal: &mut Traversal, most: u64, steps: &mut Steps<L>) -> u64 {
    let mut sum = 0u64;
    for _ in 0..most {
        let Some(key) = traversal.next(steps) else {
            return sum;
        };
        sum = sum.wrapping_add(u64::from(key.0[31]));
    }
    sum
}

/// Opens a traversal of a chain of `last` keys, 1 to 1,048,576, and asks it for the first `keys` of them. A number outside
/// is taken as the nearest one. It gives a sum over their bytes.
pub fn walk_part<L: Ledger>(alloc: Global, last: u64, keys: u64, steps: &mut Steps<L>) -> u64 {
    let last = last.clamp(1, 1_048_576) as u32;
    match Traversal::open(alloc, Key([0x11; KEY_BYTES]), last, steps) {
        Ok(mut traversal) => walk_on(&mut traversal, keys, steps),
        Err(_) => 0,
    }
}

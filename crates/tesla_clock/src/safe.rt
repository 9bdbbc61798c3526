//! The safe packet test.

ghost use Rattle.std.specs.Prelude.{◌≡◌, ℕ, ◌+◌, ◌^◌, ◌<◌, ◌≤◌, length, slice_index};
ghost use Rattle.tesla_clock.specs.Safe.{has_chain, is_safe, safe_set};

use crate::Schedule;

impl Schedule {
    /// The chains that are safe for a packet of this interval (RFC 4082, section 3.5), with bit `c` set for
    /// chain `c`: the sender was in no later interval than `bound` on arrival, the chain discloses its key
    /// of an interval `delays[c]` intervals later, and the newest key taken of it is that of the interval
    /// `newest[c]`. There are one to eight chains.
    pub fn safe_chains(&self, bound: u64, interval: u32, delays: &[u16], newest: &[u32]) -> u8
        requires same { length delays.now ≡ length newest.now }
        requires some { 1 ≤ length delays.now }
        requires few { length delays.now ≤ 8 }
        ensures value { result ≡ safe_set bound interval delays.now newest.now }
        ensures bits { (c : ℕ) → c < length delays.now → has_chain result c ≡ is_safe bound interval (slice_index delays.now c) (slice_index newest.now c) }
        ensures within { result < 2 ^ length delays.now }
    {
        let mut set = 0u8;
        for chain in 0..delays.len() {
            if is_safe(bound, interval, delays[chain], newest[chain]) {
                set += 1 << chain;
            }
        }
        set
    }
}

/// Whether a chain with this delay and this newest key is safe for a packet of the interval.
fn is_safe(bound: u64, interval: u32, delay: u16, newest: u32) -> bool
    ensures { result ≡ is_safe bound interval delay newest }
{
    bound < u64::from(interval) + u64::from(delay) && newest < interval
}

//! How many packets were released on each chain.

ghost use Rattle.std.specs.Prelude.{◌≡◌, ◌+◌, ◌<◌, ◌^◌, ℕ, List, drop, slice_index_or, slice_set, take};
ghost use Rattle.tesla_follow.specs.Replies.{follow_shown};
ghost use Rattle.tesla_follow_station.specs.Counts.{chain_in, with_release};
ghost use Rattle.tesla_receiver.specs.declared.history.Entry.TheVariants.{Taken};

use crate::counted::FOLLOW_COUNTS;
use tesla_follow::FollowTake;
use tesla_recorder::watched::REPORT_COUNTS;

/// How many chains a setup has at most.
pub const CHAINS: usize = 8;

/// The chain on which the packet was released that was given.
pub fn chain_of(taken: FollowTake) -> Option<u8>
    ensures { (releaser : ℕ) (into : List ℕ) → chain_in (Taken releaser (follow_shown taken into)) ≡ result }
{
    match taken {
        FollowTake::Released { head, .. } => Some(head.chain),
        FollowTake::Early { .. } | FollowTake::Empty | FollowTake::Over => None,
    }
}

/// Those by chain among all counts.
fn by_chain_in(counts: &[u64; FOLLOW_COUNTS]) -> [u64; CHAINS]
    ensures { result ≡ take 8 (drop 11 counts.now) }
{
    let mut by_chain = [0; CHAINS];
    by_chain.copy_from_slice(&counts[REPORT_COUNTS..REPORT_COUNTS + CHAINS]);
    by_chain
}

/// One packet more was released on this chain.
fn raise(by_chain: &mut [u64; CHAINS], chain: u8)
    requires { (k : ℕ) → slice_index_or by_chain.old k 0 + 1 < 2 ^ 64 }
    ensures { by_chain.new ≡ slice_set by_chain.old chain (slice_index_or by_chain.old chain 0 + 1) }
{
    let chain = usize::from(chain);
    if chain < CHAINS {
        by_chain[chain] += 1;
    }
}

/// Those by chain among all counts, with one packet more that was released on this chain, if there is one.
pub fn by_chain_with(counts: &[u64; FOLLOW_COUNTS], chain: Option<u8>) -> [u64; CHAINS]
    requires { (k : ℕ) → slice_index_or (take 8 (drop 11 counts.now)) k 0 + 1 < 2 ^ 64 }
    ensures { result ≡ with_release chain (take 8 (drop 11 counts.now)) }
{
    let mut by_chain = by_chain_in(counts);
    match chain {
        Some(chain) => {
            raise(&mut by_chain, chain);
            by_chain
        }
        None => by_chain,
    }
}

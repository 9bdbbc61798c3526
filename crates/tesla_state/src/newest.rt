//! The newest keys of the chains, by which held packets are tried.

use tesla_fitting::Config;
use tesla_keys::Verifier;

/// The newest key of each chain, and what the chains were opened with.
#[derive(Clone, Copy, Debug)]
pub struct Newest<'a> {
    /// What the receiver was opened with.
    pub config: &'a Config,
    /// The newest key of each chain.
    pub tips: &'a [Verifier],
}

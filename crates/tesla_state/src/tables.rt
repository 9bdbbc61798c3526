//! What an arrival works on: the newest keys, the packets, and the room for what is made on the way.

use crate::Store;
use tesla_fitting::Config;
use tesla_keys::Verifier;
use tesla_walks::{Proved, Walk};

/// The newest keys of the chains, the packets that have a place, and the room for the walks of an arrival and for what
/// they prove.
#[derive(Drop)]
pub struct Tables {
    /// What the receiver was opened with.
    pub config: Config,
    /// The newest key of each chain.
    pub tips: Vec<Verifier>,
    /// The packets.
    pub store: Store,
    /// The walks of the last arrival.
    pub walks: Vec<Walk>,
    /// What the last new keys proved.
    pub batch: Vec<Proved>,
}

//! What happened to a receiver, in order.

use tesla_base::Text;
use tesla_fitting::Verdict;
use tesla_state::Reply;

/// A datagram that came, with the reading of the receiver's clock in microseconds, and its verdict.
#[derive(Debug, Drop)]
pub struct Arrival<V = Verdict> {
    pub ingest: u8,
    pub reading: u64,
    pub bytes: Text,
    pub verdict: V,
}

/// One event of a receiver, with its answer. Without parameters it is of a receiver of one stream.
#[derive(Debug, Drop)]
pub enum Entry<V = Verdict, R = Reply> {
    Arrived(Arrival<V>),
    Taken { releaser: u8, reply: R },
    Ended { ingest: u8 },
}

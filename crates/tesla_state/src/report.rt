//! The counts of a history.

/// How many arrivals had each verdict, how many there were, and how many takes gave a packet.
#[derive(Clone, Copy, Debug, PartialEq, Eq)]
pub struct Report {
    pub arrivals: u64,
    pub malformed: u64,
    pub foreign: u64,
    pub misfit: u64,
    pub future: u64,
    pub badkey: u64,
    pub late: u64,
    pub repeat: u64,
    pub full: u64,
    pub kept: u64,
    pub keys: u64,
    pub given: u64,
}

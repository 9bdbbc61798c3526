//! A setup in numbers.

ghost use Rattle.std.specs.Prelude.{◌≡◌};
ghost use Rattle.std.specs.List.{slice_get};
ghost use Rattle.tesla_c.specs.Pure.{chain_told, place_told, rows_told, setup_told};

use tesla_commit::{ChainRow, Setup};

/// A chain of a setup: its delay in intervals, and the index and the key that it commits to.
#[repr(C)]
#[derive(Clone, Copy)]
pub struct CChain {
    pub delay: u32,
    pub index: u32,
    pub key: [u8; 32],
}

/// What a setup says. Times are in microseconds, the length of a tag in bytes. Places behind the last chain are zeros.
#[repr(C)]
#[derive(Drop)]
pub struct CSetup {
    pub stream: u64,
    pub start: u64,
    pub interval: u64,
    pub last: u32,
    pub version: u32,
    pub tag_length: u32,
    pub chains: u32,
    pub rows: [CChain; 8],
}

/// What stands in a place behind the last chain.
const NO_CHAIN: CChain = CChain {
    delay: 0,
    index: 0,
    key: [0; 32],
};

// A chain in numbers.
fn chain_of(row: &ChainRow) -> CChain
    ensures { result ≡ chain_told row.now }
{
    CChain {
        delay: u32::from(row.delay),
        index: row.index,
        key: row.key.0,
    }
}

// What stands in the place of a chain.
fn place_of(setup: &Setup, chain: u8) -> CChain
    ensures { result ≡ place_told (slice_get setup.now.rows chain) }
{
    if chain < setup.count() {
        chain_of(&setup.row(chain))
    } else {
        NO_CHAIN
    }
}

// The places of the chains.
fn rows_of(setup: &Setup) -> [CChain; 8]
    ensures { result ≡ rows_told setup.now.rows }
{
    [
        place_of(setup, 0),
        place_of(setup, 1),
        place_of(setup, 2),
        place_of(setup, 3),
        place_of(setup, 4),
        place_of(setup, 5),
        place_of(setup, 6),
        place_of(setup, 7),
    ]
}

/// A setup in numbers.
pub(crate) fn setup_of(setup: &Setup) -> CSetup
    ensures { result ≡ setup_told setup.now }
{
    let schedule = setup.schedule();
    CSetup {
        stream: setup.stream().0,
        start: schedule.start(),
        interval: u64::from(schedule.length()),
        last: schedule.last(),
        version: u32::from(setup.version()),
        tag_length: u32::from(setup.tag_length()),
        chains: u32::from(setup.count()),
        rows: rows_of(setup),
    }
}

//! The setup of the stream of a load, and its seeds.

ghost use Rattle.std.specs.Prelude.{◌≡◌, ◌∷◌, [], ◌≤◌, IfOk};
ghost use Rattle.tesla_run_stress.specs.Base.{base_row, base_seeds, base_setup, key_of_byte, last_of};

use std::alloc::Global;
use std::sync::ledger::Ledger;
use tesla_base::{Key, NoMemory, Steps, StreamId};
use tesla_chain::key_at;
use tesla_clock::Schedule;
use tesla_commit::{ChainRow, Setup, SetupRefusal};
use tesla_seeds::{Seeds, SeedsRefusal, read_seeds};

/// The text of the seeds.
const SEEDS: &[u8] = b"tesla-seeds 1
seed 1111111111111111111111111111111111111111111111111111111111111111
seed 2222222222222222222222222222222222222222222222222222222222222222
";

/// The seeds of the stream of a load.
pub fn base_seeds(alloc: Global) -> Result<Seeds, NoMemory>
    ensures { IfOk result (λ seeds. seeds ≡ base_seeds) }
{
    match read_seeds(alloc, SEEDS, 2) {
        Ok(seeds) => Ok(seeds),
        Err(SeedsRefusal::NoMemory) => Err(NoMemory),
        Err(SeedsRefusal::At { .. }) => unreachable!(),
    }
}

/// The last interval of so many messages.
pub fn last_of(count: u32) -> u32
    requires { count ≤ 100000 }
    ensures { result ≡ last_of count }
{
    (count + 9) / 10
}

// The chain of a delay and a seed: `last` counted steps.
fn base_row<L: Ledger>(delay: u16, seed: &Key, last: u32, steps: &mut Steps<L>) -> ChainRow
    ensures { result ≡ base_row delay seed.now last }
{
    ChainRow {
        delay,
        index: 0,
        key: key_at(seed, last, 0, steps),
    }
}

// The setup with these chains.
fn assembled(alloc: Global, last: u32, rows: &[ChainRow]) -> Result<Setup, NoMemory>
    requires some { 1 ≤ last }
    requires most { last ≤ 10000 }
    requires rows { rows.now ≡ base_row 2 (key_of_byte 17) last ∷ base_row 5 (key_of_byte 34) last ∷ [] }
    ensures { IfOk result (λ setup. setup ≡ base_setup last) }
{
    let Some(schedule) = Schedule::new(1_000_000, 100_000, last) else {
        unreachable!()
    };
    match Setup::new(alloc, StreamId(0xa7), schedule, rows) {
        Ok(setup) => Ok(setup),
        Err(SetupRefusal::NoMemory) => Err(NoMemory),
        Err(SetupRefusal::At { .. }) => unreachable!(),
    }
}

/// The setup of the stream, with the commitments that its seeds give: `last` counted steps for each of the two chains.
pub fn base_setup<L: Ledger>(
    alloc: Global,
    last: u32,
    seeds: &Seeds,
    steps: &mut Steps<L>,
) -> Result<Setup, NoMemory>
    requires some { 1 ≤ last }
    requires most { last ≤ 10000 }
    requires seeds { seeds.now ≡ base_seeds }
    ensures { IfOk result (λ setup. setup ≡ base_setup last) }
{
    let first = base_row(2, &seeds.get(0), last, steps);
    let second = base_row(5, &seeds.get(1), last, steps);
    assembled(alloc, last, &[first, second])
}

//! The setup that parameters and seeds make.

ghost use Rattle.std.specs.Prelude.{◌≡◌, ◌+◌, ◌*◌, ◌≤◌, length};
ghost use Rattle.tesla_commit.specs.ChainRows.{parts_judged};
ghost use Rattle.tesla_commit.specs.JudgedLines.{Answers};
ghost use Rattle.tesla_commit.specs.Parts.{IsSetupOf};
ghost use Rattle.tesla_sender_setup.specs.Made.{rows_of, setup_made, setup_with};
ghost use Rattle.tesla_sender_setup.specs.Parameters.{parameters_of};

use crate::Parameters;
use arrayvec::ArrayVec;
use std::alloc::Global;
use std::sync::ledger::Ledger;
use tesla_base::{Steps, Version};
use tesla_chain::key_at;
use tesla_commit::{ChainRow, Setup, SetupRefusal};
use tesla_seeds::Seeds;

/// The setup of the parameters with a key chain from each of the seeds, of which there is one for each delay (RFC 4082,
/// section 3.2): each commits to its key of index 0. It takes no memory, and for each chain as many counted steps as the
/// last interval says.
pub fn make_setup<L: Ledger>(
    alloc: Global,
    parameters: &Parameters,
    seeds: &Seeds,
    steps: &mut Steps<L>,
) -> Setup
    requires { length seeds.now ≡ length parameters.now.delays.items }
    ensures setup { result ≡ setup_made (parameters_of parameters.now) seeds.now }
    ensures cost { steps.new ≡ steps.old + length parameters.now.delays.items * parameters.now.schedule.last }
{
    let last = parameters.schedule.last();
    let rows = commitments(last, parameters.delays.as_slice(), seeds, steps);
    assembled(alloc, parameters, rows.as_slice())
}

// The chains with these delays and seeds: `last` counted steps each.
fn commitments<L: Ledger>(
    last: u32,
    delays: &[u16],
    seeds: &Seeds,
    steps: &mut Steps<L>,
) -> ArrayVec<ChainRow, 8>
    requires few { length delays.now ≤ 8 }
    requires count { length seeds.now ≡ length delays.now }
    ensures rows { result.items ≡ rows_of last delays.now seeds.now }
    ensures cost { steps.new ≡ steps.old + length delays.now * last }
{
    let mut rows = ArrayVec::new();
    for (chain, delay) in delays.iter().enumerate() {
        rows.push(ChainRow {
            delay: *delay,
            index: 0,
            key: key_at(&seeds.get(chain as u8), last, 0, steps),
        });
    }
    rows
}

// What is judged of the parameters with these chains as a setup.
fn judged_setup(
    alloc: Global,
    parameters: &Parameters,
    rows: &[ChainRow],
) -> Result<Setup, SetupRefusal>
    ensures { Answers (λ setup. setup) result (parts_judged parameters.now.version parameters.now.stream parameters.now.schedule parameters.now.tag_length rows.now) }
{
    match parameters.version {
        Version::One => Setup::new(alloc, parameters.stream, parameters.schedule, rows),
        Version::Two => Setup::new2(
            alloc,
            parameters.stream,
            parameters.schedule,
            parameters.tag_length,
            rows,
        ),
    }
}

// The setup of the parameters with these chains.
fn assembled(alloc: Global, parameters: &Parameters, rows: &[ChainRow]) -> Setup
    requires { IsSetupOf (setup_with (parameters_of parameters.now) rows.now) }
    ensures { result ≡ setup_with (parameters_of parameters.now) rows.now }
{
    match judged_setup(alloc, parameters, rows) {
        Ok(setup) => setup,
        Err(_) => unreachable!(),
    }
}

//! What a sender's whole life costs.

ghost use Rattle.std.specs.Prelude.{◌≡◌, ◌+◌, ◌*◌, ◌<◌, ◌≤◌, length};
ghost use Rattle.tesla_chain.specs.Cost.{W};

use std::alloc::Global;
use std::marker::Brand;
use std::sync::ledger::{Blank, Ledger};
use std::test::*;
use tesla_base::{MOST_DATAGRAM, Steps};
use tesla_commit::{Setup, read_setup};
use tesla_seeds::{Seeds, read_seeds};
use tesla_sender::Sender;
use tesla_test_desk::{SEEDS, SETUP};

/// Sends a message of one byte at each of the readings. What a sender's whole life costs follows from the
/// clauses of its calls alone; the last clause also says that a message more costs no more than it may.
fn sends<L: Ledger>(
    alloc: Global,
    setup: Setup,
    seeds: &Seeds,
    readings: &[u64],
    steps: &mut Steps<L>,
) -> Result<usize, Fail>
    requires { length seeds.now ≡ length setup.rows }
    ensures { steps.new ≤ steps.old + length setup.rows * (W setup.times.last + setup.times.last + 2 * length readings.now) }
{
    let mut sender = Sender::open(alloc, setup, seeds, steps)?;
    let mut into = [0; MOST_DATAGRAM];
    let mut sent = 0;
    for reading in readings {
        if sender.message(*reading, b"a", &mut into, steps).is_ok() {
            sent += 1;
        }
    }
    Ok(sent)
}

fn sent_of<L: Ledger>(alloc: Global, blank: Blank, readings: &[u64]) -> Result<usize, Fail>
    requires name { blank.name ≡ L.name }
    requires parts { blank.parts ≡ L.parts }
    requires some { 0 < L.parts }
{
    let mut steps = Steps::<L>::new(blank);
    let setup = read_setup(alloc, SETUP.as_bytes())?;
    let seeds = read_seeds(alloc, SEEDS.as_bytes(), setup.count())?;
    sends(alloc, setup, &seeds, readings, &mut steps)
}

#[test]
fn cost_of_a_life(rt: HostRuntime) -> Result<(), Fail> {
    let readings = [1_150_000, 1_160_000, 1_140_000, 1_050_000, 1_850_000];
    assert_eq!(rt; sent_of::<Brand>(rt.alloc(), Blank::new(1), &readings)?, 4);
    Ok(())
}

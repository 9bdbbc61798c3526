//! A module for each receiver, for what a sender costs, and for what lies below them; and what they share.

ghost use Rattle.std.specs.Prelude.{◌≡◌, [], length, IfOk};
ghost use Rattle.tesla_sender.specs.Stands.{Stands};

mod follower;
mod functions;
mod numbers;
mod printed;
mod receiver;
mod rollover;
mod sender;
mod world;
mod written;

use std::alloc::Global;
use std::sync::ledger::Ledger;
use std::test::Fail;
use tesla_base::{Head, Steps};
use tesla_commit::Setup;
use tesla_seeds::read_seeds;
use tesla_sender::Sender;
use tesla_test_desk::SEEDS;

// A sender that has sent nothing.
fn sender_of<L: Ledger>(alloc: Global, setup: Setup, steps: &mut Steps<L>) -> Result<Sender, Fail>
    ensures setup { IfOk result (λ sender. sender.stream.setup ≡ setup) }
    ensures seeds { IfOk result (λ sender. length sender.stream.seeds ≡ length setup.rows) }
    ensures stands { IfOk result (λ sender. Stands sender []) }
{
    let seeds = read_seeds(alloc, SEEDS.as_bytes(), setup.count())?;
    Ok(Sender::open(alloc, setup, &seeds, steps)?)
}

// What a take gave: the position, the name, the chain that proved it, and the payload.
fn given_of(alloc: Global, head: &Head, into: &[u8; 1200]) -> Result<String, Fail> {
    let payload = std::str::from_utf8(&into[..usize::from(head.length).min(1200)])?;
    let (position, interval, number, chain) = (
        head.position,
        head.interval,
        head.number,
        head.chain,
    );
    Ok(format!(in alloc; "{position} {interval}/{number} by {chain} {payload}")?)
}

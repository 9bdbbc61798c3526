//! A sender whose chains are opened side by side.

ghost use Rattle.std.specs.Prelude.{◌≡◌, ◌<◌, [], length, None, IfErr, IfOk};
ghost use Rattle.tesla_sender.specs.Made.{chains_of};
ghost use Rattle.tesla_sender.specs.Opening.{AreOpened, IsRefusal, OpensChain, seeds_refused};
ghost use Rattle.tesla_sender.specs.Stands.{Stands};

use std::alloc::Global;
use std::marker::Brand;
use std::sync::ledger::{Blank, Ledger};
use std::thread::{Threads, for_each_mut};
use tesla_base::Steps;
use tesla_commit::Setup;
use tesla_seeds::Seeds;
use tesla_sender::{ChainOpening, Sender, SenderRefusal, chain_openings};

/// A sender as `Sender::open` gives it, where each chain is opened in a thread of its own, as far as one can be made. No
/// evaluation is counted.
pub fn open_side_by_side<R: Threads + Sync>(
    rt: &R,
    alloc: Global,
    setup: Setup,
    seeds: &Seeds,
) -> Result<Sender, SenderRefusal>
    requires { length seeds.now ≡ length setup.rows }
    ensures stands { IfOk result (λ sender. Stands sender []) }
    ensures stream { IfOk result (λ sender. sender.stream ≡ record { setup = setup; seeds = seeds.now }) }
    ensures right { IfOk result (λ _. seeds_refused (chains_of (record { setup = setup; seeds = seeds.now })) ≡ None) }
    ensures refused { IfErr result (IsRefusal (chains_of (record { setup = setup; seeds = seeds.now }))) }
{
    let mut openings = match chain_openings(alloc, &setup, seeds) {
        Ok(openings) => openings,
        Err(refusal) => return Err(refusal),
    };
    open_all(rt, &mut openings);
    Sender::open_from(alloc, setup, seeds, openings)
}

// Opens each of the chains.
fn open_all<R: Threads + Sync>(rt: &R, openings: &mut Vec<ChainOpening>)
    ensures { AreOpened openings.old.items openings.new.items }
{
    open_each(rt, openings.as_mut_slice());
}

// Opens each of the chains in a thread of its own, as far as one can be made.
fn open_each<R: Threads + Sync>(rt: &R, openings: &mut [ChainOpening])
    ensures { AreOpened openings.old openings.new }
{
    if openings.is_empty() {
        return;
    }
    let open = |_place: usize, opening: &mut ChainOpening|
        ensures { OpensChain opening.entry.now opening.exit.now }
    { open_one(opening) };
    let threads = openings.len();
    for_each_mut(rt, openings, threads, &open);
}

// Opens a chain.
fn open_one(opening: &mut ChainOpening)
    ensures { OpensChain opening.old opening.new }
{
    open_counted::<Brand>(opening, Blank::new(1));
}

// Opens a chain, with a ledger of its own for its evaluations.
fn open_counted<L: Ledger>(opening: &mut ChainOpening, blank: Blank)
    requires name { blank.name ≡ L.name }
    requires parts { blank.parts ≡ L.parts }
    requires some { 0 < L.parts }
    ensures { OpensChain opening.old opening.new }
{
    let mut steps = Steps::<L>::new(blank);
    opening.open(&mut steps);
}

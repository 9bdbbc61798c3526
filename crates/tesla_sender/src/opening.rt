//! The chains of a sender that is opened.

ghost use Rattle.std.specs.Prelude.{◌≡◌, ◌+◌, ◌*◌, ◌<◌, ◌≤◌, None, Some, length, slice_get, IfOk, IfErr, OnErr};
ghost use Rattle.std.specs.List.{sum_by};
ghost use Rattle.tesla_chain.specs.Cost.{W};
ghost use Rattle.tesla_sender.specs.Made.{chains_of};
ghost use Rattle.tesla_sender.specs.Chains.{left_in};
ghost use Rattle.tesla_sender.specs.Opening.{AreFresh, IsRefusal, seeds_refused};

use crate::SenderRefusal;
use crate::chain::SendingChain;
use std::alloc::Global;
use std::sync::ledger::Ledger;
use tesla_base::{ChainNo, Steps};
use tesla_commit::Setup;
use tesla_seeds::Seeds;

/// The chains of a setup, each with its seed. All memory is taken here. Beside the counted steps it prepares one key
/// for each chain that is opened.
pub fn open_chains<L: Ledger>(
    alloc: Global,
    setup: &Setup,
    seeds: &Seeds,
    steps: &mut Steps<L>,
) -> Result<Vec<SendingChain>, SenderRefusal>
    requires { length seeds.now ≡ length setup.now.rows }
    ensures opened { IfOk result (λ chains. AreFresh (chains_of (record { setup = setup.now; seeds = seeds.now })) chains.items) }
    ensures right { IfOk result (λ _. seeds_refused (chains_of (record { setup = setup.now; seeds = seeds.now })) ≡ None) }
    ensures refused { IfErr result (IsRefusal (chains_of (record { setup = setup.now; seeds = seeds.now }))) }
    ensures cost { IfOk result (λ chains. steps.new + sum_by left_in chains.items ≤ steps.old + length setup.now.rows * (W setup.now.times.last + setup.now.times.last)) }
    ensures cost_refused { OnErr result (steps.new ≤ steps.old + length setup.now.rows * (W setup.now.times.last + setup.now.times.last)) }
{
    let last = setup.schedule().last();
    let count = setup.count();
    let mut chains = Vec::with_capacity(alloc, count as usize)?;
    for number in 0..count {
        let row = setup.row(number);
        let seed = seeds.get(number);
        let chain = match SendingChain::open(alloc, ChainNo(number), row, seed, last, steps) {
            Ok(chain) => chain,
            Err(refusal) => return Err(refusal),
        };
        let Ok(()) = chains.push(chain) else {
            return Err(SenderRefusal::NoMemory);
        };
    }
    Ok(chains)
}

//! The openings of a sender's chains, which can be done side by side.

ghost use Rattle.std.specs.Prelude.{◌≡◌, ◌+◌, ◌^◌, ◌≤◌, None, length, map, IfOk, IfErr};
ghost use Rattle.std.specs.List.{All};
ghost use Rattle.tesla_chain.specs.Cost.{W};
ghost use Rattle.tesla_sender.specs.Made.{chains_of};
ghost use Rattle.tesla_sender.specs.Chains.{IsFresh, IsRefusedFor};
ghost use Rattle.tesla_sender.specs.Opening.{AreFresh, IsOpened, IsRefusal, opening_chain, seeds_refused};
ghost use Rattle.tesla_sender.specs.declared.refusal.SenderRefusal.TheVariants as refusals;

use crate::SenderRefusal;
use crate::chain::SendingChain;
use std::alloc::Global;
use std::marker::Model;
use std::sync::ledger::Ledger;
use tesla_base::{ChainNo, Key, Steps};
use tesla_commit::{ChainRow, Setup};
use tesla_seeds::Seeds;

/// The opening of one chain: what it is opened with, and what came of it once it was.
#[derive(Drop)]
pub struct ChainOpening {
    alloc: Global,
    number: ChainNo,
    row: ChainRow,
    seed: Key,
    last: u32,
    came: Option<Result<SendingChain, SenderRefusal>>,
}

impl Model for ChainOpening {
    ghost use Rattle.tesla_sender.specs.Opening.{IsOpenable, OpeningSeen};

    ghost Value = { OpeningSeen };

    ghost view = { λ o. record {
      chain = record { number = o.number.0; row = o.row; seed = o.seed; last = o.last };
      came = o.came;
    } };

    ghost invariant = { λ o. IsOpenable o.row.index o.last };
}

impl ChainOpening {
    // The opening of a chain that wasn't opened yet.
    fn new(alloc: Global, number: ChainNo, row: ChainRow, seed: Key, last: u32) -> ChainOpening
        requires least { 1 ≤ last }
        requires most { last ≤ 2 ^ 20 }
        requires within { row.index ≤ last }
        ensures { result.chain ≡ record { number = number.0; row = row; seed = seed; last = last } }
    {
        ChainOpening {
            alloc,
            number,
            row,
            seed,
            last,
            came: None,
        }
    }

    /// Opens the chain: it walks from its seed to its first key, and takes all its memory. What came of it is kept.
    pub fn open<L: Ledger>(&mut self, steps: &mut Steps<L>)
        ensures chain { self.new.chain ≡ self.old.chain }
        ensures opened { IsOpened self.new }
        ensures cost { steps.new ≤ steps.old + (W self.old.chain.last + self.old.chain.last) }
    {
        self.came = Some(SendingChain::open(
            self.alloc,
            self.number,
            self.row,
            self.seed,
            self.last,
            steps,
        ));
    }

    // What came of it, once it was opened.
    fn into_chain(self) -> Result<SendingChain, SenderRefusal>
        requires { IsOpened self }
        ensures opened { IfOk result (IsFresh self.chain) }
        ensures refused { IfErr result (IsRefusedFor self.chain) }
    {
        match self.came {
            Some(came) => came,
            None => unreachable!(),
        }
    }
}

/// The openings of the chains of a setup, each with its seed: none was opened yet. `NoMemory` is the one refusal.
pub fn chain_openings(
    alloc: Global,
    setup: &Setup,
    seeds: &Seeds,
) -> Result<Vec<ChainOpening>, SenderRefusal>
    requires { length seeds.now ≡ length setup.now.rows }
    ensures same { IfOk result (λ openings. map opening_chain openings.items ≡ chains_of (record { setup = setup.now; seeds = seeds.now })) }
    ensures refused { IfErr result (λ refusal. refusal ≡ refusals.NoMemory) }
{
    let last = setup.schedule().last();
    let count = setup.count();
    let mut openings = Vec::with_capacity(alloc, count as usize)?;
    for number in 0..count {
        let row = setup.row(number);
        let seed = seeds.get(number);
        let opening = ChainOpening::new(alloc, ChainNo(number), row, seed, last);
        let Ok(()) = openings.push(opening) else {
            return Err(SenderRefusal::NoMemory);
        };
    }
    Ok(openings)
}

/// The chains of openings that were done.
pub fn opened_chains(
    alloc: Global,
    mut openings: Vec<ChainOpening>,
) -> Result<Vec<SendingChain>, SenderRefusal>
    requires { All IsOpened openings.items }
    ensures opened { IfOk result (λ chains. AreFresh (map opening_chain openings.items) chains.items) }
    ensures right { IfOk result (λ _. seeds_refused (map opening_chain openings.items) ≡ None) }
    ensures refused { IfErr result (IsRefusal (map opening_chain openings.items)) }
{
    let count = openings.len();
    let mut chains = Vec::with_capacity(alloc, count)?;
    for place in 0..count {
        let chain = match openings.remove(0).into_chain() {
            Ok(chain) => chain,
            Err(refusal) => return Err(refusal),
        };
        let Ok(()) = chains.push(chain) else {
            return Err(SenderRefusal::NoMemory);
        };
    }
    Ok(chains)
}

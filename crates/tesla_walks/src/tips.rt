//! The newest keys of the chains, at first.

ghost use Rattle.std.specs.Prelude.{◌≡◌, ◌≤◌, IfOk, length, map, vec_capacity};
ghost use Rattle.tesla_fitting.specs.Config.{chains};
ghost use Rattle.tesla_walks.specs.Tips.{first_tip};

use std::alloc::Global;
use tesla_base::NoMemory;
use tesla_fitting::{Config, chain_row};
use tesla_keys::Verifier;

/// The commitments of all chains, in order, each as the newest key of its chain, in a list with room for the eight
/// chains that a setup has at most. `Err` where there is no memory.
pub fn first_tips(alloc: Global, config: &Config) -> Result<Vec<Verifier>, NoMemory>
    ensures tips { IfOk result (λ tips. tips.items ≡ map (first_tip config.now) (chains config.now)) }
    ensures count { IfOk result (λ tips. length tips.items ≡ length config.now.setup.rows) }
    ensures room { IfOk result (λ tips. 8 ≤ vec_capacity tips) }
{
    let mut tips = Vec::with_capacity(alloc, 8)?;
    begin_tips(&mut tips, config);
    Ok(tips)
}

/// Puts the commitments of all chains, in order, into a list in place of what it had, each as the newest key of its
/// chain. It takes no memory: the list has room for eight.
pub fn begin_tips(tips: &mut Vec<Verifier>, config: &Config)
    requires { 8 ≤ vec_capacity tips.old }
    ensures tips { tips.new.items ≡ map (first_tip config.now) (chains config.now) }
    ensures count { length tips.new.items ≡ length config.now.setup.rows }
    ensures room { vec_capacity tips.new ≡ vec_capacity tips.old }
{
    tips.clear();
    for chain in 0..config.setup.count() {
        let row = chain_row(config, chain);
        tips.push_reserved(Verifier::new(row.index, row.key));
    }
}

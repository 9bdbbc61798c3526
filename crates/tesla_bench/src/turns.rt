//! Additions in turns.
ghost use Rattle.std.specs.Prelude.{◌≡◌, ◌<◌, ◌^◌, All, IfOk};

use std::alloc::Global;
use std::sync::Wait;
use std::thread::{Threads, map_vec};
use tesla_base::NoMemory;
use tesla_turn::examples::{Add, Sum};
use tesla_turn::{Pass, Turn};

// Adds one, `calls` times or until the pass has no call left.
fn add_by<R: Wait>(rt: &R, turn: &Turn<Sum>, mut pass: Pass<Sum>, calls: u64)
    requires { pass.turn ≡ turn.now }
{
    for _ in 0..calls {
        let _ = turn.perform(rt, &mut pass, &mut Add { number: 1 });
    }
}

// A pass for each of the threads.
fn split_for(
    alloc: Global,
    turn: &Turn<Sum>,
    first: &mut Pass<Sum>,
    threads: u8,
) -> Result<Vec<Pass<Sum>>, NoMemory>
    requires { first.old.turn ≡ turn.now }
    ensures passes { IfOk result (λ v. All (λ p. p.turn ≡ turn.now) v.items) }
    ensures first { (first.new.turn ≡ turn.now) × (first.new.number ≡ first.old.number) }
{
    let mut passes = Vec::new(alloc);
    for _ in 0..threads {
        if let Ok(pass) = turn.split(first) {
            passes.push(pass)?;
        }
    }
    Ok(passes)
}

/// Adds one, `calls` times in each of the threads, each addition in a turn, and gives the sum.
pub fn in_turns<R: Threads + Wait + Sync>(
    rt: &R,
    alloc: Global,
    threads: u8,
    calls: u64,
) -> Result<u64, NoMemory>
    requires { (threads < 255) × (calls < 2 ^ 32) }
{
    let (turn, mut first) = Turn::open(alloc, Sum { total: 0 }, threads + 1, calls)?;
    let passes = split_for(alloc, &turn, &mut first, threads)?;
    map_vec(
        rt,
        passes,
        &|pass: Pass<Sum>|
            requires { pass.turn ≡ turn }
        { add_by(rt, &turn, pass, calls) },
    )?;
    let (sum, _last) = turn.close(rt, first);
    Ok(sum.total)
}

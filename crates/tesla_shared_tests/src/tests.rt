//! A module for each thing that threads share.

ghost use Rattle.std.specs.Prelude.{◌≡◌, ◌+◌, [], IfOk, length};
ghost use Rattle.tesla_receiver.specs.Stands.{Stands};
ghost use Rattle.tesla_turn.specs.Held.{left_of};

mod rising;
mod turns;
mod workers;

use std::alloc::Global;
use std::test::Fail;
use tesla_commit::read_setup;
use tesla_receiver::Receiver;
use tesla_test_desk::SETUP;
use tesla_turn::{Pass, Permitting, Turn};

// A further pass of a turn, with all its calls.
fn further_pass<V: Permitting + Drop>(turn: &Turn<V>, pass: &mut Pass<V>) -> Result<Pass<V>, Fail>
    requires { pass.old.turn ≡ turn.now }
    ensures kept { (pass.new.turn ≡ pass.old.turn) × (pass.new.number ≡ pass.old.number) × (pass.new.calls ≡ pass.old.calls) × (pass.new.config ≡ pass.old.config) }
    ensures given { IfOk result (λ it. (it.turn ≡ turn.now) × (left_of it ≡ pass.old.calls)) }
    ensures numbered { IfOk result (λ it. (it.number ≡ length pass.old.joined) × (it.config ≡ pass.old.config)) }
    ensures joined { IfOk result (λ _. length pass.new.joined ≡ length pass.old.joined + 1) }
{
    let Ok(given) = turn.split(pass) else {
        return Err("room for a further pass".into());
    };
    Ok(given)
}

// A receiver of the examples with room for 16 packets, whose lag is 30,000 microseconds.
fn receiver_of(alloc: Global, ingests: u8) -> Result<Receiver, Fail>
    ensures stands { IfOk result (λ receiver. Stands receiver []) }
    ensures ingests { IfOk result (λ receiver. receiver.config.ingests ≡ ingests) }
{
    if ingests == 0 {
        return Err("no ingest".into());
    }
    let setup = read_setup(alloc, SETUP.as_bytes())?;
    Ok(Receiver::open(alloc, setup, 30_000, 16, 16, ingests)?)
}

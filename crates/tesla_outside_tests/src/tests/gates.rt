//! A test of gates, in one thread.

use std::test::Fail;
use std::time::Instant;
use tesla_desk::{Environment, Gate};
use tesla_live::{Command, Gates, LiveDesk};

/// How often the gates rest. Without a wake-up each rest lasts 100 milliseconds.
const ROUNDS: u64 = 40;

/// Half of what the rests last without a wake-up, in milliseconds.
const LIMIT: u128 = 2_000;

// Tells at a gate that something was released.
fn release<G: Gate>(gate: &mut G) {
    gate.before();
    gate.released();
    gate.after();
}

#[test]
fn a_release_since_the_turn_ends_the_rest(rt: HostRuntime) -> Result<(), Fail> {
    let gates = Gates::new();
    let mut desk = LiveDesk::new(&rt, &gates, Command::Other);
    let (mut sink, mut link) = (desk.gate(), desk.gate());
    let start = Instant::now(&rt)?;
    for _ in 0..ROUNDS {
        sink.before();
        sink.after();
        release(&mut link);
        sink.rest();
    }
    let lasted = start.elapsed(&rt)?.as_millis();
    assert!(rt; lasted < LIMIT, "{lasted}");
    link.quiet();
    link.rest();
    Ok(())
}

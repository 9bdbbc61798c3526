//! The program `tesla` without its live commands.
#![tactic(auto)]

use std::process::ExitCode;
use tesla_cli::program::{run_program, words};
use tesla_live::{Command, Gates, LiveDesk};

fn main(rt: HostRuntime) -> ExitCode {
    let gates = Gates::new();
    let mut desk = LiveDesk::new(&rt, &gates, Command::Other);
    let words = words(&rt);
    run_program(rt.alloc(), words, &[], &mut desk)
}

//! The choice of the table that words are run by.

ghost use Rattle.std.specs.Prelude.{◌≡◌, map, string_bytes};
ghost use Rattle.tesla_front.specs.OutcomeView.{OutcomeView, status_of};
ghost use Rattle.tesla_cli.specs.Commands.{KeepsLive};
ghost use Rattle.tesla_cli.specs.program.Choice.{RunsChosen};

use crate::{is_tool, run_here, run_tools};
use std::alloc::Global;
use tesla_desk::Desk;

/// Runs the words as those of a tool where the first of them names one, and else as those of the other commands, and
/// gives the status.
pub fn run_chosen<D: Desk>(alloc: Global, words: &[String], desk: &mut D) -> u8
    ensures chosen { (reported : OutcomeView) × (result ≡ status_of reported) × RunsChosen (map string_bytes words.now) (D.told desk.old) (D.told desk.new) reported }
    ensures live { KeepsLive (map string_bytes words.now) (D.told desk.old).live (D.told desk.new).live }
{
    if is_tool(words) {
        return run_tools(alloc, words, desk);
    }
    run_here(alloc, words, desk)
}

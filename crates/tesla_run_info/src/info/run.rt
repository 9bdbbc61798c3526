//! A run of `info`.

ghost use Rattle.std.specs.Prelude.{◌≡◌, map, string_bytes};
ghost use Rattle.tesla_front.specs.OutcomeView.{result_view, outcome_view};
ghost use Rattle.tesla_front.specs.Command.{Performs, RunsAs};
ghost use Rattle.tesla_front.specs.Openings.{AreFiles};
ghost use Rattle.tesla_run_info.specs.info.Arguments.{arguments_of, files_of_info};
ghost use Rattle.tesla_run_info.specs.info.Telling.{TellsInfo, TouchesClock, info};

use crate::info::equal::unequal;
use crate::info::form::{Arguments, arguments_in};
use crate::info::lines::info_of;
use std::alloc::Global;
use tesla_commit::Setup;
use tesla_desk::Desk;
use tesla_front::{Fault, Lines, Outcome, Stop, outcome_of, setup_under};

/// Runs the words as those of `info`: reads SETUP, and tells what it says and, at the first reading of the next clock,
/// how much of its stream is left.
///
/// `Done` with the lines of the setup. `Usage` exactly where the words are no form, and then nothing was opened.
/// `Refused` with status 2 and the first refused line of SETUP, where its text is no setup, or with the line of the
/// first chain whose commitment a chain before has, `EqualCommitments`. `Failed` with what went wrong first, `Read` and
/// `Open` exactly where the desk's count of that rose. No file is written, and no clock is made but where it is `Done`.
pub fn run_info<D: Desk>(alloc: Global, words: &[String], desk: &mut D) -> Outcome
    ensures runs { RunsAs (info (D.told desk.old).live (D.told desk.new).live) (map string_bytes words.now) (D.told desk.old) (D.told desk.new) (outcome_view result) }
    ensures live { TouchesClock (D.told desk.old).live (D.told desk.new).live }
{
    match arguments_in(words) {
        Some(arguments) => outcome_of(perform(alloc, &arguments, desk)),
        None => Outcome::Usage,
    }
}

// Does what the words ask for.
fn perform<D: Desk>(alloc: Global, arguments: &Arguments<'_>, desk: &mut D) -> Result<Lines, Stop>
    requires files { AreFiles (files_of_info (arguments_of arguments.now)) }
    ensures performs { Performs (info (D.told desk.old).live (D.told desk.new).live) (arguments_of arguments.now) (D.told desk.old) (D.told desk.new) (result_view result) }
    ensures live { TouchesClock (D.told desk.old).live (D.told desk.new).live }
{
    let setup = setup_under(alloc, arguments.setup, desk)?;
    tell(alloc, &setup, arguments.rate, desk)
}

// Tells a setup, where no two commitments are equal.
fn tell<D: Desk>(
    alloc: Global,
    setup: &Setup,
    rate: Option<u32>,
    desk: &mut D,
) -> Result<Lines, Stop>
    ensures tells { TellsInfo (D.told desk.old).live (D.told desk.new).live rate setup.now (result_view result) }
    ensures live { TouchesClock (D.told desk.old).live (D.told desk.new).live }
    ensures desk { D.told desk.new ≡ record (D.told desk.old) { live = (D.told desk.new).live } }
{
    unequal(setup)?;
    match info_of(alloc, setup, rate, desk) {
        Ok(lines) => Ok(lines),
        Err(_) => Err(Stop::Failed(Fault::NoMemory)),
    }
}

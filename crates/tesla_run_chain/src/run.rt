//! A run of `chain` or `chain2`.

ghost use Rattle.std.specs.Prelude.{◌≡◌, [], ◌∷◌, length, map, string_bytes};
ghost use Rattle.tesla_desk.specs.Outside.{OfSink};
ghost use Rattle.tesla_front.specs.OutcomeView.{result_view, outcome_view};
ghost use Rattle.tesla_front.specs.Command.{Performs, RunsAs};
ghost use Rattle.tesla_front.specs.Openings.{AreFiles, OpensSome};
ghost use Rattle.tesla_front.specs.Refusal.{StopCauses};
ghost use Rattle.tesla_run_chain.specs.Arguments.{arguments_of, files_of_chain};
ghost use Rattle.tesla_run_chain.specs.Chain.{WritesSetup, chain, chains_line};
ghost use Rattle.tesla_sender_setup.specs.Made.{setup_made};
ghost use Rattle.tesla_sender_setup.specs.Parameters.{parameters_of};

use crate::arguments::Arguments;
use crate::making::setup_of;
use crate::words::arguments_in;
use std::alloc::Global;
use tesla_commit::write_setup;
use tesla_desk::Desk;
use tesla_front::{Fault, Lines, Outcome, Stop, add_count, outcome_of, seeds_under, write_file};
use tesla_seeds::Seeds;

/// Runs the words as those of `chain` or `chain2`: reads the seeds under SECRET, makes the setup of the words with a
/// key chain from each seed, and writes its text to SETUP-OUT. SETUP-OUT is opened once the setup was made.
///
/// `Done` with the line of how many chains there are: SETUP-OUT holds the one spelling of the setup. `Usage` exactly
/// where the words are no form, and then nothing was opened. `Refused` with the first refused line of SECRET, where its
/// text doesn't spell a seed for each delay: SETUP-OUT wasn't opened. `Failed` with what went wrong first, `Read`,
/// `Write` and `Open` exactly where the desk's count of that rose: behind a failed write SETUP-OUT holds a prefix of the
/// setup, and else it is as before. So there is no memory only before SETUP-OUT was opened.
pub fn run_chain<D: Desk>(alloc: Global, words: &[String], desk: &mut D) -> Outcome
    ensures runs { RunsAs chain (map string_bytes words.now) (D.told desk.old) (D.told desk.new) (outcome_view result) }
    ensures live { (D.told desk.new).live ≡ (D.told desk.old).live }
{
    match arguments_in(words) {
        Some(arguments) => outcome_of(perform(alloc, &arguments, desk)),
        None => Outcome::Usage,
    }
}

// Does what the words ask for.
fn perform<D: Desk>(alloc: Global, arguments: &Arguments<'_>, desk: &mut D) -> Result<Lines, Stop>
    requires files { AreFiles (files_of_chain (arguments_of arguments.now)) }
    ensures performs { Performs chain (arguments_of arguments.now) (D.told desk.old) (D.told desk.new) (result_view result) }
    ensures live { (D.told desk.new).live ≡ (D.told desk.old).live }
{
    let count = arguments.parameters.delays.len() as u8;
    let seeds = seeds_under(alloc, arguments.secret, count, desk)?;
    write_made(alloc, arguments, &seeds, desk)
}

// Makes the setup from the seeds, and writes it.
fn write_made<D: Desk>(
    alloc: Global,
    arguments: &Arguments<'_>,
    seeds: &Seeds,
    desk: &mut D,
) -> Result<Lines, Stop>
    requires { length seeds.now ≡ length arguments.now.parameters.delays.items }
    ensures writes { WritesSetup (setup_made (parameters_of arguments.now.parameters) seeds.now) ((D.told desk.old).page arguments.now.out.now) ((D.told desk.new).page arguments.now.out.now) (result_view result) }
    ensures opens { OpensSome (OfSink arguments.now.out.now ∷ []) (D.told desk.old) (D.told desk.new) }
    ensures live { (D.told desk.new).live ≡ (D.told desk.old).live }
    ensures causes { StopCauses result (D.told desk.old).faults (D.told desk.new).faults }
{
    let setup = setup_of(alloc, &arguments.parameters, seeds);
    let Ok(text) = write_setup(alloc, &setup) else {
        return Err(Stop::Failed(Fault::NoMemory));
    };
    match write_file(arguments.out, text.as_slice(), desk) {
        Ok(()) => Ok(line_of(setup.count())),
        Err(fault) => Err(Stop::Failed(fault)),
    }
}

// The line that tells how many chains there are.
fn line_of(count: u8) -> Lines
    ensures { result.bytes ≡ chains_line count }
{
    let mut lines = Lines::new();
    add_count(&mut lines, "chains", u64::from(count));
    lines
}

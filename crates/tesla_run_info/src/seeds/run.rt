//! A run of `seeds`.

ghost use Rattle.std.specs.Prelude.{◌≡◌, ◌≤◌, [], ◌∷◌, length, map, string_bytes};
ghost use Rattle.tesla_desk.specs.Outside.{OfSink};
ghost use Rattle.tesla_front.specs.OutcomeView.{result_view, outcome_view};
ghost use Rattle.tesla_front.specs.Command.{Performs, RunsAs};
ghost use Rattle.tesla_front.specs.Openings.{AreFiles, OpensSome};
ghost use Rattle.tesla_front.specs.Refusal.{StopCauses};
ghost use Rattle.tesla_run_info.specs.seeds.Arguments.{arguments_of, files_of_seeds};
ghost use Rattle.tesla_run_info.specs.seeds.Drawing.{WritesSeeds, seeds, seeds_line};

use crate::seeds::arguments::Arguments;
use crate::seeds::drawing::draw;
use crate::seeds::form::arguments_in;
use std::alloc::Global;
use tesla_desk::Desk;
use tesla_front::{Fault, Lines, Outcome, Stop, add_count, outcome_of, write_file};
use tesla_seeds::{Seeds, write_seeds};

/// Runs the words as those of `seeds`: reads as many random bytes as COUNT seeds have, and writes the text of these seeds
/// to SECRET-OUT, which is opened once the text is made.
///
/// `Done` with the line of how many seeds there are: SECRET-OUT holds the one spelling of the seeds that, one behind
/// another, are the first bytes of the source. `Usage` exactly where the words are no form, and then nothing was opened.
/// `Refused` where the source ended too early, or a seed is all zeros or the same as one before: SECRET-OUT wasn't
/// opened. `Failed` with what went wrong first, `Read`, `Write` and `Open` exactly where the desk's count of that rose:
/// behind a failed write SECRET-OUT holds a prefix of the text, and else it is as before. So there is no memory only
/// before SECRET-OUT was opened.
pub fn run_seeds<D: Desk>(alloc: Global, words: &[String], desk: &mut D) -> Outcome
    ensures runs { RunsAs seeds (map string_bytes words.now) (D.told desk.old) (D.told desk.new) (outcome_view result) }
    ensures live { (D.told desk.new).live ≡ (D.told desk.old).live }
{
    match arguments_in(words) {
        Some(arguments) => outcome_of(perform(alloc, &arguments, desk)),
        None => Outcome::Usage,
    }
}

// Does what the words ask for.
fn perform<D: Desk>(alloc: Global, arguments: &Arguments<'_>, desk: &mut D) -> Result<Lines, Stop>
    requires files { AreFiles (files_of_seeds (arguments_of arguments.now)) }
    ensures performs { Performs seeds (arguments_of arguments.now) (D.told desk.old) (D.told desk.new) (result_view result) }
    ensures live { (D.told desk.new).live ≡ (D.told desk.old).live }
{
    let drawn = draw(alloc, arguments.count, desk)?;
    write_drawn(alloc, arguments.out, &drawn, desk)
}

// Writes the text of seeds.
fn write_drawn<D: Desk>(
    alloc: Global,
    out: &str,
    drawn: &Seeds,
    desk: &mut D,
) -> Result<Lines, Stop>
    requires { length drawn.now ≤ 8 }
    ensures writes { WritesSeeds drawn.now ((D.told desk.old).page out.now) ((D.told desk.new).page out.now) (result_view result) }
    ensures opens { OpensSome (OfSink out.now ∷ []) (D.told desk.old) (D.told desk.new) }
    ensures live { (D.told desk.new).live ≡ (D.told desk.old).live }
    ensures causes { StopCauses result (D.told desk.old).faults (D.told desk.new).faults }
{
    let Ok(text) = write_seeds(alloc, drawn) else {
        return Err(Stop::Failed(Fault::NoMemory));
    };
    match write_file(out, text.as_slice(), desk) {
        Ok(()) => Ok(line_of(drawn.count())),
        Err(fault) => Err(Stop::Failed(fault)),
    }
}

// The line that tells how many seeds there are.
fn line_of(count: u8) -> Lines
    ensures { result.bytes ≡ seeds_line count }
{
    let mut lines = Lines::new();
    add_count(&mut lines, "seeds", u64::from(count));
    lines
}

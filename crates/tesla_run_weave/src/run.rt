//! A run of `weave`.

ghost use Rattle.std.specs.Prelude.{◌≡◌, ◌≤◌, map, string_bytes};
ghost use Rattle.tesla_front.specs.OutcomeView.{result_view, outcome_view};
ghost use Rattle.tesla_front.specs.Command.{Performs, RunsAs};
ghost use Rattle.tesla_front.specs.Openings.{AreFiles};
ghost use Rattle.tesla_run_weave.specs.Arguments.{arguments_of, files_of_weave};
ghost use Rattle.tesla_run_weave.specs.Steps.{WeavesFiles};
ghost use Rattle.tesla_run_weave.specs.Weave.{weave};

use crate::form::{Arguments, arguments_in};
use crate::reading::read_script;
use crate::writing::write_woven;
use std::alloc::Global;
use tesla_commit::Setup;
use tesla_desk::Desk;
use tesla_front::{Lines, Outcome, Stop, outcome_of, setup_under};

/// Runs the words as those of `weave`: reads the setup under SETUP and all of SCRIPT, and writes SCRIPT with woven payloads
/// to SCRIPT-OUT: before the body of each message stands the promise of the message GAP places behind it. SCRIPT is opened
/// after SETUP was judged, and SCRIPT-OUT once all of SCRIPT was read, judged and woven.
///
/// `Done` with the line of how many messages there are: SCRIPT-OUT holds the woven script. `Usage` exactly where the words
/// are no form, and then nothing was opened. `Refused` with the first refused line of SETUP, or with the first place of
/// SCRIPT that the file or the stream refuses, or whose body has more than 1,161 bytes. `Failed` with what went wrong
/// first, `Read`, `Write` and `Open` exactly where the desk's count of that rose: after a failed write SCRIPT-OUT holds a
/// prefix of the woven script. After a refusal, a failed read and want of memory SCRIPT-OUT wasn't asked for.
///
/// It takes memory for the setup and its text, for the bodies and names of the messages, for the readings of the records,
/// and for the woven payloads; names and bodies are dropped before SCRIPT-OUT is written.
pub fn run_weave<D: Desk>(alloc: Global, words: &[String], desk: &mut D) -> Outcome
    ensures runs { RunsAs weave (map string_bytes words.now) (D.told desk.old) (D.told desk.new) (outcome_view result) }
    ensures live { (D.told desk.new).live ≡ (D.told desk.old).live }
{
    match arguments_in(words) {
        Some(arguments) => outcome_of(perform(alloc, &arguments, desk)),
        None => Outcome::Usage,
    }
}

// Does what the words ask for.
fn perform<D: Desk>(alloc: Global, arguments: &Arguments<'_>, desk: &mut D) -> Result<Lines, Stop>
    requires files { AreFiles (files_of_weave (arguments_of arguments.now)) }
    requires gap { 1 ≤ arguments.now.gap }
    ensures performs { Performs weave (arguments_of arguments.now) (D.told desk.old) (D.told desk.new) (result_view result) }
    ensures live { (D.told desk.new).live ≡ (D.told desk.old).live }
{
    let setup = setup_under(alloc, arguments.setup, desk)?;
    weave_under(alloc, setup, arguments, desk)
}

// Reads the script under a setup, and writes it with woven payloads.
fn weave_under<D: Desk>(
    alloc: Global,
    setup: Setup,
    arguments: &Arguments<'_>,
    desk: &mut D,
) -> Result<Lines, Stop>
    requires gap { 1 ≤ arguments.now.gap }
    ensures weaves { WeavesFiles (arguments_of arguments.now) setup (D.told desk.old) (D.told desk.new) (result_view result) }
    ensures live { (D.told desk.new).live ≡ (D.told desk.old).live }
{
    let plan = read_script(alloc, setup, arguments.script, desk)?;
    write_woven(alloc, plan, arguments.gap, arguments.out, desk)
}

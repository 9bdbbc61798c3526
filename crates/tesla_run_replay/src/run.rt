//! A run of a command that reads a setup and plays a capture under it.

ghost use Rattle.std.specs.Prelude.{◌≡◌, ◌<◌, [], List, ℕ, IfSome, map, string_bytes};
ghost use Rattle.tesla_desk.specs.Faults.{HasCause, HasCauseBeside};
ghost use Rattle.tesla_front.specs.OutcomeView.{Failed, result_view, outcome_view};
ghost use Rattle.tesla_front.specs.Command.{Performs, RunsAs};
ghost use Rattle.tesla_front.specs.declared.fault.Fault.TheVariants as faults;
ghost use Rattle.tesla_convert.specs.Files.{ConvertsFiles};
ghost use Rattle.tesla_convert.specs.Meaning.{ConvertsBetween};
ghost use Rattle.tesla_run_replay.specs.Arguments.{IsCapacity, IsPlayed, arguments_of};
ghost use Rattle.tesla_run_replay.specs.Under.{command_of, config_of};

use crate::arguments::Arguments;
use crate::playing::play_target;
use crate::target::Target;
use crate::words::arguments_in;
use std::alloc::Global;
use std::marker::Brand;
use std::sync::ledger::Blank;
use tesla_base::NoMemory;
use tesla_commit::Setup;
use tesla_convert::{close_files, open_files};
use tesla_desk::{Desk, Sink, Source};
use tesla_front::{Fault, Lines, Outcome, Stop, outcome_of, setup_under};

/// Runs the words as those of the command that plays a capture to such a target.
///
/// SETUP is read and judged, and where it is refused no other file is opened. Then CAPTURE and the output are opened, and
/// then the target, which takes its memory. Each record of CAPTURE before its first refused place is played, and where
/// there is none the end; what the target writes of that is written to the output, and both are closed. `Done` tells the
/// lines of the target. `NoMemory` comes before a byte of CAPTURE is read, or where the target's `may_want` is true.
pub fn run_played<T: Target + Drop, D: Desk>(
    alloc: Global,
    words: &[String],
    desk: &mut D,
) -> Outcome
    ensures runs { RunsAs (command_of T.command) (map string_bytes words.now) (D.told desk.old) (D.told desk.new) (outcome_view result) }
    ensures live { (D.told desk.new).live ≡ (D.told desk.old).live }
{
    let form = T::form();
    match arguments_in(&form, words) {
        Some(arguments) => outcome_of(perform::<T, D>(alloc, &arguments, desk)),
        None => Outcome::Usage,
    }
}

// Does what the words ask for.
fn perform<T: Target + Drop, D: Desk>(
    alloc: Global,
    arguments: &Arguments<'_>,
    desk: &mut D,
) -> Result<Lines, Stop>
    requires form { (words : List (List ℕ)) × IsPlayed T.command.form (arguments_of arguments.now) words }
    ensures performs { Performs (command_of T.command) (arguments_of arguments.now) (D.told desk.old) (D.told desk.new) (result_view result) }
    ensures live { (D.told desk.new).live ≡ (D.told desk.old).live }
{
    match setup_under(alloc, arguments.names.setup, desk) {
        Ok(setup) => play_files::<T, D>(alloc, setup, arguments, desk),
        Err(stop) => Err(stop),
    }
}

// Plays the capture under a setup, after it was opened and then the output.
fn play_files<T: Target + Drop, D: Desk>(
    alloc: Global,
    setup: Setup,
    arguments: &Arguments<'_>,
    desk: &mut D,
) -> Result<Lines, Stop>
    requires capacity { (word : List ℕ) × IsCapacity T.command.form.capacity word arguments.now.limits }
    ensures converts { ConvertsFiles (T.command.meaning (config_of (arguments_of arguments.now) setup)) arguments.now.names.capture.now arguments.now.names.out.now (D.told desk.old) (D.told desk.new) (result_view result) }
    ensures live { (D.told desk.new).live ≡ (D.told desk.old).live }
{
    match open_files(arguments.names.capture, arguments.names.out, desk) {
        Ok((mut source, mut out)) => {
            let outcome = play_open::<T, D::In, D::Out>(
                alloc,
                setup,
                arguments,
                &mut source,
                &mut out,
            );
            close_files(source, out, desk);
            outcome
        }
        Err(fault) => Err(Stop::Failed(fault)),
    }
}

// Plays a capture that is read from an open source under a setup, and writes what that makes to an open sink.
//
// `Done` and `Refused` with what the capture comes to. `Failed` with what went wrong first: `Read` exactly where the
// source's count of faults rose, `Write` exactly where the sink's did, but for the last write behind a failed read,
// and `NoMemory` before a byte is read, or where the meaning says that memory may be wanting later.
fn play_open<T: Target + Drop, S: Source, O: Sink>(
    alloc: Global,
    setup: Setup,
    arguments: &Arguments<'_>,
    source: &mut S,
    out: &mut O,
) -> Result<Lines, Stop>
    requires capacity { (word : List ℕ) × IsCapacity T.command.form.capacity word arguments.now.limits }
    requires empty { IfSome (O.written out.old) (λ bytes. bytes ≡ []) }
    requires fresh { S.faults source.old ≡ 0 }
    requires sound { O.faults out.old ≡ 0 }
    ensures plays { ConvertsBetween (T.command.meaning (config_of (arguments_of arguments.now) setup)) (S.left source.old) (S.left source.new) (O.written out.new) (O.faults out.new) (result_view result) }
    ensures reads { HasCause 0 (S.faults source.new) (result_view result ≡ Failed faults.Read) }
    ensures writes { HasCauseBeside ((result_view result ≡ Failed faults.Read) × (0 < O.faults out.new)) 0 (O.faults out.new) (result_view result ≡ Failed faults.Write) }
    ensures input { S.name source.new ≡ S.name source.old }
    ensures output { O.name out.new ≡ O.name out.old }
{
    match T::open(alloc, arguments, setup) {
        Ok(target) => play_target::<Brand, T, S, O>(target, Blank::new(1), source, out),
        Err(NoMemory) => Err(Stop::Failed(Fault::NoMemory)),
    }
}

//! A run of `send`.

ghost use Rattle.std.specs.Prelude.{◌≡◌, ◌<◌, [], map, string_bytes, IfSome};
ghost use Rattle.tesla_convert.specs.Meaning.{ConvertsBetween};
ghost use Rattle.tesla_desk.specs.Faults.{HasCause, HasCauseBeside};
ghost use Rattle.tesla_front.specs.OutcomeView.{Failed, Refused, result_view, outcome_view, stop_view};
ghost use Rattle.tesla_front.specs.Command.{Performs, RunsAs};
ghost use Rattle.tesla_front.specs.Openings.{AreFiles};
ghost use Rattle.tesla_sender.specs.Stands.{Stands};
ghost use Rattle.tesla_run_send.specs.Arguments.{arguments_of, files_of_send};
ghost use Rattle.tesla_run_send.specs.Send.{frames_line, meaning, script_line, send};
ghost use Rattle.tesla_run_send.specs.Steps.{SendsFiles, outcome_with};

use crate::ScriptKind;
use crate::converter::{SendConverter, SendLedger};
use crate::form::{Arguments, arguments_in};
use crate::opening::open_sender;
use std::alloc::Global;
use std::marker::Brand;
use std::sync::ledger::Blank;
use tesla_base::{Kind, Steps};
use tesla_convert::{Conversion, Ending, Stopped, close_files, open_files};
use tesla_desk::{Desk, Sink, Source};
use tesla_front::{Fault, Lines, Outcome, Stop, add_count, outcome_of, refused};
use tesla_sender::Sender;

/// Runs the words as those of `send`: reads the setup under SETUP and the seeds under SECRET, and sends SCRIPT, each
/// record before the first that is refused, by the file or by the sender. The capture of the frames is written to
/// CAPTURE, with a take behind each. SECRET is opened after SETUP was judged, SCRIPT after the sender was opened with the
/// seeds, and CAPTURE after SCRIPT was opened.
///
/// `Done` with the line of how many frames there are. `Usage` exactly where the words are no form, and then nothing was
/// opened. `Refused` with the first refused line of SETUP or of SECRET, where no file behind it was opened, or with the
/// place of SCRIPT that is refused: CAPTURE holds the frames of the records before it. `Failed` with what went wrong
/// first: `Read` and `Open` only where their count rose, and `Write` where a write failed. After a failed read CAPTURE
/// holds the frames of what was read, unless it failed too, and after a failed write a prefix of all. `NoMemory` comes
/// only before CAPTURE is opened and before a byte of SCRIPT is read.
pub fn run_send<D: Desk>(alloc: Global, words: &[String], desk: &mut D) -> Outcome
    ensures runs { RunsAs send (map string_bytes words.now) (D.told desk.old) (D.told desk.new) (outcome_view result) }
    ensures live { (D.told desk.new).live ≡ (D.told desk.old).live }
{
    match arguments_in(words) {
        Some(arguments) => outcome_of(perform(alloc, &arguments, desk)),
        None => Outcome::Usage,
    }
}

// Does what the words ask for.
fn perform<D: Desk>(alloc: Global, arguments: &Arguments<'_>, desk: &mut D) -> Result<Lines, Stop>
    requires files { AreFiles (files_of_send (arguments_of arguments.now)) }
    ensures performs { Performs send (arguments_of arguments.now) (D.told desk.old) (D.told desk.new) (result_view result) }
    ensures live { (D.told desk.new).live ≡ (D.told desk.old).live }
{
    let sender = open_sender(alloc, arguments.setup, arguments.secret, desk)?;
    send_files::<Brand, D>(sender, Blank::new(1), arguments, desk)
}

// Opens the script and the output, and sends the script.
fn send_files<L: SendLedger, D: Desk>(
    sender: Sender,
    blank: Blank,
    arguments: &Arguments<'_>,
    desk: &mut D,
) -> Result<Lines, Stop>
    requires name { blank.name ≡ L.name }
    requires parts { blank.parts ≡ L.parts }
    requires some { 0 < L.parts }
    requires stands { Stands sender [] }
    requires stream { sender.stream ≡ L.stream }
    ensures sends { SendsFiles sender.stream arguments.now.script.now arguments.now.out.now (D.told desk.old) (D.told desk.new) (result_view result) }
    ensures live { (D.told desk.new).live ≡ (D.told desk.old).live }
{
    let steps = Steps::<L>::new(blank);
    match open_files(arguments.script, arguments.out, desk) {
        Ok((mut source, mut out)) => {
            let outcome = send_between(sender, steps, &mut source, &mut out);
            close_files(source, out, desk);
            outcome
        }
        Err(fault) => Err(Stop::Failed(fault)),
    }
}

// Sends a script from a source to a sink, which are open.
fn send_between<L: SendLedger, S: Source, O: Sink>(
    sender: Sender,
    steps: Steps<L>,
    source: &mut S,
    out: &mut O,
) -> Result<Lines, Stop>
    requires stands { Stands sender [] }
    requires stream { sender.stream ≡ L.stream }
    requires empty { IfSome (O.written out.old) (λ bytes. bytes ≡ []) }
    requires fresh { S.faults source.old ≡ 0 }
    requires sound { O.faults out.old ≡ 0 }
    ensures converts { ConvertsBetween (meaning sender.stream) (S.left source.old) (S.left source.new) (O.written out.new) (O.faults out.new) (result_view result) }
    ensures memory { result_view result ≡ Failed Fault.NoMemory → ⊥ }
    ensures opening { result_view result ≡ Failed Fault.Open → ⊥ }
    ensures reads { HasCause 0 (S.faults source.new) (result_view result ≡ Failed Fault.Read) }
    ensures writes { HasCauseBeside ((result_view result ≡ Failed Fault.Read) × (0 < O.faults out.new)) 0 (O.faults out.new) (result_view result ≡ Failed Fault.Write) }
    ensures input { S.name source.new ≡ S.name source.old }
    ensures output { O.name out.new ≡ O.name out.old }
{
    let conversion = Conversion::new(SendConverter::new(sender, steps));
    let (converter, ended) = conversion.convert(source, out);
    lines_of(ended, converter.frames())
}

// What sending came to.
fn lines_of(ended: Result<Ending<ScriptKind>, Stopped>, frames: u64) -> Result<Lines, Stop>
    ensures { result_view result ≡ outcome_with ended frames }
{
    match ended {
        Ok(Ending::End) => Ok(frames_line(frames)),
        Ok(Ending::Refused { place, kind }) => Err(script_refused(place, kind)),
        Err(Stopped::Read) => Err(Stop::Failed(Fault::Read)),
        Err(Stopped::Write) => Err(Stop::Failed(Fault::Write)),
        Err(Stopped::Memory) => Err(Stop::Failed(Fault::NoMemory)),
    }
}

// The line that tells how many frames there are.
fn frames_line(frames: u64) -> Lines
    ensures { result.bytes ≡ frames_line frames }
{
    let mut lines = Lines::new();
    add_count(&mut lines, "frames", frames);
    lines
}

// The refusal of a script at a place.
fn script_refused(place: u64, kind: ScriptKind) -> Stop
    ensures { stop_view result ≡ Refused 3 (script_line place kind) }
{
    Stop::Refused(refused(3, "script", place, kind.name()))
}

//! A run of the command `capture`.

ghost use Rattle.std.specs.Prelude.{◌≡◌, ◌<◌, [], Err, IfSome, List, ℕ, false, map, string_bytes, true};
ghost use Rattle.tesla_capture.specs.Capture.{head};
ghost use Rattle.tesla_desk.specs.Faults.{HasCause, HasCauseBeside};
ghost use Rattle.tesla_desk.specs.Live.{clock_told};
ghost use Rattle.tesla_desk.specs.Outside.{AppendsPrefix, with_bytes};
ghost use Rattle.tesla_front.specs.OutcomeView.{outcome_view};
ghost use Rattle.tesla_front.specs.Command.{Performs, RunsAs};
ghost use Rattle.tesla_front.specs.Openings.{AreFiles};
ghost use Rattle.tesla_run_capture.specs.Arguments.{arguments_of, files_of_capture};
ghost use Rattle.tesla_run_capture.specs.Capture.{capture};
ghost use Rattle.tesla_run_capture.specs.Pieces.{IsCapturePiece, IsCapturedAs};
ghost use Rattle.tesla_run_capture.specs.Recording.{IsNextPiece, RecordsFile};
ghost use Rattle.tesla_run_capture.specs.Steps.{MakesSome, RunsOpened, outcome_with};

use crate::form::{Arguments, arguments_in};
use crate::recording::record_link;
use std::sync::Wait;
use tesla_capture::{CaptureFormat, Format};
use tesla_desk::{Environment, Output};
use tesla_front::{Fault, Lines, Outcome, add_count};

/// Runs the words as those of `capture`: records the datagrams that leave LINK in CAPTURE, each with one reading of the
/// clock, which is asked for it once it has come, and with a take behind it. LINK is opened first, and CAPTURE only
/// where that was.
///
/// Whenever it writes to CAPTURE, whether it ends or not, what was written and the piece are the capture of what LINK
/// has brought so far (`IsCapturedAs`): `due` asks that such a piece may be written, and no other is. `asks` asks that
/// the clock may be read for what a link has brought.
///
/// `Done` with the line of how many datagrams there were: LINK has ended, or CAPTURE may have no room for another. `Usage`
/// exactly where the words are no form, and then nothing was opened. `Failed` with what went wrong first, `Read`, `Write`
/// and `Open` only where the desk's count of that rose: after a failed LINK what came before is written, unless a write
/// failed too, and after a failed write CAPTURE holds a prefix of it. It waits for the link, and takes no memory but for the
/// openings.
pub fn run_capture<R: Wait, D: Environment>(rt: &R, words: &[String], desk: &mut D) -> Outcome
    requires asks { (number : ℕ) (bytes : List ℕ) → D.Wire.brought number bytes ≡ true → D.Time.may_ask number bytes ≡ true }
    requires any_link { (link : D.Wire) → D.Wire.may_ask link ≡ true }
    requires due { (it : D.Pieces) (piece : List ℕ) → IsCapturedAs D.Time.read_for (map string_bytes words.now) (D.told desk.old).live (D.Pieces.name it) (D.Pieces.written it) piece → D.Pieces.may_write it piece ≡ true }
    ensures { RunsAs (capture (D.told desk.old).live (D.told desk.new).live) (map string_bytes words.now) (D.told desk.old) (D.told desk.new) (outcome_view result) }
{
    match arguments_in(words) {
        Some(arguments) => perform(rt, &arguments, desk),
        None => Outcome::Usage,
    }
}

// Does what the words ask for.
fn perform<R: Wait, D: Environment>(rt: &R, arguments: &Arguments<'_>, desk: &mut D) -> Outcome
    requires files { AreFiles (files_of_capture (arguments_of arguments.now)) }
    requires asks { (number : ℕ) (bytes : List ℕ) → D.Wire.brought number bytes ≡ true → D.Time.may_ask number bytes ≡ true }
    requires any_link { (link : D.Wire) → D.Wire.may_ask link ≡ true }
    requires due { (it : D.Pieces) (piece : List ℕ) → D.Pieces.name it ≡ (arguments_of arguments.now).out → IsCapturePiece D.Time.read_for (D.told desk.old).live (arguments_of arguments.now).link (D.Pieces.written it) piece → D.Pieces.may_write it piece ≡ true }
    ensures { Performs (capture (D.told desk.old).live (D.told desk.new).live) (arguments_of arguments.now) (D.told desk.old) (D.told desk.new) (outcome_view result) }
{
    match desk.open_link(arguments.link) {
        Ok(link) => match desk.open_output(arguments.out) {
            Ok(output) => run_opened(rt, link, output, desk),
            Err(refusal) => {
                desk.close_link(link);
                Outcome::Failed(Fault::from(refusal))
            }
        },
        Err(refusal) => Outcome::Failed(Fault::from(refusal)),
    }
}

// Records an open link on an open output, and closes both.
fn run_opened<R: Wait, D: Environment>(
    rt: &R,
    mut link: D::Wire,
    mut output: D::Pieces,
    desk: &mut D,
) -> Outcome
    requires link { D.Wire.faults link ≡ 0 }
    requires output { D.Pieces.faults output ≡ 0 }
    requires none { D.Wire.has_brought link 0 ≡ true }
    requires empty { IfSome (D.Pieces.written output) (λ bytes. bytes ≡ []) }
    requires asks { (number : ℕ) (bytes : List ℕ) → D.Wire.brought number bytes ≡ true → D.Time.may_ask number bytes ≡ true }
    requires any_link { (link : D.Wire) → D.Wire.may_ask link ≡ true }
    requires due { (it : D.Pieces) (piece : List ℕ) → D.Pieces.name it ≡ D.Pieces.name output → IsNextPiece D.Time.read_for (D.Wire.left link) (clock_told (D.told desk.old).live.readings (D.told desk.old).live.made) (D.Pieces.written it) piece → D.Pieces.may_write it piece ≡ true }
    ensures { RunsOpened (D.Wire.name link) (D.Pieces.name output) (D.Wire.left link) (D.Pieces.written output) (D.told desk.old) (D.told desk.new) (outcome_view result) }
{
    let outcome = record_opened(rt, &mut link, &mut output, desk);
    desk.close_output(output);
    desk.close_link(link);
    outcome_of(outcome)
}

// Writes the head of a capture. False: a prefix of it was written.
fn write_head<S: Output>(output: &mut S) -> bool
    requires { S.may_write output.old head ≡ true }
    ensures all { result ≡ true → S.written output.new ≡ with_bytes (S.written output.old) head }
    ensures prefix { AppendsPrefix (S.written output.old) (S.written output.new) head }
    ensures cause { HasCause (S.faults output.old) (S.faults output.new) (result ≡ false) }
    ensures name { S.name output.new ≡ S.name output.old }
{
    output.write_piece(&CaptureFormat::head())
}

// Writes the head of the capture, and records the link behind it, with a new clock.
fn record_opened<R: Wait, D: Environment>(
    rt: &R,
    link: &mut D::Wire,
    output: &mut D::Pieces,
    desk: &mut D,
) -> Result<u64, Fault>
    requires output { D.Pieces.faults output.old ≡ 0 }
    requires none { D.Wire.has_brought link.old 0 ≡ true }
    requires empty { IfSome (D.Pieces.written output.old) (λ bytes. bytes ≡ []) }
    requires asks { (number : ℕ) (bytes : List ℕ) → D.Wire.brought number bytes ≡ true → D.Time.may_ask number bytes ≡ true }
    requires any_link { (link : D.Wire) → D.Wire.may_ask link ≡ true }
    requires due { (it : D.Pieces) (piece : List ℕ) → D.Pieces.name it ≡ D.Pieces.name output.old → IsNextPiece D.Time.read_for (D.Wire.left link.old) (clock_told (D.told desk.old).live.readings (D.told desk.old).live.made) (D.Pieces.written it) piece → D.Pieces.may_write it piece ≡ true }
    ensures records { RecordsFile result (D.Wire.left link.old) (D.Wire.left link.new) (D.told desk.old).live.readings (D.told desk.old).live.made (D.Pieces.written output.old) (D.Pieces.written output.new) (D.Pieces.faults output.new) }
    ensures read { HasCause (D.Wire.faults link.old) (D.Wire.faults link.new) (result ≡ Err Fault.Read) }
    ensures write { HasCauseBeside ((result ≡ Err Fault.Read) × (0 < D.Pieces.faults output.new)) 0 (D.Pieces.faults output.new) (result ≡ Err Fault.Write) }
    ensures makes { MakesSome (D.told desk.old) (D.told desk.new) }
    ensures names { (D.Wire.name link.new ≡ D.Wire.name link.old) × (D.Pieces.name output.new ≡ D.Pieces.name output.old) }
{
    if !write_head(output) {
        return Err(Fault::Write);
    }
    let mut clock = desk.clock();
    record_link(rt, link, &mut clock, output)
}

// What a recording comes to, with the line that tells how many datagrams there were.
fn outcome_of(outcome: Result<u64, Fault>) -> Outcome
    ensures { outcome_view result ≡ outcome_with outcome }
{
    match outcome {
        Ok(count) => {
            let mut lines = Lines::new();
            add_count(&mut lines, "captured", count);
            Outcome::Done(lines)
        }
        Err(fault) => Outcome::Failed(fault),
    }
}

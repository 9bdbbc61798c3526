//! A run of `show`.

ghost use Rattle.std.specs.Prelude.{◌≡◌, [], map, string_bytes};
ghost use Rattle.tesla_capture.specs.Gathering.{gathered};
ghost use Rattle.tesla_desk.specs.Faults.{HasCause};
ghost use Rattle.tesla_front.specs.Openings.{AreFiles};
ghost use Rattle.tesla_front.specs.Printing.{IsSound, PerformsPrinting, PrintsAs};
ghost use Rattle.tesla_run_audit.specs.show.Arguments.{arguments_of, files_of_show};
ghost use Rattle.tesla_run_audit.specs.show.Show.{show};
ghost use Rattle.tesla_run_audit.specs.show.Steps.{PrintsEntries, ShowsTo};

use crate::show::form::{Arguments, arguments_in};
use crate::show::listing::{Listed, is_headless, list_entries};
use crate::show::settling::settle;
use tesla_audit::{TailReader, TraceReader};
use tesla_capture::Gatherer;
use tesla_desk::{Desk, Sink, Source};
use tesla_front::{Fault, Outcome, Printed};

// Lists the entries of an open file, of a trace or of a tail by its head. Nothing was gathered before.
fn list_file<S: Source, O: Sink>(source: &mut S, gatherer: &mut Gatherer, console: &mut O) -> Listed
    requires none { gathered gatherer.old ≡ [] }
    ensures shows { ShowsTo result (S.left source.old) (S.left source.new) (O.written console.old) (O.written console.new) (gathered gatherer.new) }
    ensures reads { HasCause (S.faults source.old) (S.faults source.new) (result ≡ Listed.ReadFault) }
    ensures writes { HasCause (O.faults console.old) (O.faults console.new) (result ≡ Listed.WriteFault) }
    ensures input { S.name source.new ≡ S.name source.old }
    ensures output { O.name console.new ≡ O.name console.old }
{
    let mut trace = TraceReader::new();
    let listed = list_entries(&mut trace, source, gatherer, console);
    if is_headless(listed) {
        let mut tail: TailReader = trace.as_format();
        list_entries(&mut tail, source, gatherer, console)
    } else {
        listed
    }
}

// Prints the entries of an open file.
fn show_entries<S: Source, O: Sink>(source: &mut S, console: &mut O) -> Printed
    requires sound { O.faults console.old ≡ 0 }
    ensures prints { PrintsEntries result (S.left source.old) (S.left source.new) (S.faults source.old) (S.faults source.new) (O.written console.old) (O.written console.new) (O.faults console.new) }
    ensures sound { IsSound result (O.faults console.new) }
    ensures input { S.name source.new ≡ S.name source.old }
    ensures output { O.name console.new ≡ O.name console.old }
{
    let mut gatherer = Gatherer::new();
    let listed = list_file(source, &mut gatherer, console);
    settle(listed, &mut gatherer, console)
}

// Does what the words ask for.
fn perform<O: Sink, D: Desk>(arguments: &Arguments<'_>, console: &mut O, desk: &mut D) -> Printed
    requires files { AreFiles (files_of_show (arguments_of arguments.now)) }
    requires sound { O.faults console.old ≡ 0 }
    ensures performs { PerformsPrinting show (arguments_of arguments.now) (D.told desk.old) (D.told desk.new) (O.written console.old) (O.written console.new) (O.faults console.new) result }
    ensures live { (D.told desk.new).live ≡ (D.told desk.old).live }
    ensures sound { IsSound result (O.faults console.new) }
    ensures name { O.name console.new ≡ O.name console.old }
{
    match desk.open_source(arguments.trace) {
        Ok(mut source) => {
            let printed = show_entries(&mut source, console);
            desk.close_source(source);
            printed
        }
        Err(refusal) => Printed::Whole(Outcome::Failed(Fault::from(refusal))),
    }
}

/// Runs the words as those of `show` over a desk whose console is open: prints the entries of TRACE, a trace or the tail of
/// one by its head, each in a line of fewer than 250 bytes, with its number. The lines are gathered, at most 8,192 bytes, and
/// written where the next doesn't fit and at last. The run takes no memory but for the opening.
///
/// `Whole` with what is to be told behind the lines: `Done` where the file ended, `Refused` with the first place that is
/// refused, of which status 3 tells the kind, and `Failed` with `Read`, behind the lines of the whole entries that were
/// read, or where TRACE wasn't opened. `Usage` exactly where the words are no form, and then nothing was opened or written.
/// `Broken` where a write to the console failed, behind which nothing was read or written: with `Write`, or with `Read` where
/// a read had failed before.
pub fn run_show<O: Sink, D: Desk>(words: &[String], console: &mut O, desk: &mut D) -> Printed
    requires sound { O.faults console.old ≡ 0 }
    ensures prints { PrintsAs show (map string_bytes words.now) (D.told desk.old) (D.told desk.new) (O.written console.old) (O.written console.new) (O.faults console.new) result }
    ensures live { (D.told desk.new).live ≡ (D.told desk.old).live }
    ensures sound { IsSound result (O.faults console.new) }
    ensures name { O.name console.new ≡ O.name console.old }
{
    match arguments_in(words) {
        Some(arguments) => perform(&arguments, console, desk),
        None => Printed::Whole(Outcome::Usage),
    }
}

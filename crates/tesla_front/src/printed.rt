//! What a command comes to that prints lines while it goes, and how the console is told.

ghost use Rattle.std.specs.Prelude.{◌≡◌, false, true};
ghost use Rattle.tesla_front.specs.OutcomeView.{Done as DoneView, outcome_view};
ghost use Rattle.tesla_front.specs.Printing.{IsSound, TellsBehind, TellsPrinted};
ghost use Rattle.tesla_front.specs.Usage.{usage_of};

use crate::console::write_lines;
use crate::{Fault, FormText, Lines, Outcome};
use tesla_desk::{Sink, write_all};

/// What a command came to that prints lines while it goes.
#[derive(Debug, Drop)]
pub enum Printed {
    /// All its lines were written, and then it came to this, which isn't told yet.
    Whole(Outcome),
    /// A write of its lines failed, behind which nothing may be written. This went wrong first.
    Broken(Fault),
}

// Tells a summary. One that isn't written whole is a write fault, which isn't told.
fn tell_last<S: Sink>(console: &mut S, forms: &[FormText], lines: Lines) -> Outcome
    requires { S.faults console.old ≡ 0 }
    ensures tells { TellsBehind (usage_of forms.now) (DoneView lines.bytes) (outcome_view result) (S.written console.old) (S.written console.new) (S.faults console.new) }
    ensures name { S.name console.new ≡ S.name console.old }
{
    let _ = forms;
    if write_all(console, lines.as_str().as_bytes()) {
        return Outcome::Done(lines);
    }
    Outcome::Failed(Fault::Write)
}

// Tells what came behind lines that were all written.
fn tell_behind<S: Sink>(console: &mut S, forms: &[FormText], outcome: Outcome) -> Outcome
    requires { S.faults console.old ≡ 0 }
    ensures tells { TellsBehind (usage_of forms.now) (outcome_view outcome) (outcome_view result) (S.written console.old) (S.written console.new) (S.faults console.new) }
    ensures name { S.name console.new ≡ S.name console.old }
{
    match outcome {
        Outcome::Done(lines) => tell_last(console, forms, lines),
        _ => {
            let _ = write_lines(console, forms, &outcome);
            outcome
        }
    }
}

/// Tells what a command came to behind the lines that it printed, for wrong words the usage lines of these forms, and gives
/// the outcome that stands then: lines or a summary that aren't written whole are a write fault, unless another fault came
/// before, and a fault in printing any other line changes nothing. Behind a failed write nothing is written.
pub fn tell_printed<S: Sink>(console: &mut S, forms: &[FormText], printed: Printed) -> Outcome
    requires { IsSound printed (S.faults console.old) }
    ensures tells { TellsPrinted (usage_of forms.now) printed (outcome_view result) (S.written console.old) (S.written console.new) (S.faults console.old) (S.faults console.new) }
    ensures name { S.name console.new ≡ S.name console.old }
{
    match printed {
        Printed::Whole(outcome) => tell_behind(console, forms, outcome),
        Printed::Broken(fault) => Outcome::Failed(fault),
    }
}

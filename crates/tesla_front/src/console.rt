//! The console is told what a run came to.

ghost use Rattle.std.specs.Prelude.{◌≡◌, ◌++◌, codes, true, false};
ghost use Rattle.tesla_desk.specs.Faults.{HasCause};
ghost use Rattle.tesla_desk.specs.Outside.{AppendsPrefix, with_bytes};
ghost use Rattle.tesla_front.specs.OutcomeView.{Done as DoneView, IsDone, outcome_view, text_of};
ghost use Rattle.tesla_front.specs.Console.{Tells};
ghost use Rattle.tesla_front.specs.Usage.{usage_line, usage_of};

use crate::{Fault, FormText, Lines, Outcome};
use tesla_desk::{Sink, write_all};

// Writes the usage line of a form. False: a write failed.
fn write_form<S: Sink>(console: &mut S, form: &FormText) -> bool
    ensures all { result ≡ true → S.written console.new ≡ with_bytes (S.written console.old) (usage_line form.now.words.now) }
    ensures prefix { AppendsPrefix (S.written console.old) (S.written console.new) (usage_line form.now.words.now) }
    ensures cause { HasCause (S.faults console.old) (S.faults console.new) (result ≡ false) }
    ensures name { S.name console.new ≡ S.name console.old }
{
    if !write_all(console, b"usage: ") {
        return false;
    }
    if !write_all(console, form.words.as_bytes()) {
        return false;
    }
    write_all(console, b"\n")
}

// Writes the usage line of each of these forms. False: a write failed.
fn write_usage<S: Sink>(console: &mut S, forms: &[FormText]) -> bool
    ensures all { result ≡ true → S.written console.new ≡ with_bytes (S.written console.old) (usage_of forms.now) }
    ensures prefix { AppendsPrefix (S.written console.old) (S.written console.new) (usage_of forms.now) }
    ensures cause { HasCause (S.faults console.old) (S.faults console.new) (result ≡ false) }
    ensures name { S.name console.new ≡ S.name console.old }
{
    match forms {
        [form, forms @ ..] => {
            if !write_form(console, form) {
                return false;
            }
            write_usage(console, forms)
        }
        [] => true,
    }
}

// Tells a summary. One that isn't written whole is a write fault, which is told behind it.
fn tell_summary<S: Sink>(console: &mut S, forms: &[FormText], lines: Lines) -> Outcome
    requires { S.faults console.old ≡ 0 }
    ensures tells { Tells (usage_of forms.now) (DoneView lines.bytes) (outcome_view result) (S.written console.old) (S.written console.new) (S.faults console.new) }
    ensures name { S.name console.new ≡ S.name console.old }
{
    let _ = forms;
    if write_all(console, lines.as_str().as_bytes()) {
        return Outcome::Done(lines);
    }
    let _ = write_all(console, Fault::Write.line());
    Outcome::Failed(Fault::Write)
}

/// Writes the lines of an outcome that has no summary. False: a write failed.
pub(crate) fn write_lines<S: Sink>(console: &mut S, forms: &[FormText], outcome: &Outcome) -> bool
    requires { IsDone (outcome_view outcome.now) → ⊥ }
    ensures all { result ≡ true → S.written console.new ≡ with_bytes (S.written console.old) (text_of (usage_of forms.now) (outcome_view outcome.now)) }
    ensures prefix { AppendsPrefix (S.written console.old) (S.written console.new) (text_of (usage_of forms.now) (outcome_view outcome.now)) }
    ensures cause { HasCause (S.faults console.old) (S.faults console.new) (result ≡ false) }
    ensures name { S.name console.new ≡ S.name console.old }
{
    match outcome {
        Outcome::Done(_) => unreachable!(),
        Outcome::Usage => write_usage(console, forms),
        Outcome::Refused(refusal) => write_all(console, refusal.line.as_str().as_bytes()),
        Outcome::Failed(fault) => write_all(console, fault.line()),
    }
}

/// Prints the lines of an outcome, for wrong words the usage lines of these forms, and gives the outcome that stands
/// then: a summary that isn't written whole is a write fault, and a fault in printing any other line changes nothing.
pub fn tell<S: Sink>(console: &mut S, forms: &[FormText], outcome: Outcome) -> Outcome
    requires { S.faults console.old ≡ 0 }
    ensures tells { Tells (usage_of forms.now) (outcome_view outcome) (outcome_view result) (S.written console.old) (S.written console.new) (S.faults console.new) }
    ensures name { S.name console.new ≡ S.name console.old }
{
    match outcome {
        Outcome::Done(lines) => tell_summary(console, forms, lines),
        _ => {
            let _ = write_lines(console, forms, &outcome);
            outcome
        }
    }
}

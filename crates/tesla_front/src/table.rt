//! One run of a table of commands: the console is opened, the words are run, and the console is told what they came to.

ghost use Rattle.std.specs.Prelude.{◌≡◌, Err, IfOk, codes, map, string_bytes};
ghost use Rattle.tesla_front.specs.OutcomeView.{Failed, outcome_view};
ghost use Rattle.tesla_desk.specs.Outside.{Told};
ghost use Rattle.tesla_front.specs.Parts.{texts_of};
ghost use Rattle.tesla_front.specs.Run.{HasNoConsole};
ghost use Rattle.tesla_front.specs.Table.{OpensConsole, ReportsRun, RunsConsole, is_named};
ghost use Rattle.tesla_front.specs.Usage.{usage_of};

use crate::{Fault, FormText, LiveRun, Outcome, tell, without_history};
use tesla_desk::Environment;

/// Opens the console, and nothing else.
pub fn open_console<D: Environment>(desk: &mut D) -> Result<D::Out, Fault>
    ensures opened { IfOk result (λ it. OpensConsole (D.told desk.old) (D.told desk.new) (D.Out.written it)) }
    ensures fresh { IfOk result (λ it. D.Out.faults it ≡ 0) }
    ensures named { IfOk result (λ it. D.Out.name it ≡ codes "-") }
    ensures refused { (fault : Fault) → result ≡ Err fault → HasNoConsole (D.told desk.old) (D.told desk.new) (Failed fault) }
{
    match desk.open_console() {
        Ok(console) => Ok(console),
        Err(refusal) => Err(Fault::from(refusal)),
    }
}

/// Tells the console, which is open, what a run came to, for wrong words the usage lines of these forms, and closes it. What
/// was run leaves the same history.
pub fn report_run<D: Environment, T>(
    mut console: D::Out,
    desk: &mut D,
    forms: &[FormText],
    run: LiveRun<T>,
) -> LiveRun<T>
    requires fresh { D.Out.faults console ≡ 0 }
    requires named { D.Out.name console ≡ codes "-" }
    ensures reports { (old opened : Told) → OpensConsole old opened (D.Out.written console) → ReportsRun (usage_of forms.now) old opened (D.told desk.old) (D.told desk.new) (outcome_view run.outcome) (outcome_view result.outcome) }
    ensures last { result.last ≡ run.last }
{
    let LiveRun { outcome, last } = run;
    let reported = tell(&mut console, forms, outcome);
    desk.close_sink(console);
    LiveRun {
        outcome: reported,
        last,
    }
}

/// Opens the console, runs the words over the desk as what is given runs them, tells the console what that came to, for
/// wrong words the usage lines of these forms, and closes it. What was run leaves the same history; without a console
/// nothing is run.
pub fn run_table<D: Environment, T, F: FnOnce(&[String], &mut D) -> LiveRun<T>>(
    words: &[String],
    desk: &mut D,
    forms: &[FormText],
    run: F,
) -> LiveRun<T>
    requires { F.IsAlwaysCallable run }
    ensures { RunsConsole D.told (F.post run words.entry) (usage_of forms.now) desk.old desk.new result }
{
    match open_console(desk) {
        Ok(console) => {
            let run = run(words, desk);
            report_run(console, desk, forms, run)
        }
        Err(fault) => without_history(Outcome::Failed(fault)),
    }
}

/// Whether the first of the words is one of these names.
pub fn is_named(words: &[String], names: &[&str]) -> bool
    ensures { result ≡ is_named (texts_of names.now) (map string_bytes words.now) }
{
    match words {
        [word, ..] => names.contains(&word.as_str()),
        [] => false,
    }
}

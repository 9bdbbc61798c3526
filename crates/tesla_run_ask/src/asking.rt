//! A run of `ask`.

ghost use Rattle.std.specs.Prelude.{◌≡◌, map, string_bytes};
ghost use Rattle.tesla_front.specs.OutcomeView.{result_view, outcome_view};
ghost use Rattle.tesla_front.specs.Command.{Performs, RunsAs};
ghost use Rattle.tesla_front.specs.Openings.{AreFiles};
ghost use Rattle.tesla_run_ask.specs.Arguments.{ask_arguments, files_of_ask};
ghost use Rattle.tesla_run_ask.specs.Asking.{ask};

use crate::arguments::AskWords;
use crate::form::ask_in;
use crate::writing::write_message;
use tesla_desk::Desk;
use tesla_front::{Lines, Outcome, Stop, outcome_of};
use tesla_sync::write_ask;

/// Runs the words as those of `ask`: writes to ASK-OUT the ask of a receiver whose clock reads READING microseconds.
/// It takes no memory but for the opening.
///
/// `Done` with the line of the reading: ASK-OUT holds the one spelling of the ask. `Usage` exactly where the words are
/// no form, and then nothing was opened. `Failed` with what went wrong first, `Write` and `Open` exactly where the
/// desk's count of that rose: behind a failed write ASK-OUT holds a prefix of the ask, and else it is as before.
pub fn run_ask<D: Desk>(words: &[String], desk: &mut D) -> Outcome
    ensures runs { RunsAs ask (map string_bytes words.now) (D.told desk.old) (D.told desk.new) (outcome_view result) }
    ensures live { (D.told desk.new).live ≡ (D.told desk.old).live }
{
    match ask_in(words) {
        Some(arguments) => outcome_of(perform(&arguments, desk)),
        None => Outcome::Usage,
    }
}

// Does what the words ask for.
fn perform<D: Desk>(arguments: &AskWords<'_>, desk: &mut D) -> Result<Lines, Stop>
    requires files { AreFiles (files_of_ask (ask_arguments arguments.now)) }
    ensures performs { Performs ask (ask_arguments arguments.now) (D.told desk.old) (D.told desk.new) (result_view result) }
    ensures live { (D.told desk.new).live ≡ (D.told desk.old).live }
{
    let message = write_ask(arguments.reading);
    write_message(arguments.out, &message, "asked", arguments.reading, desk)
}

//! A run of `lag`.

ghost use Rattle.std.specs.Prelude.{◌≡◌, map, string_bytes};
ghost use Rattle.tesla_front.specs.OutcomeView.{result_view, outcome_view};
ghost use Rattle.tesla_front.specs.Command.{Performs, RunsAs};
ghost use Rattle.tesla_front.specs.Openings.{AreFiles};
ghost use Rattle.tesla_run_ask.specs.lag.Arguments.{arguments_of, files_of_lag};
ghost use Rattle.tesla_run_ask.specs.lag.Lag.{lag};

use crate::lag::form::{Arguments, arguments_in};
use crate::lag::judging::judge;
use crate::lag::texts::read_texts;
use std::alloc::Global;
use tesla_desk::Desk;
use tesla_front::{Lines, Outcome, Stop, outcome_of};

/// Runs the words as those of `lag`: reads ASK, REPLY and KEY, and says by how many microseconds the sender's clock is
/// ahead at most (RFC 4082, section 3.3.1). Nothing is judged before all three were read.
///
/// `Done` with the line of the lag: the reply is the one to this ask under this key. `Usage` exactly where the words are
/// no form, and then nothing was opened. `Refused` with the first of these: ASK isn't an ask, or KEY isn't a key (status
/// 3); the reply is malformed, has a bad tag or is to another ask (10); the lag leaves 64 bits with a sign (9). `Failed`
/// with what went wrong first, `Read` and `Open` exactly where the desk's count of that rose. Nothing is written.
pub fn run_lag<D: Desk>(alloc: Global, words: &[String], desk: &mut D) -> Outcome
    ensures runs { RunsAs lag (map string_bytes words.now) (D.told desk.old) (D.told desk.new) (outcome_view result) }
    ensures live { (D.told desk.new).live ≡ (D.told desk.old).live }
{
    match arguments_in(words) {
        Some(arguments) => outcome_of(perform(alloc, &arguments, desk)),
        None => Outcome::Usage,
    }
}

// Does what the words ask for.
fn perform<D: Desk>(alloc: Global, arguments: &Arguments<'_>, desk: &mut D) -> Result<Lines, Stop>
    requires files { AreFiles (files_of_lag (arguments_of arguments.now)) }
    ensures performs { Performs lag (arguments_of arguments.now) (D.told desk.old) (D.told desk.new) (result_view result) }
    ensures live { (D.told desk.new).live ≡ (D.told desk.old).live }
{
    match read_texts(alloc, arguments, desk) {
        Ok(texts) => judge(arguments.drift, &texts),
        Err(fault) => Err(Stop::Failed(fault)),
    }
}

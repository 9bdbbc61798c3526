//! A run of `reply`.

ghost use Rattle.std.specs.Prelude.{◌≡◌, ◌<◌, ◌^◌, [], ◌∷◌, map, string_bytes, IfOk, IfErr};
ghost use Rattle.tesla_desk.specs.Outside.{OfSink};
ghost use Rattle.tesla_front.specs.OutcomeView.{result_view, outcome_view, stop_view};
ghost use Rattle.tesla_front.specs.Command.{Performs, RunsAs};
ghost use Rattle.tesla_front.specs.Openings.{AreFiles, OpensSome};
ghost use Rattle.tesla_front.specs.Refusal.{StopCauses};
ghost use Rattle.tesla_sync.specs.Reply.{IsReply, reply_text};
ghost use Rattle.tesla_run_ask.specs.Arguments.{files_of_reply, reply_arguments};
ghost use Rattle.tesla_run_ask.specs.Replying.{reply};
ghost use Rattle.tesla_run_ask.specs.Steps.{Answers, Judges};

use crate::arguments::ReplyWords;
use crate::form::reply_in;
use crate::writing::write_message;
use std::alloc::Global;
use std::marker::Brand;
use std::sync::ledger::{Blank, Ledger};
use tesla_base::{Key, Steps};
use tesla_desk::Desk;
use tesla_front::{Lines, Outcome, Stop, outcome_of, read_file, refused};
use tesla_sync::{read_ask, read_key, write_reply};

/// How many bytes of an ask are asked for: one more than it has.
const MOST_OF_ASK: usize = 14;

/// How many bytes of a key are asked for: one more than its text has.
const MOST_OF_KEY: usize = 66;

/// Runs the words as those of `reply`: answers the ask under ASK as a sender whose clock reads READING microseconds,
/// under the shared key under KEY, and writes the reply to REPLY-OUT. ASK and then KEY are opened and read, before the
/// ask and then the key are judged; REPLY-OUT is opened once both were taken.
///
/// `Done` with the line of the reading: REPLY-OUT holds the one spelling of the reply. `Usage` exactly where the words
/// are no form, and then nothing was opened. `Refused` where ASK isn't an ask, and else where KEY isn't a key:
/// REPLY-OUT wasn't opened. `Failed` with what went wrong first, `Read`, `Write` and `Open` exactly where the desk's
/// count of that rose: behind a failed write REPLY-OUT holds a prefix of the reply, and else it is as before. So there is
/// no memory only before REPLY-OUT was opened.
pub fn run_reply<D: Desk>(alloc: Global, words: &[String], desk: &mut D) -> Outcome
    ensures runs { RunsAs reply (map string_bytes words.now) (D.told desk.old) (D.told desk.new) (outcome_view result) }
    ensures live { (D.told desk.new).live ≡ (D.told desk.old).live }
{
    match reply_in(words) {
        Some(arguments) => outcome_of(perform(alloc, &arguments, desk)),
        None => Outcome::Usage,
    }
}

// Does what the words ask for.
fn perform<D: Desk>(alloc: Global, arguments: &ReplyWords<'_>, desk: &mut D) -> Result<Lines, Stop>
    requires files { AreFiles (files_of_reply (reply_arguments arguments.now)) }
    ensures performs { Performs reply (reply_arguments arguments.now) (D.told desk.old) (D.told desk.new) (result_view result) }
    ensures live { (D.told desk.new).live ≡ (D.told desk.old).live }
{
    let ask = read_file(alloc, arguments.ask, MOST_OF_ASK, desk)?;
    let key = read_file(alloc, arguments.key, MOST_OF_KEY, desk)?;
    answer(arguments, ask.as_slice(), key.as_slice(), desk)
}

// Judges the texts of an ask and of a key, and writes the reply.
fn answer<D: Desk>(
    arguments: &ReplyWords<'_>,
    ask: &[u8],
    key: &[u8],
    desk: &mut D,
) -> Result<Lines, Stop>
    ensures answers { Answers (reply_arguments arguments.now) ask.now key.now (D.told desk.old) (D.told desk.new) (result_view result) }
    ensures live { (D.told desk.new).live ≡ (D.told desk.old).live }
    ensures causes { StopCauses result (D.told desk.old).faults (D.told desk.new).faults }
{
    let (t_r, key) = judged(ask, key)?;
    let message = made(&key, t_r, arguments.reading);
    write_message(arguments.out, &message, "replied", arguments.reading, desk)
}

// The receiver's time and the shared key that two texts spell: the ask is judged first.
fn judged(ask: &[u8], key: &[u8]) -> Result<(u64, Key), Stop>
    ensures { Judges ask.now key.now result }
{
    let Some(t_r) = read_ask(ask) else {
        return Err(Stop::Refused(refused(3, "ask", 0, "BadAsk")));
    };
    let Some(key) = read_key(key) else {
        return Err(Stop::Refused(refused(3, "key", 0, "BadKey")));
    };
    Ok((t_r, key))
}

// The reply of a sender whose clock reads `t_s`.
fn made(key: &Key, t_r: u64, t_s: u64) -> [u8; 53]
    ensures { IsReply result key.now t_r t_s }
{
    made_counted::<Brand>(key, t_r, t_s, Blank::new(1))
}

// The same with a ledger for the evaluation of HMAC.
fn made_counted<L: Ledger>(key: &Key, t_r: u64, t_s: u64, blank: Blank) -> [u8; 53]
    requires name { blank.name ≡ L.name }
    requires parts { blank.parts ≡ L.parts }
    requires some { 0 < L.parts }
    ensures { IsReply result key.now t_r t_s }
{
    let mut steps = Steps::<L>::new(blank);
    write_reply(key, t_r, t_s, &mut steps)
}

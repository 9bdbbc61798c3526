//! What the texts of an ask, a reply and a key come to.

ghost use Rattle.std.specs.Prelude.{◌≡◌, ◌<◌};
ghost use Rattle.tesla_front.specs.OutcomeView.{result_view};
ghost use Rattle.tesla_run_ask.specs.lag.Lag.{asked_outcome, lag_outcome, keyed_outcome, replied_outcome};
ghost use Rattle.tesla_sync.specs.Reply.{reply_judged};

use crate::lag::lines::{lag_line, refused_reply, too_large};
use crate::lag::texts::Texts;
use std::marker::Brand;
use std::sync::ledger::{Blank, Ledger};
use tesla_base::{Key, Steps};
use tesla_front::{Lines, Stop, refused};
use tesla_sync::{SyncRefusal, lag_of, read_ask, read_key, read_reply};

// The sender's time in a reply, with a ledger for its one evaluation of HMAC.
fn time_in<L: Ledger>(reply: &[u8], key: &Key, t_r: u64, blank: Blank) -> Result<u64, SyncRefusal>
    requires name { blank.name ≡ L.name }
    requires parts { blank.parts ≡ L.parts }
    requires some { 0 < L.parts }
    ensures { result ≡ reply_judged reply.now key.now t_r }
{
    let mut steps = Steps::<L>::new(blank);
    read_reply(reply, key, t_r, &mut steps)
}

// The lag that a reply under the key comes to.
fn lag_in(drift: u32, reply: &[u8], key: &Key, t_r: u64) -> Result<Lines, Stop>
    ensures { result_view result ≡ replied_outcome drift t_r (reply_judged reply.now key.now t_r) }
{
    match time_in::<Brand>(reply, key, t_r, Blank::new(1)) {
        Ok(t_s) => match lag_of(t_s, t_r, drift) {
            Ok(lag) => Ok(lag_line(lag)),
            Err(why) => Err(Stop::Refused(too_large(why))),
        },
        Err(why) => Err(Stop::Refused(refused_reply(why))),
    }
}

/// What the drift and the texts come to: the lag, or the first refusal. The ask is judged first, then the key, then the
/// reply, then the lag. It takes no memory.
#[tactic(auto, unfolding(crate::specs::lag::Lag::lag_outcome))]
pub fn judge(drift: u32, texts: &Texts) -> Result<Lines, Stop>
    ensures { result_view result ≡ lag_outcome drift texts.now.ask.items texts.now.reply.items texts.now.key.items }
{
    let Some(t_r) = read_ask(texts.ask.as_slice()) else {
        return Err(Stop::Refused(refused(3, "ask", 0, "BadAsk")));
    };
    let Some(key) = read_key(texts.key.as_slice()) else {
        return Err(Stop::Refused(refused(3, "key", 0, "BadKey")));
    };
    lag_in(drift, texts.reply.as_slice(), &key, t_r)
}

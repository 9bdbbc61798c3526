//! The lag of an exchange.

ghost use Rattle.std.specs.Prelude.{◌≡◌, ◌<◌, Ok};
ghost use Rattle.tesla_base.specs.declared.names.Key.{Key};
ghost use Rattle.tesla_sync.specs.Reply.{reply_judged};
ghost use Rattle.tesla_c.specs.Pure.{exchange_judged, replied_lag, sync_code};

use std::marker::Brand;
use std::sync::ledger::{Blank, Ledger};
use tesla_base::{Key, Steps};
use tesla_sync::{SyncRefusal, lag_of, read_ask, read_reply};

/// The key that a sender and a receiver share.
#[repr(C)]
#[derive(Drop)]
pub struct CKey {
    pub bytes: [u8; 32],
}

// The number of a refusal of a reply.
fn code_of(why: SyncRefusal) -> u32
    ensures { result ≡ sync_code why }
{
    match why {
        SyncRefusal::Malformed => 2,
        SyncRefusal::BadTag => 3,
        SyncRefusal::OtherAsk(_) => 4,
    }
}

// The sender's time in a reply, with a ledger for its one evaluation of HMAC.
fn time_in<L: Ledger>(reply: &[u8], key: &Key, asked: u64, blank: Blank) -> Result<u64, SyncRefusal>
    requires name { blank.name ≡ L.name }
    requires parts { blank.parts ≡ L.parts }
    requires some { 0 < L.parts }
    ensures { result ≡ reply_judged reply.now key.now asked }
{
    let mut steps = Steps::<L>::new(blank);
    read_reply(reply, key, asked, &mut steps)
}

// The lag that a reply comes to.
fn lag_in(drift: u32, asked: u64, key: &Key, reply: &[u8]) -> Result<i64, u32>
    ensures { result ≡ replied_lag drift asked (reply_judged reply.now key.now asked) }
{
    match time_in::<Brand>(reply, key, asked, Blank::new(1)) {
        Ok(replied) => match lag_of(replied, asked, drift) {
            Ok(lag) => Ok(lag),
            Err(_) => Err(5),
        },
        Err(why) => Err(code_of(why)),
    }
}

/// The lag of an exchange under the key, or the number of the first refusal.
pub(crate) fn exchange(drift: u32, key: &Key, ask: &[u8], reply: &[u8]) -> Result<i64, u32>
    ensures { result ≡ exchange_judged drift key.now ask.now reply.now }
{
    match read_ask(ask) {
        Some(asked) => lag_in(drift, asked, key, reply),
        None => Err(1),
    }
}

//! The sender's reply to an ask.

ghost use Rattle.std.specs.Prelude.{◌≡◌, ℕ, ◌+◌, Ok, Err, IfOk, ◌≢◌};
ghost use Rattle.tesla_prf.specs.Hmac.{hmac_of};
ghost use Rattle.tesla_sync.specs.Reply.{IsReply, reply_prefix, reply_judged, reply_text, times_of};
ghost use Rattle.tesla_sync.specs.declared.reply.SyncRefusal.TheVariants as refusals;

use std::sync::ledger::Ledger;
use tesla_base::{Key, Steps, u64_at};
use tesla_prf::hmac_sha256;

/// The first bytes of every reply: the magic, and the version.
const HEAD: [u8; 5] = [b'T', b'R', b'E', b'P', 1];

/// The bytes before the tag.
const PREFIX_LENGTH: usize = 21;

/// The bytes of a reply.
const LENGTH: usize = 53;

/// Why a reply is refused: the first of these that holds, in this order.
#[derive(Clone, Copy, Debug, PartialEq, Eq)]
pub enum SyncRefusal {
    /// The bytes are not 53 that begin with the magic and the version.
    Malformed,
    /// The tag is not that of the bytes before it under the shared key.
    BadTag,
    /// The reply is to another ask: that of this time, in microseconds.
    OtherAsk(u64),
}

// The magic, the version, the receiver's time and the sender's time: what is tagged.
fn prefix(t_r: u64, t_s: u64) -> [u8; PREFIX_LENGTH]
    ensures { result ≡ reply_prefix t_r t_s }
{
    let mut prefix = [0; PREFIX_LENGTH];
    prefix[..5].copy_from_slice(&HEAD);
    prefix[5..13].copy_from_slice(&t_r.to_be_bytes());
    prefix[13..].copy_from_slice(&t_s.to_be_bytes());
    prefix
}

/// The reply to the ask of `t_r` of a sender whose clock reads `t_s` microseconds: 53 bytes, of which the last 32 are
/// the HMAC-SHA-256 of the others under the shared key. One counted step. It takes no memory.
pub fn write_reply<L: Ledger>(key: &Key, t_r: u64, t_s: u64, steps: &mut Steps<L>) -> [u8; 53]
    ensures text { result ≡ reply_text key.now t_r t_s }
    ensures spelled { IsReply result key.now t_r t_s }
    ensures cost { steps.new ≡ steps.old + 1 }
{
    let prefix = prefix(t_r, t_s);
    let mut reply = [0; LENGTH];
    reply[..PREFIX_LENGTH].copy_from_slice(&prefix);
    reply[PREFIX_LENGTH..].copy_from_slice(&hmac_sha256(&key.0, &prefix, steps));
    reply
}

// The receiver's time and the sender's time in a reply. `None`: it is malformed.
fn times_in(bytes: &[u8]) -> Option<(u64, u64)>
    ensures { result ≡ times_of bytes.now }
{
    if bytes.len() != LENGTH || bytes[..5] != HEAD[..] {
        return None;
    }
    let Some(t_r) = u64_at(bytes, 5) else {
        return None;
    };
    let Some(t_s) = u64_at(bytes, 13) else {
        return None;
    };
    Some((t_r, t_s))
}

// What `read_reply` answers: each pair of times has one spelling under a key, so the bytes are compared with that.
fn judged<L: Ledger>(
    bytes: &[u8],
    key: &Key,
    t_r: u64,
    steps: &mut Steps<L>,
) -> Result<u64, SyncRefusal>
    ensures exact { result ≡ reply_judged bytes.now key.now t_r }
    ensures none { result ≡ Err refusals.Malformed → steps.new ≡ steps.old }
    ensures cost { result ≢ Err refusals.Malformed → steps.new ≡ steps.old + 1 }
{
    let Some((asked, t_s)) = times_in(bytes) else {
        return Err(SyncRefusal::Malformed);
    };
    if bytes != write_reply(key, asked, t_s, steps).as_slice() {
        return Err(SyncRefusal::BadTag);
    }
    if asked != t_r {
        return Err(SyncRefusal::OtherAsk(asked));
    }
    Ok(t_s)
}

/// The sender's time in the reply to the ask of `t_r`, in microseconds, where the reply was made under the shared key.
/// One counted step, and none where the reply is malformed. It takes no memory.
///
/// The refusals come in the order of `SyncRefusal`: the bytes are not 53 with the head of a reply; they are the reply
/// of no times under the key; they are the reply to the ask of another time.
pub fn read_reply<L: Ledger>(
    bytes: &[u8],
    key: &Key,
    t_r: u64,
    steps: &mut Steps<L>,
) -> Result<u64, SyncRefusal>
    // Which time or refusal it is.
    ensures exact { result ≡ reply_judged bytes.now key.now t_r }
    // What is read is spelled so.
    ensures found { IfOk result (IsReply bytes.now key.now t_r) }
    // What is spelled so is read.
    ensures only { (t_s : ℕ) → IsReply bytes.now key.now t_r t_s → result ≡ Ok t_s }
    // A malformed reply costs nothing, and any other one step.
    ensures none { result ≡ Err refusals.Malformed → steps.new ≡ steps.old }
    ensures cost { result ≢ Err refusals.Malformed → steps.new ≡ steps.old + 1 }
{
    judged(bytes, key, t_r, steps)
}

//! Payloads that promise one another.

ghost use Rattle.std.specs.Prelude.{◌≡◌, ◌≤◌, ◌-◌, ℕ, List, ◌++◌, length, reverse, slice_get, IfOk, vec_len, vec_capacity};
ghost use Rattle.std.specs.List.{All};
ghost use Rattle.tesla_early.specs.Payloads.{promising_text};
ghost use Rattle.tesla_early.specs.Woven.{woven, woven_payload};

use crate::promise::HEADER_LENGTH;
use crate::{Promise, hash_of};
use std::alloc::Global;
use tesla_base::{Name, NoMemory, Text};

/// The body of a message that is woven, at most: with the 39 bytes of a promise it fits a payload of 1,200 bytes.
pub const MOST_BODY: usize = 1161;

/// The bytes of a payload, at most.
const ROOM: usize = 1200;

/// The bytes before the body of a payload that makes this promise.
fn header_of(promise: &Promise) -> [u8; HEADER_LENGTH]
    ensures { (body : List ℕ) → result ++ body ≡ promising_text promise.now body }
{
    let mut header = [1; HEADER_LENGTH];
    header[1..5].copy_from_slice(&promise.name.interval.to_be_bytes());
    header[5..7].copy_from_slice(&promise.name.number.to_be_bytes());
    header[7..].copy_from_slice(&promise.hash);
    header
}

/// The bytes and the body behind them.
fn joined(alloc: Global, header: &[u8], body: &[u8]) -> Result<Text, NoMemory>
    requires header { length header.now ≤ 39 }
    requires short { length body.now ≤ 1161 }
    ensures { IfOk result (λ payload. payload ≡ header.now ++ body.now) }
{
    let until = header.len() + body.len();
    let mut payload = [0; ROOM];
    payload[..header.len()].copy_from_slice(header);
    payload[header.len()..until].copy_from_slice(body);
    Text::new(alloc, &payload[..until])
}

/// The payload of a message that comes before those with these names and payloads. The last of them stands first.
fn payload_of(
    alloc: Global,
    names: &[Name],
    behind: &[Text],
    gap: usize,
    body: &[u8],
) -> Result<Text, NoMemory>
    requires same { length names.now ≡ length behind.now }
    requires gap { 1 ≤ gap }
    requires short { length body.now ≤ 1161 }
    ensures { IfOk result (λ payload. payload ≡ woven_payload (slice_get names.now (gap - 1)) (slice_get (reverse behind.now) (gap - 1)) body.now) }
{
    if behind.len() < gap {
        return joined(alloc, &[0], body);
    }
    let promise = Promise {
        name: names[gap - 1],
        hash: hash_of(behind[behind.len() - gap].bytes()),
    };
    joined(alloc, &header_of(&promise), body)
}

/// The payloads of messages with these names and bodies: each is its body behind the promise of the message that comes
/// `gap` messages later, and of the last ones, for which there is none, behind a zero. They are made from the end, since
/// each holds the digest of a later one; a payload is hashed once, and only where it is promised.
///
/// There have to be as many names as bodies, a gap of 1 at least, and bodies of `MOST_BODY` bytes at most.
///
/// `NoMemory`: there was none for the payloads and the table of them, which has 24 bytes for each. It takes no other.
pub fn weave(
    alloc: Global,
    names: &[Name],
    bodies: &[Text],
    gap: u32,
) -> Result<Vec<Text>, NoMemory>
    requires same { length names.now ≡ length bodies.now }
    requires gap { 1 ≤ gap }
    requires short { All (λ body. length body ≤ 1161) bodies.now }
    ensures woven { IfOk result (λ payloads. payloads.items ≡ woven gap names.now bodies.now) }
    ensures sizes { IfOk result (λ payloads. All (λ payload. length payload ≤ 1200) payloads.items) }
{
    let mut payloads = Vec::with_capacity(alloc, bodies.len())?;
    while payloads.len() < bodies.len() {
        let place = bodies.len() - payloads.len() - 1;
        let payload = payload_of(
            alloc,
            &names[place + 1..],
            payloads.as_slice(),
            gap as usize,
            bodies[place].bytes(),
        )?;
        payloads.push_reserved(payload);
    }
    payloads.reverse();
    Ok(payloads)
}

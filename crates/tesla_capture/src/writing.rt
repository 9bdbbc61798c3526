//! Captures, scripts and records of released packets, written to a sink.

ghost use Rattle.std.specs.Prelude.{◌≡◌, ◌≤◌, [], ◌∷◌, ◌++◌, length, true, false};
ghost use Rattle.std.specs.Int.{w16, w32, w64, to_be_bytes};
ghost use Rattle.tesla_desk.specs.Faults.{HasCause};
ghost use Rattle.tesla_desk.specs.Outside.{AppendsPrefix, with_bytes};
ghost use Rattle.tesla_capture.specs.Capture.{head as capture_head, record_text, Arrives, Takes};
ghost use Rattle.tesla_capture.specs.Release.{head_text, release_text};
ghost use Rattle.tesla_capture.specs.Script.{head as script_head, record_text as script_record, Sends, Discloses};

use crate::format::{CaptureFormat, Format, ScriptFormat};
use crate::sizes::{
    ACCEPTED_SIZE, CARRYING_SIZE, FOLLOWED_HEAD_SIZE, RELEASE_HEAD_SIZE, TIMED_SIZE,
};
use tesla_base::{Head, Name};
use tesla_desk::{Sink, write_all};

/// Writes one piece, and then the other.
fn write_both<S: Sink>(sink: &mut S, header: &[u8], back: &[u8]) -> bool
    ensures all { result ≡ true → S.written sink.new ≡ with_bytes (S.written sink.old) (header.now ++ back.now) }
    ensures prefix { AppendsPrefix (S.written sink.old) (S.written sink.new) (header.now ++ back.now) }
    ensures cause { HasCause (S.faults sink.old) (S.faults sink.new) (result ≡ false) }
    ensures name { S.name sink.new ≡ S.name sink.old }
{
    if !write_all(sink, header) {
        return false;
    }
    write_all(sink, back)
}

/// The fields of a record of a released packet before its payload, of 17 bytes. It takes no memory.
pub fn head_bytes(head: &Head) -> [u8; RELEASE_HEAD_SIZE]
    ensures { result ≡ head_text head.now }
{
    let mut bytes = [0; RELEASE_HEAD_SIZE];
    bytes[..8].copy_from_slice(&head.position.to_be_bytes());
    bytes[8..12].copy_from_slice(&head.interval.to_be_bytes());
    bytes[12..14].copy_from_slice(&head.number.to_be_bytes());
    bytes[14] = head.chain;
    bytes[15..].copy_from_slice(&head.length.to_be_bytes());
    bytes
}

/// One byte, and then the fields of a record of a released packet before its payload.
pub(crate) fn marked_head_bytes(mark: u8, head: &Head) -> [u8; 1 + RELEASE_HEAD_SIZE]
    ensures { result ≡ mark ∷ head_text head.now }
{
    let mut bytes = [mark; 1 + RELEASE_HEAD_SIZE];
    bytes[1..].copy_from_slice(&head_bytes(head));
    bytes
}

/// The fields of a record of a follower before its payload.
pub(crate) fn followed_head_bytes(kind: u8, epoch: u32, head: &Head) -> [u8; FOLLOWED_HEAD_SIZE]
    ensures { result ≡ kind ∷ to_be_bytes w32 epoch ++ head_text head.now }
{
    let mut bytes = [kind; FOLLOWED_HEAD_SIZE];
    bytes[1..5].copy_from_slice(&epoch.to_be_bytes());
    bytes[5..].copy_from_slice(&head_bytes(head));
    bytes
}

/// The fields of the record of a message that was accepted on arrival, before its payload.
pub(crate) fn accepted_bytes(name: Name, length: u16) -> [u8; ACCEPTED_SIZE]
    ensures { result ≡ 1 ∷ [] ++ to_be_bytes w32 name.interval ++ to_be_bytes w16 name.number ++ to_be_bytes w16 length }
{
    let mut bytes = [1; ACCEPTED_SIZE];
    bytes[1..5].copy_from_slice(&name.interval.to_be_bytes());
    bytes[5..7].copy_from_slice(&name.number.to_be_bytes());
    bytes[7..].copy_from_slice(&length.to_be_bytes());
    bytes
}

/// The record of a disclosure in a script.
pub(crate) fn disclosure_bytes(reading: u64) -> [u8; TIMED_SIZE]
    ensures { result ≡ script_record (Discloses reading) }
{
    let mut bytes = [2; TIMED_SIZE];
    bytes[1..].copy_from_slice(&reading.to_be_bytes());
    bytes
}

/// The fields of an arrival, or of a message of a script, before its bytes.
pub(crate) fn arrival_bytes(reading: u64, length: u16) -> [u8; CARRYING_SIZE]
    ensures { result ≡ 1 ∷ [] ++ to_be_bytes w64 reading ++ to_be_bytes w16 length }
{
    let mut bytes = [1; CARRYING_SIZE];
    bytes[1..9].copy_from_slice(&reading.to_be_bytes());
    bytes[9..].copy_from_slice(&length.to_be_bytes());
    bytes
}

/// Writes the head of a capture. It takes no memory.
///
/// True: the head was appended. False: a prefix of it was appended, and the sink's count of faults rose.
pub fn write_head<S: Sink>(sink: &mut S) -> bool
    ensures all { result ≡ true → S.written sink.new ≡ with_bytes (S.written sink.old) capture_head }
    ensures prefix { AppendsPrefix (S.written sink.old) (S.written sink.new) capture_head }
    ensures cause { HasCause (S.faults sink.old) (S.faults sink.new) (result ≡ false) }
    ensures name { S.name sink.new ≡ S.name sink.old }
{
    write_all(sink, &CaptureFormat::head())
}

/// Writes the record of an arrival of at most 2,048 bytes, with the reading of the receiver's clock in
/// microseconds. It takes no memory.
///
/// True: the record was appended. False: a prefix of it was appended, and the sink's count of faults rose.
pub fn write_arrival<S: Sink>(sink: &mut S, reading: u64, bytes: &[u8]) -> bool
    requires { length bytes.now ≤ 2048 }
    ensures all { result ≡ true → S.written sink.new ≡ with_bytes (S.written sink.old) (record_text (Arrives reading bytes.now)) }
    ensures prefix { AppendsPrefix (S.written sink.old) (S.written sink.new) (record_text (Arrives reading bytes.now)) }
    ensures cause { HasCause (S.faults sink.old) (S.faults sink.new) (result ≡ false) }
    ensures name { S.name sink.new ≡ S.name sink.old }
{
    write_both(sink, &arrival_bytes(reading, bytes.len() as u16), bytes)
}

/// Writes the record of a take. It takes no memory.
///
/// True: the record was appended. False: a prefix of it was appended, and the sink's count of faults rose.
pub fn write_take<S: Sink>(sink: &mut S) -> bool
    ensures all { result ≡ true → S.written sink.new ≡ with_bytes (S.written sink.old) (record_text Takes) }
    ensures prefix { AppendsPrefix (S.written sink.old) (S.written sink.new) (record_text Takes) }
    ensures cause { HasCause (S.faults sink.old) (S.faults sink.new) (result ≡ false) }
    ensures name { S.name sink.new ≡ S.name sink.old }
{
    write_all(sink, &[2])
}

/// Writes the record of a released packet, whose payload has the head's length of at most 1,200 bytes.
/// It takes no memory.
///
/// True: the record was appended. False: a prefix of it was appended, and the sink's count of faults rose.
pub fn write_record<S: Sink>(sink: &mut S, head: &Head, payload: &[u8]) -> bool
    requires same { head.now.length ≡ length payload.now }
    requires limit { length payload.now ≤ 1200 }
    ensures all { result ≡ true → S.written sink.new ≡ with_bytes (S.written sink.old) (release_text head.now payload.now) }
    ensures prefix { AppendsPrefix (S.written sink.old) (S.written sink.new) (release_text head.now payload.now) }
    ensures cause { HasCause (S.faults sink.old) (S.faults sink.new) (result ≡ false) }
    ensures name { S.name sink.new ≡ S.name sink.old }
{
    write_both(sink, &head_bytes(head), payload)
}

/// Writes the head of a script. It takes no memory.
///
/// True: the head was appended. False: a prefix of it was appended, and the sink's count of faults rose.
pub fn write_script_head<S: Sink>(sink: &mut S) -> bool
    ensures all { result ≡ true → S.written sink.new ≡ with_bytes (S.written sink.old) script_head }
    ensures prefix { AppendsPrefix (S.written sink.old) (S.written sink.new) script_head }
    ensures cause { HasCause (S.faults sink.old) (S.faults sink.new) (result ≡ false) }
    ensures name { S.name sink.new ≡ S.name sink.old }
{
    write_all(sink, &ScriptFormat::head())
}

/// Writes the record of a message with a payload of at most 1,200 bytes, which is to be sent at this reading of the
/// sender's clock in microseconds. It takes no memory.
///
/// True: the record was appended. False: a prefix of it was appended, and the sink's count of faults rose.
pub fn write_message<S: Sink>(sink: &mut S, reading: u64, payload: &[u8]) -> bool
    requires { length payload.now ≤ 1200 }
    ensures all { result ≡ true → S.written sink.new ≡ with_bytes (S.written sink.old) (script_record (Sends reading payload.now)) }
    ensures prefix { AppendsPrefix (S.written sink.old) (S.written sink.new) (script_record (Sends reading payload.now)) }
    ensures cause { HasCause (S.faults sink.old) (S.faults sink.new) (result ≡ false) }
    ensures name { S.name sink.new ≡ S.name sink.old }
{
    write_both(sink, &arrival_bytes(reading, payload.len() as u16), payload)
}

/// Writes the record of a disclosure, which is to be made at this reading of the sender's clock in microseconds. It takes
/// no memory.
///
/// True: the record was appended. False: a prefix of it was appended, and the sink's count of faults rose.
pub fn write_disclose<S: Sink>(sink: &mut S, reading: u64) -> bool
    ensures all { result ≡ true → S.written sink.new ≡ with_bytes (S.written sink.old) (script_record (Discloses reading)) }
    ensures prefix { AppendsPrefix (S.written sink.old) (S.written sink.new) (script_record (Discloses reading)) }
    ensures cause { HasCause (S.faults sink.old) (S.faults sink.new) (result ≡ false) }
    ensures name { S.name sink.new ≡ S.name sink.old }
{
    write_all(sink, &disclosure_bytes(reading))
}

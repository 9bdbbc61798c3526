//! Calls of a sender that was opened.

ghost use Rattle.std.specs.Prelude.{◌≡◌, ◌≢◌, ◌≤◌, ◌<◌, List, IfOk, OnErr};
ghost use Rattle.tesla_sender.specs.Made.{Call, Disclose, Message, Stream, interval_at, made_disclosure, made_message};
ghost use Rattle.tesla_sender.specs.Stands.{Answers, Stands, gone_on, log_after, returned_disclosure, returned_message, sent_in};
ghost use Rattle.tesla_c.specs.Senders.{IfSending, IsSender, IsSending, TellsMade, ahead_of, disclosure_cause, going_status, is_sending, log_by, message_cause, sending_status};

use crate::engine::Engine;
use crate::sender_answers::{CCause, CDatagram, disclosure_cause_of, message_cause_of};
use crate::status::{BAD_NUMBER, OK, REFUSED, WRONG_SLOT};
use std::marker::Brand;
use std::sync::ledger::{Blank, Ledger};
use tesla_base::{MOST_DATAGRAM, Steps};
use tesla_sender::{DiscloseRefusal, SendRefusal, Sender};

// Makes the frame of a message, with a ledger for its evaluations of HMAC.
fn made<L: Ledger>(
    sender: &mut Sender,
    reading: u64,
    payload: &[u8],
    into: &mut [u8; MOST_DATAGRAM],
    blank: Blank,
) -> Result<usize, SendRefusal>
    requires name { blank.name ≡ L.name }
    requires parts { blank.parts ≡ L.parts }
    requires some { 0 < L.parts }
    ensures told { Answers result (returned_message sender.old reading payload.now) into.old into.new }
    ensures after { IfOk result (λ _. sender.new ≡ sent_in sender.old (interval_at sender.old.stream.setup.times reading) sender.new.left) }
    ensures answer { (log : List Call) → Stands sender.old log → Answers result (made_message sender.old.stream log reading payload.now) into.old into.new }
    ensures stands { (log : List Call) → Stands sender.old log → Stands sender.new (log_after log (Message reading payload.now) result) }
    ensures stream { sender.new.stream ≡ sender.old.stream }
    ensures refused { OnErr result ((sender.new ≡ sender.old) × (into.new ≡ into.old)) }
{
    let mut steps = Steps::<L>::new(blank);
    sender.message(reading, payload, into, &mut steps)
}

// A message.
#[tactic(auto, using(crate::proofs::Sendings::made_told, crate::proofs::Sendings::unmade_told))]
fn send(
    sender: &mut Sender,
    reading: u64,
    payload: &[u8],
    into: &mut CDatagram,
    written: &mut usize,
    cause: &mut CCause,
) -> u32
    ensures told { TellsMade message_cause (returned_message sender.old reading payload.now) result written.new cause.new into.old.bytes into.new.bytes }
    ensures after { result ≡ 0 → sender.new ≡ sent_in sender.old (interval_at sender.old.stream.setup.times reading) sender.new.left }
    ensures answer { (log : List Call) → Stands sender.old log → TellsMade message_cause (made_message sender.old.stream log reading payload.now) result written.new cause.new into.old.bytes into.new.bytes }
    ensures stands { (log : List Call) → Stands sender.old log → Stands sender.new (log_by log (Message reading payload.now) result) }
    ensures stream { sender.new.stream ≡ sender.old.stream }
    ensures same { result ≢ 0 → (sender.new ≡ sender.old) × (into.new ≡ into.old) × (written.new ≡ written.old) }
    ensures cause { result ≢ 1 → cause.new ≡ cause.old }
    ensures other { result ≢ 4 }
{
    match made::<Brand>(sender, reading, payload, &mut into.bytes, Blank::new(1)) {
        Ok(size) => {
            *written = size;
            OK
        }
        Err(refusal) => {
            *cause = message_cause_of(refusal);
            REFUSED
        }
    }
}

/// A message.
#[tactic(auto, using(crate::proofs::Senders::of_message))]
pub(crate) fn message(
    engine: &mut Engine,
    reading: u64,
    payload: &[u8],
    into: &mut CDatagram,
    written: &mut usize,
    cause: &mut CCause,
) -> u32
    ensures wrong { sending_status engine.old ≡ 4 → result ≡ 4 }
    ensures other { result ≡ 4 → sending_status engine.old ≡ 4 }
    ensures told { IfSending engine.old (λ before. TellsMade message_cause (returned_message before reading payload.now) result written.new cause.new into.old.bytes into.new.bytes) }
    ensures after { result ≡ 0 → IfSending engine.old (λ before. IsSending engine.new (λ now. now ≡ sent_in before (interval_at before.stream.setup.times reading) now.left)) }
    ensures answer { (stream : Stream) → (log : List Call) → IsSender engine.old stream log → TellsMade message_cause (made_message stream log reading payload.now) result written.new cause.new into.old.bytes into.new.bytes }
    ensures stands { (stream : Stream) → (log : List Call) → IsSender engine.old stream log → IsSender engine.new stream (log_by log (Message reading payload.now) result) }
    ensures same { result ≢ 0 → (engine.new ≡ engine.old) × (into.new ≡ into.old) × (written.new ≡ written.old) }
    ensures cause { result ≢ 1 → cause.new ≡ cause.old }
{
    match engine {
        Engine::Sending(sender) => send(sender, reading, payload, into, written, cause),
        _ => WRONG_SLOT,
    }
}

// Makes the frame of a disclosure, with a ledger for its evaluations of HMAC.
fn disclosed<L: Ledger>(
    sender: &mut Sender,
    reading: u64,
    into: &mut [u8; MOST_DATAGRAM],
    blank: Blank,
) -> Result<usize, DiscloseRefusal>
    requires name { blank.name ≡ L.name }
    requires parts { blank.parts ≡ L.parts }
    requires some { 0 < L.parts }
    ensures told { Answers result (returned_disclosure sender.old reading) into.old into.new }
    ensures after { IfOk result (λ _. sender.new ≡ gone_on sender.old (interval_at sender.old.stream.setup.times reading) sender.new.left) }
    ensures answer { (log : List Call) → Stands sender.old log → Answers result (made_disclosure sender.old.stream log reading) into.old into.new }
    ensures stands { (log : List Call) → Stands sender.old log → Stands sender.new (log_after log (Disclose reading) result) }
    ensures stream { sender.new.stream ≡ sender.old.stream }
    ensures refused { OnErr result ((sender.new ≡ sender.old) × (into.new ≡ into.old)) }
{
    let mut steps = Steps::<L>::new(blank);
    sender.disclose(reading, into, &mut steps)
}

// A disclosure.
#[tactic(auto, using(crate::proofs::Sendings::made_told, crate::proofs::Sendings::unmade_told))]
fn disclose(
    sender: &mut Sender,
    reading: u64,
    into: &mut CDatagram,
    written: &mut usize,
    cause: &mut CCause,
) -> u32
    ensures told { TellsMade disclosure_cause (returned_disclosure sender.old reading) result written.new cause.new into.old.bytes into.new.bytes }
    ensures after { result ≡ 0 → sender.new ≡ gone_on sender.old (interval_at sender.old.stream.setup.times reading) sender.new.left }
    ensures answer { (log : List Call) → Stands sender.old log → TellsMade disclosure_cause (made_disclosure sender.old.stream log reading) result written.new cause.new into.old.bytes into.new.bytes }
    ensures stands { (log : List Call) → Stands sender.old log → Stands sender.new (log_by log (Disclose reading) result) }
    ensures stream { sender.new.stream ≡ sender.old.stream }
    ensures same { result ≢ 0 → (sender.new ≡ sender.old) × (into.new ≡ into.old) × (written.new ≡ written.old) }
    ensures cause { result ≢ 1 → cause.new ≡ cause.old }
    ensures other { result ≢ 4 }
{
    match disclosed::<Brand>(sender, reading, &mut into.bytes, Blank::new(1)) {
        Ok(length) => {
            *written = length;
            OK
        }
        Err(refusal) => {
            *cause = disclosure_cause_of(refusal);
            REFUSED
        }
    }
}

/// A disclosure.
#[tactic(auto, using(crate::proofs::Senders::of_disclosure))]
pub(crate) fn disclosure(
    engine: &mut Engine,
    reading: u64,
    into: &mut CDatagram,
    written: &mut usize,
    cause: &mut CCause,
) -> u32
    ensures wrong { sending_status engine.old ≡ 4 → result ≡ 4 }
    ensures other { result ≡ 4 → sending_status engine.old ≡ 4 }
    ensures told { IfSending engine.old (λ before. TellsMade disclosure_cause (returned_disclosure before reading) result written.new cause.new into.old.bytes into.new.bytes) }
    ensures after { result ≡ 0 → IfSending engine.old (λ before. IsSending engine.new (λ now. now ≡ gone_on before (interval_at before.stream.setup.times reading) now.left)) }
    ensures answer { (stream : Stream) → (log : List Call) → IsSender engine.old stream log → TellsMade disclosure_cause (made_disclosure stream log reading) result written.new cause.new into.old.bytes into.new.bytes }
    ensures stands { (stream : Stream) → (log : List Call) → IsSender engine.old stream log → IsSender engine.new stream (log_by log (Disclose reading) result) }
    ensures same { result ≢ 0 → (engine.new ≡ engine.old) × (into.new ≡ into.old) × (written.new ≡ written.old) }
    ensures cause { result ≢ 1 → cause.new ≡ cause.old }
{
    match engine {
        Engine::Sending(sender) => disclose(sender, reading, into, written, cause),
        _ => WRONG_SLOT,
    }
}

// Goes on to an interval, with a ledger for its evaluations of HMAC.
fn begun<L: Ledger>(sender: &mut Sender, interval: u64, blank: Blank)
    requires name { blank.name ≡ L.name }
    requires parts { blank.parts ≡ L.parts }
    requires some { 0 < L.parts }
    requires later { sender.old.latest ≤ interval }
    ensures { sender.new ≡ gone_on sender.old interval sender.new.left }
{
    let mut steps = Steps::<L>::new(blank);
    sender.begin_at(interval, &mut steps);
}

/// Goes on to an interval.
pub(crate) fn begin(engine: &mut Engine, interval: u64) -> u32
    ensures status { result ≡ going_status engine.old interval }
    ensures after { result ≡ 0 → IfSending engine.old (λ before. IsSending engine.new (λ now. now ≡ gone_on before interval now.left)) }
    ensures same { result ≢ 0 → engine.new ≡ engine.old }
{
    let Engine::Sending(sender) = engine else {
        return WRONG_SLOT;
    };
    if interval < sender.latest() {
        return BAD_NUMBER;
    }
    begun::<Brand>(sender, interval, Blank::new(1));
    OK
}

// Makes the keys of the next interval, with a ledger for its evaluations of HMAC.
fn made_ahead<L: Ledger>(sender: &mut Sender, blank: Blank)
    requires name { blank.name ≡ L.name }
    requires parts { blank.parts ≡ L.parts }
    requires some { 0 < L.parts }
    ensures { sender.new ≡ ahead_of sender.old sender.new.left }
{
    let mut steps = Steps::<L>::new(blank);
    sender.make_next(&mut steps);
}

/// Makes the keys of the next interval.
#[tactic(auto, using(crate::proofs::Senders::ahead_stands))]
pub(crate) fn ahead(engine: &mut Engine) -> u32
    ensures status { result ≡ sending_status engine.old }
    ensures after { IfSending engine.old (λ before. IsSending engine.new (λ now. now ≡ ahead_of before now.left)) }
    ensures stands { (stream : Stream) → (log : List Call) → IsSender engine.old stream log → IsSender engine.new stream log }
    ensures same { result ≢ 0 → engine.new ≡ engine.old }
{
    match engine {
        Engine::Sending(sender) => {
            made_ahead::<Brand>(sender, Blank::new(1));
            OK
        }
        _ => WRONG_SLOT,
    }
}

/// The interval of a reading.
pub(crate) fn interval_of(engine: &Engine, reading: u64, interval: &mut u64) -> u32
    ensures status { result ≡ sending_status engine.now }
    ensures value { IfSending engine.now (λ it. interval.new ≡ interval_at it.stream.setup.times reading) }
    ensures same { result ≢ 0 → interval.new ≡ interval.old }
{
    match engine {
        Engine::Sending(sender) => {
            *interval = sender.interval_at(reading);
            OK
        }
        _ => WRONG_SLOT,
    }
}

/// Whether what was opened is a sender.
pub(crate) fn is_sending(engine: &Engine) -> bool
    ensures { result ≡ is_sending engine.now }
{
    match engine {
        Engine::Sending(_) => true,
        Engine::Receiving(_) => false,
        Engine::Following(_) => false,
    }
}

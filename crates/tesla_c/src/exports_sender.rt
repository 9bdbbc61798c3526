//! The functions of a sender that C calls. Each number is tested, and at any status but OK a slot holds what it held.

ghost use Rattle.std.specs.Prelude.{◌≡◌, ◌≢◌, ◌⊎◌, List};
ghost use Rattle.std.specs.declared.option.Option.TheVariants.{None};
ghost use Rattle.tesla_commit.specs.Parsing.{judged};
ghost use Rattle.tesla_sender.specs.Made.{Call, Disclose, Message, Stream, interval_at, made_disclosure, made_message};
ghost use Rattle.tesla_sender.specs.Stands.{gone_on, returned_disclosure, returned_message, sent_in};
ghost use Rattle.tesla_c.specs.Held.{held_in};
ghost use Rattle.tesla_c.specs.Senders.{HasOpenedSender, HasSender, IfHeld, IsHeld, IsSenderRefused, IsWantingFor, TellsMade, ahead_of, begin_status, disclosure_cause, log_by, message_cause, sender_close_status, sender_status};

use crate::sender;
use crate::sender_answers::{CCause, CDatagram, CSenderRefusal};
use crate::sender_opening::{Unopened, open_sender};
use crate::slot::Slot;
use crate::status::{NO_MEMORY, OK, REFUSED, WRONG_SLOT};
use std::alloc::Global;

/// Opens a sender into an empty slot, of the setup and the seeds that two texts spell: as many seeds as the setup has chains, of
/// which each gives the key of the setup. All memory is taken here. The first that applies is told: WRONG_SLOT, REFUSED with the
/// text, the line, the kind and the chain, NO_MEMORY.
#[unsafe(no_mangle)]
pub extern "C" fn tesla_sender_open(
    alloc: Global,
    slot: &mut Slot,
    setup: &[u8],
    seeds: &[u8],
    refusal: &mut CSenderRefusal,
) -> u32
    ensures opened { result ≡ 0 → HasOpenedSender (judged setup.now) seeds.now (held_in slot.new) }
    ensures refused { result ≡ 1 → IsSenderRefused (judged setup.now) seeds.now refusal.new }
    ensures memory { result ≡ 3 → IsWantingFor (judged setup.now) }
    ensures wrong { result ≡ 4 → held_in slot.old ≢ None }
    ensures empty { result ≢ 4 → held_in slot.old ≡ None }
    ensures status { result ≢ 0 → result ≢ 1 → result ≢ 4 → result ≡ 3 }
    ensures same { result ≢ 0 → held_in slot.new ≡ held_in slot.old }
    ensures told { result ≢ 1 → refusal.new ≡ refusal.old }
{
    if let Some(engine) = slot.take(alloc) {
        slot.put(engine);
        return WRONG_SLOT;
    }
    match open_sender(alloc, setup, seeds) {
        Ok(engine) => {
            slot.put(engine);
            OK
        }
        Err(Unopened::Refused(told)) => {
            *refusal = told;
            REFUSED
        }
        Err(Unopened::NoMemory) => NO_MEMORY,
    }
}

/// Makes the frame of a message at this reading of the sender's clock, in microseconds, at the start of the room, of which the
/// rest stays as it was, and tells its length. It takes no memory. REFUSED: the message isn't accepted, and the cause is told.
/// WRONG_SLOT: the slot is empty, or it holds no sender.
#[unsafe(no_mangle)]
pub extern "C" fn tesla_sender_message(
    alloc: Global,
    slot: &mut Slot,
    reading: u64,
    payload: &[u8],
    into: &mut CDatagram,
    written: &mut usize,
    cause: &mut CCause,
) -> u32
    ensures wrong { sender_status (held_in slot.old) ≡ 4 → result ≡ 4 }
    ensures other { result ≡ 4 → sender_status (held_in slot.old) ≡ 4 }
    ensures told { IfHeld (held_in slot.old) (λ before. TellsMade message_cause (returned_message before reading payload.now) result written.new cause.new into.old.bytes into.new.bytes) }
    ensures after { result ≡ 0 → IfHeld (held_in slot.old) (λ before. IsHeld (held_in slot.new) (λ now. now ≡ sent_in before (interval_at before.stream.setup.times reading) now.left)) }
    ensures answer { (stream : Stream) → (log : List Call) → HasSender (held_in slot.old) stream log → TellsMade message_cause (made_message stream log reading payload.now) result written.new cause.new into.old.bytes into.new.bytes }
    ensures stands { (stream : Stream) → (log : List Call) → HasSender (held_in slot.old) stream log → HasSender (held_in slot.new) stream (log_by log (Message reading payload.now) result) }
    ensures same { result ≢ 0 → (held_in slot.new ≡ held_in slot.old) × (into.new ≡ into.old) × (written.new ≡ written.old) }
    ensures cause { result ≢ 1 → cause.new ≡ cause.old }
{
    let Some(mut engine) = slot.take(alloc) else {
        return WRONG_SLOT;
    };
    let status = sender::message(&mut engine, reading, payload, into, written, cause);
    slot.put(engine);
    status
}

/// Makes the frame of a disclosure, as of a message.
#[unsafe(no_mangle)]
pub extern "C" fn tesla_sender_disclose(
    alloc: Global,
    slot: &mut Slot,
    reading: u64,
    into: &mut CDatagram,
    written: &mut usize,
    cause: &mut CCause,
) -> u32
    ensures wrong { sender_status (held_in slot.old) ≡ 4 → result ≡ 4 }
    ensures other { result ≡ 4 → sender_status (held_in slot.old) ≡ 4 }
    ensures told { IfHeld (held_in slot.old) (λ before. TellsMade disclosure_cause (returned_disclosure before reading) result written.new cause.new into.old.bytes into.new.bytes) }
    ensures after { result ≡ 0 → IfHeld (held_in slot.old) (λ before. IsHeld (held_in slot.new) (λ now. now ≡ gone_on before (interval_at before.stream.setup.times reading) now.left)) }
    ensures answer { (stream : Stream) → (log : List Call) → HasSender (held_in slot.old) stream log → TellsMade disclosure_cause (made_disclosure stream log reading) result written.new cause.new into.old.bytes into.new.bytes }
    ensures stands { (stream : Stream) → (log : List Call) → HasSender (held_in slot.old) stream log → HasSender (held_in slot.new) stream (log_by log (Disclose reading) result) }
    ensures same { result ≢ 0 → (held_in slot.new ≡ held_in slot.old) × (into.new ≡ into.old) × (written.new ≡ written.old) }
    ensures cause { result ≢ 1 → cause.new ≡ cause.old }
{
    let Some(mut engine) = slot.take(alloc) else {
        return WRONG_SLOT;
    };
    let status = sender::disclosure(&mut engine, reading, into, written, cause);
    slot.put(engine);
    status
}

/// Goes on to an interval: from here on the sender answers as if its last accepted call were of that interval. It takes no
/// memory. BAD_NUMBER: the interval is before that of the last accepted call. WRONG_SLOT: as of a message.
#[unsafe(no_mangle)]
pub extern "C" fn tesla_sender_begin_at(alloc: Global, slot: &mut Slot, interval: u64) -> u32
    ensures status { result ≡ begin_status (held_in slot.old) interval }
    ensures after { result ≡ 0 → IfHeld (held_in slot.old) (λ before. IsHeld (held_in slot.new) (λ now. now ≡ gone_on before interval now.left)) }
    ensures same { result ≢ 0 → held_in slot.new ≡ held_in slot.old }
{
    let Some(mut engine) = slot.take(alloc) else {
        return WRONG_SLOT;
    };
    let status = sender::begin(&mut engine, interval);
    slot.put(engine);
    status
}

/// Makes the keys of the next interval ahead of time, where there is one. Nothing else changes, and it takes no memory.
/// WRONG_SLOT: as of a message.
#[unsafe(no_mangle)]
pub extern "C" fn tesla_sender_make_next(alloc: Global, slot: &mut Slot) -> u32
    ensures status { result ≡ sender_status (held_in slot.old) }
    ensures after { IfHeld (held_in slot.old) (λ before. IsHeld (held_in slot.new) (λ now. now ≡ ahead_of before now.left)) }
    ensures stands { (stream : Stream) → (log : List Call) → HasSender (held_in slot.old) stream log → HasSender (held_in slot.new) stream log }
    ensures same { result ≢ 0 → held_in slot.new ≡ held_in slot.old }
{
    let Some(mut engine) = slot.take(alloc) else {
        return WRONG_SLOT;
    };
    let status = sender::ahead(&mut engine);
    slot.put(engine);
    status
}

/// Tells the interval of a reading of the sender's clock, in microseconds: 0 before the start. WRONG_SLOT: as of a message.
#[unsafe(no_mangle)]
pub extern "C" fn tesla_sender_interval_at(
    alloc: Global,
    slot: &mut Slot,
    reading: u64,
    interval: &mut u64,
) -> u32
    ensures status { result ≡ sender_status (held_in slot.old) }
    ensures value { IfHeld (held_in slot.old) (λ it. interval.new ≡ interval_at it.stream.setup.times reading) }
    ensures same { held_in slot.new ≡ held_in slot.old }
    ensures told { result ≢ 0 → interval.new ≡ interval.old }
{
    let Some(engine) = slot.take(alloc) else {
        return WRONG_SLOT;
    };
    let status = sender::interval_of(&engine, reading, interval);
    slot.put(engine);
    status
}

/// Closes a sender, and gives all its memory back. An empty slot stays empty. WRONG_SLOT: it is another's.
#[unsafe(no_mangle)]
pub extern "C" fn tesla_sender_close(alloc: Global, slot: &mut Slot) -> u32
    ensures status { result ≡ sender_close_status (held_in slot.old) }
    ensures empty { result ≡ 0 → held_in slot.new ≡ None }
    ensures same { result ≢ 0 → held_in slot.new ≡ held_in slot.old }
{
    let Some(engine) = slot.take(alloc) else {
        return OK;
    };
    if sender::is_sending(&engine) {
        drop(engine);
        return OK;
    }
    slot.put(engine);
    WRONG_SLOT
}

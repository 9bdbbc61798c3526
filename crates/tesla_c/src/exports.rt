//! The functions that C calls. Each number is tested, and at any status but OK a slot holds what it held.

ghost use Rattle.std.specs.Prelude.{◌≡◌, ◌≢◌, ◌+◌, ◌-◌, ◌^◌, ◌++◌, ◌∷◌, [], List};
ghost use Rattle.std.specs.declared.option.Option.TheVariants.{None};
ghost use Rattle.tesla_commit.specs.Parsing.{judged};
ghost use Rattle.tesla_fitting.specs.declared.config.Config.{Config};
ghost use Rattle.tesla_receiver.specs.Entries.{Entry};
ghost use Rattle.tesla_receiver.specs.Events.{waiting_in};
ghost use Rattle.tesla_receiver.specs.History.{Arrives, Takes, Ends, entry_of, reply_to};
ghost use Rattle.tesla_receiver.specs.Report.{report_of};
ghost use Rattle.tesla_c.specs.Held.{held_in};
ghost use Rattle.tesla_c.specs.Receivers.{HasReceiver, IsOpened, IsRefused, IsWanting, TellsReply, TellsVerdict, bad_number, call_status, close_status};
ghost use Rattle.tesla_c.specs.Told.{report_told};

use crate::answers::{CHead, CPayload, CRefusal, CReport, CVerdict, code_of};
use crate::opening::{OpenRefusal, bad_number, open};
use crate::receiver;
use crate::slot::Slot;
use crate::status::{BAD_NUMBER, NO_MEMORY, OK, REFUSED, WRONG_SLOT};
use std::alloc::Global;
use std::marker::Brand;
use std::sync::ledger::Blank;

/// The version of the library: major, minor and patch, in 8 bits each.
#[unsafe(no_mangle)]
pub extern "C" fn tesla_version() -> u32
    ensures { result ≡ 0x000100 }
{
    0x000100
}

/// Opens a receiver into an empty slot, of the setup that the text spells. The lag is in microseconds; the capacity is 1 to
/// 65,536 packets, the quota 1 to the capacity, and there is one ingest at least. All memory is taken here. The first that
/// applies is told: WRONG_SLOT, BAD_NUMBER with the number's place among the parameters, REFUSED with the line and the kind,
/// NO_MEMORY.
#[unsafe(no_mangle)]
pub extern "C" fn tesla_receiver_open(
    alloc: Global,
    slot: &mut Slot,
    text: &[u8],
    lag: i64,
    capacity: u32,
    quota: u32,
    ingests: u8,
    refusal: &mut CRefusal,
) -> u32
    ensures opened { result ≡ 0 → IsOpened (judged text.now) lag capacity quota ingests (held_in slot.new) }
    ensures refused { result ≡ 1 → IsRefused (judged text.now) refusal.new }
    ensures number { result ≡ 2 → (bad_number capacity quota ingests ≢ 0) × (refusal.new.line ≡ bad_number capacity quota ingests) }
    ensures memory { result ≡ 3 → IsWanting (judged text.now) }
    ensures wrong { result ≡ 4 → held_in slot.old ≢ None }
    ensures empty { result ≢ 4 → held_in slot.old ≡ None }
    ensures within { result ≢ 4 → result ≢ 2 → bad_number capacity quota ingests ≡ 0 }
    ensures same { result ≢ 0 → held_in slot.new ≡ held_in slot.old }
{
    if let Some(engine) = slot.take(alloc) {
        slot.put(engine);
        return WRONG_SLOT;
    }
    let bad = bad_number(capacity, quota, ingests);
    if bad != 0 {
        *refusal = CRefusal { line: bad, kind: 0 };
        return BAD_NUMBER;
    }
    match open(alloc, text, lag, capacity, quota, ingests) {
        Ok(engine) => {
            slot.put(engine);
            OK
        }
        Err(OpenRefusal::Text { line, kind }) => {
            *refusal = CRefusal {
                line,
                kind: code_of(kind),
            };
            REFUSED
        }
        Err(OpenRefusal::NoMemory) => NO_MEMORY,
    }
}

/// Judges a datagram of an ingest, with the reading of the receiver's clock in microseconds. It takes no memory. WRONG_SLOT: it
/// is empty, or it holds no receiver. SPENT: 2^64 - 1 calls were made.
#[unsafe(no_mangle)]
pub extern "C" fn tesla_receiver_arrive(
    alloc: Global,
    slot: &mut Slot,
    ingest: u8,
    reading: u64,
    datagram: &[u8],
    verdict: &mut CVerdict,
) -> u32
    ensures status { result ≡ call_status (held_in slot.old) }
    ensures answer { result ≡ 0 → (config : Config) → (h : List Entry) → HasReceiver (held_in slot.old) config h → TellsVerdict (entry_of config h (Arrives ingest reading datagram.now)) verdict.new }
    ensures stands { result ≡ 0 → (config : Config) → (h : List Entry) → HasReceiver (held_in slot.old) config h → HasReceiver (held_in slot.new) config (h ++ entry_of config h (Arrives ingest reading datagram.now) ∷ []) }
    ensures same { result ≢ 0 → (held_in slot.new ≡ held_in slot.old) × (verdict.new ≡ verdict.old) }
{
    let Some(mut engine) = slot.take(alloc) else {
        return WRONG_SLOT;
    };
    let status = receiver::arrive::<Brand>(
        &mut engine,
        ingest,
        reading,
        datagram,
        verdict,
        Blank::new(1),
    );
    slot.put(engine);
    status
}

/// Gives the next released packet: its head, and its payload at the start of the room, of which the rest stays as it was. It
/// takes no memory. EMPTY: none waits now. OVER: none waits, and every ingest has ended. WRONG_SLOT, SPENT: as of an arrival.
#[unsafe(no_mangle)]
pub extern "C" fn tesla_receiver_take(
    alloc: Global,
    slot: &mut Slot,
    releaser: u8,
    payload: &mut CPayload,
    head: &mut CHead,
) -> u32
    ensures wrong { call_status (held_in slot.old) ≡ 4 → result ≡ 4 }
    ensures answer { result ≢ 5 → (config : Config) → (h : List Entry) → HasReceiver (held_in slot.old) config h → TellsReply (reply_to config h) result head.new payload.new.bytes }
    ensures stands { result ≢ 5 → (config : Config) → (h : List Entry) → HasReceiver (held_in slot.old) config h → HasReceiver (held_in slot.new) config (h ++ entry_of config h (Takes releaser) ∷ []) }
    ensures spent { result ≡ 5 → call_status (held_in slot.old) ≡ 5 }
    ensures same { result ≡ 5 → held_in slot.new ≡ held_in slot.old }
    ensures other { result ≡ 4 → call_status (held_in slot.old) ≡ 4 }
    ensures none { result ≡ 4 → held_in slot.new ≡ held_in slot.old }
    ensures head { result ≢ 0 → head.new ≡ head.old }
{
    let Some(mut engine) = slot.take(alloc) else {
        return WRONG_SLOT;
    };
    let status = receiver::take(&mut engine, releaser, payload, head);
    slot.put(engine);
    status
}

/// Ends an ingest. It takes no memory. WRONG_SLOT, SPENT: as of an arrival.
#[unsafe(no_mangle)]
pub extern "C" fn tesla_receiver_end(alloc: Global, slot: &mut Slot, ingest: u8) -> u32
    ensures status { result ≡ call_status (held_in slot.old) }
    ensures stands { result ≡ 0 → (config : Config) → (h : List Entry) → HasReceiver (held_in slot.old) config h → HasReceiver (held_in slot.new) config (h ++ entry_of config h (Ends ingest) ∷ []) }
    ensures same { result ≢ 0 → held_in slot.new ≡ held_in slot.old }
{
    let Some(mut engine) = slot.take(alloc) else {
        return WRONG_SLOT;
    };
    let status = receiver::end(&mut engine, ingest);
    slot.put(engine);
    status
}

/// Tells the counts of the history. WRONG_SLOT: as of an arrival.
#[unsafe(no_mangle)]
pub extern "C" fn tesla_receiver_report(alloc: Global, slot: &mut Slot, report: &mut CReport) -> u32
    ensures wrong { call_status (held_in slot.old) ≡ 4 → result ≡ 4 }
    ensures value { (config : Config) → (h : List Entry) → HasReceiver (held_in slot.old) config h → (result ≡ 0) × (report.new ≡ report_told (report_of h)) }
    ensures same { held_in slot.new ≡ held_in slot.old }
    ensures told { result ≢ 0 → report.new ≡ report.old }
{
    let Some(engine) = slot.take(alloc) else {
        return WRONG_SLOT;
    };
    let status = receiver::report(&engine, report);
    slot.put(engine);
    status
}

/// Tells how many released packets wait to be taken. WRONG_SLOT: as of an arrival.
#[unsafe(no_mangle)]
pub extern "C" fn tesla_receiver_waiting(alloc: Global, slot: &mut Slot, count: &mut u64) -> u32
    ensures wrong { call_status (held_in slot.old) ≡ 4 → result ≡ 4 }
    ensures value { (config : Config) → (h : List Entry) → HasReceiver (held_in slot.old) config h → (result ≡ 0) × (count.new ≡ waiting_in config h) }
    ensures same { held_in slot.new ≡ held_in slot.old }
    ensures told { result ≢ 0 → count.new ≡ count.old }
{
    let Some(engine) = slot.take(alloc) else {
        return WRONG_SLOT;
    };
    let status = receiver::waiting(&engine, count);
    slot.put(engine);
    status
}

/// Closes a receiver, and gives all its memory back. An empty slot stays empty. WRONG_SLOT: it is another's.
#[unsafe(no_mangle)]
pub extern "C" fn tesla_receiver_close(alloc: Global, slot: &mut Slot) -> u32
    ensures status { result ≡ close_status (held_in slot.old) }
    ensures empty { result ≡ 0 → held_in slot.new ≡ None }
    ensures same { result ≢ 0 → held_in slot.new ≡ held_in slot.old }
{
    let Some(engine) = slot.take(alloc) else {
        return OK;
    };
    if receiver::is_received(&engine) {
        drop(engine);
        return OK;
    }
    slot.put(engine);
    WRONG_SLOT
}

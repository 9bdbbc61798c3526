//! The functions that C calls of a follower. Each number is tested, and at any status but OK, EMPTY and OVER a slot holds what it
//! held.

ghost use Rattle.std.specs.Prelude.{◌≡◌, ◌≢◌, ◌≤◌, ◌++◌, ◌∷◌, [], List, drop};
ghost use Rattle.std.specs.declared.option.Option.TheVariants.{None};
ghost use Rattle.tesla_commit.specs.Parsing.{judged};
ghost use Rattle.tesla_fitting.specs.declared.config.Config.{Config};
ghost use Rattle.tesla_follow.specs.Counted.{waiting_over};
ghost use Rattle.tesla_follow.specs.History.{FollowEntry, entry_of, followed};
ghost use Rattle.tesla_receiver.specs.History.{Arrives, Takes, Ends};
ghost use Rattle.tesla_c.specs.Followers.{HasFollower, HasNone, IsFollowOpened, IsFollowRefused, IsFollowWanting, TellsFollowVerdict, TellsTaken, bad_follow_number, follow_close_status, follow_judged, follow_report_told, follow_status};
ghost use Rattle.tesla_c.specs.Held.{held_in};

use crate::answers::{CPayload, CRefusal};
use crate::follow_opening::{FollowRefusal, bad_follow_number, open};
use crate::follower;
use crate::records::{CFollowReport, CFollowVerdict, CRecord};
use crate::slot::Slot;
use crate::status::{BAD_NUMBER, NO_MEMORY, OK, REFUSED, WRONG_SLOT};
use std::alloc::Global;
use std::marker::Brand;
use std::sync::ledger::Blank;

/// Opens a follower into an empty slot, of the setup that the text spells, in which no two commitments are equal. The lag is in
/// microseconds; the capacity is 1 to 4,096 packets of each epoch and messages that wait, the quota 1 to the capacity, and there
/// is one ingest at least. All memory is taken here. The first that applies is told: WRONG_SLOT, BAD_NUMBER with the number's
/// place among the parameters, REFUSED with the line and the kind, NO_MEMORY.
#[unsafe(no_mangle)]
pub extern "C" fn tesla_follower_open(
    alloc: Global,
    slot: &mut Slot,
    text: &[u8],
    lag: i64,
    capacity: u32,
    quota: u32,
    ingests: u8,
    refusal: &mut CRefusal,
) -> u32
    ensures opened { result ≡ 0 → IsFollowOpened (follow_judged (judged text.now)) lag capacity quota ingests (held_in slot.new) }
    ensures refused { result ≡ 1 → IsFollowRefused (follow_judged (judged text.now)) refusal.new }
    ensures number { result ≡ 2 → (bad_follow_number capacity quota ingests ≢ 0) × (refusal.new.line ≡ bad_follow_number capacity quota ingests) }
    ensures memory { result ≡ 3 → IsFollowWanting (follow_judged (judged text.now)) }
    ensures wrong { result ≡ 4 → held_in slot.old ≢ None }
    ensures empty { result ≢ 4 → held_in slot.old ≡ None }
    ensures within { result ≢ 4 → result ≢ 2 → bad_follow_number capacity quota ingests ≡ 0 }
    ensures same { result ≢ 0 → held_in slot.new ≡ held_in slot.old }
{
    if let Some(engine) = slot.take(alloc) {
        slot.put(engine);
        return WRONG_SLOT;
    }
    let bad = bad_follow_number(capacity, quota, ingests);
    if bad != 0 {
        *refusal = CRefusal { line: bad, kind: 0 };
        return BAD_NUMBER;
    }
    match open(alloc, text, lag, capacity, quota, ingests) {
        Ok(engine) => {
            slot.put(engine);
            OK
        }
        Err(FollowRefusal::Text(why)) => {
            *refusal = why;
            REFUSED
        }
        Err(FollowRefusal::NoMemory) => NO_MEMORY,
    }
}

/// Judges a datagram of an ingest, with the reading of the receiver's clock in microseconds, in the epoch of its stream. It takes
/// no memory. WRONG_SLOT: it isn't a follower's. SPENT: 2^63 calls were made.
#[unsafe(no_mangle)]
pub extern "C" fn tesla_follower_arrive(
    alloc: Global,
    slot: &mut Slot,
    ingest: u8,
    reading: u64,
    datagram: &[u8],
    verdict: &mut CFollowVerdict,
) -> u32
    ensures status { result ≡ follow_status (held_in slot.old) }
    ensures answer { result ≡ 0 → (config : Config) → (h : List FollowEntry) → HasFollower (held_in slot.old) config h → TellsFollowVerdict (entry_of config (followed config h) (Arrives ingest reading datagram.now)) verdict.new }
    ensures stands { result ≡ 0 → (config : Config) → (h : List FollowEntry) → HasFollower (held_in slot.old) config h → HasFollower (held_in slot.new) config (h ++ entry_of config (followed config h) (Arrives ingest reading datagram.now) ∷ []) }
    ensures same { result ≢ 0 → (held_in slot.new ≡ held_in slot.old) × (verdict.new ≡ verdict.old) }
{
    let Some(mut engine) = slot.take(alloc) else {
        return WRONG_SLOT;
    };
    let status = follower::arrive::<Brand>(
        &mut engine,
        ingest,
        reading,
        datagram,
        verdict,
        Blank::new(1),
    );
    slot.put(engine);
    status
}

/// Gives the next record: a message that was accepted on arrival or a released packet, in turn where both are there. It tells
/// its head, and its payload at the start of the room, of which the rest stays as it was. It takes no memory. EMPTY: none waits
/// now. OVER: none waits, and every ingest has ended. WRONG_SLOT, SPENT: as of an arrival.
#[unsafe(no_mangle)]
pub extern "C" fn tesla_follower_take(
    alloc: Global,
    slot: &mut Slot,
    releaser: u8,
    payload: &mut CPayload,
    written: &mut CRecord,
) -> u32
    ensures refused { follow_status (held_in slot.old) ≢ 0 → (result ≡ follow_status (held_in slot.old)) × (held_in slot.new ≡ held_in slot.old) }
    ensures counted { follow_status (held_in slot.old) ≡ 0 → (result ≢ 4) × (result ≢ 5) }
    ensures answer { (config : Config) → (h : List FollowEntry) → HasFollower (held_in slot.old) config h → result ≢ 5 → TellsTaken (entry_of config (followed config h) (Takes releaser)) result written.new payload.new.bytes }
    ensures stands { (config : Config) → (h : List FollowEntry) → HasFollower (held_in slot.old) config h → result ≢ 5 → HasFollower (held_in slot.new) config (h ++ entry_of config (followed config h) (Takes releaser) ∷ []) }
    ensures written { result ≢ 0 → (written.new ≡ written.old) × (payload.new ≡ payload.old) }
    ensures behind { result ≡ 0 → (written.new.length ≤ 1200) × (drop written.new.length payload.new.bytes ≡ drop written.new.length payload.old.bytes) }
{
    let Some(mut engine) = slot.take(alloc) else {
        return WRONG_SLOT;
    };
    let status = follower::take(&mut engine, releaser, payload, written);
    slot.put(engine);
    status
}

/// Ends an ingest in every open epoch, and in those that are opened later. It takes no memory. WRONG_SLOT, SPENT: as of an
/// arrival.
#[unsafe(no_mangle)]
pub extern "C" fn tesla_follower_end(alloc: Global, slot: &mut Slot, ingest: u8) -> u32
    ensures status { result ≡ follow_status (held_in slot.old) }
    ensures stands { result ≡ 0 → (config : Config) → (h : List FollowEntry) → HasFollower (held_in slot.old) config h → HasFollower (held_in slot.new) config (h ++ entry_of config (followed config h) (Ends ingest) ∷ []) }
    ensures same { result ≢ 0 → held_in slot.new ≡ held_in slot.old }
{
    let Some(mut engine) = slot.take(alloc) else {
        return WRONG_SLOT;
    };
    let status = follower::end(&mut engine, ingest);
    slot.put(engine);
    status
}

/// Tells the counts of the history, over all epochs. WRONG_SLOT: it isn't a follower's.
#[unsafe(no_mangle)]
pub extern "C" fn tesla_follower_report(
    alloc: Global,
    slot: &mut Slot,
    report: &mut CFollowReport,
) -> u32
    ensures wrong { HasNone (held_in slot.old) → result ≡ 4 }
    ensures value { (config : Config) → (h : List FollowEntry) → HasFollower (held_in slot.old) config h → (result ≡ 0) × (report.new ≡ follow_report_told (followed config h)) }
    ensures told { result ≢ 0 → report.new ≡ report.old }
    ensures same { held_in slot.new ≡ held_in slot.old }
{
    let Some(engine) = slot.take(alloc) else {
        return WRONG_SLOT;
    };
    let status = follower::report(&engine, report);
    slot.put(engine);
    status
}

/// Tells how many messages and packets wait to be taken. WRONG_SLOT: it isn't a follower's.
#[unsafe(no_mangle)]
pub extern "C" fn tesla_follower_waiting(alloc: Global, slot: &mut Slot, count: &mut u64) -> u32
    ensures wrong { HasNone (held_in slot.old) → result ≡ 4 }
    ensures value { (config : Config) → (h : List FollowEntry) → HasFollower (held_in slot.old) config h → (result ≡ 0) × (count.new ≡ waiting_over (followed config h)) }
    ensures told { result ≢ 0 → count.new ≡ count.old }
    ensures same { held_in slot.new ≡ held_in slot.old }
{
    let Some(engine) = slot.take(alloc) else {
        return WRONG_SLOT;
    };
    let status = follower::waiting(&engine, count);
    slot.put(engine);
    status
}

/// Closes a follower, and gives all its memory back. An empty slot stays empty. WRONG_SLOT: it is another's.
#[unsafe(no_mangle)]
pub extern "C" fn tesla_follower_close(alloc: Global, slot: &mut Slot) -> u32
    ensures status { result ≡ follow_close_status (held_in slot.old) }
    ensures empty { result ≡ 0 → held_in slot.new ≡ None }
    ensures same { result ≢ 0 → held_in slot.new ≡ held_in slot.old }
{
    let Some(engine) = slot.take(alloc) else {
        return OK;
    };
    if follower::is_followed(&engine) {
        drop(engine);
        return OK;
    }
    slot.put(engine);
    WRONG_SLOT
}

//! Calls of a follower that was opened.

ghost use Rattle.std.specs.Prelude.{◌≡◌, ◌≢◌, ◌<◌, ◌≤◌, ◌++◌, ◌∷◌, [], List, drop};
ghost use Rattle.tesla_fitting.specs.declared.config.Config.{Config};
ghost use Rattle.tesla_follow.specs.Counted.{waiting_over};
ghost use Rattle.tesla_follow.specs.History.{FollowEntry, entry_of, followed};
ghost use Rattle.tesla_receiver.specs.History.{Arrives, Takes, Ends};
ghost use Rattle.tesla_c.specs.Followers.{IsFollower, TellsFollowVerdict, TellsTaken, follow_report_told, followed_status, is_followed};

use crate::answers::CPayload;
use crate::engine::Engine;
use crate::records::{
    CFollowReport, CFollowVerdict, CRecord, follow_counts, follow_told, record_of,
};
use crate::status::{EMPTY, OK, OVER, SPENT, WRONG_SLOT};
use std::sync::ledger::{Blank, Ledger};
use tesla_base::Steps;
use tesla_follow::{FollowTake, Follower};

/// From so many calls on none is counted any more: 2^63.
const MOST_CALLS: u64 = 0x8000_0000_0000_0000;

/// An arrival, with a ledger for its evaluations of HMAC.
pub(crate) fn arrive<L: Ledger>(
    engine: &mut Engine,
    ingest: u8,
    reading: u64,
    datagram: &[u8],
    verdict: &mut CFollowVerdict,
    blank: Blank,
) -> u32
    requires name { blank.name ≡ L.name }
    requires parts { blank.parts ≡ L.parts }
    requires some { 0 < L.parts }
    ensures status { result ≡ followed_status engine.old }
    ensures answer { result ≡ 0 → (config : Config) → (h : List FollowEntry) → IsFollower engine.old config h → TellsFollowVerdict (entry_of config (followed config h) (Arrives ingest reading datagram.now)) verdict.new }
    ensures stands { result ≡ 0 → (config : Config) → (h : List FollowEntry) → IsFollower engine.old config h → IsFollower engine.new config (h ++ entry_of config (followed config h) (Arrives ingest reading datagram.now) ∷ []) }
    ensures same { result ≢ 0 → (engine.new ≡ engine.old) × (verdict.new ≡ verdict.old) }
{
    let Engine::Following(follower) = engine else {
        return WRONG_SLOT;
    };
    if follower.calls() >= MOST_CALLS {
        return SPENT;
    }
    let mut steps = Steps::<L>::new(blank);
    *verdict = follow_told(follower.arrive(ingest, reading, datagram, &mut steps));
    OK
}

/// A take.
pub(crate) fn take(
    engine: &mut Engine,
    releaser: u8,
    payload: &mut CPayload,
    written: &mut CRecord,
) -> u32
    ensures refused { followed_status engine.old ≢ 0 → result ≡ followed_status engine.old }
    ensures counted { followed_status engine.old ≡ 0 → (result ≢ 4) × (result ≢ 5) }
    ensures answer { (config : Config) → (h : List FollowEntry) → IsFollower engine.old config h → result ≢ 5 → TellsTaken (entry_of config (followed config h) (Takes releaser)) result written.new payload.new.bytes }
    ensures stands { (config : Config) → (h : List FollowEntry) → IsFollower engine.old config h → result ≢ 5 → IsFollower engine.new config (h ++ entry_of config (followed config h) (Takes releaser) ∷ []) }
    ensures same { followed_status engine.old ≢ 0 → engine.new ≡ engine.old }
    ensures written { result ≢ 0 → (written.new ≡ written.old) × (payload.new ≡ payload.old) }
    ensures behind { result ≡ 0 → (written.new.length ≤ 1200) × (drop written.new.length payload.new.bytes ≡ drop written.new.length payload.old.bytes) }
{
    let Engine::Following(follower) = engine else {
        return WRONG_SLOT;
    };
    if follower.calls() >= MOST_CALLS {
        return SPENT;
    }
    match follower.take(releaser, &mut payload.bytes) {
        FollowTake::Released { epoch, head, .. } => {
            *written = record_of(0, epoch, &head);
            OK
        }
        FollowTake::Early { epoch, head } => {
            *written = record_of(1, epoch, &head);
            OK
        }
        FollowTake::Empty => EMPTY,
        FollowTake::Over => OVER,
    }
}

/// The end of an ingest.
pub(crate) fn end(engine: &mut Engine, ingest: u8) -> u32
    ensures status { result ≡ followed_status engine.old }
    ensures stands { result ≡ 0 → (config : Config) → (h : List FollowEntry) → IsFollower engine.old config h → IsFollower engine.new config (h ++ entry_of config (followed config h) (Ends ingest) ∷ []) }
    ensures same { result ≢ 0 → engine.new ≡ engine.old }
{
    let Engine::Following(follower) = engine else {
        return WRONG_SLOT;
    };
    if follower.calls() >= MOST_CALLS {
        return SPENT;
    }
    follower.end(ingest);
    OK
}

/// The counts of the history.
pub(crate) fn report(engine: &Engine, report: &mut CFollowReport) -> u32
    ensures wrong { followed_status engine.now ≡ 4 → result ≡ 4 }
    ensures value { (config : Config) → (h : List FollowEntry) → IsFollower engine.now config h → (result ≡ 0) × (report.new ≡ follow_report_told (followed config h)) }
    ensures same { result ≢ 0 → report.new ≡ report.old }
{
    let Engine::Following(follower) = engine else {
        return WRONG_SLOT;
    };
    *report = follow_counts(follower);
    OK
}

/// How many messages and packets wait to be given.
pub(crate) fn waiting(engine: &Engine, count: &mut u64) -> u32
    ensures wrong { followed_status engine.now ≡ 4 → result ≡ 4 }
    ensures value { (config : Config) → (h : List FollowEntry) → IsFollower engine.now config h → (result ≡ 0) × (count.new ≡ waiting_over (followed config h)) }
    ensures same { result ≢ 0 → count.new ≡ count.old }
{
    let Engine::Following(follower) = engine else {
        return WRONG_SLOT;
    };
    *count = follower.waiting();
    OK
}

/// Whether what was opened is a follower.
pub(crate) fn is_followed(engine: &Engine) -> bool
    ensures { result ≡ is_followed engine.now }
{
    match engine {
        Engine::Following(_) => true,
        Engine::Receiving(_) => false,
        Engine::Sending(_) => false,
    }
}

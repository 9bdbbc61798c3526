//! Calls of a receiver that was opened.

ghost use Rattle.std.specs.Prelude.{◌≡◌, ◌≢◌, ◌+◌, ◌-◌, ◌^◌, ◌<◌, ◌++◌, ◌∷◌, [], List, if◌then◌else◌, ◌==◌};
ghost use Rattle.tesla_fitting.specs.declared.config.Config.{Config};
ghost use Rattle.tesla_receiver.specs.Entries.{Entry};
ghost use Rattle.tesla_receiver.specs.Events.{waiting_in};
ghost use Rattle.tesla_receiver.specs.History.{Arrives, Takes, Ends, entry_of, reply_to};
ghost use Rattle.tesla_receiver.specs.Stands.{Stands};
ghost use Rattle.tesla_receiver.specs.Report.{report_of};
ghost use Rattle.tesla_c.specs.Told.{report_told};
ghost use Rattle.tesla_c.specs.Receivers.{IsReceiver, TellsReply, TellsVerdict, counted_status, is_received};

use crate::answers::{CHead, CPayload, CReport, CVerdict, counts_of, head_of, told};
use crate::engine::Engine;
use crate::status::{EMPTY, OK, OVER, SPENT, WRONG_SLOT};
use std::sync::ledger::{Blank, Ledger};
use tesla_base::Steps;
use tesla_receiver::{Receiver, Take};

/// An arrival, with a ledger for its evaluations of HMAC.
pub(crate) fn arrive<L: Ledger>(
    engine: &mut Engine,
    ingest: u8,
    reading: u64,
    datagram: &[u8],
    verdict: &mut CVerdict,
    blank: Blank,
) -> u32
    requires name { blank.name ≡ L.name }
    requires parts { blank.parts ≡ L.parts }
    requires some { 0 < L.parts }
    ensures status { result ≡ counted_status engine.old }
    ensures answer { result ≡ 0 → (config : Config) → (h : List Entry) → IsReceiver engine.old config h → TellsVerdict (entry_of config h (Arrives ingest reading datagram.now)) verdict.new }
    ensures stands { result ≡ 0 → (config : Config) → (h : List Entry) → IsReceiver engine.old config h → IsReceiver engine.new config (h ++ entry_of config h (Arrives ingest reading datagram.now) ∷ []) }
    ensures same { result ≢ 0 → (engine.new ≡ engine.old) × (verdict.new ≡ verdict.old) }
{
    let Engine::Receiving(receiver) = engine else {
        return WRONG_SLOT;
    };
    if receiver.calls() == u64::MAX {
        return SPENT;
    }
    let mut steps = Steps::<L>::new(blank);
    *verdict = told(receiver.arrive(ingest, reading, datagram, &mut steps));
    OK
}

// A take of a receiver.
fn take_from(receiver: &mut Receiver, releaser: u8, payload: &mut CPayload, head: &mut CHead) -> u32
    ensures spent { result ≡ 5 → receiver.old.calls ≡ 2 ^ 64 - 1 }
    ensures answer { result ≢ 5 → (h : List Entry) → Stands receiver.old h → TellsReply (reply_to receiver.old.config h) result head.new payload.new.bytes }
    ensures stands { result ≢ 5 → (h : List Entry) → Stands receiver.old h → Stands receiver.new (h ++ entry_of receiver.old.config h (Takes releaser) ∷ []) }
    ensures config { receiver.new.config ≡ receiver.old.config }
    ensures same { result ≡ 5 → (receiver.new ≡ receiver.old) × (payload.new ≡ payload.old) }
    ensures head { result ≢ 0 → head.new ≡ head.old }
    ensures other { result ≢ 4 }
{
    if receiver.calls() == u64::MAX {
        return SPENT;
    }
    match receiver.take(releaser, &mut payload.bytes) {
        Take::Given(given) => {
            *head = head_of(&given);
            OK
        }
        Take::Empty => EMPTY,
        Take::Over => OVER,
    }
}

/// A take.
#[tactic(auto, using(crate::proofs::Standing::taken_stands))]
pub(crate) fn take(
    engine: &mut Engine,
    releaser: u8,
    payload: &mut CPayload,
    head: &mut CHead,
) -> u32
    ensures wrong { counted_status engine.old ≡ 4 → result ≡ 4 }
    ensures spent { result ≡ 5 → counted_status engine.old ≡ 5 }
    ensures other { result ≡ 4 → counted_status engine.old ≡ 4 }
    ensures answer { result ≢ 5 → (config : Config) → (h : List Entry) → IsReceiver engine.old config h → TellsReply (reply_to config h) result head.new payload.new.bytes }
    ensures stands { result ≢ 5 → (config : Config) → (h : List Entry) → IsReceiver engine.old config h → IsReceiver engine.new config (h ++ entry_of config h (Takes releaser) ∷ []) }
    ensures same { result ≡ 5 → (engine.new ≡ engine.old) × (payload.new ≡ payload.old) }
    ensures none { result ≡ 4 → (engine.new ≡ engine.old) × (payload.new ≡ payload.old) }
    ensures head { result ≢ 0 → head.new ≡ head.old }
{
    match engine {
        Engine::Receiving(receiver) => take_from(receiver, releaser, payload, head),
        _ => WRONG_SLOT,
    }
}

/// The end of an ingest.
pub(crate) fn end(engine: &mut Engine, ingest: u8) -> u32
    ensures status { result ≡ counted_status engine.old }
    ensures stands { result ≡ 0 → (config : Config) → (h : List Entry) → IsReceiver engine.old config h → IsReceiver engine.new config (h ++ entry_of config h (Ends ingest) ∷ []) }
    ensures same { result ≢ 0 → engine.new ≡ engine.old }
{
    let Engine::Receiving(receiver) = engine else {
        return WRONG_SLOT;
    };
    if receiver.calls() == u64::MAX {
        return SPENT;
    }
    receiver.end(ingest);
    OK
}

/// The counts of the history.
pub(crate) fn report(engine: &Engine, report: &mut CReport) -> u32
    ensures wrong { counted_status engine.now ≡ 4 → result ≡ 4 }
    ensures value { (config : Config) → (h : List Entry) → IsReceiver engine.now config h → (result ≡ 0) × (report.new ≡ report_told (report_of h)) }
    ensures same { result ≢ 0 → report.new ≡ report.old }
{
    let Engine::Receiving(receiver) = engine else {
        return WRONG_SLOT;
    };
    *report = counts_of(&receiver.report());
    OK
}

/// How many released packets wait to be taken.
pub(crate) fn waiting(engine: &Engine, count: &mut u64) -> u32
    ensures wrong { counted_status engine.now ≡ 4 → result ≡ 4 }
    ensures value { (config : Config) → (h : List Entry) → IsReceiver engine.now config h → (result ≡ 0) × (count.new ≡ waiting_in config h) }
    ensures same { result ≢ 0 → count.new ≡ count.old }
{
    let Engine::Receiving(receiver) = engine else {
        return WRONG_SLOT;
    };
    *count = receiver.waiting();
    OK
}

/// Whether what was opened is a receiver.
pub(crate) fn is_received(engine: &Engine) -> bool
    ensures { result ≡ is_received engine.now }
{
    match engine {
        Engine::Receiving(_) => true,
        Engine::Sending(_) => false,
        Engine::Following(_) => false,
    }
}

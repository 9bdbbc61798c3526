//! The receiver of a load, by what was played to it.

ghost use Rattle.std.specs.Prelude.{◌≡◌, ◌+◌, ◌^◌, ◌<◌, ◌≤◌, ◌++◌, ◌∷◌, [], List, true, replicate};
ghost use Rattle.tesla_capture.specs.Capture.{Record, Arrives};
ghost use Rattle.tesla_capture.specs.Capture as captures;
ghost use Rattle.tesla_fitting.specs.declared.config.Config.{Config};
ghost use Rattle.tesla_receiver.specs.Entries.{Entry};
ghost use Rattle.tesla_receiver.specs.History.{Takes};
ghost use Rattle.tesla_replay.specs.Played.{played};
ghost use Rattle.tesla_receiver.specs.Events.{after_events};
ghost use Rattle.tesla_receiver.specs.Report.{report_of};
ghost use Rattle.tesla_receiver.specs.Stands.{Stands};
ghost use Rattle.tesla_run_stress.specs.Load.{altered_at, arrival_of, arrivals_chosen, others_chosen};
ghost use Rattle.tesla_run_stress.specs.Steps.{HasPlayed};

use crate::choices::{offset_chosen, reading_chosen, reading_of};
use crate::frames::FrameText;
use std::sync::ledger::Ledger;
use tesla_base::{MOST_PAYLOAD, Steps};
use tesla_receiver::{Receiver, Report};

/// The choice by which a frame comes twice.
const TWICE: u32 = 2;

/// The choice by which an earlier frame comes again.
const AGAIN: u32 = 14;

/// Plays an arrival.
pub fn play_arrival<L: Ledger>(
    receiver: &mut Receiver,
    reading: u64,
    datagram: &[u8],
    steps: &mut Steps<L>,
)
    requires { receiver.old.calls + 1 < 2 ^ 64 }
    ensures played { (cfg : Config) (records : List Record) → HasPlayed cfg records receiver.old → HasPlayed cfg (records ++ Arrives reading datagram.now ∷ []) receiver.new }
    ensures calls { receiver.new.calls ≡ receiver.old.calls + 1 }
{
    // The receiver counts the verdict.
    let _ = receiver.arrive(0, reading, datagram, steps);
}

/// Plays a take.
pub fn play_take(receiver: &mut Receiver, payload: &mut [u8; MOST_PAYLOAD])
    requires { receiver.old.calls + 1 < 2 ^ 64 }
    ensures played { (cfg : Config) (records : List Record) → HasPlayed cfg records receiver.old → HasPlayed cfg (records ++ captures.Takes ∷ []) receiver.new }
    ensures calls { receiver.new.calls ≡ receiver.old.calls + 1 }
{
    // The receiver counts what was given.
    let _ = receiver.take(0, payload);
}

// Alters the byte at a place by exclusive or with 1, where there is one.
fn alter(frame: &mut [u8], offset: Option<usize>)
    ensures { frame.new ≡ altered_at offset frame.old }
{
    if let Some(offset) = offset {
        if offset < frame.len() {
            frame[offset] ^= 1;
        }
    }
}

// Plays the arrival of a frame that was kept, where there is one.
fn play_kept<L: Ledger>(
    receiver: &mut Receiver,
    reading: u64,
    kept: Option<FrameText>,
    steps: &mut Steps<L>,
)
    requires { receiver.old.calls + 1 < 2 ^ 64 }
    ensures played { (cfg : Config) (records : List Record) → HasPlayed cfg records receiver.old → HasPlayed cfg (records ++ arrival_of reading kept) receiver.new }
    ensures calls { receiver.new.calls ≤ receiver.old.calls + 1 }
{
    if let Some(frame) = kept {
        play_arrival(receiver, reading, frame.as_slice(), steps);
    }
}

// Plays what a number chooses to come behind the frame of message `k`: the frame once more, or that of message `k - 30`.
fn play_others<L: Ledger>(
    receiver: &mut Receiver,
    choice: u32,
    k: u32,
    frame: &[u8],
    before: Option<FrameText>,
    steps: &mut Steps<L>,
)
    requires { receiver.old.calls + 1 < 2 ^ 64 }
    ensures played { (cfg : Config) (records : List Record) → HasPlayed cfg records receiver.old → HasPlayed cfg (records ++ others_chosen choice k frame.now before) receiver.new }
    ensures calls { receiver.new.calls ≤ receiver.old.calls + 1 }
{
    if choice == TWICE {
        play_arrival(receiver, reading_of(k), frame, steps);
        return;
    }
    if choice == AGAIN {
        play_kept(receiver, reading_of(k), before, steps);
    }
}

/// Plays the arrivals that a number chooses for message `k`, of which this is the frame, and that the one of message
/// `k - 30`. The frame is altered where it stands.
pub fn play_arrivals<L: Ledger>(
    receiver: &mut Receiver,
    choice: u32,
    k: u32,
    frame: &mut [u8],
    before: Option<FrameText>,
    steps: &mut Steps<L>,
)
    requires { receiver.old.calls + 2 < 2 ^ 64 }
    ensures played { (cfg : Config) (records : List Record) → HasPlayed cfg records receiver.old → HasPlayed cfg (records ++ arrivals_chosen choice k frame.old before) receiver.new }
    ensures calls { receiver.new.calls ≤ receiver.old.calls + 2 }
{
    if choice < 2 {
        return;
    }
    alter(frame, offset_chosen(choice, k));
    play_arrival(receiver, reading_chosen(choice, k), frame, steps);
    play_others(receiver, choice, k, frame, before, steps);
}

// Takes so many times.
fn take_times(receiver: &mut Receiver, times: u64, payload: &mut [u8; MOST_PAYLOAD])
    requires { receiver.old.calls + times < 2 ^ 64 }
    ensures stands { (h : List Entry) → Stands receiver.old h → Stands receiver.new (after_events receiver.old.config h (replicate times (Takes 0))) }
{
    for _ in 0..times {
        let _ = receiver.take(0, payload);
    }
}

/// Plays the end of the datagrams, and takes up to the first that is over, and gives the report of all that was played.
pub fn finish(receiver: &mut Receiver, payload: &mut [u8; MOST_PAYLOAD]) -> Report
    requires { receiver.old.calls < 2 ^ 62 }
    ensures { (cfg : Config) (records : List Record) → HasPlayed cfg records receiver.old → result ≡ report_of (played cfg records true) }
{
    let waiting = receiver.waiting();
    receiver.end(0);
    take_times(receiver, waiting + 1, payload);
    receiver.report()
}

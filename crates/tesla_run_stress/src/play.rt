//! A load that is made and played.

ghost use Rattle.std.specs.Prelude.{◌≡◌, ℕ, ◌+◌, ◌*◌, ◌<◌, ◌≤◌, List, [], ◌++◌, IfOk, true};
ghost use Rattle.tesla_capture.specs.Capture.{Record};
ghost use Rattle.tesla_fitting.specs.declared.config.Config.{Config};
ghost use Rattle.tesla_replay.specs.Played.{played};
ghost use Rattle.tesla_receiver.specs.Report.{report_of};
ghost use Rattle.tesla_run_stress.specs.Base.{base_config, base_stream};
ghost use Rattle.tesla_run_stress.specs.Load.{choice_at, load, records_of, records_to};
ghost use Rattle.tesla_run_stress.specs.Steps.{HasPlayed, HasSent, Keeps};

use crate::base::{base_seeds, base_setup, last_of};
use crate::choices::{end_reading, next_number};
use crate::messages::Messages;
use crate::player::{finish, play_arrival, play_arrivals, play_take};
use std::alloc::Global;
use std::marker::Brand;
use std::sync::ledger::{Blank, Ledger};
use tesla_base::{MOST_DATAGRAM, MOST_PAYLOAD, NoMemory, Steps};
use tesla_receiver::{Receiver, Report};

/// The sender and the receiver of a load.
#[derive(Drop)]
struct Parties {
    messages: Messages,
    receiver: Receiver,
}

/// The rooms for a frame and for a payload that is given.
#[derive(Drop)]
struct Rooms {
    frame: [u8; MOST_DATAGRAM],
    payload: [u8; MOST_PAYLOAD],
}

/// Makes the load of this seed and of so many messages, plays it to a receiver, and gives the report.
///
/// The sender makes ten messages in each interval, and at the end a disclosure. Of each message a number chooses what
/// comes to the receiver: nothing; its frame, also twice, altered, late or early; or an earlier frame too. One take
/// follows. The records aren't kept: at any time there are the frame that was made last, and the 30 before it.
///
/// `NoMemory`: there wasn't enough, before the first message. All memory is taken there.
pub fn play_load(alloc: Global, seed: u16, count: u32) -> Result<Report, NoMemory>
    requires some { 1 ≤ count }
    requires most { count ≤ 100000 }
    ensures { IfOk result (λ report. report ≡ report_of (played (base_config count) (load (base_stream count) seed count) true)) }
{
    play_counted::<Brand>(alloc, seed, count, Blank::new(1))
}

// The same, with a ledger for its evaluations of HMAC.
fn play_counted<L: Ledger>(
    alloc: Global,
    seed: u16,
    count: u32,
    blank: Blank,
) -> Result<Report, NoMemory>
    requires name { blank.name ≡ L.name }
    requires parts { blank.parts ≡ L.parts }
    requires positive { 0 < L.parts }
    requires some { 1 ≤ count }
    requires most { count ≤ 100000 }
    ensures { IfOk result (λ report. report ≡ report_of (played (base_config count) (load (base_stream count) seed count) true)) }
{
    let mut steps = Steps::<L>::new(blank);
    let parties = open(alloc, count, &mut steps)?;
    Ok(play(parties, seed, &mut steps))
}

// The sender and the receiver of so many messages. All memory is taken here.
fn open<L: Ledger>(alloc: Global, count: u32, steps: &mut Steps<L>) -> Result<Parties, NoMemory>
    requires some { 1 ≤ count }
    requires most { count ≤ 100000 }
    ensures count { IfOk result (λ parties. parties.messages.count ≡ count) }
    ensures sent { IfOk result (λ parties. HasSent count 0 parties.messages.sender) }
    ensures kept { IfOk result (λ parties. Keeps count 0 parties.messages.kept) }
    ensures played { IfOk result (λ parties. HasPlayed (base_config count) [] parties.receiver) }
    ensures calls { IfOk result (λ parties. parties.receiver.calls ≡ 0) }
{
    let seeds = base_seeds(alloc)?;
    let setup = base_setup(alloc, last_of(count), &seeds, steps)?;
    let copy = setup.copy(alloc)?;
    let receiver = Receiver::open(alloc, copy, 30_000, 32, 32, 1)?;
    let messages = Messages::open(alloc, count, setup, &seeds, steps)?;
    Ok(Parties { messages, receiver })
}

// Makes message `k`, and plays what the number chooses for it, and a take.
fn play_message<L: Ledger>(
    parties: &mut Parties,
    k: u32,
    choice: u32,
    rooms: &mut Rooms,
    steps: &mut Steps<L>,
)
    requires within { k < parties.old.messages.count }
    requires most { parties.old.messages.count ≤ 100000 }
    requires sent { HasSent parties.old.messages.count k parties.old.messages.sender }
    requires kept { Keeps parties.old.messages.count k parties.old.messages.kept }
    requires calls { parties.old.receiver.calls ≤ 3 * k }
    ensures count { parties.new.messages.count ≡ parties.old.messages.count }
    ensures sent { HasSent parties.new.messages.count (k + 1) parties.new.messages.sender }
    ensures kept { Keeps parties.new.messages.count (k + 1) parties.new.messages.kept }
    ensures played { (cfg : Config) (records : List Record) (seed : ℕ) → choice ≡ choice_at seed k → HasPlayed cfg records parties.old.receiver →
        HasPlayed cfg (records ++ records_of (base_stream parties.new.messages.count) seed k) parties.new.receiver }
    ensures calls { parties.new.receiver.calls ≤ 3 * (k + 1) }
{
    let length = parties.messages.send(k, &mut rooms.frame, steps);
    let frame = &mut rooms.frame[..length];
    let before = parties.messages.keep(k, frame);
    play_arrivals(&mut parties.receiver, choice, k, frame, before, steps);
    play_take(&mut parties.receiver, &mut rooms.payload);
}

// Makes and plays all messages.
fn play_messages<L: Ledger>(
    parties: &mut Parties,
    seed: u16,
    rooms: &mut Rooms,
    steps: &mut Steps<L>,
)
    requires most { parties.old.messages.count ≤ 100000 }
    requires sent { HasSent parties.old.messages.count 0 parties.old.messages.sender }
    requires kept { Keeps parties.old.messages.count 0 parties.old.messages.kept }
    requires calls { parties.old.receiver.calls ≡ 0 }
    ensures count { parties.new.messages.count ≡ parties.old.messages.count }
    ensures sent { HasSent parties.new.messages.count parties.new.messages.count parties.new.messages.sender }
    ensures played { (cfg : Config) → HasPlayed cfg [] parties.old.receiver →
        HasPlayed cfg (records_to (base_stream parties.new.messages.count) seed parties.new.messages.count) parties.new.receiver }
    ensures calls { parties.new.receiver.calls ≤ 3 * parties.new.messages.count }
{
    let mut number = u32::from(seed);
    for k in 0..parties.messages.count {
        number = next_number(number);
        play_message(parties, k, number % 16, rooms, steps);
    }
}

// Makes and plays all messages and the disclosure, and gives the report.
fn play<L: Ledger>(mut parties: Parties, seed: u16, steps: &mut Steps<L>) -> Report
    requires some { 1 ≤ parties.messages.count }
    requires most { parties.messages.count ≤ 100000 }
    requires sent { HasSent parties.messages.count 0 parties.messages.sender }
    requires kept { Keeps parties.messages.count 0 parties.messages.kept }
    requires calls { parties.receiver.calls ≡ 0 }
    ensures { (cfg : Config) → HasPlayed cfg [] parties.receiver →
        result ≡ report_of (played cfg (load (base_stream parties.messages.count) seed parties.messages.count) true) }
{
    let mut rooms = Rooms {
        frame: [0; MOST_DATAGRAM],
        payload: [0; MOST_PAYLOAD],
    };
    play_messages(&mut parties, seed, &mut rooms, steps);
    let reading = end_reading(last_of(parties.messages.count));
    let length = parties.messages.disclose(reading, &mut rooms.frame, steps);
    play_arrival(
        &mut parties.receiver,
        reading,
        &rooms.frame[..length],
        steps,
    );
    finish(&mut parties.receiver, &mut rooms.payload)
}

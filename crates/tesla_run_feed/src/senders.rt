//! The senders of a list of streams.

ghost use Rattle.std.specs.Prelude.{◌≡◌, ◌+◌, ◌∷◌, ◌++◌, ◌≤◌, [], IfErr, IfOk, drop, length, map, vec_capacity};
ghost use Rattle.tesla_feeds.specs.Later.{last_streams};
ghost use Rattle.tesla_front.specs.OutcomeView.{stop_view};
ghost use Rattle.tesla_run_feed.specs.Feeding.{LackSenders, LacksFirst};
ghost use Rattle.tesla_run_feed.specs.Listing.{HaveSeeds, IsRight, all_times, streams_in, times_in};
ghost use Rattle.tesla_run_feed.specs.Steps.{HandsFirst, OpensFirst};
ghost use Rattle.tesla_run_send.specs.Sender.{IsNoSender, stream_in};
ghost use Rattle.tesla_sender.specs.Stands.{Stands};

use crate::chains::open_side_by_side;
use crate::later::{Later, Shared};
use crate::listing::SeededSetups;
use std::alloc::Global;
use std::sync::Wait;
use std::thread::Threads;
use tesla_base::NoMemory;
use tesla_clock::Schedule;
use tesla_commit::Setup;
use tesla_feeds::{Handover, ListedSender};
use tesla_front::{Fault, Stop};
use tesla_run_send::{SeededSetup, no_sender};
use tesla_sender::Sender;

/// What senders are opened with: memory, and the setups and seeds of their streams.
#[derive(Drop)]
pub struct ListParts {
    pub alloc: Global,
    pub list: SeededSetups,
}

/// The sender of the first stream of a list, the setups and seeds of those behind it, and the intervals of each stream.
#[derive(Drop)]
pub struct FirstSender {
    pub first: ListedSender,
    pub behind: ListParts,
    pub schedules: Vec<Schedule>,
}

/// Opens the sender of the first of these streams; its chains are opened side by side.
///
/// `Refused` with the line of the first of its seeds that doesn't give the key of its setup; `Failed` with `NoMemory`.
pub fn open_first<R: Threads + Sync>(rt: &R, parts: ListParts) -> Result<FirstSender, Stop>
    requires some { 1 ≤ length parts.list.setups.items }
    requires size { length parts.list.setups.items ≤ 16 }
    requires each { length parts.list.seeds.items ≡ length parts.list.setups.items }
    requires have { HaveSeeds (streams_in parts.list) }
    ensures first { IfOk result (λ it. OpensFirst (streams_in parts.list) it.first it.behind.list) }
    ensures schedules { IfOk result (λ it. it.schedules.items ≡ all_times (streams_in parts.list)) }
    ensures refused { IfErr result (λ stop. LacksFirst (streams_in parts.list) (stop_view stop)) }
{
    let ListParts { alloc, mut list } = parts;
    let Ok(schedules) = schedules_of(alloc, list.setups.as_slice()) else {
        return Err(Stop::Failed(Fault::NoMemory));
    };
    let Ok(handover) = first_handover(alloc, list.setups.as_slice()) else {
        return Err(Stop::Failed(Fault::NoMemory));
    };
    let seeded = take_first(&mut list);
    let sender = sender_of(rt, alloc, seeded)?;
    Ok(FirstSender {
        first: ListedSender { sender, handover },
        behind: ListParts { alloc, list },
        schedules,
    })
}

// The intervals of each of these streams.
fn schedules_of(alloc: Global, setups: &[Setup]) -> Result<Vec<Schedule>, NoMemory>
    ensures { IfOk result (λ all. all.items ≡ map times_in setups.now) }
{
    let mut schedules = Vec::with_capacity(alloc, setups.len())?;
    put_schedules(setups, &mut schedules);
    Ok(schedules)
}

// Puts the intervals of each of these streams behind those that are there.
fn put_schedules(setups: &[Setup], schedules: &mut Vec<Schedule>)
    requires room { length schedules.old.items + length setups.now ≤ vec_capacity schedules.old }
    ensures { schedules.new.items ≡ schedules.old.items ++ map times_in setups.now }
{
    if let [setup, setups @ ..] = setups {
        schedules.push_reserved(setup.schedule());
        put_schedules(setups, schedules);
    }
}

// How the first of these streams hands over to the second, where there are two.
fn first_handover(alloc: Global, setups: &[Setup]) -> Result<Option<Handover>, NoMemory>
    ensures { IfOk result (λ handover. HandsFirst handover setups.now) }
{
    let Some((setup, behind)) = setups.split_first() else {
        return Ok(None);
    };
    let handover = match behind.first() {
        Some(next) => Some(Handover::new(alloc, setup, next)?),
        None => None,
    };
    Ok(handover)
}

// Takes the setup and the seeds of the first of these streams.
fn take_first(list: &mut SeededSetups) -> SeededSetup
    requires some { 1 ≤ length list.old.setups.items }
    requires each { length list.old.seeds.items ≡ length list.old.setups.items }
    ensures setups { list.old.setups.items ≡ result.setup ∷ list.new.setups.items }
    ensures seeds { list.old.seeds.items ≡ result.seeds ∷ list.new.seeds.items }
{
    let setup = list.setups.remove(0);
    let seeds = list.seeds.remove(0);
    SeededSetup { setup, seeds }
}

/// Leaves the last so many of these streams.
pub fn keep_last(list: &mut SeededSetups, many: usize)
    requires each { length list.old.seeds.items ≡ length list.old.setups.items }
    ensures each { length list.new.seeds.items ≡ length list.new.setups.items }
    ensures last { streams_in list.new ≡ last_streams many (streams_in list.old) }
{
    if list.setups.len() <= many {
        return;
    }
    take_first(list);
    keep_last(list, many);
}

/// Opens a sender of each of these streams, which are those at this place and behind it, one after another, and hands each over.
/// It ends where one can't be opened, or no more are wanted.
///
/// `Refused` with the line of the first seed that doesn't give the key of its setup; `Failed` with `NoMemory`.
pub fn open_later<R: Threads + Wait + Sync, X: Later>(
    rt: &R,
    alloc: Global,
    list: &mut SeededSetups,
    place: usize,
    shared: &Shared<X>,
) -> Result<(), Stop>
    requires each { length list.old.seeds.items ≡ length list.old.setups.items }
    requires have { HaveSeeds (streams_in list.old) }
    requires few { length X.streams ≤ 16 }
    requires place { streams_in list.old ≡ drop place X.streams }
    ensures { IfErr result (λ stop. LackSenders (streams_in list.old) (stop_view stop)) }
{
    if list.setups.is_empty() || shared.has_ended(rt) {
        return Ok(());
    }
    let seeded = take_first(list);
    let sender = match sender_of(rt, alloc, seeded) {
        Ok(sender) => sender,
        Err(stop) => {
            shared.fail(rt);
            return Err(stop);
        }
    };
    if !shared.put(rt, place, sender) {
        return Err(Stop::Failed(Fault::NoMemory));
    }
    open_later(rt, alloc, list, place + 1, shared)
}

// The sender of a setup with a seed for each of its chains, which are opened side by side.
fn sender_of<R: Threads + Sync>(rt: &R, alloc: Global, seeded: SeededSetup) -> Result<Sender, Stop>
    requires count { length seeded.seeds ≡ length seeded.setup.rows }
    ensures stands { IfOk result (λ sender. Stands sender []) }
    ensures opened { IfOk result (λ sender. (sender.stream ≡ stream_in seeded) × IsRight (stream_in seeded)) }
    ensures refused { IfErr result (λ stop. IsNoSender (stream_in seeded) (stop_view stop)) }
{
    let SeededSetup { setup, seeds } = seeded;
    match open_side_by_side(rt, alloc, setup, &seeds) {
        Ok(sender) => Ok(sender),
        Err(refusal) => Err(no_sender(refusal)),
    }
}

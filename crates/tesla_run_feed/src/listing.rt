//! The setups of a list of streams, with the seeds of each, and what is wrong with them as a list.

ghost use Rattle.std.specs.Prelude.{◌≡◌, ◌+◌, ◌≤◌, [], None, IfErr, IfOk, IfSome, drop, length, map, take, vec_capacity};
ghost use Rattle.std.specs.List.{list_any};
ghost use Rattle.tesla_front.specs.OutcomeView.{stop_view};
ghost use Rattle.tesla_run_feed.specs.Listing.{HaveSeeds, IsPlaced, IsRefusedList, fault_of, fault_with, is_seed_of, list_refused, place_of, share_seeds, shared_from, streams_in, windowless_from};
ghost use Rattle.tesla_run_feed.specs.Steps.{PutsEach, ReadsList, ReadsNoList, ReadsNotEach};

use crate::arguments::Arguments;
use crate::seeds::read_sound;
use std::alloc::Global;
use tesla_base::Key;
use tesla_commit::Setup;
use tesla_desk::Environment;
use tesla_feeds::{Disorder, first_disorder, has_window};
use tesla_front::{Fault, Stop, refused};
use tesla_run_send::SeededSetup;
use tesla_seeds::Seeds;

/// The setups of a list of streams, and the seeds of each.
#[derive(Drop)]
pub struct SeededSetups {
    /// The setups, in the order of the streams.
    pub setups: Vec<Setup>,
    /// As many seeds, each for the chains of the setup at its place.
    pub seeds: Vec<Seeds>,
}

/// What is wrong with streams as a list, with the place of the stream, from 0 on.
#[derive(Clone, Copy, Debug, PartialEq, Eq)]
pub enum ListFault {
    /// Its interval 1 begins before the end of the last interval of the stream in front of it.
    Overlap(usize),
    /// A stream in front of it has the same number.
    UsedStream(usize),
    /// The stream in front of it has no interval whose keys are due before it begins, and so none to hand over to it.
    NoWindow(usize),
    /// It has a seed of a stream in front of it, whose keys tell its own.
    EqualSeeds(usize),
}

/// Reads each of SETUPS, and behind it a seed for each of its chains under that of SECRETS, which is opened after the setup
/// was judged.
///
/// `Refused` with the first refused line of a setup or of seeds, or with the first seed that gives no safety, where no file
/// behind it was opened; or else with the number of the first stream that is wrong in the list, from 1 on: with `setups N Overlap`,
/// `setups N UsedStream`, `setups N NoWindow` or `secrets N EqualSeeds`. `Failed` with `Read` or `Open` exactly where
/// the count of that rose, and with `NoMemory`.
pub fn read_list<D: Environment>(
    alloc: Global,
    arguments: &Arguments<'_>,
    desk: &mut D,
) -> Result<SeededSetups, Stop>
    requires few { length arguments.now.setups ≤ 16 }
    requires each { length arguments.now.secrets ≡ length arguments.now.setups }
    ensures read { IfOk result (λ it. ReadsList arguments.now.setups arguments.now.secrets (streams_in it) (D.told desk.old) (D.told desk.new)) }
    ensures each { IfOk result (λ it. (length it.seeds.items ≡ length it.setups.items) × (length it.setups.items ≡ length arguments.now.setups)) }
    ensures have { IfOk result (λ it. HaveSeeds (streams_in it)) }
    ensures refused { IfErr result (λ stop. ReadsNoList arguments.now.setups arguments.now.secrets (stop_view stop) (D.told desk.old) (D.told desk.new)) }
{
    let setups = arguments.setups.as_slice();
    let Some(mut list) = room_for(alloc, setups.len()) else {
        return Err(Stop::Failed(Fault::NoMemory));
    };
    put_each(alloc, setups, arguments.secrets.as_slice(), &mut list, desk)?;
    match judge(&list) {
        Ok(()) => Ok(list),
        Err(stop) => Err(stop),
    }
}

// No setups, with room for so many. `None`: there is no memory.
fn room_for(alloc: Global, streams: usize) -> Option<SeededSetups>
    ensures { IfSome result (λ it. (it.setups.items ≡ []) × (it.seeds.items ≡ []) × (streams ≤ vec_capacity it.setups) × (streams ≤ vec_capacity it.seeds)) }
{
    let Ok(setups) = Vec::with_capacity(alloc, streams) else {
        return None;
    };
    match Vec::with_capacity(alloc, streams) {
        Ok(seeds) => Some(SeededSetups { setups, seeds }),
        Err(_) => {
            setups.destroy_empty();
            None
        }
    }
}

// Reads each setup with its seeds, and puts them behind those that are there.
fn put_each<D: Environment>(
    alloc: Global,
    setups: &[&str],
    secrets: &[&str],
    list: &mut SeededSetups,
    desk: &mut D,
) -> Result<(), Stop>
    requires each { length secrets.now ≡ length setups.now }
    requires same { length list.old.seeds.items ≡ length list.old.setups.items }
    requires room { (length list.old.setups.items + length setups.now ≤ vec_capacity list.old.setups) × (length list.old.seeds.items + length setups.now ≤ vec_capacity list.old.seeds) }
    ensures puts { IfOk result (λ _. PutsEach (map (λ name. name.now) setups.now) (map (λ name. name.now) secrets.now) (streams_in list.old) (streams_in list.new) (D.told desk.old) (D.told desk.new)) }
    ensures same { length list.new.seeds.items ≡ length list.new.setups.items }
    ensures size { IfOk result (λ _. length list.new.setups.items ≡ length list.old.setups.items + length setups.now) }
    ensures refused { IfErr result (λ stop. ReadsNotEach (map (λ name. name.now) setups.now) (map (λ name. name.now) secrets.now) (stop_view stop) (D.told desk.old) (D.told desk.new)) }
{
    let [setup, setups @ ..] = setups else {
        return Ok(());
    };
    let [secret, secrets @ ..] = secrets else {
        return Ok(());
    };
    let SeededSetup { setup, seeds } = read_sound(alloc, setup, secret, desk)?;
    list.setups.push_reserved(setup);
    list.seeds.push_reserved(seeds);
    put_each(alloc, setups, secrets, list, desk)
}

// Whether the streams are a list. `Refused` with the first of them that is wrong.
fn judge(list: &SeededSetups) -> Result<(), Stop>
    requires few { length list.now.setups.items ≤ 16 }
    requires same { length list.now.seeds.items ≡ length list.now.setups.items }
    ensures fits { IfOk result (λ _. fault_with list.now.setups.items list.now.seeds.items ≡ None) }
    ensures refused { IfErr result (λ stop. IsRefusedList list.now.setups.items list.now.seeds.items (stop_view stop)) }
{
    match first_fault(list.setups.as_slice(), list.seeds.as_slice()) {
        Some(fault) => Err(refusal_of(fault)),
        None => Ok(()),
    }
}

// What is wrong with streams of these setups and seeds as a list.
fn first_fault(setups: &[Setup], seeds: &[Seeds]) -> Option<ListFault>
    requires few { length setups.now ≤ 16 }
    requires same { length seeds.now ≡ length setups.now }
    ensures is { result ≡ fault_with setups.now seeds.now }
    ensures small { IfSome result (λ fault. place_of fault ≤ 16) }
{
    if let Some(disorder) = first_disorder(setups) {
        return Some(fault_of(disorder));
    }
    if let Some(place) = windowless_from(0, setups) {
        return Some(ListFault::NoWindow(place));
    }
    match shared_from(0, seeds) {
        Some(place) => Some(ListFault::EqualSeeds(place)),
        None => None,
    }
}

// What is wrong with the later one of a pair of streams.
fn fault_of(disorder: Disorder) -> ListFault
    requires room { IsPlaced disorder }
    ensures is { result ≡ fault_of disorder }
    ensures small { place_of result ≤ 16 }
{
    match disorder {
        Disorder::Overlap(place) => ListFault::Overlap(place + 1),
        Disorder::SameStream(_, other) => ListFault::UsedStream(other),
    }
}

// The place of the first of these streams to which the one in front of it has no interval to hand over, where they are at this
// place and behind it.
fn windowless_from(place: usize, setups: &[Setup]) -> Option<usize>
    requires room { place + length setups.now ≤ 16 }
    ensures is { result ≡ windowless_from place setups.now }
    ensures small { IfSome result (λ found. found ≤ 16) }
{
    let [setup, behind @ ..] = setups else {
        return None;
    };
    let next = behind.first()?;
    if !has_window(setup, next) {
        return Some(place + 1);
    }
    windowless_from(place + 1, behind)
}

// The place of the first of these seeds of streams, from this place on, that has one of those before it.
fn shared_from(place: usize, seeds: &[Seeds]) -> Option<usize>
    requires few { length seeds.now ≤ 16 }
    requires within { place ≤ length seeds.now }
    ensures is { result ≡ shared_from place (take place seeds.now) (drop place seeds.now) }
    ensures small { IfSome result (λ found. found ≤ 16) }
{
    if place >= seeds.len() {
        return None;
    }
    if is_shared(&seeds[place], &seeds[..place]) {
        return Some(place);
    }
    shared_from(place + 1, seeds)
}

// Whether one of these seeds is among those of one of those streams.
fn is_shared(seeds: &Seeds, before: &[Seeds]) -> bool
    ensures { result ≡ list_any (share_seeds seeds.now) before.now }
{
    match before {
        [others, before @ ..] => {
            share_seeds(seeds.as_slice(), others.as_slice()) || is_shared(seeds, before)
        }
        [] => false,
    }
}

// Whether one of these seeds is among those.
fn share_seeds(seeds: &[Key], others: &[Key]) -> bool
    ensures { result ≡ share_seeds seeds.now others.now }
{
    match seeds {
        [seed, seeds @ ..] => is_among(seed, others) || share_seeds(seeds, others),
        [] => false,
    }
}

// Whether a seed is one of these.
fn is_among(seed: &Key, others: &[Key]) -> bool
    ensures { result ≡ is_seed_of others.now seed.now }
{
    match others {
        [other, others @ ..] => seed.0.as_slice() == other.0.as_slice() || is_among(seed, others),
        [] => false,
    }
}

// The first stream of a list that is wrong, with its number from 1 on, and the cause.
fn refusal_of(fault: ListFault) -> Stop
    requires small { place_of fault ≤ 16 }
    ensures { stop_view result ≡ list_refused fault }
{
    let (status, what, place, kind) = match fault {
        ListFault::Overlap(place) => (2, "setups", place, "Overlap"),
        ListFault::UsedStream(place) => (2, "setups", place, "UsedStream"),
        ListFault::NoWindow(place) => (2, "setups", place, "NoWindow"),
        ListFault::EqualSeeds(place) => (3, "secrets", place, "EqualSeeds"),
    };
    Stop::Refused(refused(status, what, place as u64 + 1, kind))
}

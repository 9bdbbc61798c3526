//! The order of the streams of a list, and when a stream hands over to the next one.

ghost use Rattle.std.specs.Prelude.{◌≡◌, ◌+◌, ◌≤◌, length, max};
ghost use Rattle.tesla_feeds.specs.Order.{begin_of, begins_early, disorder_from, end_of, greatest_delay, has_window, is_in_window, is_told_before, same_number};

use tesla_base::StreamId;
use tesla_clock::Schedule;
use tesla_commit::Setup;

/// How many intervals before the last one of those whose keys are due in time a stream hands over to the next one.
const WINDOW: u64 = 64;

/// What is wrong with the order of a list of streams, by their places from 0 on.
#[derive(Clone, Copy, Debug, PartialEq, Eq)]
pub enum Disorder {
    /// Interval 1 of the stream behind this one begins before the end of its last interval.
    Overlap(usize),
    /// These two streams have the same number.
    SameStream(usize, usize),
}

/// The first pair of these streams that isn't in order, by the first of the two: the streams follow one another, and have
/// different numbers. It takes no memory.
pub fn first_disorder(setups: &[Setup]) -> Option<Disorder>
    requires few { length setups.now ≤ 16 }
    ensures { result ≡ disorder_from 0 setups.now }
{
    disorder_from(0, setups)
}

// The same of streams that are at this place of the list and behind it.
fn disorder_from(place: usize, setups: &[Setup]) -> Option<Disorder>
    requires room { place + length setups.now ≤ 16 }
    ensures { result ≡ disorder_from place setups.now }
{
    let (setup, behind) = setups.split_first()?;
    if begins_early(setup, behind) {
        return Some(Disorder::Overlap(place));
    }
    if let Some(other) = same_number(setup.stream(), place + 1, behind) {
        return Some(Disorder::SameStream(place, other));
    }
    disorder_from(place + 1, behind)
}

// Whether the first of these streams begins before the end of the one in front of them.
fn begins_early(setup: &Setup, behind: &[Setup]) -> bool
    ensures { result ≡ begins_early setup.now behind.now }
{
    match behind.first() {
        Some(next) => begin_of(next.schedule()) < end_of(setup.schedule()),
        None => false,
    }
}

// The place of the first of these streams with a number.
fn same_number(number: StreamId, place: usize, setups: &[Setup]) -> Option<usize>
    requires room { place + length setups.now ≤ 16 }
    ensures { result ≡ same_number number.0 place setups.now }
{
    let (setup, behind) = setups.split_first()?;
    if setup.stream().0 == number.0 {
        return Some(place);
    }
    same_number(number, place + 1, behind)
}

// When interval 1 begins.
fn begin_of(schedule: Schedule) -> u128
    ensures { result ≡ begin_of schedule }
{
    u128::from(schedule.start()) + u128::from(schedule.length())
}

// When the last interval ends.
fn end_of(schedule: Schedule) -> u128
    ensures { result ≡ end_of schedule }
{
    u128::from(schedule.start()) + (u128::from(schedule.last()) + 1) * u128::from(schedule.length())
}

/// The greatest delay of a setup's chains, in intervals.
pub fn greatest_delay(setup: &Setup) -> u16
    ensures { result ≡ greatest_delay setup.now }
{
    let mut most = 0;
    for chain in 0..setup.count() {
        most = greater(most, setup.row(chain).delay);
    }
    most
}

// The greater one of two delays.
fn greater(most: u16, delay: u16) -> u16
    ensures { result ≡ max most delay }
{
    if most < delay {
        return delay;
    }
    most
}

/// Whether a stream of this setup has an interval in which it may hand over to the next one.
pub fn has_window(setup: &Setup, next: &Setup) -> bool
    ensures { result ≡ has_window setup.now next.now }
{
    is_told_before(setup.schedule(), greatest_delay(setup), next.schedule(), 1)
}

// Whether the key of an interval is due on every chain before interval 1 of the next stream begins.
fn is_told_before(schedule: Schedule, delay: u16, next: Schedule, interval: u64) -> bool
    ensures { result ≡ is_told_before schedule delay next interval }
{
    if interval < 1 || interval > u64::from(schedule.last()) {
        return false;
    }
    let due = (u128::from(interval) + u128::from(delay)) * u128::from(schedule.length());
    u128::from(schedule.start()) + due < begin_of(next)
}

/// Whether an interval is one of the last 64 whose keys are due before interval 1 of the next stream begins, told the
/// greatest delay of the chains.
pub fn is_in_window(schedule: Schedule, delay: u16, next: Schedule, interval: u64) -> bool
    ensures { result ≡ is_in_window schedule delay next interval }
{
    if !is_told_before(schedule, delay, next, interval) {
        return false;
    }
    !is_told_before(schedule, delay, next, interval.saturating_add(WINDOW))
}

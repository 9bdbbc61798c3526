//! Calls that every epoch has.

ghost use Rattle.std.specs.Prelude.{◌≡◌, ◌+◌, ◌*◌, ◌^◌, ◌<◌, ◌≤◌, ℕ, List, length, map};
ghost use Rattle.std.specs.List.{AllByRecursion};
ghost use Rattle.tesla_receiver.specs.Entries.{Entry};
ghost use Rattle.tesla_rollover.specs.Epochs.{up_to_given};
ghost use Rattle.tesla_rollover.specs.Kept.{AskedKeepsBehind, IsCalled, asked_from, asked_shown, configs_of, receivers_of, replies_of, rooms_of, waiting_of, with_end, with_takes};
ghost use Rattle.tesla_rollover.specs.Stands.{StandAll};

use crate::epoch::Epoch;
use tesla_base::{Head, MOST_PAYLOAD};
use tesla_receiver::Take;

/// What epochs that were asked for a packet came to.
#[derive(Clone, Copy, Debug, PartialEq, Eq)]
pub enum Asked {
    /// The first that had one gave it.
    Given { epoch: u8, head: Head },
    /// None gave one, and not all are over.
    Empty,
    /// All are over.
    Over,
}

/// Asks epochs in order, of which the first has that number, one take each, until one gives a packet. It takes no memory.
pub fn ask(epochs: &mut [Epoch], number: u8, releaser: u8, into: &mut [u8; MOST_PAYLOAD]) -> Asked
    requires few { number + length epochs.old ≤ 16 }
    requires calls { (most : ℕ) × (most + 1 < 2 ^ 64) × AllByRecursion (IsCalled most) epochs.old }
    ensures answer { (hs : List (List Entry)) → StandAll (receivers_of epochs.old) hs →
        asked_shown result into.new ≡ asked_from number (up_to_given (replies_of (receivers_of epochs.old) hs)) }
    ensures stand { (hs : List (List Entry)) → StandAll (receivers_of epochs.old) hs →
        StandAll (receivers_of epochs.new) (with_takes releaser (up_to_given (replies_of (receivers_of epochs.old) hs)) hs) }
    ensures behind { AskedKeepsBehind result into.old into.new }
    ensures configs { configs_of epochs.new ≡ configs_of epochs.old }
    ensures rooms { rooms_of epochs.new ≡ rooms_of epochs.old }
    ensures calls { (most : ℕ) → AllByRecursion (IsCalled most) epochs.old → AllByRecursion (IsCalled (most + 1)) epochs.new }
{
    let Some((epoch, others)) = epochs.split_first_mut() else {
        return Asked::Over;
    };
    match epoch.receiver.take(releaser, into) {
        Take::Empty => match ask(others, number + 1, releaser, into) {
            Asked::Over => Asked::Empty,
            asked => asked,
        },
        Take::Over => ask(others, number + 1, releaser, into),
        Take::Given(head) => Asked::Given {
            epoch: number,
            head,
        },
    }
}

/// Makes the end of an ingest in every epoch. It takes no memory.
pub fn end_all(epochs: &mut [Epoch], ingest: u8)
    requires { (most : ℕ) × (most + 1 < 2 ^ 64) × AllByRecursion (IsCalled most) epochs.old }
    ensures stand { (hs : List (List Entry)) → StandAll (receivers_of epochs.old) hs → StandAll (receivers_of epochs.new) (map (with_end ingest) hs) }
    ensures configs { configs_of epochs.new ≡ configs_of epochs.old }
    ensures rooms { rooms_of epochs.new ≡ rooms_of epochs.old }
    ensures calls { (most : ℕ) → AllByRecursion (IsCalled most) epochs.old → AllByRecursion (IsCalled (most + 1)) epochs.new }
{
    let Some((epoch, others)) = epochs.split_first_mut() else {
        return;
    };
    epoch.receiver.end(ingest);
    end_all(others, ingest);
}

/// How many released packets wait to be taken in these epochs.
pub fn waiting_in(epochs: &[Epoch]) -> u64
    requires { length epochs.now ≤ 16 }
    ensures value { (hs : List (List Entry)) → StandAll (receivers_of epochs.now) hs → result ≡ waiting_of (receivers_of epochs.now) hs }
    ensures few { result ≤ length epochs.now * 4294967295 }
{
    let [first, rest @ ..] = epochs else {
        return 0;
    };
    first.receiver.waiting() + waiting_in(rest)
}

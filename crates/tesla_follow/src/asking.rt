//! Calls that every open epoch has.

ghost use Rattle.std.specs.Prelude.{◌≡◌, ◌+◌, ◌*◌, ◌^◌, ◌<◌, ◌≤◌, ℕ, List, length, map};
ghost use Rattle.std.specs.List.{AllByRecursion};
ghost use Rattle.tesla_rollover.specs.Epochs.{up_to_given};
ghost use Rattle.tesla_rollover.specs.Kept.{asked_from};
ghost use Rattle.tesla_follow.specs.Followed.{FollowedEpoch, asked_all, ended_in};
ghost use Rattle.tesla_follow.specs.Kept.{AskedKeepsBehind, IsCalled, asked_shown, reply_of, shapes_of, waiting_of};
ghost use Rattle.tesla_follow.specs.Stands.{EpochsStand};

use crate::epoch::OpenEpoch;
use tesla_base::{Head, MOST_PAYLOAD};
use tesla_receiver::Take;

/// What epochs that were asked for a packet came to.
#[derive(Clone, Copy, Debug, PartialEq, Eq)]
pub enum Asked {
    /// The first that had one gave it.
    Given { epoch: u32, head: Head },
    /// None gave one, and not all are over.
    Empty,
    /// All are over.
    Over,
}

/// Asks epochs in order, of which the first has that number, one take each, until one gives a packet. It takes no memory.
pub fn ask(
    epochs: &mut [OpenEpoch],
    number: u64,
    releaser: u8,
    into: &mut [u8; MOST_PAYLOAD],
) -> Asked
    requires few { number + length epochs.old ≤ 2 ^ 32 }
    requires calls { (most : ℕ) × (most + 1 < 2 ^ 64) × AllByRecursion (IsCalled most) epochs.old }
    ensures answer { (es : List FollowedEpoch) → EpochsStand epochs.old es → asked_shown result into.new ≡ asked_from number (up_to_given (map reply_of es)) }
    ensures stand { (es : List FollowedEpoch) → EpochsStand epochs.old es → EpochsStand epochs.new (asked_all releaser (up_to_given (map reply_of es)) es) }
    ensures behind { AskedKeepsBehind result into.old into.new }
    ensures shapes { shapes_of epochs.new ≡ shapes_of epochs.old }
    ensures calls { (most : ℕ) → AllByRecursion (IsCalled most) epochs.old → AllByRecursion (IsCalled (most + 1)) epochs.new }
{
    let Some((epoch, others)) = epochs.split_first_mut() else {
        return Asked::Over;
    };
    match epoch.take(releaser, into) {
        Take::Empty => match ask(others, number + 1, releaser, into) {
            Asked::Over => Asked::Empty,
            asked => asked,
        },
        Take::Over => ask(others, number + 1, releaser, into),
        Take::Given(head) => Asked::Given {
            epoch: number as u32,
            head,
        },
    }
}

/// Makes the end of an ingest in every epoch. It takes no memory.
pub fn end_all(epochs: &mut [OpenEpoch], ingest: u8)
    requires { (most : ℕ) × (most + 1 < 2 ^ 64) × AllByRecursion (IsCalled most) epochs.old }
    ensures stand { (es : List FollowedEpoch) → EpochsStand epochs.old es → EpochsStand epochs.new (map (ended_in ingest) es) }
    ensures shapes { shapes_of epochs.new ≡ shapes_of epochs.old }
    ensures calls { (most : ℕ) → AllByRecursion (IsCalled most) epochs.old → AllByRecursion (IsCalled (most + 1)) epochs.new }
{
    let Some((epoch, others)) = epochs.split_first_mut() else {
        return;
    };
    epoch.end(ingest);
    end_all(others, ingest);
}

/// How many released packets wait to be taken in these epochs.
pub fn waiting_in(epochs: &[OpenEpoch]) -> u64
    requires { length epochs.now ≤ 3 }
    ensures value { (es : List FollowedEpoch) → EpochsStand epochs.now es → result ≡ waiting_of es }
    ensures few { result ≤ length epochs.now * 4294967295 }
{
    let [first, rest @ ..] = epochs else {
        return 0;
    };
    first.waiting() + waiting_in(rest)
}

//! A follower as a station.

ghost use Rattle.std.specs.Prelude.{◌≡◌, ◌+◌, ◌<◌, ◌≤◌, ◌^◌, ◌++◌, ◌∷◌, [], ℕ, List, length, take};
ghost use Rattle.tesla_capture.specs.Gathering.{gathered};
ghost use Rattle.tesla_capture.specs.Release.{followed_text};
ghost use Rattle.tesla_follow.specs.History.{FollowEntry};
ghost use Rattle.tesla_follow.specs.Stands.{FollowStands};
ghost use Rattle.tesla_receiver.specs.declared.history.Entry.TheVariants.{Arrived};

use crate::by_chain::chain_of;
use crate::counted::CountedFollower;
use std::marker::Brand;
use std::sync::ledger::{Blank, Ledger};
use tesla_base::{Head, MOST_PAYLOAD, Steps};
use tesla_capture::Gatherer;
use tesla_follow::{FollowReply, FollowTake, FollowVerdict, Follower};
use tesla_shared::{Gathered, Station};

/// The kind of a record of a released packet.
const RELEASED: u8 = 0;

/// The kind of a record of a message that was accepted on arrival.
const EARLY: u8 = 1;

// An arrival, whose evaluations of HMAC nobody counts.
fn judge<L: Ledger>(
    follower: &mut Follower,
    ingest: u8,
    reading: u64,
    bytes: &[u8],
    blank: Blank,
) -> FollowVerdict
    requires name { blank.name ≡ L.name }
    requires parts { blank.parts ≡ L.parts }
    requires some { 0 < L.parts }
    requires stood { (h : List FollowEntry) × (length h < 2 ^ 63) × FollowStands follower.old h }
    ensures stands { (h : List FollowEntry) → FollowStands follower.old h → FollowStands follower.new (h ++ Arrived (record { ingest = ingest; reading = reading; bytes = bytes.now; verdict = result }) ∷ []) }
    ensures config { follower.new.config ≡ follower.old.config }
{
    let mut steps = Steps::<L>::new(blank);
    follower.arrive(ingest, reading, bytes, &mut steps)
}

// Gathers the record of a packet or a message, whose payload is at the front of these bytes.
fn gather_followed(
    kind: u8,
    epoch: u32,
    head: &Head,
    payload: &[u8; MOST_PAYLOAD],
    gatherer: &mut Gatherer,
)
    requires limit { head.now.length ≤ 1200 }
    requires none { gathered gatherer.old ≡ [] }
    ensures { gathered gatherer.new ≡ gathered gatherer.old ++ followed_text kind epoch head.now (take head.now.length payload.now) }
{
    gatherer.add_followed(kind, epoch, head, &payload[..usize::from(head.length)]);
}

impl Station for CountedFollower {
    ghost use Rattle.tesla_follow.specs.History.{IsFollowed};
    ghost use Rattle.tesla_follow.specs.Replies.{FollowKeepsBehind, follow_shown};
    ghost use Rattle.tesla_follow_station.specs.Yields.{follow_yield};

    type Verdict = FollowVerdict;

    type Reply = FollowReply;

    type Take = FollowTake;

    ghost ingests = { λ config. config.config.ingests };

    ghost is_legal = { λ config. IsFollowed config.config };

    ghost shown = { follow_shown };

    ghost keeps_behind = { FollowKeepsBehind };

    ghost yields = { follow_yield };

    ghost legal = { λ counted h stood. stood.stood.legal };

    fn arrive(&mut self, ingest: u8, reading: u64, bytes: &[u8]) -> FollowVerdict {
        let verdict = judge::<Brand>(&mut self.follower, ingest, reading, bytes, Blank::new(1));
        self.count(None);
        verdict
    }

    fn take(&mut self, releaser: u8, into: &mut [u8; MOST_PAYLOAD]) -> FollowTake {
        let taken = self.follower.take(releaser, into);
        self.count(chain_of(taken));
        taken
    }

    fn gather(take: FollowTake, payload: &[u8; MOST_PAYLOAD], gatherer: &mut Gatherer) -> Gathered {
        match take {
            FollowTake::Released { epoch, head, .. } => {
                gather_followed(RELEASED, epoch, &head, payload, gatherer);
                Gathered::Record
            }
            FollowTake::Early { epoch, head } => {
                gather_followed(EARLY, epoch, &head, payload, gatherer);
                Gathered::Record
            }
            FollowTake::Empty => Gathered::Nothing,
            FollowTake::Over => Gathered::Over,
        }
    }

    fn let_go(_verdict: FollowVerdict) {}

    fn end(&mut self, ingest: u8) {
        self.follower.end(ingest);
        self.count(None);
    }

    fn may_wait(&self) -> bool {
        0 < self.follower.waiting()
    }

    fn calls(&self) -> u64 {
        self.follower.calls()
    }
}

//! The opening of the next epoch.

ghost use Rattle.std.specs.Prelude.{◌≡◌, ◌≢◌, ◌+◌, ◌^◌, ◌<◌, ◌≤◌, ◌||◌, ℕ, Ok, length};
ghost use Rattle.std.specs.List.{list_any};
ghost use Rattle.tesla_commit.specs.Parsing.{judged};
ghost use Rattle.tesla_rollover.specs.Epochs.{has_stream};
ghost use Rattle.tesla_follow.specs.Followed.{Followed, after_next, after_opening, next_judged, next_of};
ghost use Rattle.tesla_follow.specs.Kept.{configs_of, is_stream};
ghost use Rattle.tesla_follow.specs.Stands.{Keeps};

use crate::FollowNext;
use crate::counting::joined;
use crate::finding::place_of;
use crate::follower::Follower;
use tesla_base::StreamId;
use tesla_commit::{Setup, SetupRefusal, first_equal, read_setup};
use tesla_rollover::handover_text;

/// How many epochs there are at most.
const MOST_NUMBERED: u64 = 1 << 32;

/// How many epochs are open at most.
const MOST_OPEN: usize = 3;

impl Follower {
    /// Whether the stream is that of an epoch that is open, or of one of the last 64 that were closed.
    fn knows(&self, stream: StreamId) -> bool
        ensures { result ≡ (list_any (is_stream stream) self.now.known || list_any (has_stream stream) (configs_of self.now.receiving)) }
    {
        self.known.has(stream) || place_of(self.epochs.as_slice(), stream).is_some()
    }

    /// Opens the next epoch, of this setup, in a place that was spare.
    fn open_spare(&mut self, setup: Setup)
        requires few { length self.old.receiving < 3 }
        requires fewer { self.old.opened < 2 ^ 32 }
        ensures keeps { (it : Followed) → Keeps self.old it → Keeps self.new (after_opening self.old.config it (Ok setup)) }
        ensures config { self.new.config ≡ self.old.config }
        ensures calls { self.new.calls ≡ self.old.calls }
        ensures reserved { self.new.reserved ≡ self.old.reserved }
    {
        let mut epoch = self.spares.remove(0);
        epoch.begin(setup, self.ended.as_slice());
        self.epochs.push_reserved(epoch);
        self.opened += 1;
    }

    /// Closes the oldest epoch, and opens the next one, of this setup, in its place.
    fn open_again(&mut self, setup: Setup)
        requires three { length self.old.receiving ≡ 3 }
        requires fewer { self.old.opened < 2 ^ 32 }
        ensures keeps { (it : Followed) → Keeps self.old it → Keeps self.new (after_opening self.old.config it (Ok setup)) }
        ensures config { self.new.config ≡ self.old.config }
        ensures calls { self.new.calls ≡ self.old.calls }
        ensures reserved { self.new.reserved ≡ self.old.reserved }
    {
        let mut epoch = self.epochs.remove(0);
        self.known.note(epoch.stream());
        self.closed = joined(&self.closed, &epoch.report());
        self.dropped += u64::from(epoch.begin(setup, self.ended.as_slice()));
        self.epochs.push_reserved(epoch);
        self.opened += 1;
    }

    /// Opens the next epoch, of this setup; where three are open the oldest is closed.
    fn open_epoch(&mut self, setup: Setup)
        requires { self.old.opened < 2 ^ 32 }
        ensures keeps { (it : Followed) → Keeps self.old it → Keeps self.new (after_opening self.old.config it (Ok setup)) }
        ensures config { self.new.config ≡ self.old.config }
        ensures calls { self.new.calls ≡ self.old.calls }
        ensures reserved { self.new.reserved ≡ self.old.reserved }
    {
        if self.epochs.len() < MOST_OPEN {
            self.open_spare(setup);
        } else {
            self.open_again(setup);
        }
    }

    /// Opens the next epoch, where a text spells a setup of which no two commitments are equal, of a stream that isn't known.
    fn open_next(&mut self, text: &[u8]) -> FollowNext
        requires { self.old.opened < 2 ^ 32 }
        ensures next { (it : Followed) → Keeps self.old it → result ≡ next_judged it (judged text.now) }
        ensures opened { result ≡ FollowNext.Opened → (it : Followed) → Keeps self.old it → Keeps self.new (after_opening self.old.config it (judged text.now)) }
        ensures same { result ≢ FollowNext.Opened → self.new ≡ self.old }
        ensures config { self.new.config ≡ self.old.config }
        ensures calls { self.new.calls ≡ self.old.calls }
        ensures reserved { self.new.reserved ≡ self.old.reserved }
    {
        let setup = match read_setup(self.alloc, text) {
            Ok(setup) => setup,
            Err(SetupRefusal::At { line, kind }) => return FollowNext::BadSetup { line, kind },
            Err(SetupRefusal::NoMemory) => unreachable!(),
        };
        if let Some(chain) = first_equal(&setup) {
            return FollowNext::EqualCommitments { chain };
        }
        let stream = setup.stream();
        if self.knows(stream) {
            return FollowNext::UsedStream(stream);
        }
        self.open_epoch(setup);
        FollowNext::Opened
    }

    /// What the payload of a packet of the epoch of that number comes to. Where it hands over to a stream that isn't known,
    /// the next epoch is opened; else all is as before. It takes no memory.
    pub(super) fn hand_over(&mut self, epoch: u32, payload: &[u8]) -> FollowNext
        ensures next { (it : Followed) → Keeps self.old it → result ≡ next_of it epoch payload.now }
        ensures keeps { (it : Followed) → Keeps self.old it → Keeps self.new (after_next self.old.config it payload.now result) }
        ensures config { self.new.config ≡ self.old.config }
        ensures calls { self.new.calls ≡ self.old.calls }
        ensures reserved { self.new.reserved ≡ self.old.reserved }
    {
        let Some(text) = handover_text(payload) else {
            return FollowNext::Plain;
        };
        let newest = self.opened - 1;
        if u64::from(epoch) != newest {
            return FollowNext::Old {
                newest: newest as u32,
            };
        }
        if self.opened == MOST_NUMBERED {
            return FollowNext::EpochsSpent;
        }
        self.open_next(text)
    }
}

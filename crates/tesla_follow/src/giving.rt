//! What a take gives.

ghost use Rattle.std.specs.Prelude.{◌≡◌, ◌+◌, ◌-◌, ◌^◌, ◌<◌, ◌≤◌, ◌++◌, ◌∷◌, [], ℕ, List, None, drop, length, map, take, vec_capacity};
ghost use Rattle.std.specs.List.{AllByRecursion};
ghost use Rattle.tesla_receiver.specs.History.{Takes};
ghost use Rattle.tesla_receiver.specs.declared.history.Entry.TheVariants.{Taken};
ghost use Rattle.tesla_rollover.specs.Epochs.{up_to_given};
ghost use Rattle.tesla_rollover.specs.Kept.{asked_from};
ghost use Rattle.tesla_follow.specs.Followed.{Followed, FollowedEpoch, asked_all, gives_released, takes_one, takes_released};
ghost use Rattle.tesla_follow.specs.Giving.{GivesEarly, GivesInTurn, GivesOr, IsEarlier, IsTakenSo, OptionKeepsBehind};
ghost use Rattle.tesla_follow.specs.History.{FollowEntry, entry_of, followed};
ghost use Rattle.tesla_follow.specs.Kept.{AskedKeepsBehind, IsCalled, asked_shown, reply_of, shapes_of};
ghost use Rattle.tesla_follow.specs.Replies.{FollowKeepsBehind, follow_shown};
ghost use Rattle.tesla_follow.specs.Stands.{EpochsStand, FollowStands, Keeps};

use crate::FollowTake;
use crate::asking::{Asked, ask};
use crate::epoch::OpenEpoch;
use crate::follower::Follower;
use tesla_base::{Head, MOST_PAYLOAD};

/// Asks epochs in order, of which the first has that number, one take each, until one gives a packet. It takes no memory.
fn ask_open(
    epochs: &mut Vec<OpenEpoch>,
    number: u64,
    releaser: u8,
    into: &mut [u8; MOST_PAYLOAD],
) -> Asked
    requires few { number + length epochs.old.items ≤ 2 ^ 32 }
    requires calls { (most : ℕ) × (most + 1 < 2 ^ 64) × AllByRecursion (IsCalled most) epochs.old.items }
    ensures answer { (es : List FollowedEpoch) → EpochsStand epochs.old.items es → asked_shown result into.new ≡ asked_from number (up_to_given (map reply_of es)) }
    ensures stand { (es : List FollowedEpoch) → EpochsStand epochs.old.items es → EpochsStand epochs.new.items (asked_all releaser (up_to_given (map reply_of es)) es) }
    ensures behind { AskedKeepsBehind result into.old into.new }
    ensures shapes { shapes_of epochs.new.items ≡ shapes_of epochs.old.items }
    ensures calls { (most : ℕ) → AllByRecursion (IsCalled most) epochs.old.items → AllByRecursion (IsCalled (most + 1)) epochs.new.items }
    ensures capacity { vec_capacity epochs.new ≡ vec_capacity epochs.old }
{
    ask(epochs.as_mut_slice(), number, releaser, into)
}

impl Follower {
    /// Gives the first message that waits, where one does.
    fn give_early(&mut self, into: &mut [u8; MOST_PAYLOAD]) -> Option<FollowTake>
        requires records { self.old.records < self.old.calls }
        requires early { self.old.early < self.old.calls }
        ensures gives { (it : Followed) → Keeps self.old it → GivesEarly it result into.new self.old self.new }
        ensures none { result ≡ None → self.new ≡ self.old }
        ensures behind { OptionKeepsBehind result into.old into.new }
        ensures config { self.new.config ≡ self.old.config }
        ensures calls { self.new.calls ≡ self.old.calls }
        ensures reserved { self.new.reserved ≡ self.old.reserved }
    {
        let popped = self.queue.pop(into)?;
        let position = self.records;
        self.turn = false;
        self.records += 1;
        self.early += 1;
        Some(FollowTake::Early {
            epoch: popped.epoch,
            head: Head {
                position,
                interval: popped.name.interval,
                number: popped.name.number,
                chain: 255,
                length: popped.length,
            },
        })
    }

    /// Gives the first message that waits, where one does and it's their turn.
    fn give_in_turn(&mut self, into: &mut [u8; MOST_PAYLOAD]) -> Option<FollowTake>
        requires records { self.old.records < self.old.calls }
        requires early { self.old.early < self.old.calls }
        ensures gives { (it : Followed) → Keeps self.old it → GivesInTurn it result into.new self.old self.new }
        ensures none { result ≡ None → self.new ≡ self.old }
        ensures behind { OptionKeepsBehind result into.old into.new }
        ensures config { self.new.config ≡ self.old.config }
        ensures calls { self.new.calls ≡ self.old.calls }
        ensures reserved { self.new.reserved ≡ self.old.reserved }
    {
        if !self.turn {
            return None;
        }
        self.give_early(into)
    }

    /// Gives the first message that waits, and this answer where none does.
    fn give_or(&mut self, none: FollowTake, into: &mut [u8; MOST_PAYLOAD]) -> FollowTake
        requires records { self.old.records < self.old.calls }
        requires early { self.old.early < self.old.calls }
        requires none { FollowKeepsBehind none into.old into.old }
        ensures gives { (it : Followed) → Keeps self.old it → GivesOr it it.queue none result into.new self.old self.new }
        ensures behind { FollowKeepsBehind result into.old into.new }
        ensures config { self.new.config ≡ self.old.config }
        ensures calls { self.new.calls ≡ self.old.calls }
        ensures reserved { self.new.reserved ≡ self.old.reserved }
    {
        match self.give_early(into) {
            Some(answer) => answer,
            None => none,
        }
    }

    /// Gives the packet of this head of an epoch, whose payload is at the front of the buffer.
    fn give_released(&mut self, epoch: u32, head: Head, into: &[u8; MOST_PAYLOAD]) -> FollowTake
        requires records { self.old.records < self.old.calls }
        requires short { head.length ≤ 1200 }
        ensures takes { (it : Followed) → Keeps self.old it → IsTakenSo (gives_released self.old.config it epoch head (take head.length into.now)) result into.now self.new }
        ensures behind { (old : List ℕ) → drop head.length into.now ≡ drop head.length old → FollowKeepsBehind result old into.now }
        ensures config { self.new.config ≡ self.old.config }
        ensures calls { self.new.calls ≡ self.old.calls }
        ensures reserved { self.new.reserved ≡ self.old.reserved }
    {
        let position = self.records;
        self.turn = true;
        self.records += 1;
        let next = self.hand_over(epoch, &into[..usize::from(head.length)]);
        FollowTake::Released {
            epoch,
            head: Head {
                position,
                interval: head.interval,
                number: head.number,
                chain: head.chain,
                length: head.length,
            },
            next,
        }
    }

    /// Asks the open epochs for a packet, and gives the first message that waits where they have none.
    fn give_asked(&mut self, releaser: u8, into: &mut [u8; MOST_PAYLOAD]) -> FollowTake
        requires { IsEarlier self.old }
        ensures takes { (it : Followed) → Keeps self.old it → IsTakenSo (takes_released self.old.config it releaser) result into.new self.new }
        ensures behind { FollowKeepsBehind result into.old into.new }
        ensures config { self.new.config ≡ self.old.config }
        ensures calls { self.new.calls ≡ self.old.calls }
        ensures reserved { self.new.reserved ≡ self.old.reserved }
    {
        let number = self.opened - self.epochs.len() as u64;
        match ask_open(&mut self.epochs, number, releaser, into) {
            Asked::Given { epoch, head } => self.give_released(epoch, head, into),
            Asked::Empty => self.give_or(FollowTake::Empty, into),
            Asked::Over => self.give_or(FollowTake::Over, into),
        }
    }

    /// Gives what comes next, after its call was counted.
    fn give_next(&mut self, releaser: u8, into: &mut [u8; MOST_PAYLOAD]) -> FollowTake
        requires { IsEarlier self.old }
        ensures takes { (it : Followed) → Keeps self.old it → IsTakenSo (takes_one self.old.config it releaser) result into.new self.new }
        ensures behind { FollowKeepsBehind result into.old into.new }
        ensures config { self.new.config ≡ self.old.config }
        ensures calls { self.new.calls ≡ self.old.calls }
        ensures reserved { self.new.reserved ≡ self.old.reserved }
    {
        match self.give_in_turn(into) {
            Some(answer) => answer,
            None => self.give_asked(releaser, into),
        }
    }

    /// Gives the next message that was accepted, or the next released packet: it asks the open epochs in order, one take
    /// each, until one gives. Where both are there, they take turns. The payload is then at the front of the buffer, whose
    /// rest stays as it was. Where a packet hands over to a stream that isn't known, the next epoch is opened, and the oldest
    /// closed where three are open; so only a packet that was released and given can open one. It takes no memory.
    pub fn take(&mut self, releaser: u8, into: &mut [u8; MOST_PAYLOAD]) -> FollowTake
        requires { self.old.calls < 2 ^ 63 }
        ensures answer { (h : List FollowEntry) → FollowStands self.old h → Taken releaser (follow_shown result into.new) ≡ entry_of self.old.config (followed self.old.config h) (Takes releaser) }
        ensures stands { (h : List FollowEntry) → FollowStands self.old h → FollowStands self.new (h ++ entry_of self.old.config (followed self.old.config h) (Takes releaser) ∷ []) }
        ensures behind { FollowKeepsBehind result into.old into.new }
        ensures config { self.new.config ≡ self.old.config }
        ensures calls { self.new.calls ≡ self.old.calls + 1 }
        ensures reserved { self.new.reserved ≡ self.old.reserved }
    {
        self.calls += 1;
        self.give_next(releaser, into)
    }
}

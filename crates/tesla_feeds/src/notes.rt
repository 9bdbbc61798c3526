//! Who is told of the counts of a feed over a list while it runs.

ghost use Rattle.std.specs.Prelude.{◌≡◌, ◌++◌, ◌∷◌, [], List};
ghost use Rattle.tesla_feeds.specs.Notes.{Note};

use crate::FeedsCounts;

/// Who is told of the counts of a feed over a list behind each of its events.
pub trait Notes {
    /// What stays the same, whatever it is told.
    type Fixed;

    /// That of this one.
    ghost fixed: { Self → Self.Fixed };

    /// It was told this, in order: readings of the clock, each with the counts by then.
    ghost was_told: { Self → List Note → Type 0 };

    /// It may be told this.
    ghost may_note: { Self → Note → Type 0 } = { λ _ _. Unit {0} };

    /// Is told the counts at a reading of the clock, in microseconds; where the clock couldn't be read that is 2^64 - 1.
    /// It takes no memory. It gives how many microseconds later it is to be told again at the latest; nothing is claimed
    /// of that.
    fn note(&mut self, reading: u64, counts: &FeedsCounts) -> u64
        requires permitted { may_note self.old (record { reading = reading; counts = counts.now }) }
        ensures told { (before : List Note) → was_told self.old before → was_told self.new (before ++ record { reading = reading; counts = counts.now } ∷ []) }
        ensures fixed { fixed self.new ≡ fixed self.old };
}

/// Nobody is told.
#[derive(Drop)]
pub struct NoNotes;

impl Notes for NoNotes {
    type Fixed = ();

    ghost fixed = { λ _. tt };

    ghost was_told = { λ _ _. Unit {0} };

    fn note(&mut self, _reading: u64, _counts: &FeedsCounts) -> u64 {
        u64::MAX
    }
}

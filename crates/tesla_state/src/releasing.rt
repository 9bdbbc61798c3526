//! The packets that new keys prove are released, one of each name.

ghost use Rattle.std.specs.Prelude.{◌≡◌, ◌++◌, true, map, flat_map};
ghost use Rattle.std.specs.List.{list_any};
ghost use Rattle.tesla_base.specs.Members.{Distinct};
ghost use Rattle.tesla_state.specs.Steps.{released_of};
ghost use Rattle.tesla_state.specs.Stored.{is_proved_by, held_then, released_if, is_named, release_of, AreProved, slot_of, order_of, holding_at, slot_proved, after_batch};

use crate::Store;
use tesla_walks::Proved;

impl Store {
    // Releases a packet that new keys prove, or lets it go where one of its name was released.
    fn settle(&mut self, proved: &Proved)
        requires { list_any (is_proved_by proved.now) self.old.held ≡ true }
        ensures capacity { self.new.capacity ≡ self.old.capacity }
        ensures reserved { self.new.reserved ≡ self.old.reserved }
        ensures chains { self.new.chains ≡ self.old.chains }
        ensures held { self.new.held ≡ held_then self.old.held proved.now }
        ensures waiting { self.new.waiting ≡ self.old.waiting ++ map release_of (released_if (is_named self.old.held proved.now.release.name) proved.now) }
        ensures given { self.new.given ≡ self.old.given }
    {
        if self.is_released(proved.release.name) {
            self.discard(proved.place);
        } else {
            self.release(proved);
        }
    }

    /// Releases, in order, those of a batch of proved packets whose names weren't released before, and lets the
    /// others of the batch go.
    pub fn release_all(&mut self, batch: &[Proved])
        requires proved { AreProved self.old.held batch.now }
        requires slots { Distinct (map slot_proved batch.now) }
        requires apart { Distinct (map slot_of self.old.held) }
        requires orders { Distinct (map order_of self.old.held) }
        ensures capacity { self.new.capacity ≡ self.old.capacity }
        ensures reserved { self.new.reserved ≡ self.old.reserved }
        ensures chains { self.new.chains ≡ self.old.chains }
        ensures held { self.new.held ≡ flat_map (after_batch (map release_of batch.now) (released_of (map holding_at self.old.held) (map release_of batch.now))) self.old.held }
        ensures waiting { self.new.waiting ≡ self.old.waiting ++ released_of (map holding_at self.old.held) (map release_of batch.now) }
        ensures given { self.new.given ≡ self.old.given }
    {
        for proved in batch {
            self.settle(proved);
        }
    }
}

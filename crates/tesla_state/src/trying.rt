//! The held packets are tried under new keys, interval by interval from the newest down.

ghost use Rattle.std.specs.Prelude.{◌≡◌, ℕ, List, ◌+◌, ◌*◌, ◌-◌, ◌<◌, ◌≤◌, ◌++◌, [], ◌∷◌, All, true, length, map, filter, find, Some, option_to_list, vec_capacity};
ghost use Rattle.std.specs.List.{list_any};
ghost use Rattle.std.specs.List.Sorted.{IsPermutation};
ghost use Rattle.tesla_frame.specs.Frame.{ChainsRise};
ghost use Rattle.tesla_base.specs.Members.{Distinct};
ghost use Rattle.tesla_walks.specs.ReachedIntervals.{AreIndices, Spans};
ghost use Rattle.tesla_walks.specs.Proved.{RiseBy, arrival_number, release_in, proof_of};
ghost use Rattle.tesla_state.specs.Gathering.{order_of, in_turn};
ghost use Rattle.tesla_walks.specs.declared.release.Release.{Release};
ghost use Rattle.tesla_walks.specs.Offered.{IsOfChains};
ghost use Rattle.tesla_state.specs.Steps.{batch_of, in_interval};
ghost use Rattle.tesla_state.specs.Stored.{Placed, slot_proved, slot_here, holding_at, stands_at, is_of, AreProved};
ghost use Rattle.tesla_walks.specs.Walking.{rows_of, IsAbove, left, tries, pairs};

use crate::Store;
use crate::newest::Newest;
use crate::reach::Reach;
use std::sync::ledger::Ledger;
use tesla_base::{Place, Steps};
use tesla_walks::{Proved, Walk, highest_reached, prove, sort};

// Appends what was proved, if it was.
fn append(batch: &mut Vec<Proved>, proved: Option<Proved>)
    requires { length batch.old.items < vec_capacity batch.old }
    ensures items { batch.new.items ≡ batch.old.items ++ option_to_list proved }
    ensures long { length batch.new.items ≤ length batch.old.items + 1 }
    ensures capacity { vec_capacity batch.new ≡ vec_capacity batch.old }
{
    let Some(proved) = proved else {
        return;
    };
    batch.push_reserved(proved);
}

// Puts a batch into order of arrival.
fn order(batch: &mut Vec<Proved>)
    ensures order { (releases : List Release) → RiseBy arrival_number releases → IsPermutation releases (map release_in batch.old.items) → map release_in batch.new.items ≡ releases }
    ensures same { IsPermutation batch.old.items batch.new.items }
    ensures capacity { vec_capacity batch.new ≡ vec_capacity batch.old }
{
    sort(batch);
}

impl Store {
    // Tries the packet in a place; what new keys prove of it goes to the batch. The counted steps are those of
    // `prove`.
    fn try_at<L: Ledger>(
        &self,
        newest: &Newest<'_>,
        walks: &mut [Walk],
        place: Place,
        batch: &mut Vec<Proved>,
        steps: &mut Steps<L>,
    )
        requires tips { length newest.now.tips.now ≡ length newest.now.config.now.setup.rows }
        requires chains { self.now.chains ≡ length newest.now.config.now.setup.rows }
        requires rise { ChainsRise (rows_of walks.old) }
        requires live { list_any (stands_at place.0) self.now.held ≡ true }
        requires above { (x : Placed) → find (stands_at place.0) self.now.held ≡ Some x → All (IsAbove x.holding.name.interval) walks.old }
        requires room { length batch.old.items < vec_capacity batch.old }
        ensures releases { (x : Placed) → find (stands_at place.0) self.now.held ≡ Some x →
            map release_in batch.new.items ≡ map release_in batch.old.items ++ proof_of newest.now.config.now newest.now.tips.now (rows_of walks.old) x.holding }
        ensures proved { AreProved self.now.held batch.old.items → AreProved self.now.held batch.new.items }
        ensures long { length batch.new.items ≤ length batch.old.items + 1 }
        ensures capacity { vec_capacity batch.new ≡ vec_capacity batch.old }
        ensures rows { rows_of walks.new ≡ rows_of walks.old }
        ensures above { (x : Placed) → find (stands_at place.0) self.now.held ≡ Some x → All (IsAbove x.holding.name.interval) walks.new }
        ensures cost { (x : Placed) → find (stands_at place.0) self.now.held ≡ Some x →
            steps.new + left newest.now.tips.now walks.new ≤ steps.old + left newest.now.tips.now walks.old + 2 * tries newest.now.config.now newest.now.tips.now (rows_of walks.old) x.holding }
    {
        let proved = prove(
            newest.config,
            newest.tips,
            walks,
            self.item(place),
            place,
            steps,
        );
        append(batch, proved);
    }

    // Tries the packets of an interval, in order of arrival. Those that are released are passed over: keys prove
    // nothing of them.
    fn try_interval<L: Ledger>(
        &self,
        newest: &Newest<'_>,
        walks: &mut [Walk],
        interval: u32,
        batch: &mut Vec<Proved>,
        steps: &mut Steps<L>,
    )
        requires tips { length newest.now.tips.now ≡ length newest.now.config.now.setup.rows }
        requires chains { self.now.chains ≡ length newest.now.config.now.setup.rows }
        requires apart { Distinct (map slot_here self.now.held) }
        requires rise { ChainsRise (rows_of walks.old) }
        requires above { All (IsAbove interval) walks.old }
        requires room { length batch.old.items + length (filter (is_of interval) self.now.held) ≤ vec_capacity batch.old }
        ensures releases { map release_in batch.new.items ≡ map release_in batch.old.items ++ in_turn (proof_of newest.now.config.now newest.now.tips.now (rows_of walks.old)) (map holding_at self.now.held) interval }
        ensures proved { AreProved self.now.held batch.old.items → AreProved self.now.held batch.new.items }
        ensures long { length batch.new.items ≤ length batch.old.items + length (filter (is_of interval) self.now.held) }
        ensures capacity { vec_capacity batch.new ≡ vec_capacity batch.old }
        ensures rows { rows_of walks.new ≡ rows_of walks.old }
        ensures above { All (IsAbove interval) walks.new }
        ensures cost { steps.new + left newest.now.tips.now walks.new ≤ steps.old + left newest.now.tips.now walks.old
            + 2 * pairs newest.now.config.now newest.now.tips.now (rows_of walks.old) (filter (in_interval interval) (map holding_at self.now.held)) }
    {
        let mut next = self.first_unreleased(interval);
        for _looked in 0..self.unreleased_in(interval) {
            let Some(place) = next else {
                return;
            };
            next = self.next_unreleased(place);
            self.try_at(newest, walks, place, batch, steps);
        }
    }

    // Tries the packets of the intervals that new keys are the first of their chains to reach, from the highest of
    // these intervals down. Keys prove nothing of the others.
    fn try_span<L: Ledger>(
        &self,
        newest: &Newest<'_>,
        walks: &mut [Walk],
        reach: &Reach,
        batch: &mut Vec<Proved>,
        steps: &mut Steps<L>,
    )
        requires tips { length newest.now.tips.now ≡ length newest.now.config.now.setup.rows }
        requires chains { self.now.chains ≡ length newest.now.config.now.setup.rows }
        requires apart { Distinct (map slot_here self.now.held) }
        requires of_chains { All (IsOfChains (length newest.now.tips.now)) (rows_of walks.old) }
        requires indices { AreIndices newest.now.tips.now reach.now.indices }
        requires few { length newest.now.tips.now ≤ 8 }
        requires rise { ChainsRise (rows_of walks.old) }
        requires above { All (IsAbove reach.now.high) walks.old }
        requires spans { Spans newest.now.tips.now (rows_of walks.old) reach.now.low reach.now.high }
        requires empty { batch.old.items ≡ [] }
        requires room { length self.now.held ≤ vec_capacity batch.old }
        ensures releases { IsPermutation (batch_of newest.now.config.now newest.now.tips.now (rows_of walks.old) (map holding_at self.now.held)) (map release_in batch.new.items) }
        ensures proved { AreProved self.now.held batch.new.items }
        ensures capacity { vec_capacity batch.new ≡ vec_capacity batch.old }
        ensures rows { rows_of walks.new ≡ rows_of walks.old }
        ensures cost { steps.new + left newest.now.tips.now walks.new ≤ steps.old + left newest.now.tips.now walks.old
            + 2 * pairs newest.now.config.now newest.now.tips.now (rows_of walks.old) (map holding_at self.now.held) }
    {
        let mut most = reach.high;
        while let Some(interval) = highest_reached(&reach.indices, walks, reach.low, most) {
            self.try_interval(newest, walks, interval, batch, steps);
            most = interval - 1;
        }
    }

    /// What new keys prove of the packets that are held, in order of arrival. The counted steps are those of the walks,
    /// and at most two for each packet that isn't released and each chain on which it is tried.
    pub fn prove_held<L: Ledger>(
        &self,
        newest: &Newest<'_>,
        walks: &mut [Walk],
        reach: &Reach,
        batch: &mut Vec<Proved>,
        steps: &mut Steps<L>,
    )
        requires tips { length newest.now.tips.now ≡ length newest.now.config.now.setup.rows }
        requires chains { self.now.chains ≡ length newest.now.config.now.setup.rows }
        requires apart { Distinct (map slot_here self.now.held) }
        requires orders { RiseBy order_of (map holding_at self.now.held) }
        requires of_chains { All (IsOfChains (length newest.now.tips.now)) (rows_of walks.old) }
        requires indices { AreIndices newest.now.tips.now reach.now.indices }
        requires few { length newest.now.tips.now ≤ 8 }
        requires rise { ChainsRise (rows_of walks.old) }
        requires above { All (IsAbove reach.now.high) walks.old }
        requires spans { Spans newest.now.tips.now (rows_of walks.old) reach.now.low reach.now.high }
        requires empty { batch.old.items ≡ [] }
        requires room { length self.now.held ≤ vec_capacity batch.old }
        ensures releases { map release_in batch.new.items ≡ batch_of newest.now.config.now newest.now.tips.now (rows_of walks.old) (map holding_at self.now.held) }
        ensures proved { AreProved self.now.held batch.new.items }
        ensures slots { Distinct (map slot_proved batch.new.items) }
        ensures capacity { vec_capacity batch.new ≡ vec_capacity batch.old }
        ensures rows { rows_of walks.new ≡ rows_of walks.old }
        ensures cost { steps.new + left newest.now.tips.now walks.new ≤ steps.old + left newest.now.tips.now walks.old
            + 2 * pairs newest.now.config.now newest.now.tips.now (rows_of walks.old) (map holding_at self.now.held) }
    {
        self.try_span(newest, walks, reach, batch, steps);
        order(batch);
    }
}

//! The packets that newest keys have passed are let go.

ghost use Rattle.std.specs.Prelude.{◌≡◌, ℕ, ◌&&◌, ◌<◌, All, true, not, length, map, filter, find, Some, if◌then◌else◌};
ghost use Rattle.std.specs.List.{list_all, list_any};
ghost use Rattle.tesla_base.specs.Members.{Distinct};
ghost use Rattle.tesla_fitting.specs.Config.{chains};
ghost use Rattle.tesla_walks.specs.ItemShown.{holding_in};
ghost use Rattle.tesla_walks.specs.Offered.{IsOfChains};
ghost use Rattle.tesla_state.specs.Steps.{is_passed, is_over};
ghost use Rattle.tesla_state.specs.Stored.{Placed, slot_of, stands_at, waits, without, is_of, is_unreleased_at, is_unreleased_of, is_idle, in_reach};
ghost use Rattle.tesla_walks.specs.Walking.{rows_of};

use crate::Store;
use crate::reach::Reach;
use tesla_base::Place;
use tesla_buffer::Item;
use tesla_fitting::{Config, has_chain};
use tesla_keys::Verifier;
use tesla_walks::{Walk, highest_reached};

/// Whether a key of the chain that reaches the interval was taken.
pub fn has_passed(tips: &[Verifier], interval: u32, chain: u8) -> bool
    requires { chain < length tips.now }
    ensures { result ≡ is_passed tips.now interval chain }
{
    interval <= tips[usize::from(chain)].newest().0
}

/// Whether every chain has passed the interval.
pub fn all_passed(config: &Config, tips: &[Verifier], interval: u32) -> bool
    requires { length tips.now ≡ length config.now.setup.rows }
    ensures { result ≡ list_all (is_passed tips.now interval) (chains config.now) }
{
    for chain in 0..config.setup.count() {
        if !has_passed(tips, interval, chain) {
            return false;
        }
    }
    true
}

// Whether the chain can't prove the packet any more: it wasn't safe, or it has passed the packet.
fn is_over(tips: &[Verifier], item: &Item, chain: u8) -> bool
    requires chain { chain < length tips.now }
    requires few { chain < 8 }
    ensures { (count : ℕ) → result ≡ is_over tips.now (holding_in count item.now) chain }
{
    !has_chain(item.chains, chain) || has_passed(tips, item.name.interval, chain)
}

// Whether no chain can prove the packet any more.
fn all_over(config: &Config, tips: &[Verifier], item: &Item) -> bool
    requires { length tips.now ≡ length config.now.setup.rows }
    ensures { (count : ℕ) → result ≡ list_all (is_over tips.now (holding_in count item.now)) (chains config.now) }
{
    for chain in 0..config.setup.count() {
        if !is_over(tips, item, chain) {
            return false;
        }
    }
    true
}

impl Store {
    // Lets the packet in a place go if it doesn't wait to be taken.
    fn let_go_resting(&mut self, place: Place)
        requires { list_any (stands_at place.0) self.old.held ≡ true }
        ensures capacity { self.new.capacity ≡ self.old.capacity }
        ensures reserved { self.new.reserved ≡ self.old.reserved }
        ensures chains { self.new.chains ≡ self.old.chains }
        ensures held { (x : Placed) → find (stands_at place.0) self.old.held ≡ Some x →
            self.new.held ≡ (if not (waits x) then without place.0 self.old.held else self.old.held) }
        ensures waiting { self.new.waiting ≡ self.old.waiting }
        ensures given { self.new.given ≡ self.old.given }
    {
        if self.is_resting(place) {
            self.discard(place);
        }
    }

    // Lets the packet in a place go, which isn't released, if no chain can prove it any more.
    fn let_go_over(&mut self, config: &Config, tips: &[Verifier], place: Place)
        requires tips { length tips.now ≡ length config.now.setup.rows }
        requires live { list_any (is_unreleased_at place.0) self.old.held ≡ true }
        ensures capacity { self.new.capacity ≡ self.old.capacity }
        ensures reserved { self.new.reserved ≡ self.old.reserved }
        ensures chains { self.new.chains ≡ self.old.chains }
        ensures held { (x : Placed) → find (stands_at place.0) self.old.held ≡ Some x →
            self.new.held ≡ (if list_all (is_over tips.now x.holding) (chains config.now) then without place.0 self.old.held else self.old.held) }
        ensures waiting { self.new.waiting ≡ self.old.waiting }
        ensures given { self.new.given ≡ self.old.given }
    {
        if all_over(config, tips, self.item(place)) {
            self.discard(place);
        }
    }

    // Lets the packets of an interval go that every chain has passed, but for those that wait to be taken.
    fn sweep_passed(&mut self, interval: u32)
        requires { Distinct (map slot_of self.old.held) }
        ensures capacity { self.new.capacity ≡ self.old.capacity }
        ensures reserved { self.new.reserved ≡ self.old.reserved }
        ensures chains { self.new.chains ≡ self.old.chains }
        ensures held { self.new.held ≡ filter (λ x. not (is_of interval x && not (waits x))) self.old.held }
        ensures waiting { self.new.waiting ≡ self.old.waiting }
        ensures given { self.new.given ≡ self.old.given }
    {
        let mut next = self.first_of(interval);
        for _looked in 0..self.held_in(interval) {
            let Some(place) = next else {
                return;
            };
            next = self.next_of(place);
            self.let_go_resting(place);
        }
    }

    // Lets the packets of an interval go that aren't released, and that no chain can prove any more.
    fn sweep_unreleased(&mut self, config: &Config, tips: &[Verifier], interval: u32)
        requires tips { length tips.now ≡ length config.now.setup.rows }
        requires apart { Distinct (map slot_of self.old.held) }
        ensures capacity { self.new.capacity ≡ self.old.capacity }
        ensures reserved { self.new.reserved ≡ self.old.reserved }
        ensures chains { self.new.chains ≡ self.old.chains }
        ensures held { self.new.held ≡ filter (λ x. not (is_unreleased_of interval x && list_all (is_over tips.now x.holding) (chains config.now))) self.old.held }
        ensures waiting { self.new.waiting ≡ self.old.waiting }
        ensures given { self.new.given ≡ self.old.given }
    {
        let mut next = self.first_unreleased(interval);
        for _looked in 0..self.unreleased_in(interval) {
            let Some(place) = next else {
                return;
            };
            next = self.next_unreleased(place);
            self.let_go_over(config, tips, place);
        }
    }

    // Lets the packets of an interval go that aren't needed any more. Before every chain has passed the interval,
    // those are among the packets that aren't released.
    fn sweep(&mut self, config: &Config, tips: &[Verifier], interval: u32)
        requires tips { length tips.now ≡ length config.now.setup.rows }
        requires apart { Distinct (map slot_of self.old.held) }
        ensures capacity { self.new.capacity ≡ self.old.capacity }
        ensures reserved { self.new.reserved ≡ self.old.reserved }
        ensures chains { self.new.chains ≡ self.old.chains }
        ensures held { self.new.held ≡ filter (λ x. not (is_of interval x && is_idle config.now tips.now x)) self.old.held }
        ensures waiting { self.new.waiting ≡ self.old.waiting }
        ensures given { self.new.given ≡ self.old.given }
    {
        if all_passed(config, tips, interval) {
            self.sweep_passed(interval);
        } else {
            self.sweep_unreleased(config, tips, interval);
        }
    }

    /// Lets the packets go that aren't needed any more, of the intervals that new keys were the first of their chains to
    /// reach. The others are needed as before.
    pub fn let_go(&mut self, config: &Config, tips: &[Verifier], walks: &[Walk], reach: &Reach)
        requires tips { length tips.now ≡ length config.now.setup.rows }
        requires chains { All (IsOfChains 8) (rows_of walks.now) }
        requires apart { Distinct (map slot_of self.old.held) }
        ensures capacity { self.new.capacity ≡ self.old.capacity }
        ensures reserved { self.new.reserved ≡ self.old.reserved }
        ensures chains { self.new.chains ≡ self.old.chains }
        ensures held { self.new.held ≡ filter (λ x. not (in_reach reach.now (rows_of walks.now) x && is_idle config.now tips.now x)) self.old.held }
        ensures waiting { self.new.waiting ≡ self.old.waiting }
        ensures given { self.new.given ≡ self.old.given }
    {
        let mut most = reach.high;
        while let Some(interval) = highest_reached(&reach.indices, walks, reach.low, most) {
            self.sweep(config, tips, interval);
            most = interval - 1;
        }
    }
}

//! The next released packet is taken.

ghost use Rattle.std.specs.Prelude.{◌≡◌, ◌≤◌, [], length, map, take, drop, MatchOption, if◌then◌else◌};
ghost use Rattle.std.specs.List.{list_all};
ghost use Rattle.tesla_base.specs.Members.{Distinct};
ghost use Rattle.tesla_fitting.specs.Config.{chains};
ghost use Rattle.tesla_state.specs.Steps.{is_passed};
ghost use Rattle.tesla_state.specs.Stored.{order_of, IsGiven};

use crate::Store;
use crate::passing::all_passed;
use tesla_base::{Head, MOST_PAYLOAD};
use tesla_buffer::{Fate, Item};
use tesla_fitting::Config;
use tesla_keys::Verifier;

// Copies a packet's payload to the start of the buffer. The rest of the buffer stays as it was.
fn give(item: &Item, chain: u8, position: u64, into: &mut [u8; MOST_PAYLOAD]) -> Head
    requires { item.now.length ≤ 1200 }
    ensures head { result ≡ record { position = position; interval = item.now.name.interval; number = item.now.name.number; chain = chain; length = item.now.length } }
    ensures payload { take item.now.length into.new ≡ take item.now.length item.now.payload }
    ensures long { length (take item.now.length item.now.payload) ≡ item.now.length }
    ensures behind { drop item.now.length into.new ≡ drop item.now.length into.old }
{
    let length = usize::from(item.length);
    into[..length].copy_from_slice(&item.payload[..length]);
    Head {
        position,
        interval: item.name.interval,
        number: item.name.number,
        chain,
        length: item.length,
    }
}

// What becomes of a packet of the interval that is taken: it is let go where all chains have passed it.
fn fate_of(config: &Config, tips: &[Verifier], interval: u32) -> Fate
    requires { length tips.now ≡ length config.now.setup.rows }
    ensures { result ≡ (if list_all (is_passed tips.now interval) (chains config.now) then Fate.Gone else Fate.Taken) }
{
    if all_passed(config, tips, interval) {
        Fate::Gone
    } else {
        Fate::Taken
    }
}

impl Store {
    /// Gives the packet that waits first, the one with so many given before it, and marks it as taken; it is let go
    /// where all chains have passed it. Its payload is then at the front of the buffer; the rest of the buffer stays
    /// as it was. `None` exactly where none waits.
    pub fn take(
        &mut self,
        config: &Config,
        tips: &[Verifier],
        position: u64,
        into: &mut [u8; MOST_PAYLOAD],
    ) -> Option<Head>
        requires tips { length tips.now ≡ length config.now.setup.rows }
        requires orders { Distinct (map order_of self.old.held) }
        ensures capacity { self.new.capacity ≡ self.old.capacity }
        ensures reserved { self.new.reserved ≡ self.old.reserved }
        ensures chains { self.new.chains ≡ self.old.chains }
        ensures given { MatchOption result
            ((self.old.waiting ≡ []) × (self.new ≡ self.old) × (into.new ≡ into.old))
            (λ head. IsGiven config.now tips.now position self.old self.new head into.old into.new) }
    {
        let Some(waiting) = self.queue.pop() else {
            return None;
        };
        let item = self.buffer.item(waiting.place);
        let head = give(item, waiting.chain, position, into);
        let fate = fate_of(config, tips, item.name.interval);
        self.buffer.settle(waiting.place, fate);
        Some(head)
    }
}

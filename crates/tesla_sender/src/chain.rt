//! One key chain of a sender.

ghost use Rattle.std.specs.Prelude.{◌≡◌, ◌+◌, ◌-◌, ◌*◌, length, ◌^◌, ◌<◌, ◌≤◌, nat_lt, option_to_list, IfOk, IfErr};
ghost use Rattle.tesla_chain.specs.Cost.{W, bits};
ghost use Rattle.tesla_sender.specs.Made.{key_of, key_due, due_row, index_disclosed};
ghost use Rattle.tesla_sender.specs.Chains.{HasKept, HasMade, IsFresh, IsRefusedFor, left_after, steps_to, tag_made};

use crate::SenderRefusal;
use circular_buffer::HeapCircularBuffer;
use std::alloc::Global;
use std::marker::Model;
use std::sync::ledger::Ledger;
use tesla_base::{ChainNo, Key, Name, Steps, WideTag};
use tesla_chain::{Traversal, key_at};
use tesla_commit::{ChainRow, Setup};
use tesla_frame::KeyRow;
use tesla_prf::{PreparedKey, mac_key};

/// A key chain as far as it was used: the traversal that gives its keys in order, the last keys that it gave, and the
/// MAC key of the last interval with a message. With the key of the interval after the present one, the last keys still
/// go back to the one that is disclosed in the present one, `delay` intervals before.
#[derive(Drop)]
pub struct SendingChain {
    number: ChainNo,
    row: ChainRow,
    last: u32,
    traversal: Traversal,
    kept: HeapCircularBuffer<Key>,
    reached: u32,
    tagging: u32,
    mac: PreparedKey,
}

impl Model for SendingChain {
    ghost use Rattle.std.specs.Prelude.{◌+◌};
    ghost use Rattle.tesla_sender.specs.Chains.{Progress, IsUsed};

    ghost Value = { Progress };

    ghost view = { λ c. record {
      chain = record { number = c.number.0; row = c.row; seed = c.traversal.seed; last = c.last };
      reached = c.reached;
      tagging = c.tagging;
      left = c.traversal.left;
      reserved = c.traversal.reserved + c.kept.capacity;
    } };

    ghost invariant = { λ c. IsUsed c.row.delay c.last c.traversal c.kept c.reached c.tagging c.mac };
}

/// The key of an index of the traversal's chain, whose key of index `last` is the seed. The commitment is known
/// already; another key is walked to.
fn key_made<L: Ledger>(
    traversal: &Traversal,
    seed: &Key,
    last: u32,
    index: u32,
    steps: &mut Steps<L>,
) -> Key
    requires seed { traversal.now.seed ≡ seed.now }
    requires last { traversal.now.last ≡ last }
    requires within { index ≤ last }
    ensures value { result ≡ key_of last seed.now index }
    ensures cost { steps.new ≤ steps.old + last }
{
    if index == 0 {
        return traversal.commitment();
    }
    key_at(seed, last, index, steps)
}

/// Makes the next keys, each in at most `bits(N)` counted steps, and puts them into the ring, which drops its oldest
/// keys where it is full.
fn keep_keys<L: Ledger>(
    traversal: &mut Traversal,
    kept: &mut HeapCircularBuffer<Key>,
    count: u32,
    steps: &mut Steps<L>,
)
    requires within { traversal.old.given + count ≤ traversal.old.last }
    requires room { length kept.old.items ≤ kept.old.capacity }
    ensures kept { HasKept count traversal.old traversal.new kept.old kept.new }
    ensures call { steps.new ≤ steps.old + count * bits traversal.old.last }
    ensures left { steps.new + traversal.new.left ≤ steps.old + traversal.old.left }
{
    for _ in 0..count {
        let Some(key) = traversal.next(steps) else {
            unreachable!()
        };
        kept.push_back(key);
    }
}

impl SendingChain {
    /// The chain of this number, row of the setup and seed, whose key of index `last` the seed is. All memory
    /// is taken here. `WrongSeed` where the seed doesn't give the key of the row. Beside the counted steps it
    /// prepares one key, the seed, which stands there until the first MAC key; none where it is refused.
    pub fn open<L: Ledger>(
        alloc: Global,
        number: ChainNo,
        row: ChainRow,
        seed: Key,
        last: u32,
        steps: &mut Steps<L>,
    ) -> Result<SendingChain, SenderRefusal>
        requires least { 1 ≤ last }
        requires most { last ≤ 2 ^ 20 }
        requires within { row.index ≤ last }
        ensures opened { IfOk result (IsFresh (record { number = number.0; row = row; seed = seed; last = last })) }
        ensures refused { IfErr result (IsRefusedFor (record { number = number.0; row = row; seed = seed; last = last })) }
        ensures cost { steps.new + left_after result ≤ steps.old + (W last + last) }
    {
        let traversal = Traversal::open(alloc, seed, last, steps)?;
        let made = key_made(&traversal, &seed, last, row.index, steps);
        if made.0.as_slice() != row.key.0.as_slice() {
            return Err(SenderRefusal::WrongSeed {
                chain: number,
                made,
            });
        }
        Ok(SendingChain {
            number,
            row,
            last,
            traversal,
            kept: HeapCircularBuffer::with_capacity(alloc, row.delay as usize + 2)?,
            reached: 0,
            tagging: 0,
            mac: PreparedKey::new(&seed),
        })
    }

    /// Makes the keys up to that of an interval, each in at most `bits(N)` counted steps for a chain of `N` keys, with
    /// `bits(N)` the number of binary digits. Over a longer way than the ring has room for, only the last ones are made
    /// one by one: the traversal advances over those before at once. No key is prepared.
    pub fn advance<L: Ledger>(&mut self, interval: u32, steps: &mut Steps<L>)
        requires later { self.old.reached ≤ interval }
        requires within { interval ≤ self.old.chain.last }
        ensures same { self.new.chain ≡ self.old.chain }
        ensures reached { self.new.reached ≡ interval }
        ensures tagging { self.new.tagging ≡ self.old.tagging }
        ensures call { steps.new ≤ steps.old + steps_to interval self.old }
        ensures left { steps.new + self.new.left ≤ steps.old + self.old.left }
        ensures reserved { self.new.reserved ≡ self.old.reserved }
    {
        let room = u32::from(self.row.delay) + 2;
        let way = interval - self.reached;
        self.reached = interval;
        if way <= room {
            keep_keys(&mut self.traversal, &mut self.kept, way, steps);
            return;
        }
        self.traversal.advance(interval - room, steps);
        keep_keys(&mut self.traversal, &mut self.kept, room, steps);
    }

    /// The key of an interval that is at most `delay + 1` before the one reached.
    fn key(&self, index: u32) -> Key
        requires some { 1 ≤ index }
        requires within { index ≤ self.now.reached }
        requires kept { self.now.reached ≤ index + (self.now.chain.row.delay + 1) }
        ensures { result ≡ key_of self.now.chain.last self.now.chain.seed index }
    {
        match self.kept.nth_back((self.reached - index) as usize) {
            Some(key) => *key,
            None => unreachable!(),
        }
    }

    /// Makes the MAC key of an interval, where it isn't there: one counted step, and one key is prepared beside it. The
    /// interval's key, and at most the next one, were made.
    pub fn make_mac<L: Ledger>(&mut self, interval: u32, steps: &mut Steps<L>)
        requires some { 1 ≤ interval }
        requires within { interval ≤ self.old.chain.last }
        requires made { HasMade interval self.old }
        ensures same { self.new.chain ≡ self.old.chain }
        ensures reached { self.new.reached ≡ self.old.reached }
        ensures tagging { self.new.tagging ≡ interval }
        ensures left { self.new.left ≡ self.old.left }
        ensures reserved { self.new.reserved ≡ self.old.reserved }
        ensures cost { steps.new ≤ steps.old + 1 }
    {
        if self.tagging == interval {
            return;
        }
        let key = self.key(interval);
        self.mac = PreparedKey::new(&mac_key(&key, steps));
        self.tagging = interval;
    }

    /// The key that a message of the interval discloses, where there is one. The interval's key, and at most the next
    /// one, were made.
    pub fn key_due(&self, interval: u32) -> Option<Key>
        requires within { interval ≤ self.now.chain.last }
        requires made { HasMade interval self.now }
        ensures { result ≡ key_due interval self.now.chain }
    {
        let delay = u32::from(self.row.delay);
        if delay < interval {
            Some(self.key(interval - delay))
        } else {
            None
        }
    }

    /// The tag of a message of the interval whose MAC key is there: one counted step. No key is prepared.
    pub fn tag<L: Ledger>(
        &self,
        setup: &Setup,
        name: Name,
        payload: &[u8],
        steps: &mut Steps<L>,
    ) -> WideTag
        requires some { 1 ≤ name.interval }
        requires prepared { self.now.tagging ≡ name.interval }
        ensures value { result ≡ tag_made setup.now name payload.now self.now.chain }
        ensures length { result.length ≡ setup.now.tag_length }
        ensures cost { steps.new ≡ steps.old + 1 }
    {
        let length = setup.tag_length();
        self.mac
            .wide_tag(setup.stream(), self.number, name, payload, length, steps)
    }

    /// Whether the chain has a key to disclose in the interval.
    pub fn is_due(&self, interval: u64) -> bool
        ensures { result ≡ nat_lt self.now.chain.row.delay interval }
    {
        u64::from(self.row.delay) < interval
    }

    /// The index of the key that a call in the interval tells for the chain, 0 where it tells none.
    pub fn index_disclosed(&self, interval: u64) -> u64
        ensures { result ≡ index_disclosed interval self.now.chain }
    {
        interval
            .saturating_sub(u64::from(self.row.delay))
            .min(u64::from(self.last))
    }

    /// What a disclosure in the interval carries for the chain: its key of `delay` intervals before, or its
    /// last one. The keys up to that of the interval, or of the next one, were made, none after the last.
    pub fn row_due(&self, interval: u64) -> Option<KeyRow>
        requires { HasMade interval self.now }
        ensures { option_to_list result ≡ due_row interval self.now.chain }
    {
        if !self.is_due(interval) {
            return None;
        }
        let index = (interval - u64::from(self.row.delay)).min(u64::from(self.last)) as u32;
        Some(KeyRow {
            chain: self.number,
            index,
            key: self.key(index),
        })
    }
}

//! The calls of a sender.

ghost use Rattle.std.specs.Prelude.{◌≡◌, ◌+◌, ◌*◌, ◌^◌, ◌<◌, ◌≤◌, true, List, [], length, map, None, Some, codes, IfErr, IfOk, OnErr};
ghost use Rattle.std.specs.List.{All};
ghost use Rattle.tesla_frame.specs.Frame.{Frame};
ghost use Rattle.tesla_sender.specs.Made.{Call, Message, Disclose, any_due, chains_of, disclosure_frame, interval_at, made_disclosure, made_message, message_frame, tells_all, tells_newer};
ghost use Rattle.tesla_chain.specs.Cost.{W, bits};
ghost use Rattle.tesla_sender.specs.Cost.{steps_between};
ghost use Rattle.tesla_sender.specs.Opening.{IsOpened, IsRefusal, left_of, opening_chain, seeds_refused};
ghost use Rattle.tesla_sender.specs.Stands.{Answers, IsWritten, Spells, Stands, gone_on, interval_next, log_after, name_next, sent_in, returned_disclosure, returned_message};

use crate::chain::SendingChain;
use crate::chain_opening::{ChainOpening, opened_chains};
use crate::judging::{interval_at, judge_disclosure, judge_message};
use crate::opening::open_chains;
use crate::rows::{advance_all, any_due, prepare_all, tells_all, tells_newer};
use crate::writing::{write_due, write_message};
use crate::{DiscloseRefusal, SendRefusal, SenderRefusal};
use std::alloc::Global;
use std::fmt;
use std::marker::Model;
use std::sync::ledger::Ledger;
use tesla_base::{MOST_DATAGRAM, Name, Steps};
use tesla_clock::Schedule;
use tesla_commit::Setup;
use tesla_seeds::Seeds;

/// A sender of one stream (RFC 4082, sections 3.2 to 3.4): it makes the frames of messages and of disclosures.
///
/// Contracts see its stream, which is its setup with a seed for each chain, and the logs that it stands for: the
/// calls that it accepted, in order. It keeps the last `delay + 2` keys of each chain, and nothing of the log but
/// the interval and the number of the last calls. Contracts also see how many entries its tables have room for,
/// the table of its chains and those of each chain; the setup's own table, which no call changes, isn't among
/// them. Its `Debug` text shows no byte of a key.
#[derive(Drop)]
pub struct Sender {
    setup: Setup,
    chains: Vec<SendingChain>,
    latest: u64,
    used: u32,
}

impl Model for Sender {
    ghost use Rattle.std.specs.List.{sum_by};
    ghost use Rattle.std.specs.Prelude.{vec_capacity};
    ghost use Rattle.tesla_sender.specs.Chains.{left_in, reserved_by};
    ghost use Rattle.tesla_sender.specs.Stands.{State};
    ghost use Rattle.tesla_sender.specs.Senders.{IsSender, stream_of};

    ghost Value = { State };

    ghost view = { λ s. record {
      stream = stream_of s.setup s.chains.items;
      latest = s.latest;
      used = s.used;
      left = sum_by left_in s.chains.items;
      reserved = reserved_by (vec_capacity s.chains) s.chains.items;
    } };

    ghost invariant = { λ s. IsSender s.setup s.chains.items s.latest s.used };
}

impl Sender {
    /// A sender of the stream of this setup, with a seed for each chain, which has accepted no call yet. All memory
    /// is taken here. Each seed has to be the key of the last interval of its chain: `WrongSeed` where the key of
    /// the setup's index that it gives isn't the setup's key.
    ///
    /// Over a sender's whole life, its opening included, it takes at most `C * (W(N) + N + 2 m)` counted steps for
    /// `C` chains of `N` keys and `m` accepted messages, with `W(N)` as for a traversal. Beside the counted steps,
    /// opening prepares one key for each chain that it opens, so at most `C`, and an accepted message one for each
    /// chain where it is the first of its interval, so at most `C` too; no other call prepares a key. To prepare a
    /// key takes two compressions of SHA-256.
    pub fn open<L: Ledger>(
        alloc: Global,
        setup: Setup,
        seeds: &Seeds,
        steps: &mut Steps<L>,
    ) -> Result<Sender, SenderRefusal>
        requires { length seeds.now ≡ length setup.rows }
        ensures stands { IfOk result (λ sender. Stands sender []) }
        ensures stream { IfOk result (λ sender. sender.stream ≡ record { setup = setup; seeds = seeds.now }) }
        ensures right { IfOk result (λ _. seeds_refused (chains_of (record { setup = setup; seeds = seeds.now })) ≡ None) }
        ensures refused { IfErr result (IsRefusal (chains_of (record { setup = setup; seeds = seeds.now }))) }
        ensures cost { steps.new + left_of result ≤ steps.old + length setup.rows * (W setup.times.last + setup.times.last) }
    {
        match open_chains(alloc, &setup, seeds, steps) {
            Ok(chains) => Ok(Sender {
                setup,
                chains,
                latest: 0,
                used: 0,
            }),
            Err(refusal) => Err(refusal),
        }
    }

    /// The same, of chains that were opened each on its own, as side by side: the openings are those of this setup with
    /// these seeds (`chain_openings`), and each was opened. Evaluations are counted where that was.
    pub fn open_from(
        alloc: Global,
        setup: Setup,
        _seeds: &Seeds,
        openings: Vec<ChainOpening>,
    ) -> Result<Sender, SenderRefusal>
        requires count { length _seeds.now ≡ length setup.rows }
        requires same { map opening_chain openings.items ≡ chains_of (record { setup = setup; seeds = _seeds.now }) }
        requires opened { All IsOpened openings.items }
        ensures stands { IfOk result (λ sender. Stands sender []) }
        ensures stream { IfOk result (λ sender. sender.stream ≡ record { setup = setup; seeds = _seeds.now }) }
        ensures right { IfOk result (λ _. seeds_refused (chains_of (record { setup = setup; seeds = _seeds.now })) ≡ None) }
        ensures refused { IfErr result (IsRefusal (chains_of (record { setup = setup; seeds = _seeds.now }))) }
    {
        match opened_chains(alloc, openings) {
            Ok(chains) => Ok(Sender {
                setup,
                chains,
                latest: 0,
                used: 0,
            }),
            Err(refusal) => Err(refusal),
        }
    }

    /// When the intervals of the stream begin, and how many there are.
    pub fn schedule(&self) -> Schedule
        ensures { result ≡ self.now.stream.setup.times }
    {
        self.setup.schedule()
    }

    /// The interval of a reading of the sender's clock, in microseconds: 0 before the start.
    pub fn interval_at(&self, reading: u64) -> u64
        ensures { result ≡ interval_at self.now.stream.setup.times reading }
    {
        interval_at(self.setup.schedule(), reading)
    }

    /// The interval of the last accepted call, or the one that it went on to: 0 before the first.
    pub fn latest(&self) -> u64
        ensures { result ≡ self.now.latest }
    {
        self.latest
    }

    /// Whether on some chain a call in an interval tells a newer key than one in the interval `before`.
    pub fn tells_newer(&self, before: u64, interval: u64) -> bool
        ensures { result ≡ tells_newer before interval (chains_of self.now.stream) }
    {
        tells_newer(&self.chains, before, interval)
    }

    /// Whether on every chain a call in an interval tells the key of this index or a newer one.
    pub fn tells_all(&self, index: u64, interval: u64) -> bool
        ensures { result ≡ tells_all index interval (chains_of self.now.stream) }
    {
        tells_all(&self.chains, index, interval)
    }

    /// Goes on to an interval: from here on it answers as if its last accepted call were of that interval, whose
    /// messages are counted on where it was that already. The keys of each chain are made up to that of the interval,
    /// or of the last one. It writes nothing and takes no memory.
    ///
    /// It takes at most `C * d * bits(N)` counted steps for `C` chains of `N` keys, where it goes on by `d` intervals
    /// from that of the last accepted call, and `bits(N)` is the number of binary digits; intervals after the last one
    /// don't count. Over a long way it takes no more on a chain than the walk from the seed to the key of the interval
    /// and `(delay + 2) * (bits(N) + 1)`. It prepares no key, so no compressions of SHA-256 stand beside the counted
    /// steps.
    pub fn begin_at<L: Ledger>(&mut self, interval: u64, steps: &mut Steps<L>)
        requires later { self.old.latest ≤ interval }
        ensures after { self.new ≡ gone_on self.old interval self.new.left }
        ensures cost { steps.new + self.new.left ≤ steps.old + self.old.left }
        ensures call { steps.new ≤ steps.old + steps_between self.old.stream self.old.latest interval }
    {
        if interval == self.latest {
            return;
        }
        let last = u64::from(self.setup.schedule().last());
        advance_all(&mut self.chains, interval.min(last) as u32, steps);
        self.used = 0;
        self.latest = interval;
    }

    /// Makes the keys of the interval after that of the last accepted call ahead of time, where that is at most the
    /// last one, so that a first message there waits for no key. Nothing else changes, and a second call makes none.
    ///
    /// It takes at most `C * bits(N)` counted steps for `C` chains of `N` keys, with `bits(N)` the number of binary
    /// digits. It takes no memory and prepares no key.
    pub fn make_next<L: Ledger>(&mut self, steps: &mut Steps<L>)
        ensures same { self.new ≡ record { stream = self.old.stream; latest = self.old.latest; used = self.old.used; left = self.new.left; reserved = self.old.reserved } }
        ensures cost { steps.new + self.new.left ≤ steps.old + self.old.left }
        ensures call { steps.new ≤ steps.old + length self.old.stream.setup.rows * bits self.old.stream.setup.times.last }
    {
        if self.latest < u64::from(self.setup.schedule().last()) {
            advance_all(&mut self.chains, self.latest as u32 + 1, steps);
        }
    }

    /// Writes the frame of an accepted message of that name.
    fn send<L: Ledger>(
        &mut self,
        name: Name,
        payload: &[u8],
        into: &mut [u8; MOST_DATAGRAM],
        steps: &mut Steps<L>,
    ) -> usize
        requires some { 1 ≤ name.interval }
        requires later { self.old.latest ≤ name.interval }
        requires within { name.interval ≤ self.old.stream.setup.times.last }
        requires number { name.number < 2 ^ 16 }
        requires limit { length payload.now ≤ 1200 }
        ensures written { IsWritten (message_frame self.old.stream.setup (chains_of self.old.stream) name payload.now) result into.old into.new }
        ensures after { self.new ≡ record { stream = self.old.stream; latest = name.interval; used = name.number + 1; left = self.new.left; reserved = self.new.reserved } }
        ensures cost { steps.new + self.new.left ≤ steps.old + self.old.left + 2 * length self.old.stream.setup.rows }
        ensures call { steps.new ≤ steps.old + steps_between self.old.stream self.old.latest name.interval + 2 * length self.old.stream.setup.rows }
        ensures reserved { self.new.reserved ≡ self.old.reserved }
    {
        self.begin_at(u64::from(name.interval), steps);
        prepare_all(&mut self.chains, name.interval, steps);
        self.used = u32::from(name.number) + 1;
        write_message(&self.chains, &self.setup, name, payload, into, steps)
    }

    /// The name of a message at this reading.
    fn name_of(&self, reading: u64, payload: &[u8]) -> Result<Name, SendRefusal>
        ensures { result ≡ name_next self.now reading payload.now }
    {
        judge_message(
            self.setup.schedule(),
            self.latest,
            self.used,
            reading,
            payload,
        )
    }

    /// Answers a message, by the interval and the number of the last calls.
    fn answer_message<L: Ledger>(
        &mut self,
        reading: u64,
        payload: &[u8],
        into: &mut [u8; MOST_DATAGRAM],
        steps: &mut Steps<L>,
    ) -> Result<usize, SendRefusal>
        ensures returned { Answers result (returned_message self.old reading payload.now) into.old into.new }
        ensures after { IfOk result (λ _. self.new ≡ sent_in self.old (interval_at self.old.stream.setup.times reading) self.new.left) }
        ensures cost { steps.new + self.new.left ≤ steps.old + self.old.left + 2 * length self.old.stream.setup.rows }
        ensures call { steps.new ≤ steps.old + steps_between self.old.stream self.old.latest (interval_at self.old.stream.setup.times reading) + 2 * length self.old.stream.setup.rows }
        ensures refused { OnErr result ((self.new ≡ self.old) × (into.new ≡ into.old) × (steps.new ≡ steps.old)) }
        ensures room { IfOk result (λ length. length ≤ 2048) }
    {
        match self.name_of(reading, payload) {
            Ok(name) => Ok(self.send(name, payload, into, steps)),
            Err(refusal) => Err(refusal),
        }
    }

    /// Makes the data frame of a message at this reading of the sender's clock, in microseconds, at the front of
    /// `into`, and gives its length. It has the message's interval, the next number within that, counted from 0,
    /// the tags of all chains, and of each chain the key that is due (RFC 4082, sections 3.3 and 3.4).
    ///
    /// The refusals are those of [`SendRefusal`], in its order. After a refusal nothing has changed. It takes no
    /// memory: what was reserved at opening stays as it was.
    ///
    /// It takes at most `C * (d * bits(N) + 2)` counted steps for `C` chains of `N` keys, where it goes on by `d`
    /// intervals from that of the last accepted call, at first from interval 0, and `bits(N)` is the number of binary
    /// digits. Over a long way, it takes no more on a chain than the walk from the seed to the key of its interval,
    /// `(delay + 2) * (bits(N) + 1)` and the 2. Beside the counted steps, the first message of an interval prepares one
    /// key for each chain, of two compressions of SHA-256 each; a later one, or one that is refused, prepares none.
    pub fn message<L: Ledger>(
        &mut self,
        reading: u64,
        payload: &[u8],
        into: &mut [u8; MOST_DATAGRAM],
        steps: &mut Steps<L>,
    ) -> Result<usize, SendRefusal>
        ensures returned { Answers result (returned_message self.old reading payload.now) into.old into.new }
        ensures after { IfOk result (λ _. self.new ≡ sent_in self.old (interval_at self.old.stream.setup.times reading) self.new.left) }
        ensures answer { (log : List Call) → Stands self.old log → Answers result (made_message self.old.stream log reading payload.now) into.old into.new }
        ensures spelled { (log : List Call) → Stands self.old log → Spells result (made_message self.old.stream log reading payload.now) into.new }
        ensures stands { (log : List Call) → Stands self.old log → Stands self.new (log_after log (Message reading payload.now) result) }
        ensures stream { self.new.stream ≡ self.old.stream }
        ensures cost { steps.new + self.new.left ≤ steps.old + self.old.left + 2 * length self.old.stream.setup.rows }
        ensures call { steps.new ≤ steps.old + steps_between self.old.stream self.old.latest (interval_at self.old.stream.setup.times reading) + 2 * length self.old.stream.setup.rows }
        ensures refused { OnErr result ((self.new ≡ self.old) × (into.new ≡ into.old) × (steps.new ≡ steps.old)) }
        ensures room { IfOk result (λ length. length ≤ 2048) }
        ensures reserved { self.new.reserved ≡ self.old.reserved }
    {
        self.answer_message(reading, payload, into, steps)
    }

    /// Writes the frame of an accepted disclosure in that interval.
    fn disclose_in<L: Ledger>(
        &mut self,
        interval: u64,
        into: &mut [u8; MOST_DATAGRAM],
        steps: &mut Steps<L>,
    ) -> usize
        requires later { self.old.latest ≤ interval }
        requires due { any_due interval (chains_of self.old.stream) ≡ true }
        ensures written { IsWritten (disclosure_frame self.old.stream.setup (chains_of self.old.stream) interval) result into.old into.new }
        ensures after { self.new ≡ gone_on self.old interval self.new.left }
        ensures cost { steps.new + self.new.left ≤ steps.old + self.old.left }
        ensures call { steps.new ≤ steps.old + steps_between self.old.stream self.old.latest interval }
    {
        self.begin_at(interval, steps);
        write_due(&self.chains, &self.setup, interval, into)
    }

    /// The interval of a disclosure at this reading.
    fn interval_of(&self, reading: u64) -> Result<u64, DiscloseRefusal>
        ensures { result ≡ interval_next self.now reading }
    {
        let due = any_due(&self.chains, self.interval_at(reading));
        judge_disclosure(self.setup.schedule(), self.latest, due, reading)
    }

    /// Answers a disclosure, by the interval of the last call.
    fn answer_disclosure<L: Ledger>(
        &mut self,
        reading: u64,
        into: &mut [u8; MOST_DATAGRAM],
        steps: &mut Steps<L>,
    ) -> Result<usize, DiscloseRefusal>
        ensures returned { Answers result (returned_disclosure self.old reading) into.old into.new }
        ensures after { IfOk result (λ _. self.new ≡ gone_on self.old (interval_at self.old.stream.setup.times reading) self.new.left) }
        ensures cost { steps.new + self.new.left ≤ steps.old + self.old.left }
        ensures call { steps.new ≤ steps.old + steps_between self.old.stream self.old.latest (interval_at self.old.stream.setup.times reading) }
        ensures refused { OnErr result ((self.new ≡ self.old) × (into.new ≡ into.old) × (steps.new ≡ steps.old)) }
        ensures room { IfOk result (λ length. length ≤ 2048) }
    {
        match self.interval_of(reading) {
            Ok(interval) => Ok(self.disclose_in(interval, into, steps)),
            Err(refusal) => Err(refusal),
        }
    }

    /// Makes the disclosure frame of this reading of the sender's clock, in microseconds, at the front of `into`,
    /// and gives its length. In interval `x`, which may be after the last one, it has a row of each chain whose
    /// delay is below `x`: the key of index `x - delay`, or the last one.
    ///
    /// The refusals are those of [`DiscloseRefusal`], in its order. After a refusal nothing has changed. It takes
    /// no memory: what was reserved at opening stays as it was.
    ///
    /// It takes at most `C * d * bits(N)` counted steps, and over a long way no more than a message without its 2,
    /// where intervals after the last one don't count. It prepares no key, so no compressions of SHA-256 stand beside
    /// the counted steps.
    pub fn disclose<L: Ledger>(
        &mut self,
        reading: u64,
        into: &mut [u8; MOST_DATAGRAM],
        steps: &mut Steps<L>,
    ) -> Result<usize, DiscloseRefusal>
        ensures returned { Answers result (returned_disclosure self.old reading) into.old into.new }
        ensures after { IfOk result (λ _. self.new ≡ gone_on self.old (interval_at self.old.stream.setup.times reading) self.new.left) }
        ensures answer { (log : List Call) → Stands self.old log → Answers result (made_disclosure self.old.stream log reading) into.old into.new }
        ensures spelled { (log : List Call) → Stands self.old log → Spells result (made_disclosure self.old.stream log reading) into.new }
        ensures stands { (log : List Call) → Stands self.old log → Stands self.new (log_after log (Disclose reading) result) }
        ensures stream { self.new.stream ≡ self.old.stream }
        ensures cost { steps.new + self.new.left ≤ steps.old + self.old.left }
        ensures call { steps.new ≤ steps.old + steps_between self.old.stream self.old.latest (interval_at self.old.stream.setup.times reading) }
        ensures refused { OnErr result ((self.new ≡ self.old) × (into.new ≡ into.old) × (steps.new ≡ steps.old)) }
        ensures room { IfOk result (λ length. length ≤ 2048) }
        ensures reserved { self.new.reserved ≡ self.old.reserved }
    {
        self.answer_disclosure(reading, into, steps)
    }
}

impl fmt::Debug for Sender {
    ghost debug_output = { λ _. Some (codes "Sender { .. }") };

    fn fmt<W: fmt::Write>(&self, f: &mut fmt::Formatter<W>) -> fmt::Result {
        f.write_str("Sender { .. }")
    }
}

//! The names of the messages of a stream, without its seeds.

ghost use Rattle.std.specs.Prelude.{◌≡◌, [], IfOk, List, OnErr, slice_get, drop};
ghost use Rattle.tesla_sender.specs.Made.{Call, Disclose, Message, name_of};
ghost use Rattle.tesla_sender.specs.Names.{NamesAfter, accepted, disclosed_in, disclosed_next, disclosed_of, named_in, named_next, rows_due};
ghost use Rattle.tesla_sender.specs.Stands.{log_after};

use crate::judging::{interval_at, judge_disclosure, judge_message};
use crate::{DiscloseRefusal, SendRefusal};
use std::marker::Model;
use tesla_base::Name;
use tesla_commit::Setup;

/// Names the messages of a stream and judges its disclosures as its sender does, without seeds or keys.
///
/// Contracts see its setup, the interval of the last accepted call and how many messages of that were accepted, and the
/// logs that it names after: the calls that it accepted, in order. It takes no memory.
#[derive(Drop)]
pub struct Namer {
    setup: Setup,
    latest: u64,
    used: u32,
}

impl Model for Namer {
    ghost use Rattle.tesla_sender.specs.Names.{Naming};

    ghost Value = { Naming };

    ghost view = { λ n. record { setup = n.setup; latest = n.latest; used = n.used } };
}

// Whether some chain of a setup, from this one on, has a key to disclose in the interval.
fn rows_due(setup: &Setup, chain: u8, interval: u64) -> bool
    ensures { result ≡ rows_due interval (drop chain setup.now.rows) }
{
    if chain >= setup.count() {
        return false;
    }
    u64::from(setup.row(chain).delay) < interval || rows_due(setup, chain + 1, interval)
}

impl Namer {
    /// A namer of the stream of this setup, which has accepted no call yet.
    pub fn new(setup: Setup) -> Namer
        ensures names { NamesAfter result [] }
        ensures setup { result.setup ≡ setup }
    {
        Namer {
            setup,
            latest: 0,
            used: 0,
        }
    }

    // The name of a message at this reading.
    fn name_of(&self, reading: u64, payload: &[u8]) -> Result<Name, SendRefusal>
        ensures { result ≡ named_next self.now reading payload.now }
    {
        judge_message(
            self.setup.schedule(),
            self.latest,
            self.used,
            reading,
            payload,
        )
    }

    // Names a message, by the interval and the number of the last calls.
    fn name_next(&mut self, reading: u64, payload: &[u8]) -> Result<Name, SendRefusal>
        ensures returned { result ≡ named_next self.old reading payload.now }
        ensures after { IfOk result (λ name. self.new ≡ named_in self.old name) }
        ensures refused { OnErr result (self.new ≡ self.old) }
    {
        match self.name_of(reading, payload) {
            Ok(name) => {
                self.latest = u64::from(name.interval);
                self.used = u32::from(name.number) + 1;
                Ok(name)
            }
            Err(refusal) => Err(refusal),
        }
    }

    /// The name of a message at this reading of the sender's clock, in microseconds: its interval, and the next number
    /// within that, counted from 0.
    ///
    /// The refusals are those of [`SendRefusal`], in its order, as [`crate::Sender::message`] has them. After a refusal
    /// nothing has changed.
    pub fn message(&mut self, reading: u64, payload: &[u8]) -> Result<Name, SendRefusal>
        ensures returned { result ≡ named_next self.old reading payload.now }
        ensures after { IfOk result (λ name. self.new ≡ named_in self.old name) }
        ensures answer { (log : List Call) → NamesAfter self.old log → result ≡ name_of self.old.setup.times log reading payload.now }
        ensures names { (log : List Call) → NamesAfter self.old log → NamesAfter self.new (log_after log (Message reading payload.now) result) }
        ensures setup { self.new.setup ≡ self.old.setup }
        ensures refused { OnErr result (self.new ≡ self.old) }
    {
        self.name_next(reading, payload)
    }

    // The interval of a disclosure at this reading.
    fn interval_of(&self, reading: u64) -> Result<u64, DiscloseRefusal>
        ensures { result ≡ disclosed_next self.now reading }
    {
        let schedule = self.setup.schedule();
        let due = rows_due(&self.setup, 0, interval_at(schedule, reading));
        judge_disclosure(schedule, self.latest, due, reading)
    }

    // Goes on to the interval of an accepted disclosure.
    fn disclose_in(&mut self, interval: u64)
        ensures { self.new ≡ disclosed_in self.old interval }
    {
        if interval != self.latest {
            self.used = 0;
        }
        self.latest = interval;
    }

    // Judges a disclosure, by the interval of the last call.
    fn disclose_next(&mut self, reading: u64) -> Result<u64, DiscloseRefusal>
        ensures returned { result ≡ disclosed_next self.old reading }
        ensures after { IfOk result (λ interval. self.new ≡ disclosed_in self.old interval) }
        ensures refused { OnErr result (self.new ≡ self.old) }
    {
        match self.interval_of(reading) {
            Ok(interval) => {
                self.disclose_in(interval);
                Ok(interval)
            }
            Err(refusal) => Err(refusal),
        }
    }

    /// Judges a disclosure at this reading of the sender's clock, in microseconds.
    ///
    /// The refusals are those of [`DiscloseRefusal`], in its order, as [`crate::Sender::disclose`] has them. After a
    /// refusal nothing has changed.
    pub fn disclose(&mut self, reading: u64) -> Result<(), DiscloseRefusal>
        ensures returned { result ≡ accepted (disclosed_next self.old reading) }
        ensures answer { (log : List Call) → NamesAfter self.old log → result ≡ accepted (disclosed_of self.old.setup log reading) }
        ensures names { (log : List Call) → NamesAfter self.old log → NamesAfter self.new (log_after log (Disclose reading) result) }
        ensures setup { self.new.setup ≡ self.old.setup }
        ensures refused { OnErr result (self.new ≡ self.old) }
    {
        match self.disclose_next(reading) {
            Ok(_) => Ok(()),
            Err(refusal) => Err(refusal),
        }
    }
}

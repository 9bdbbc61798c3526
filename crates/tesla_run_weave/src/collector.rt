//! A collector as a converter: what is kept of the records of a script, which are named and judged.

ghost use Rattle.std.specs.Prelude.{◌≡◌, ◌+◌, ◌≤◌, ◌++◌, [], ◌∷◌, IfOk, List, true, false, length};
ghost use Rattle.tesla_capture.specs.Formats.{script_is};
ghost use Rattle.tesla_capture.specs.Gathering.{gathered};
ghost use Rattle.tesla_capture.specs.Script.{Discloses, Record, Sends, script};
ghost use Rattle.tesla_commit.specs.Parts.{Parts};
ghost use Rattle.tesla_convert.specs.Records.{record_of};
ghost use Rattle.tesla_desk.specs.Faults.{HasCause};
ghost use Rattle.tesla_sender.specs.Made.{Call, Disclose, Message, name_of};
ghost use Rattle.tesla_sender.specs.Names.{NamesAfter, disclosed_of};
ghost use Rattle.tesla_run_weave.specs.Plan.{plan_of};
ghost use Rattle.tesla_run_weave.specs.Rule.{answer_to, disclosure_answer, message_answer, no_setup, rule_of};
ghost use Rattle.tesla_run_weave.specs.Steps.{Collects, HasCollected, Settles, disclosure_judged, log_judged, message_judged};

use crate::WeaveKind;
use crate::plan::Plan;
use std::alloc::Global;
use std::marker::{Brand, PhantomData};
use tesla_base::{MOST_DATAGRAM, Name};
use tesla_capture::{Gatherer, RecordKind, RecordReader, RecordStep, ScriptFormat};
use tesla_convert::{Converted, Converter, Halt, TakenRecord};
use tesla_desk::{Sink, Source};
use tesla_early::MOST_BODY;
use tesla_run_send::{ScriptKind, message_kind};
use tesla_sender::{DiscloseRefusal, Namer};

/// The setup that a script is read under. It is named so that what a conversion gives back at its end is known to be under
/// the setup of its begin.
pub trait Under {
    ghost setup: { Parts };
}

impl Under for Brand {
    ghost setup = { no_setup };
}

/// Names the messages of a script, and keeps its records.
#[derive(Drop)]
pub struct Collector<U> {
    namer: Namer,
    alloc: Global,
    plan: Plan,
    under: PhantomData<U>,
}

// The name of a message, or why it is refused.
fn judge_message(namer: &mut Namer, reading: u64, body: &[u8]) -> Result<Name, WeaveKind>
    ensures answer { (log : List Call) → NamesAfter namer.old log → message_judged result ≡ message_answer body.now (name_of namer.old.setup.times log reading body.now) }
    ensures names { (log : List Call) → NamesAfter namer.old log → IfOk result (λ _. NamesAfter namer.new (log ++ Message reading body.now ∷ [])) }
    ensures setup { namer.new.setup ≡ namer.old.setup }
    ensures short { IfOk result (λ _. length body.now ≤ 1161) }
{
    match namer.message(reading, body) {
        Ok(name) => {
            if body.len() > MOST_BODY {
                return Err(WeaveKind::LongBody);
            }
            Ok(name)
        }
        Err(refusal) => Err(WeaveKind::Script(message_kind(refusal))),
    }
}

// Whether a disclosure is accepted, or why it is refused. One with nothing due isn't refused.
fn judge_disclosure(namer: &mut Namer, reading: u64) -> Result<bool, WeaveKind>
    ensures answer { (log : List Call) → NamesAfter namer.old log → disclosure_judged result ≡ disclosure_answer (disclosed_of namer.old.setup log reading) }
    ensures names { (log : List Call) → NamesAfter namer.old log → IfOk result (λ accepted. NamesAfter namer.new (log_judged accepted (Disclose reading) log)) }
    ensures setup { namer.new.setup ≡ namer.old.setup }
{
    match namer.disclose(reading) {
        Ok(()) => Ok(true),
        Err(DiscloseRefusal::NothingDue) => Ok(false),
        Err(DiscloseRefusal::Backward(_)) => Err(WeaveKind::Script(ScriptKind::Backward)),
    }
}

// Where memory was wanting, what is gathered is written.
fn settle<O: Sink>(
    outcome: Converted<WeaveKind>,
    gatherer: &mut Gatherer,
    out: &mut O,
) -> Converted<WeaveKind>
    requires { outcome ≡ Converted.WriteFault → ⊥ }
    ensures settles { Settles outcome result (O.written out.old) (O.written out.new) (gathered gatherer.old) (gathered gatherer.new) }
    ensures cause { HasCause (O.faults out.old) (O.faults out.new) (result ≡ Converted.WriteFault) }
    ensures name { O.name out.new ≡ O.name out.old }
{
    match outcome {
        Converted::NoMemory => {
            if gatherer.flush(out) {
                Converted::NoMemory
            } else {
                Converted::WriteFault
            }
        }
        _ => outcome,
    }
}

impl<U: Under> Collector<U> {
    /// A collector of the records of a script under the namer's setup, none of which was read yet. It takes no memory.
    pub fn new(alloc: Global, namer: Namer) -> Collector<U>
        requires setup { namer.setup ≡ U.setup }
        requires names { NamesAfter namer [] }
        ensures { HasCollected U.setup result.namer result.plan [] }
    {
        Collector {
            namer,
            alloc,
            plan: Plan::new(alloc),
            under: PhantomData,
        }
    }

    /// What was kept.
    pub fn into_plan(self) -> Plan
        ensures { result ≡ self.plan }
    {
        let Collector {
            namer: _,
            alloc: _,
            plan,
            under: _,
        } = self;
        plan
    }

    // Takes a message.
    fn take_message(&mut self, reading: u64, body: &[u8]) -> Converted<WeaveKind>
        ensures collects { (records : List Record) → HasCollected U.setup self.old.namer self.old.plan records → Collects U.setup self.new.namer self.new.plan records (Sends reading body.now) result }
        ensures written { result ≡ Converted.WriteFault → ⊥ }
    {
        let name = match judge_message(&mut self.namer, reading, body) {
            Ok(name) => name,
            Err(kind) => return Converted::Refused(kind),
        };
        match self.plan.add_message(self.alloc, reading, name, body) {
            Ok(()) => Converted::Whole,
            Err(_) => Converted::NoMemory,
        }
    }

    // Takes a disclosure.
    fn take_disclosure(&mut self, reading: u64) -> Converted<WeaveKind>
        ensures collects { (records : List Record) → HasCollected U.setup self.old.namer self.old.plan records → Collects U.setup self.new.namer self.new.plan records (Discloses reading) result }
        ensures written { result ≡ Converted.WriteFault → ⊥ }
    {
        match judge_disclosure(&mut self.namer, reading) {
            Ok(_) => {}
            Err(kind) => return Converted::Refused(kind),
        }
        match self.plan.add_disclosure(reading) {
            Ok(()) => Converted::Whole,
            Err(_) => Converted::NoMemory,
        }
    }

    // Takes a record.
    fn take(&mut self, taken: TakenRecord<'_>) -> Converted<WeaveKind>
        ensures collects { (records : List Record) → HasCollected U.setup self.old.namer self.old.plan records → Collects U.setup self.new.namer self.new.plan records (record_of script taken.entry) result }
        ensures written { result ≡ Converted.WriteFault → ⊥ }
    {
        match taken {
            TakenRecord::Carrying { reading, bytes } => self.take_message(reading, bytes),
            TakenRecord::Bare { reading } => self.take_disclosure(reading),
        }
    }
}

impl<U: Under> Converter for Collector<U> {
    type Input = ScriptFormat;

    type Kind = WeaveKind;

    ghost grammar = { script };

    ghost rule = { λ c. rule_of U.setup };

    ghost has = { λ c records. HasCollected U.setup c.namer c.plan records };

    ghost ended = { λ c records. c.plan ≡ plan_of U.setup records };

    ghost may_want = { true };

    ghost wants = { λ records next piece. Unit {0} };

    ghost calls = { λ c. 0 };

    ghost is = { script_is };

    fn next<S: Source>(
        reader: &mut RecordReader<ScriptFormat>,
        source: &mut S,
        room: &mut [u8; MOST_DATAGRAM],
    ) -> RecordStep {
        reader.next_record(source, room)
    }

    fn kind_of(&self, kind: RecordKind) -> WeaveKind {
        WeaveKind::from(kind)
    }

    fn begin<O: Sink>(&mut self, _: &mut Gatherer, _: &mut O) -> bool {
        true
    }

    fn convert<O: Sink>(
        &mut self,
        taken: TakenRecord<'_>,
        gatherer: &mut Gatherer,
        out: &mut O,
    ) -> Converted<WeaveKind> {
        let outcome = self.take(taken);
        settle(outcome, gatherer, out)
    }

    fn finish<O: Sink>(&mut self, _: &mut Gatherer, _: &mut O) -> Result<(), Halt> {
        Ok(())
    }
}

//! A capture that is played to a target, as the conversion of its records.

ghost use Rattle.std.specs.Prelude.{◌≡◌, ◌+◌, ◌^◌, ◌≤◌, ◌++◌, [], ℕ, List, true, Err, IfErr, IfOk, replicate};
ghost use Rattle.tesla_capture.specs.Capture.{capture};
ghost use Rattle.tesla_capture.specs.Gathering.{gathered, Gathers};
ghost use Rattle.tesla_desk.specs.Faults.{HasCause};
ghost use Rattle.tesla_desk.specs.Outside.{AppendsPrefix, with_bytes};
ghost use Rattle.tesla_convert.specs.Records.{IsWithin, record_of};
ghost use Rattle.tesla_receiver.specs.History.{Event, Takes};
ghost use Rattle.tesla_replay.specs.Played.{event_in};
ghost use Rattle.tesla_state.specs.Releases.{each_after};
ghost use Rattle.tesla_run_replay.specs.Playing.{EventFits, EventRule, WantsIn, event_of, silent};

use crate::target::{PlayedEvent, Target};
use std::marker::Brand;
use std::sync::ledger::Ledger;
use tesla_base::{MOST_DATAGRAM, Steps};
use tesla_capture::{CaptureFormat, Gatherer, RecordKind, RecordReader, RecordStep};
use tesla_convert::{Converted, Converter, Halt, TakenRecord};
use tesla_desk::{Sink, Source};

/// The ledger of a replay. It names the rule of the target too, so that what a conversion gives back at its end is known
/// to have kept the rule of its begin.
pub trait ReplayLedger: Ledger {
    ghost rule: { EventRule };
}

impl ReplayLedger for Brand {
    ghost rule = { silent };
}

/// Plays the records of a capture to a target. It counts the evaluations of HMAC.
#[derive(Drop)]
pub struct ReplayConverter<L: ReplayLedger, T> {
    target: T,
    steps: Steps<L>,
}

// The event that a record plays.
fn event_for(taken: TakenRecord<'_>) -> PlayedEvent<'_>
    requires { IsWithin capture taken }
    ensures event { event_of result ≡ event_in (record_of capture taken.entry) }
    ensures fits { EventFits result }
{
    match taken {
        TakenRecord::Carrying { reading, bytes } => PlayedEvent::Arrival {
            reading,
            datagram: bytes,
        },
        TakenRecord::Bare { reading: _ } => PlayedEvent::Take,
    }
}

// Takes so many times, up to the first that halts.
fn take_times<L: Ledger, T: Target, O: Sink>(
    target: &mut T,
    times: u64,
    steps: &mut Steps<L>,
    gatherer: &mut Gatherer,
    out: &mut O,
) -> Result<(), Halt>
    requires { T.calls target.old + times ≤ 2 ^ 56 }
    ensures rule { T.rule target.new ≡ T.rule target.old }
    ensures has { IfOk result (λ _. (es : List Event) → T.has target.old es → T.has target.new (es ++ replicate times (Takes 0))) }
    ensures writes { IfOk result (λ _. (es : List Event) → T.has target.old es →
        Gathers (O.written out.old) (O.written out.new) (gathered gatherer.new) (gathered gatherer.old ++ each_after (T.rule target.old).adds es (replicate times (Takes 0)))) }
    ensures halts { IfErr result (λ _. (es : List Event) → T.has target.old es →
        AppendsPrefix (O.written out.old) (O.written out.new) (gathered gatherer.old ++ each_after (T.rule target.old).adds es (replicate times (Takes 0)))) }
    ensures wants { result ≡ Err Halt.NoMemory → (T.may_want ≡ true) × (gathered gatherer.new ≡ [])
        × ((es : List Event) → T.has target.old es → (piece : List ℕ) × WantsIn (T.rule target.old) es (replicate times (Takes 0)) piece × (O.written out.new ≡ with_bytes (O.written out.old) (gathered gatherer.old ++ piece))) }
    ensures cause { HasCause (O.faults out.old) (O.faults out.new) (result ≡ Err Halt.WriteFault) }
    ensures name { O.name out.new ≡ O.name out.old }
{
    for _ in 0..times {
        if let Err(halt) = target.play(PlayedEvent::Take, steps, gatherer, out) {
            return Err(halt);
        }
    }
    Ok(())
}

impl<L: ReplayLedger, T: Target> ReplayConverter<L, T> {
    /// A converter that plays to this target.
    pub fn new(target: T, steps: Steps<L>) -> ReplayConverter<L, T>
        ensures { result.target ≡ target }
    {
        ReplayConverter { target, steps }
    }

    /// The target.
    pub fn target(&self) -> &T
        ensures { result.now ≡ self.now.target }
    {
        &self.target
    }
}

impl<L: ReplayLedger, T: Target> Converter for ReplayConverter<L, T> {
    ghost use Rattle.std.specs.Prelude.{◌≡◌};
    ghost use Rattle.tesla_capture.specs.Capture.{capture};
    ghost use Rattle.tesla_capture.specs.Formats.{capture_is};
    ghost use Rattle.tesla_run_replay.specs.Playing.{WantsNext, events_in, record_rule, with_end};

    type Input = CaptureFormat;

    type Kind = RecordKind;

    ghost grammar = { capture };

    ghost rule = { λ c. record_rule (T.rule c.target) };

    ghost has = { λ c records. (T.rule c.target ≡ L.rule) × T.has c.target (events_in records) };

    ghost ended = { λ c records. (T.rule c.target ≡ L.rule) × T.has c.target (with_end L.rule (events_in records)) };

    ghost may_want = { T.may_want };

    ghost wants = { WantsNext L.rule };

    ghost calls = { λ c. T.calls c.target };

    fn next<S: Source>(
        reader: &mut RecordReader<CaptureFormat>,
        source: &mut S,
        room: &mut [u8; MOST_DATAGRAM],
    ) -> RecordStep {
        reader.next_record(source, room)
    }

    fn kind_of(&self, kind: RecordKind) -> RecordKind {
        kind
    }

    fn begin<O: Sink>(&mut self, gatherer: &mut Gatherer, out: &mut O) -> bool {
        self.target.begin(gatherer, out)
    }

    fn convert<O: Sink>(
        &mut self,
        taken: TakenRecord<'_>,
        gatherer: &mut Gatherer,
        out: &mut O,
    ) -> Converted<RecordKind> {
        let event = event_for(taken);
        match self.target.play(event, &mut self.steps, gatherer, out) {
            Ok(()) => Converted::Whole,
            Err(Halt::WriteFault) => Converted::WriteFault,
            Err(Halt::NoMemory) => Converted::NoMemory,
        }
    }

    fn finish<O: Sink>(&mut self, gatherer: &mut Gatherer, out: &mut O) -> Result<(), Halt> {
        let waiting = self.target.waiting();
        if let Err(halt) = self
            .target
            .play(PlayedEvent::End, &mut self.steps, gatherer, out)
        {
            return Err(halt);
        }
        take_times(
            &mut self.target,
            waiting + 1,
            &mut self.steps,
            gatherer,
            out,
        )
    }

    ghost is = { capture_is };
}

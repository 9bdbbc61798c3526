//! A sender as a converter: of the records of a script the capture of its frames is made.

ghost use Rattle.std.specs.Prelude.{◌≡◌, ◌+◌, ◌^◌, ◌<◌, ◌≤◌, ◌++◌, List, true, false, length, take};
ghost use Rattle.tesla_capture.specs.Formats.{script_is};
ghost use Rattle.tesla_capture.specs.Gathering.{gathered, Gathers};
ghost use Rattle.tesla_capture.specs.Script.{Discloses, Sends, script};
ghost use Rattle.tesla_desk.specs.Faults.{HasCause};
ghost use Rattle.tesla_desk.specs.Outside.{AppendsPrefix};
ghost use Rattle.tesla_sender.specs.Made.{Call, Stream};
ghost use Rattle.tesla_sender.specs.Stands.{Stands};
ghost use Rattle.tesla_run_send.specs.Rule.{HasSent, frame_records, frames_of, no_stream, rule_of};
ghost use Rattle.tesla_run_send.specs.Script.{answer_to, message_kind};
ghost use Rattle.tesla_run_send.specs.Steps.{CarriesOut, PutsFrame};

use crate::ScriptKind;
use std::marker::Brand;
use std::sync::ledger::Ledger;
use tesla_base::{MOST_DATAGRAM, Steps};
use tesla_capture::{Gatherer, RecordKind, RecordReader, RecordStep, ScriptFormat};
use tesla_convert::{Converted, Converter, Halt, TakenRecord};
use tesla_desk::{Sink, Source};
use tesla_sender::{DiscloseRefusal, SendRefusal, Sender};

/// The ledger of a run of `send`. It names the stream of the sender too, so that what a conversion gives back at its end
/// is known to be of the stream of its begin.
pub trait SendLedger: Ledger {
    ghost stream: { Stream };
}

impl SendLedger for Brand {
    ghost stream = { no_stream };
}

/// Sends the records of a script: an arrival and a take are written for each frame. It owns the room for a frame, and
/// the count of evaluations of HMAC.
#[derive(Drop)]
pub struct SendConverter<L: SendLedger> {
    sender: Sender,
    steps: Steps<L>,
    frame: [u8; MOST_DATAGRAM],
    frames: u64,
}

/// Why a message is refused.
pub fn message_kind(refusal: SendRefusal) -> ScriptKind
    ensures { result ≡ message_kind refusal }
{
    match refusal {
        SendRefusal::TooLong(_) => ScriptKind::TooLong,
        SendRefusal::Early(_) => ScriptKind::Early,
        SendRefusal::Over(_) => ScriptKind::Over,
        SendRefusal::Backward(_) => ScriptKind::Backward,
        SendRefusal::IntervalFull(_) => ScriptKind::IntervalFull,
    }
}

// Puts the records of a frame behind those gathered: an arrival at this reading, and a take. False: a write failed.
fn put_records<O: Sink>(gatherer: &mut Gatherer, reading: u64, frame: &[u8], out: &mut O) -> bool
    requires { length frame.now ≤ 2048 }
    ensures all { result ≡ true → Gathers (O.written out.old) (O.written out.new) (gathered gatherer.new) (gathered gatherer.old ++ frame_records reading frame.now) }
    ensures prefix { result ≡ false → AppendsPrefix (O.written out.old) (O.written out.new) (gathered gatherer.old ++ frame_records reading frame.now) }
    ensures cause { HasCause (O.faults out.old) (O.faults out.new) (result ≡ false) }
    ensures name { O.name out.new ≡ O.name out.old }
{
    if !gatherer.put_arrival(out, reading, frame) {
        return false;
    }
    gatherer.put_take(out)
}

impl<L: SendLedger> SendConverter<L> {
    /// With a sender that has accepted nothing yet.
    pub fn new(sender: Sender, steps: Steps<L>) -> SendConverter<L>
        ensures sender { result.sender ≡ sender }
        ensures zero { result.frames ≡ 0 }
    {
        SendConverter {
            sender,
            steps,
            frame: [0; MOST_DATAGRAM],
            frames: 0,
        }
    }

    /// How many frames were made.
    pub fn frames(&self) -> u64
        ensures { result ≡ self.now.frames }
    {
        self.frames
    }

    // Puts the frame that was made, so many bytes of the room for frames, and counts it.
    fn put_frame<O: Sink>(
        &mut self,
        reading: u64,
        length: usize,
        gatherer: &mut Gatherer,
        out: &mut O,
    ) -> Converted<ScriptKind>
        requires few { length ≤ 2048 }
        requires count { self.old.frames + 1 < 2 ^ 64 }
        ensures puts { PutsFrame result (frame_records reading (take length self.old.frame)) self.old.frames self.new.frames (O.written out.old) (O.written out.new) (gathered gatherer.old) (gathered gatherer.new) }
        ensures sender { self.new.sender ≡ self.old.sender }
        ensures few { self.new.frames ≤ self.old.frames + 1 }
        ensures enough { result ≡ Converted.NoMemory → ⊥ }
        ensures cause { HasCause (O.faults out.old) (O.faults out.new) (result ≡ Converted.WriteFault) }
        ensures name { O.name out.new ≡ O.name out.old }
    {
        let frame = &self.frame[..length];
        if !put_records(gatherer, reading, frame, out) {
            return Converted::WriteFault;
        }
        self.frames += 1;
        Converted::Whole
    }

    // Sends a message.
    fn send_message<O: Sink>(
        &mut self,
        reading: u64,
        payload: &[u8],
        gatherer: &mut Gatherer,
        out: &mut O,
    ) -> Converted<ScriptKind>
        requires count { self.old.frames + 1 < 2 ^ 64 }
        ensures carries { (log : List Call) → Stands self.old.sender log →
            CarriesOut result (answer_to self.old.sender.stream log (Sends reading payload.now)) (Sends reading payload.now) log self.new.sender self.old.frames self.new.frames (O.written out.old) (O.written out.new) (gathered gatherer.old) (gathered gatherer.new) }
        ensures stream { self.new.sender.stream ≡ self.old.sender.stream }
        ensures few { self.new.frames ≤ self.old.frames + 1 }
        ensures enough { result ≡ Converted.NoMemory → ⊥ }
        ensures cause { HasCause (O.faults out.old) (O.faults out.new) (result ≡ Converted.WriteFault) }
        ensures name { O.name out.new ≡ O.name out.old }
    {
        match self
            .sender
            .message(reading, payload, &mut self.frame, &mut self.steps)
        {
            Ok(size) => self.put_frame(reading, size, gatherer, out),
            Err(refusal) => Converted::Refused(message_kind(refusal)),
        }
    }

    // Sends a disclosure, or nothing where none is due.
    fn send_disclosure<O: Sink>(
        &mut self,
        reading: u64,
        gatherer: &mut Gatherer,
        out: &mut O,
    ) -> Converted<ScriptKind>
        requires count { self.old.frames + 1 < 2 ^ 64 }
        ensures carries { (log : List Call) → Stands self.old.sender log →
            CarriesOut result (answer_to self.old.sender.stream log (Discloses reading)) (Discloses reading) log self.new.sender self.old.frames self.new.frames (O.written out.old) (O.written out.new) (gathered gatherer.old) (gathered gatherer.new) }
        ensures stream { self.new.sender.stream ≡ self.old.sender.stream }
        ensures few { self.new.frames ≤ self.old.frames + 1 }
        ensures enough { result ≡ Converted.NoMemory → ⊥ }
        ensures cause { HasCause (O.faults out.old) (O.faults out.new) (result ≡ Converted.WriteFault) }
        ensures name { O.name out.new ≡ O.name out.old }
    {
        match self
            .sender
            .disclose(reading, &mut self.frame, &mut self.steps)
        {
            Ok(size) => self.put_frame(reading, size, gatherer, out),
            Err(DiscloseRefusal::Backward(_)) => Converted::Refused(ScriptKind::Backward),
            Err(DiscloseRefusal::NothingDue) => Converted::Whole,
        }
    }
}

impl<L: SendLedger> Converter for SendConverter<L> {
    type Input = ScriptFormat;

    type Kind = ScriptKind;

    ghost grammar = { script };

    ghost rule = { λ c. rule_of L.stream };

    ghost has = { λ c records. HasSent L.stream c.sender c.frames records };

    ghost ended = { λ c records. c.frames ≡ frames_of L.stream records };

    ghost may_want = { false };

    ghost wants = { λ records next piece. ⊥ };

    ghost calls = { λ c. c.frames };

    ghost is = { script_is };

    fn next<S: Source>(
        reader: &mut RecordReader<ScriptFormat>,
        source: &mut S,
        room: &mut [u8; MOST_DATAGRAM],
    ) -> RecordStep {
        reader.next_record(source, room)
    }

    fn kind_of(&self, kind: RecordKind) -> ScriptKind {
        ScriptKind::from(kind)
    }

    fn begin<O: Sink>(&mut self, gatherer: &mut Gatherer, out: &mut O) -> bool {
        gatherer.put_head(out)
    }

    fn convert<O: Sink>(
        &mut self,
        taken: TakenRecord<'_>,
        gatherer: &mut Gatherer,
        out: &mut O,
    ) -> Converted<ScriptKind> {
        match taken {
            TakenRecord::Carrying { reading, bytes } => {
                self.send_message(reading, bytes, gatherer, out)
            }
            TakenRecord::Bare { reading } => self.send_disclosure(reading, gatherer, out),
        }
    }

    fn finish<O: Sink>(&mut self, _: &mut Gatherer, _: &mut O) -> Result<(), Halt> {
        Ok(())
    }
}

//! What the records of a capture are played to, and what is written of that.

ghost use Rattle.std.specs.Prelude.{◌≡◌, ◌+◌, ◌^◌, ◌<◌, ◌≤◌, ◌++◌, ◌∷◌, [], ℕ, List, Bool, true, false, Err, IfOk};
ghost use Rattle.tesla_capture.specs.Gathering.{gathered, Gathers};
ghost use Rattle.tesla_desk.specs.Faults.{HasCause};
ghost use Rattle.tesla_desk.specs.Outside.{AppendsPrefix, with_bytes};
ghost use Rattle.tesla_receiver.specs.History.{Event};
ghost use Rattle.tesla_receiver.specs.Stands.{Stands};
ghost use Rattle.tesla_convert.specs.Meaning.{SaysSame};
ghost use Rattle.tesla_run_replay.specs.Arguments.{IsCapacity, arguments_of, form_of};
ghost use Rattle.tesla_run_replay.specs.Playing.{EventFits, EventRule, event_of, meaning_by};
ghost use Rattle.tesla_run_replay.specs.Under.{PlayedCommand, config_of};

use crate::arguments::{Arguments, Capacity, Form};
use crate::report_lines;
use std::alloc::Global;
use std::sync::ledger::Ledger;
use tesla_base::{MOST_PAYLOAD, NoMemory, Steps};
use tesla_capture::Gatherer;
use tesla_commit::Setup;
use tesla_convert::Halt;
use tesla_desk::Sink;
use tesla_front::Lines;
use tesla_receiver::{Receiver, Take, laws};

/// An event that is played.
#[derive(Clone, Copy, Debug)]
pub enum PlayedEvent<'a> {
    /// A datagram comes, with the reading of the receiver's clock in microseconds.
    Arrival { reading: u64, datagram: &'a [u8] },
    /// The next released packet is taken.
    Take,
    /// The datagrams have ended.
    End,
}

/// What the records of a capture are played to: a receiver, or what stands in its place. It writes what it has to tell of
/// each event through a gatherer.
pub trait Target {
    /// The command that plays a capture to it.
    ghost command: { PlayedCommand };

    /// What is written before all events and of each event after those before it, and after some events how many packets
    /// wait and which lines tell what was played, and at which event memory may be wanting.
    ghost rule: { Self → EventRule };

    /// It has had these events, in this order, and no others.
    ghost has: { Self → List Event → Type 0 };

    /// Whether memory may be wanting at an event.
    ghost may_want: { Bool };

    /// How many events it has had at most.
    ghost calls: { Self → ℕ };

    /// The form of the command.
    fn form() -> Form
        ensures { form_of result ≡ command.form };

    /// A target that has had no event, for what the words of the command ask for, under a setup. All memory is taken here,
    /// unless `may_want` is true.
    fn open(alloc: Global, arguments: &Arguments<'_>, setup: Setup) -> Result<Self, NoMemory>
        requires capacity { (word : List ℕ) × IsCapacity command.form.capacity word arguments.now.limits }
        ensures has { IfOk result (λ target. has target []) }
        ensures calls { IfOk result (λ target. calls target ≡ 0) }
        ensures means { IfOk result (λ target. SaysSame (meaning_by may_want (rule target)) (command.meaning (config_of (arguments_of arguments.now) setup))) };

    /// Puts what stands before all events behind what is gathered. It takes no memory, and counts for no event.
    ///
    /// False: a prefix of both was written, and the sink's count of faults rose.
    fn begin<O: Sink>(&mut self, gatherer: &mut Gatherer, out: &mut O) -> bool
        ensures has { (es : List Event) → has self.old es → has self.new es }
        ensures rule { rule self.new ≡ rule self.old }
        ensures calls { calls self.new ≡ calls self.old }
        ensures writes { result ≡ true → Gathers (O.written out.old) (O.written out.new) (gathered gatherer.new) (gathered gatherer.old ++ (rule self.old).begins) }
        ensures halts { result ≡ false → AppendsPrefix (O.written out.old) (O.written out.new) (gathered gatherer.old ++ (rule self.old).begins) }
        ensures cause { HasCause (O.faults out.old) (O.faults out.new) (result ≡ false) }
        ensures name { O.name out.new ≡ O.name out.old };

    /// Plays an event, whose datagram has at most 2,048 bytes. What is written of it is put behind what is gathered.
    ///
    /// `WriteFault`: a prefix of both was written, and the sink's count of faults rose. `NoMemory` comes only where
    /// `may_want` is true and the rule says that memory may be wanting at the event, and then both were written.
    fn play<L: Ledger, O: Sink>(
        &mut self,
        event: PlayedEvent<'_>,
        steps: &mut Steps<L>,
        gatherer: &mut Gatherer,
        out: &mut O,
    ) -> Result<(), Halt>
        requires few { calls self.old < 2 ^ 56 }
        requires fits { EventFits event }
        ensures rule { rule self.new ≡ rule self.old }
        ensures has { IfOk result (λ _. (es : List Event) → has self.old es → has self.new (es ++ event_of event.entry ∷ [])) }
        ensures writes { IfOk result (λ _. (es : List Event) → has self.old es →
            Gathers (O.written out.old) (O.written out.new) (gathered gatherer.new) (gathered gatherer.old ++ (rule self.old).adds es (event_of event.entry))) }
        ensures halts { result ≡ Err Halt.WriteFault → (es : List Event) → has self.old es →
            AppendsPrefix (O.written out.old) (O.written out.new) (gathered gatherer.old ++ (rule self.old).adds es (event_of event.entry)) }
        ensures wants { result ≡ Err Halt.NoMemory → (may_want ≡ true) × (gathered gatherer.new ≡ [])
            × ((es : List Event) → has self.old es → O.written out.new ≡ with_bytes (O.written out.old) (gathered gatherer.old ++ (rule self.old).adds es (event_of event.entry)))
            × ((es : List Event) → has self.old es → (rule self.old).wants es (event_of event.entry) ≡ true) }
        ensures calls { calls self.new ≤ calls self.old + 1 }
        ensures cause { HasCause (O.faults out.old) (O.faults out.new) (result ≡ Err Halt.WriteFault) }
        ensures name { O.name out.new ≡ O.name out.old };

    /// How many packets wait to be taken.
    fn waiting(&self) -> u64
        ensures value { (es : List Event) → has self.now es → result ≡ (rule self.now).waiting es }
        ensures few { result < 2 ^ 36 };

    /// The lines that tell what was played.
    fn lines(&self) -> Lines
        ensures { (es : List Event) → has self.now es → result.bytes ≡ (rule self.now).tells es };
}

/// A receiver whose released packets are written, and whose report is told.
#[derive(Drop)]
pub struct ReceiverTarget {
    receiver: Receiver,
    payload: [u8; MOST_PAYLOAD],
}

/// A receiver for what the words of a command ask for, in which nothing has happened. All its memory is taken here.
pub fn open_receiver(
    alloc: Global,
    arguments: &Arguments<'_>,
    setup: Setup,
) -> Result<Receiver, NoMemory>
    ensures config { IfOk result (λ receiver. receiver.config ≡ config_of (arguments_of arguments.now) setup) }
    ensures stands { IfOk result (λ receiver. Stands receiver []) }
{
    let limits = arguments.limits;
    Receiver::open(
        alloc,
        setup,
        arguments.lag,
        limits.capacity,
        limits.quota,
        1,
    )
}

/// What comes of gathering: `WriteFault` exactly where it failed.
pub fn put_or_fault(put: bool) -> Result<(), Halt>
    ensures put { IfOk result (λ _. put ≡ true) }
    ensures fault { result ≡ Err Halt.WriteFault → put ≡ false }
    ensures enough { result ≡ Err Halt.NoMemory → ⊥ }
{
    if put { Ok(()) } else { Err(Halt::WriteFault) }
}

impl Target for ReceiverTarget {
    ghost use Rattle.std.specs.Prelude.{[], false};
    ghost use Rattle.tesla_receiver.specs.Events.{after_events};
    ghost use Rattle.tesla_receiver.specs.Stands.{Stands};
    ghost use Rattle.tesla_run_replay.specs.Playing.{rule_of};
    ghost use Rattle.tesla_run_replay.specs.Replay.{replayed};

    ghost command = { replayed };

    ghost rule = { λ t. rule_of t.receiver.config };

    ghost has = { λ t es. Stands t.receiver (after_events t.receiver.config [] es) };

    ghost may_want = { false };

    ghost calls = { λ t. t.receiver.calls };

    fn form() -> Form {
        Form {
            name: "replay",
            capacity: Capacity::PacketLimits,
        }
    }

    fn open(
        alloc: Global,
        arguments: &Arguments<'_>,
        setup: Setup,
    ) -> Result<ReceiverTarget, NoMemory> {
        match open_receiver(alloc, arguments, setup) {
            Ok(receiver) => Ok(ReceiverTarget {
                receiver,
                payload: [0; MOST_PAYLOAD],
            }),
            Err(NoMemory) => Err(NoMemory),
        }
    }

    fn begin<O: Sink>(&mut self, gatherer: &mut Gatherer, out: &mut O) -> bool {
        let _ = &gatherer;
        let _ = &out;
        true
    }

    fn play<L: Ledger, O: Sink>(
        &mut self,
        event: PlayedEvent<'_>,
        steps: &mut Steps<L>,
        gatherer: &mut Gatherer,
        out: &mut O,
    ) -> Result<(), Halt> {
        laws::events();
        match event {
            PlayedEvent::Arrival { reading, datagram } => {
                // The receiver counts the verdict.
                let _ = self.receiver.arrive(0, reading, datagram, steps);
                Ok(())
            }
            PlayedEvent::Take => match self.receiver.take(0, &mut self.payload) {
                Take::Given(head) => {
                    let given = &self.payload[..head.length as usize];
                    put_or_fault(gatherer.put(out, &head, given))
                }
                Take::Empty | Take::Over => Ok(()),
            },
            PlayedEvent::End => {
                self.receiver.end(0);
                Ok(())
            }
        }
    }

    fn waiting(&self) -> u64 {
        self.receiver.waiting()
    }

    fn lines(&self) -> Lines {
        report_lines(&self.receiver.report())
    }
}

//! The epochs of a feed, as that to which the records of a capture are played.

ghost use Rattle.std.specs.Prelude.{◌≡◌, ◌+◌, ◌<◌, ◌≤◌, ◌++◌, [], length, true, Err, IfOk, codes};
ghost use Rattle.tesla_capture.specs.Gathering.{gathered, Gathers};
ghost use Rattle.tesla_capture.specs.Release.{marked_text};
ghost use Rattle.tesla_desk.specs.Faults.{HasCause};
ghost use Rattle.tesla_desk.specs.Outside.{AppendsPrefix, with_bytes};
ghost use Rattle.tesla_front.specs.Lines.{count_line};
ghost use Rattle.tesla_rollover.specs.Replies.{had_memory};
ghost use Rattle.tesla_rollover.specs.Stands.{RollStands};

use std::alloc::Global;
use std::sync::ledger::Ledger;
use tesla_base::{Head, MOST_PAYLOAD, NoMemory, Steps};
use tesla_capture::Gatherer;
use tesla_commit::Setup;
use tesla_convert::Halt;
use tesla_desk::Sink;
use tesla_front::{Lines, add_count};
use tesla_rollover::{Next, RollTake, Rollover};
use tesla_run_replay::{Arguments, Capacity, Form, PlayedEvent, Target};

/// The epochs of a feed, whose released packets are written behind the numbers of their epochs, and which are counted.
#[derive(Drop)]
pub struct RolloverTarget {
    alloc: Global,
    rollover: Rollover,
    payload: [u8; MOST_PAYLOAD],
}

// Gathers the record of a packet that was given, behind the number of its epoch. Where there was no memory for the epoch
// that it should have opened, what is gathered is written.
fn put_given<O: Sink>(
    gatherer: &mut Gatherer,
    out: &mut O,
    epoch: u8,
    head: &Head,
    payload: &[u8],
    next: Next,
) -> Result<(), Halt>
    requires same { head.now.length ≡ length payload.now }
    requires limit { length payload.now ≤ 1200 }
    ensures enough { IfOk result (λ _. had_memory next ≡ true) }
    ensures writes { IfOk result (λ _. Gathers (O.written out.old) (O.written out.new) (gathered gatherer.new) (gathered gatherer.old ++ marked_text epoch head.now payload.now)) }
    ensures halts { result ≡ Err Halt.WriteFault → AppendsPrefix (O.written out.old) (O.written out.new) (gathered gatherer.old ++ marked_text epoch head.now payload.now) }
    ensures wants { result ≡ Err Halt.NoMemory → (next ≡ Next.NoMemory) × (gathered gatherer.new ≡ []) × (O.written out.new ≡ with_bytes (O.written out.old) (gathered gatherer.old ++ marked_text epoch head.now payload.now)) }
    ensures cause { HasCause (O.faults out.old) (O.faults out.new) (result ≡ Err Halt.WriteFault) }
    ensures name { O.name out.new ≡ O.name out.old }
{
    if !gatherer.put_marked(out, epoch, head, payload) {
        return Err(Halt::WriteFault);
    }
    if next != Next::NoMemory {
        return Ok(());
    }
    if gatherer.flush(out) {
        Err(Halt::NoMemory)
    } else {
        Err(Halt::WriteFault)
    }
}

// The lines that tell how many epochs there are, and how many packets were given.
fn count_lines(epochs: u64, given: u64) -> Lines
    ensures { result.bytes ≡ count_line (codes "epochs") epochs ++ count_line (codes "given") given }
{
    let mut lines = Lines::new();
    add_count(&mut lines, "epochs", epochs);
    add_count(&mut lines, "given", given);
    lines
}

impl Target for RolloverTarget {
    ghost use Rattle.std.specs.Prelude.{[], true};
    ghost use Rattle.tesla_rollover.specs.Events.{roll_after_events};
    ghost use Rattle.tesla_rollover.specs.Stands.{RollStands};
    ghost use Rattle.tesla_run_roll.specs.Roll.{roll_rule, rolled};

    ghost command = { rolled };

    ghost rule = { λ t. roll_rule t.rollover.config };

    ghost has = { λ t es. RollStands t.rollover (roll_after_events t.rollover.config [] es) };

    ghost may_want = { true };

    ghost calls = { λ t. t.rollover.calls };

    fn form() -> Form {
        Form {
            name: "roll",
            capacity: Capacity::Whole { most: 4096 },
        }
    }

    fn open(
        alloc: Global,
        arguments: &Arguments<'_>,
        setup: Setup,
    ) -> Result<RolloverTarget, NoMemory> {
        match Rollover::open(alloc, setup, arguments.lag, arguments.limits.capacity, 1) {
            Ok(rollover) => Ok(RolloverTarget {
                alloc,
                rollover,
                payload: [0; MOST_PAYLOAD],
            }),
            Err(NoMemory) => Err(NoMemory),
        }
    }

    fn begin<O: Sink>(&mut self, gatherer: &mut Gatherer, out: &mut O) -> bool {
        let _ = &gatherer;
        let _ = &out;
        true
    }

    fn play<L: Ledger, O: Sink>(
        &mut self,
        event: PlayedEvent<'_>,
        steps: &mut Steps<L>,
        gatherer: &mut Gatherer,
        out: &mut O,
    ) -> Result<(), Halt> {
        match event {
            PlayedEvent::Arrival { reading, datagram } => {
                // The verdict isn't told.
                let _ = self.rollover.arrive(0, reading, datagram, steps);
                Ok(())
            }
            PlayedEvent::Take => match self.rollover.take(self.alloc, 0, &mut self.payload) {
                RollTake::Given { epoch, head, next } => {
                    let given = &self.payload[..head.length as usize];
                    put_given(gatherer, out, epoch, &head, given, next)
                }
                RollTake::Empty | RollTake::Over => Ok(()),
            },
            PlayedEvent::End => {
                self.rollover.end(0);
                Ok(())
            }
        }
    }

    fn waiting(&self) -> u64 {
        self.rollover.waiting()
    }

    #[tactic(auto, unfolding(crate::specs::Roll::roll_text))]
    fn lines(&self) -> Lines {
        count_lines(u64::from(self.rollover.epochs()), self.rollover.given())
    }
}

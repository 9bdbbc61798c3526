//! A receiver whose history is traced, as that to which the records of a capture are played.

use std::alloc::Global;
use std::sync::ledger::Ledger;
use tesla_base::{MOST_PAYLOAD, NoMemory, Steps};
use tesla_capture::Gatherer;
use tesla_commit::Setup;
use tesla_convert::Halt;
use tesla_desk::Sink;
use tesla_front::Lines;
use tesla_receiver::{Receiver, laws};
use tesla_run_replay::{
    Arguments, Capacity, Form, PlayedEvent, Target, open_receiver, put_or_fault, report_lines,
};
use tesla_trace::{put_arrived, put_ended, put_taken, put_trace_head};

/// How many ingests the receiver has.
const INGESTS: u8 = 1;

/// A receiver whose history is written as a trace, and whose report is told.
#[derive(Drop)]
pub struct TraceTarget {
    receiver: Receiver,
    payload: [u8; MOST_PAYLOAD],
}

impl Target for TraceTarget {
    ghost use Rattle.std.specs.Prelude.{[], false};
    ghost use Rattle.tesla_receiver.specs.Events.{after_events};
    ghost use Rattle.tesla_receiver.specs.Stands.{Stands};
    ghost use Rattle.tesla_run_audit.specs.trace.Trace.{trace_rule, traced};

    ghost command = { traced };

    ghost rule = { λ t. trace_rule t.receiver.config };

    ghost has = { λ t es. Stands t.receiver (after_events t.receiver.config [] es) };

    ghost may_want = { false };

    ghost calls = { λ t. t.receiver.calls };

    fn form() -> Form {
        Form {
            name: "trace",
            capacity: Capacity::PacketLimits,
        }
    }

    fn open(
        alloc: Global,
        arguments: &Arguments<'_>,
        setup: Setup,
    ) -> Result<TraceTarget, NoMemory> {
        match open_receiver(alloc, arguments, setup) {
            Ok(receiver) => Ok(TraceTarget {
                receiver,
                payload: [0; MOST_PAYLOAD],
            }),
            Err(NoMemory) => Err(NoMemory),
        }
    }

    fn begin<O: Sink>(&mut self, gatherer: &mut Gatherer, out: &mut O) -> bool {
        put_trace_head(gatherer, out, INGESTS)
    }

    fn play<L: Ledger, O: Sink>(
        &mut self,
        event: PlayedEvent<'_>,
        steps: &mut Steps<L>,
        gatherer: &mut Gatherer,
        out: &mut O,
    ) -> Result<(), Halt> {
        laws::events();
        match event {
            PlayedEvent::Arrival { reading, datagram } => {
                let verdict = self.receiver.arrive(0, reading, datagram, steps);
                put_or_fault(put_arrived(gatherer, out, 0, reading, datagram, verdict))
            }
            PlayedEvent::Take => {
                let reply = self.receiver.take(0, &mut self.payload);
                put_or_fault(put_taken(gatherer, out, 0, reply, &self.payload))
            }
            PlayedEvent::End => {
                self.receiver.end(0);
                put_or_fault(put_ended(gatherer, out, 0))
            }
        }
    }

    fn waiting(&self) -> u64 {
        self.receiver.waiting()
    }

    fn lines(&self) -> Lines {
        report_lines(&self.receiver.report())
    }
}

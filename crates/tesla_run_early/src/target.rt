//! A receiver that accepts promised messages on arrival, as that to which the records of a capture are played.

ghost use Rattle.std.specs.Prelude.{◌≡◌, ◌+◌, ◌^◌, ◌<◌, ◌++◌, [], length, true, false, Err, IfOk, cond, codes, option_copied, option_map};
ghost use Rattle.tesla_capture.specs.Gathering.{gathered, Gathers};
ghost use Rattle.tesla_desk.specs.Faults.{HasCause};
ghost use Rattle.tesla_desk.specs.Outside.{AppendsPrefix};
ghost use Rattle.tesla_frame.specs.Shown.{shown};
ghost use Rattle.tesla_front.specs.Lines.{count_line};
ghost use Rattle.tesla_early.specs.Early.{message_in};
ghost use Rattle.tesla_early.specs.Stands.{EarlyStands};
ghost use Rattle.tesla_run_early.specs.Records.{message_text};
ghost use Rattle.tesla_run_early.specs.Playing.{promises};
ghost use Rattle.tesla_run_replay.specs.Arguments.{arguments_of};
ghost use Rattle.tesla_run_replay.specs.ReportText.{report_text};
ghost use Rattle.tesla_run_replay.specs.Under.{config_of};

use std::alloc::Global;
use std::sync::ledger::Ledger;
use tesla_base::{MOST_PAYLOAD, NoMemory, Steps};
use tesla_capture::Gatherer;
use tesla_commit::Setup;
use tesla_convert::Halt;
use tesla_desk::Sink;
use tesla_early::Early;
use tesla_frame::{FrameView, read_frame};
use tesla_front::{Lines, add_count};
use tesla_receiver::{Report, Take};
use tesla_run_replay::{
    Arguments, Capacity, Form, PlayedEvent, Target, add_report, open_receiver, put_or_fault,
};

/// How many promises are kept at most.
const PROMISES: u32 = 4096;

/// A receiver whose released packets and whose early arrivals are written, and whose report is told with the number of the
/// early arrivals.
#[derive(Drop)]
pub struct EarlyTarget {
    early: Early,
    accepted: u64,
    payload: [u8; MOST_PAYLOAD],
}

// A receiver with room for the promises, in which nothing has happened. All memory is taken here.
fn open_early(alloc: Global, arguments: &Arguments<'_>, setup: Setup) -> Result<Early, NoMemory>
    ensures config { IfOk result (λ e. e.receiver.config ≡ config_of (arguments_of arguments.now) setup) }
    ensures most { IfOk result (λ e. e.promises.most ≡ promises) }
    ensures stands { IfOk result (λ e. EarlyStands e []) }
{
    match open_receiver(alloc, arguments, setup) {
        Ok(receiver) => Early::open(alloc, receiver, PROMISES),
        Err(NoMemory) => Err(NoMemory),
    }
}

// Gathers the record of a datagram's message, where it is early. It takes no memory.
fn put_message<O: Sink>(
    gatherer: &mut Gatherer,
    out: &mut O,
    early: bool,
    frame: Option<&FrameView<'_>>,
) -> bool
    ensures writes { result ≡ true → Gathers (O.written out.old) (O.written out.new) (gathered gatherer.new) (gathered gatherer.old ++ cond early (message_text (message_in (option_map shown (option_copied frame.entry)))) []) }
    ensures prefix { result ≡ false → AppendsPrefix (O.written out.old) (O.written out.new) (gathered gatherer.old) }
    ensures cause { HasCause (O.faults out.old) (O.faults out.new) (result ≡ false) }
    ensures name { O.name out.new ≡ O.name out.old }
{
    if !early {
        return true;
    }
    match frame {
        Some(FrameView::Data(message)) => {
            gatherer.put_accepted(out, message.name(), message.payload())
        }
        // Only a message is early.
        _ => true,
    }
}

// How many arrivals were early, with one more that may be.
fn counted(accepted: u64, early: bool) -> u64
    ensures { accepted < 2 ^ 63 → result ≡ accepted + cond early 1 0 }
{
    if early {
        accepted.saturating_add(1)
    } else {
        accepted
    }
}

// The lines of a report, and the line that tells how many arrivals were early.
fn lines_of(report: &Report, accepted: u64) -> Lines
    ensures { result.bytes ≡ report_text report.now ++ count_line (codes "early") accepted }
{
    let mut lines = Lines::new();
    add_report(&mut lines, report);
    add_count(&mut lines, "early", accepted);
    lines
}

impl Target for EarlyTarget {
    ghost use Rattle.std.specs.Prelude.{[], false};
    ghost use Rattle.tesla_receiver.specs.Events.{after_events};
    ghost use Rattle.tesla_run_early.specs.Early.{played_early};
    ghost use Rattle.tesla_run_early.specs.Playing.{StandsFor, early_rule};

    ghost command = { played_early };

    ghost rule = { λ t. early_rule t.early.receiver.config };

    ghost has = { λ t es. StandsFor t.early t.accepted (after_events t.early.receiver.config [] es) };

    ghost may_want = { false };

    ghost calls = { λ t. t.early.receiver.calls };

    fn form() -> Form {
        Form {
            name: "early",
            capacity: Capacity::PacketLimits,
        }
    }

    fn open(
        alloc: Global,
        arguments: &Arguments<'_>,
        setup: Setup,
    ) -> Result<EarlyTarget, NoMemory> {
        match open_early(alloc, arguments, setup) {
            Ok(early) => Ok(EarlyTarget {
                early,
                accepted: 0,
                payload: [0; MOST_PAYLOAD],
            }),
            Err(NoMemory) => Err(NoMemory),
        }
    }

    fn begin<O: Sink>(&mut self, gatherer: &mut Gatherer, out: &mut O) -> bool {
        let _ = &gatherer;
        let _ = &out;
        true
    }

    fn play<L: Ledger, O: Sink>(
        &mut self,
        event: PlayedEvent<'_>,
        steps: &mut Steps<L>,
        gatherer: &mut Gatherer,
        out: &mut O,
    ) -> Result<(), Halt> {
        match event {
            PlayedEvent::Arrival { reading, datagram } => {
                let frame = read_frame(datagram);
                let frame = frame.as_ref();
                let answer = self.early.arrive_read(0, reading, datagram, frame, steps);
                self.accepted = counted(self.accepted, answer.early);
                put_or_fault(put_message(gatherer, out, answer.early, frame))
            }
            PlayedEvent::Take => match self.early.take(0, &mut self.payload) {
                Take::Given(head) => {
                    let given = &self.payload[..head.length as usize];
                    put_or_fault(gatherer.put_marked(out, 0, &head, given))
                }
                Take::Empty | Take::Over => Ok(()),
            },
            PlayedEvent::End => {
                self.early.end(0);
                Ok(())
            }
        }
    }

    fn waiting(&self) -> u64 {
        self.early.waiting()
    }

    #[tactic(auto, unfolding(crate::specs::Playing::early_text))]
    fn lines(&self) -> Lines {
        lines_of(&self.early.report(), self.accepted)
    }
}

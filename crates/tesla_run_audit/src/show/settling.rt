//! What is held at last is written, and what came is told.

ghost use Rattle.std.specs.Prelude.{◌≡◌};
ghost use Rattle.tesla_capture.specs.Gathering.{gathered};
ghost use Rattle.tesla_front.specs.OutcomeView.{outcome_view};
ghost use Rattle.tesla_run_audit.specs.show.Steps.{Settles, SoundFor, outcome_listed, fault_listed};

use crate::show::listing::Listed;
use tesla_base::Kind;
use tesla_capture::Gatherer;
use tesla_desk::Sink;
use tesla_front::{Fault, Lines, Outcome, Printed, refused};

// What listing comes to, where all lines are written.
fn outcome_of(listed: Listed) -> Outcome
    ensures { outcome_view result ≡ outcome_listed listed }
{
    match listed {
        Listed::End => Outcome::Done(Lines::new()),
        Listed::Refused { place, kind } => {
            Outcome::Refused(refused(3, "trace", place, kind.name()))
        }
        Listed::ReadFault => Outcome::Failed(Fault::Read),
        Listed::WriteFault => Outcome::Failed(Fault::Write),
    }
}

// What went wrong first, where the last lines can't be written.
fn fault_of(listed: Listed) -> Fault
    ensures { result ≡ fault_listed listed }
{
    match listed {
        Listed::ReadFault => Fault::Read,
        _ => Fault::Write,
    }
}

/// Writes what is gathered, unless a write failed before, and says what came. A failed write is a write fault, unless a read
/// failed before.
pub fn settle<O: Sink>(listed: Listed, gatherer: &mut Gatherer, console: &mut O) -> Printed
    requires sound { SoundFor listed (O.faults console.old) }
    ensures settles { Settles listed result (O.written console.old) (O.written console.new) (gathered gatherer.old) (O.faults console.new) }
    ensures name { O.name console.new ≡ O.name console.old }
{
    if matches!(listed, Listed::WriteFault) {
        return Printed::Broken(Fault::Write);
    }
    if gatherer.flush(console) {
        Printed::Whole(outcome_of(listed))
    } else {
        Printed::Broken(fault_of(listed))
    }
}

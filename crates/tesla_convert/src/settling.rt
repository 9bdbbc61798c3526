//! What is gathered is written at last.

ghost use Rattle.std.specs.Prelude.{◌≡◌, ◌<◌, Err};
ghost use Rattle.tesla_capture.specs.Gathering.{gathered};
ghost use Rattle.tesla_desk.specs.Faults.{HasCauseBeside};
ghost use Rattle.tesla_convert.specs.Steps.{Settles, SoundFor};

use crate::Stopped;
use tesla_capture::Gatherer;
use tesla_desk::Sink;

/// Writes what is gathered at last, after what came. A failed read stays, whatever becomes of that; after a failed write
/// nothing more is written, and where memory was wanting nothing is gathered any more.
pub fn settle<T: Copy, O: Sink>(
    gatherer: &mut Gatherer,
    outcome: Result<T, Stopped>,
    out: &mut O,
) -> Result<T, Stopped>
    requires { SoundFor outcome (O.faults out.old) }
    ensures settles { Settles outcome result (O.written out.old) (O.written out.new) (gathered gatherer.old) (O.faults out.new) }
    ensures wants { result ≡ Err Stopped.Memory → outcome ≡ Err Stopped.Memory }
    ensures cause { HasCauseBeside ((result ≡ Err Stopped.Read) × (0 < O.faults out.new)) 0 (O.faults out.new) (result ≡ Err Stopped.Write) }
    ensures name { O.name out.new ≡ O.name out.old }
{
    match outcome {
        Ok(value) => {
            if gatherer.flush(out) {
                Ok(value)
            } else {
                Err(Stopped::Write)
            }
        }
        Err(Stopped::Read) => {
            let _ = gatherer.flush(out);
            Err(Stopped::Read)
        }
        Err(Stopped::Write) => Err(Stopped::Write),
        Err(Stopped::Memory) => Err(Stopped::Memory),
    }
}

//! A message that is written to a file.

ghost use Rattle.std.specs.Prelude.{◌≡◌, ◌≤◌, [], ◌∷◌, length};
ghost use Rattle.tesla_desk.specs.Outside.{OfSink};
ghost use Rattle.tesla_front.specs.OutcomeView.{result_view};
ghost use Rattle.tesla_front.specs.Lines.{count_line};
ghost use Rattle.tesla_front.specs.Openings.{OpensSome};
ghost use Rattle.tesla_front.specs.Refusal.{StopCauses};
ghost use Rattle.tesla_run_ask.specs.Writing.{WritesMessage};

use tesla_desk::Desk;
use tesla_front::{Lines, Stop, add_count, write_file};

/// Writes a message to a file, and gives the line of what was done, which has at most 9 bytes, at a reading.
pub fn write_message<D: Desk>(
    out: &str,
    message: &[u8],
    done: &str,
    reading: u64,
    desk: &mut D,
) -> Result<Lines, Stop>
    requires { length done.now ≤ 9 }
    ensures writes { WritesMessage message.now (count_line done.now reading) ((D.told desk.old).page out.now) ((D.told desk.new).page out.now) (result_view result) }
    ensures opens { OpensSome (OfSink out.now ∷ []) (D.told desk.old) (D.told desk.new) }
    ensures live { (D.told desk.new).live ≡ (D.told desk.old).live }
    ensures causes { StopCauses result (D.told desk.old).faults (D.told desk.new).faults }
{
    match write_file(out, message, desk) {
        Ok(()) => Ok(line_of(done, reading)),
        Err(fault) => Err(Stop::Failed(fault)),
    }
}

// The line of what was done at a reading.
fn line_of(done: &str, reading: u64) -> Lines
    requires { length done.now ≤ 9 }
    ensures { result.bytes ≡ count_line done.now reading }
{
    let mut lines = Lines::new();
    add_count(&mut lines, done, reading);
    lines
}

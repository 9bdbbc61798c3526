//! What workers and one output more come to when they have ended.

ghost use Rattle.std.specs.Prelude.{◌≡◌, ◌||◌, Bool, not};
ghost use Rattle.std.specs.Option.{option_map};
ghost use Rattle.tesla_front.specs.OutcomeView.{result_view, stop_view};
ghost use Rattle.tesla_session.specs.Session.{outcome_by, stop_by};

use tesla_front::{Fault, Lines, Stop};

/// Why the run came to no end, where the output was written or failed: a link that failed comes first, and a failed write before
/// calls that were spent.
pub(crate) fn stop_with(stop: Option<Stop>, written: bool) -> Option<Stop>
    ensures { (read write spent : Bool) → option_map stop_view stop ≡ stop_by read write spent → option_map stop_view result ≡ stop_by read (write || not written) spent }
{
    if written {
        return stop;
    }
    match stop {
        Some(Stop::Failed(Fault::Read)) => Some(Stop::Failed(Fault::Read)),
        _ => Some(Stop::Failed(Fault::Write)),
    }
}

/// What workers that ended so come to, told the lines for the console.
pub(crate) fn ended(stop: Option<Stop>, lines: Lines) -> Result<Lines, Stop>
    ensures { result_view result ≡ outcome_by (option_map stop_view stop) lines.bytes }
{
    match stop {
        Some(stop) => Err(stop),
        None => Ok(lines),
    }
}

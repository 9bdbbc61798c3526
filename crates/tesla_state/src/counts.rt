//! The counts of verdicts.

ghost use Rattle.std.specs.Prelude.{◌≡◌, ◌+◌, ◌-◌, ◌^◌};
ghost use Rattle.tesla_state.specs.Counting.{AreBelow};
ghost use Rattle.tesla_state.specs.Steps.{counted};

use crate::Report;
use tesla_fitting::Verdict;

/// Counts an arrival of this verdict. Each count must be below the greatest `u64`.
pub fn count(report: &mut Report, verdict: Verdict)
    requires { AreBelow (2 ^ 64 - 1) report.old }
    ensures { report.new ≡ counted verdict report.old }
{
    report.arrivals += 1;
    match verdict {
        Verdict::Malformed => report.malformed += 1,
        Verdict::Foreign { .. } => report.foreign += 1,
        Verdict::Misfit => report.misfit += 1,
        Verdict::Future { .. } => report.future += 1,
        Verdict::BadKey { .. } => report.badkey += 1,
        Verdict::Late => report.late += 1,
        Verdict::Repeat => report.repeat += 1,
        Verdict::Full => report.full += 1,
        Verdict::Kept { .. } => report.kept += 1,
        Verdict::Keys => report.keys += 1,
    }
}

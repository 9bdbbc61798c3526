//! The lines that tell the counts of a receiver.

ghost use Rattle.std.specs.Prelude.{◌≡◌, ◌+◌, ◌≤◌, ◌++◌};
ghost use Rattle.arrayvec.specs.ArrayString.{array_string_len};
ghost use Rattle.tesla_run_replay.specs.ReportText.{report_text};

use tesla_front::{Lines, add_count};
use tesla_receiver::Report;

/// Adds the lines of a report: one a count, with its name. These are at most 396 bytes, for which there must be room.
#[tactic(auto, unfolding(crate::specs::ReportText::report_text))]
pub fn add_report(lines: &mut Lines, report: &Report)
    requires room { array_string_len lines.old + 396 ≤ 2048 }
    ensures text { lines.new.bytes ≡ lines.old.bytes ++ report_text report.now }
    ensures few { array_string_len lines.new ≤ array_string_len lines.old + 396 }
{
    add_count(lines, "arrivals", report.arrivals);
    add_count(lines, "malformed", report.malformed);
    add_count(lines, "foreign", report.foreign);
    add_count(lines, "misfit", report.misfit);
    add_count(lines, "future", report.future);
    add_count(lines, "badkey", report.badkey);
    add_count(lines, "late", report.late);
    add_count(lines, "repeat", report.repeat);
    add_count(lines, "full", report.full);
    add_count(lines, "kept", report.kept);
    add_count(lines, "keys", report.keys);
    add_count(lines, "given", report.given);
}

/// The lines of a report: one a count, with its name. They take no memory.
pub fn report_lines(report: &Report) -> Lines
    ensures { result.bytes ≡ report_text report.now }
{
    let mut lines = Lines::new();
    add_report(&mut lines, report);
    lines
}

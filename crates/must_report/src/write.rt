//! Reports put to a sink.

ghost use Rattle.must_find.specs.Report.{report_of};
ghost use Rattle.must_report.specs.Csv.{csv_of};
ghost use Rattle.must_report.specs.Written.{Wrote};

use crate::csv_text::report_csv;
use crate::fault::OutFault;
use crate::text::report_text;
use must_base::Sink;
use must_find::{Findings, RuleSet};
use std::alloc::Global;

/// Puts all of a report at once.
fn put_whole<O: Sink>(report: &[u8], out: &mut O) -> Result<(), OutFault>
    ensures { Wrote (O.shows out.old) (O.shows out.new) report.now result }
{
    match out.put(report) {
        Ok(()) => Ok(()),
        Err(_) => Err(OutFault::Write),
    }
}

/// Puts the report of the findings as text: a line for each finding whose severity isn't off, and a line with their
/// number (docs/RULES.md, "Reports").
///
/// All memory is taken before anything is put, so `NoMemory` puts nothing. `Write` comes only where the sink's count of
/// faults rose; a front of the report was put then.
pub fn write_text<O: Sink>(
    alloc: Global,
    findings: &Findings,
    rules: &RuleSet,
    out: &mut O,
) -> Result<(), OutFault>
    ensures { Wrote (O.shows out.old) (O.shows out.new) (report_of rules.now findings.now) result }
{
    let text = report_text(alloc, rules, findings.as_slice())?;
    put_whole(text.as_bytes(), out)
}

/// Puts the report of the findings as CSV: a line with the names of the fields, also where there is no finding, and a
/// line for each finding whose severity isn't off (docs/RULES.md, "Reports").
///
/// Memory and faults are as in `write_text`.
pub fn write_csv<O: Sink>(
    alloc: Global,
    findings: &Findings,
    rules: &RuleSet,
    out: &mut O,
) -> Result<(), OutFault>
    ensures { Wrote (O.shows out.old) (O.shows out.new) (csv_of rules.now findings.now) result }
{
    let bytes = report_csv(alloc, rules, findings.as_slice())?;
    put_whole(&bytes, out)
}

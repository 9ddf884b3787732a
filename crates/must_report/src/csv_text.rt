//! The report as CSV.

ghost use Rattle.std.specs.Prelude.{◌≡◌, ◌++◌, ◌∷◌, ℕ, List, [], map, OnOk, IfOk};
ghost use Rattle.std.specs.List.{flat_map};
ghost use Rattle.csv.specs.Writing.{row_text};
ghost use Rattle.must_find.specs.Report.{shown};
ghost use Rattle.must_report.specs.Csv.{header, see_rank as see_rank_text, see_call as see_call_text, row_of, csv_of};
ghost use Rattle.must_report.specs.CsvWriter.{Holds, plain_writer};

use crate::shown::is_shown;
use crate::text::severity_name;
use csv::{QuoteStyle, Writer, WriterBuilder};
use itoa::Buffer;
use must_base::NoMemory;
use must_call::Place;
use must_find::{Finding, RuleSet};
use std::alloc::Global;

/// A writer of CSV into memory.
type CsvWriter = Writer<Vec<u8>>;

/// The names of the fields.
const HEADER: [&[u8]; 8] = [
    b"rank",
    b"call",
    b"part",
    b"severity",
    b"rule",
    b"see_rank",
    b"see_call",
    b"value",
];

fn see_rank(see: Option<Place>, digits: &mut Buffer) -> &str
    ensures { result.now ≡ see_rank_text see }
{
    match see {
        None => "",
        Some(s) => digits.format(s.rank),
    }
}

fn see_call(see: Option<Place>, digits: &mut Buffer) -> &str
    ensures { result.now ≡ see_call_text see }
{
    match see {
        None => "",
        Some(s) => digits.format(s.call),
    }
}

/// A writer that holds nothing. Numbers, codes and severities need no quotes.
fn new_writer(alloc: Global) -> CsvWriter
    ensures { Holds result [] }
{
    WriterBuilder::new()
        .quote_style(QuoteStyle::Never)
        .from_writer(Vec::new(alloc))
}

/// Adds a line with these fields.
fn push_fields(out: &mut CsvWriter, fields: &[&[u8]]) -> Result<(), NoMemory>
    ensures { (before : List ℕ) → Holds out.old before → OnOk result (Holds out.new (before ++ row_text plain_writer (map (λ f. f.now) fields.now))) }
{
    match out.write_fields(fields) {
        Ok(()) => Ok(()),
        Err(_) => Err(NoMemory),
    }
}

fn push_header(out: &mut CsvWriter) -> Result<(), NoMemory>
    ensures { Holds out.old [] → OnOk result (Holds out.new header) }
{
    push_fields(out, &HEADER)
}

fn push_row(out: &mut CsvWriter, rules: &RuleSet, f: &Finding) -> Result<(), NoMemory>
    ensures { (before : List ℕ) → Holds out.old before → OnOk result (Holds out.new (before ++ row_of rules.now f.now)) }
{
    let (mut rank, mut call, mut part) = (Buffer::new(), Buffer::new(), Buffer::new());
    let (mut seen_rank, mut seen_call, mut value) = (Buffer::new(), Buffer::new(), Buffer::new());
    push_fields(
        out,
        &[
            rank.format(f.rank).as_bytes(),
            call.format(f.call).as_bytes(),
            part.format(f.part).as_bytes(),
            severity_name(rules.get(f.rule)).as_bytes(),
            f.rule.code().as_bytes(),
            see_rank(f.see, &mut seen_rank).as_bytes(),
            see_call(f.see, &mut seen_call).as_bytes(),
            value.format(f.value).as_bytes(),
        ],
    )
}

/// The line of a finding that is shown.
fn push_shown(out: &mut CsvWriter, rules: &RuleSet, f: &Finding) -> Result<(), NoMemory>
    ensures { (before : List ℕ) → Holds out.old before
        → OnOk result (Holds out.new (before ++ flat_map (row_of rules.now) (shown rules.now (f.now ∷ [])))) }
{
    if !is_shown(rules, f) {
        return Ok(());
    }
    push_row(out, rules, f)
}

/// Takes the text out of a writer.
fn text_of(out: CsvWriter) -> Result<Vec<u8>, NoMemory>
    ensures { (text : List ℕ) → Holds out text → IfOk result (λ bytes. bytes.items ≡ text) }
{
    out.into_inner().map_err(|_| NoMemory)
}

/// The whole report of some findings, in time and memory in proportion to their number.
pub fn report_csv(alloc: Global, rules: &RuleSet, findings: &[Finding]) -> Result<Vec<u8>, NoMemory>
    ensures { IfOk result (λ bytes. bytes.items ≡ csv_of rules.now findings.now) }
{
    let mut out = new_writer(alloc);
    push_header(&mut out)?;
    for f in findings {
        push_shown(&mut out, rules, f)?;
    }
    text_of(out)
}

//! The command `check`: the report of a run.

ghost use Rattle.std.specs.Prelude.{◌≡◌, ◌≢◌, ◌≤◌, length, take, map, Err, IfOk};
ghost use Rattle.must_format.specs.declared.limits.TheConstants.{MOST_RANKS};
ghost use Rattle.must_report.specs.Written.{Wrote};
ghost use Rattle.must_report.specs.declared.fault.OutFault.TheVariants.{NoMemory as OutOfMemory, Write};
ghost use Rattle.must_words.specs.Asked.{check_asked};
ghost use Rattle.must_cli.specs.Outside.{output, outside};
ghost use Rattle.must_cli.specs.Writing.{Writes, Cuts, report_in};
ghost use Rattle.must_cli.specs.Settled.{names_of, rules_met};
ghost use Rattle.must_cli.specs.Parts.{ReadsCheck, IsEnough, TiedCheck};
ghost use Rattle.must_cli.specs.CheckPromises.{Answers};

use crate::bind::bind_check;
use crate::line::{put_memory, put_rank_fault, put_rules_fault, put_settings, put_write};
use crate::parts::{Analysed, CheckFault, read_parts};
use crate::status::Status;
use must_base::{Sink, Trace};
use must_find::{Findings, RuleSet};
use must_report::{OutFault, count_shown, write_csv, write_text};
use must_settings::RulesFault;
use must_tree::RunFault;
use must_words::CheckWords;
use std::alloc::Global;

/// Binds the files of a check, and reads its rules file and then its streams.
fn read_check<T: Trace>(
    alloc: Global,
    words: &CheckWords,
    trace: &mut T,
) -> Result<Analysed, CheckFault>
    requires short { (1 ≤ length words.now.files.now) × (length words.now.files.now ≤ MOST_RANKS) }
    ensures reads { ReadsCheck (length words.now.files.now) words.now.options.sends (map (T.files trace.old) (names_of (check_asked words.now))) (map T.Src.shows (T.bound trace.new)) result }
    ensures names { IsEnough result → T.names trace.new ≡ names_of (check_asked words.now) }
    ensures tied { IsEnough result
        → TiedCheck (length words.now.files.now) (map (T.files trace.old) (names_of (check_asked words.now))) (map T.Src.shows (T.bound trace.new)) }
{
    if bind_check(alloc, words, trace).is_err() {
        return Err(CheckFault::Run(RunFault::NoMemory));
    }
    let parts = trace.parts();
    read_parts(alloc, &words.options, parts, words.files.len())
}

/// Puts the report of some findings, as CSV or as text.
fn write_report<O: Sink>(
    alloc: Global,
    csv: bool,
    findings: &Findings,
    rules: &RuleSet,
    out: &mut O,
) -> Result<(), OutFault>
    ensures { Wrote (O.shows out.old) (O.shows out.new) (report_in (record { csv = csv; rules = rules.now }) findings.now) result }
{
    if csv {
        write_csv(alloc, findings, rules, out)
    } else {
        write_text(alloc, findings, rules, out)
    }
}

/// Puts the report of some findings, and says whether it has a line of a finding. All memory is taken before the put.
fn put_report<O: Sink>(
    alloc: Global,
    csv: bool,
    findings: &Findings,
    rules: &RuleSet,
    out: &mut O,
) -> Result<bool, OutFault>
    ensures writes { IfOk result (Writes (record { csv = csv; rules = rules.now }) (output (O.shows out.old) (O.shows out.new)) findings.now) }
    ensures cuts { result ≡ Err Write → Cuts (record { csv = csv; rules = rules.now }) (output (O.shows out.old) (O.shows out.new)) findings.now }
    ensures nothing { result ≡ Err OutOfMemory → O.shows out.new ≡ O.shows out.old }
{
    match write_report(alloc, csv, findings, rules, out) {
        Err(fault) => Err(fault),
        Ok(()) => Ok(count_shown(findings, rules) > 0),
    }
}

/// Checks the run whose streams are in the files.
pub fn check<T: Trace, O: Sink, E: Sink>(
    alloc: Global,
    words: &CheckWords,
    trace: &mut T,
    out: &mut O,
    err: &mut E,
) -> Status
    requires short { (1 ≤ length words.now.files.now) × (length words.now.files.now ≤ MOST_RANKS) }
    ensures answers { Answers (check_asked words.now)
        (rules_met (T.files trace.old) (map T.Src.shows (T.bound trace.new)) (check_asked words.now))
        (outside
        (map (T.files trace.old) words.now.files.now)
        (take (length words.now.files.now) (map T.Src.shows (T.bound trace.new)))
        (output (O.shows out.old) (O.shows out.new)))
        (output (E.shows err.old) (E.shows err.new))
        result }
    ensures names { result ≢ Status.NoMemory → T.names trace.new ≡ names_of (check_asked words.now) }
    ensures tied { result ≢ Status.NoMemory
        → TiedCheck (length words.now.files.now) (map (T.files trace.old) (names_of (check_asked words.now))) (map T.Src.shows (T.bound trace.new)) }
{
    match read_check(alloc, words, trace) {
        Err(CheckFault::Rules(RulesFault::Read)) => {
            put_rules_fault(err);
            Status::Outside
        }
        Err(CheckFault::Rules(RulesFault::Refused)) => {
            put_settings(err);
            Status::Settings
        }
        Err(CheckFault::Rules(RulesFault::NoMemory)) => {
            put_memory(err);
            Status::NoMemory
        }
        Err(CheckFault::Run(RunFault::NoMemory)) => {
            put_memory(err);
            Status::NoMemory
        }
        Err(CheckFault::Run(RunFault::Stream { rank, fault })) => {
            put_rank_fault(err, rank, fault);
            Status::of_fault(fault)
        }
        Ok(analysed) => match put_report(
            alloc,
            words.options.csv,
            &analysed.findings,
            &analysed.rules,
            out,
        ) {
            Ok(true) => Status::Found,
            Ok(false) => Status::Clean,
            Err(OutFault::Write) => {
                put_write(err);
                Status::Outside
            }
            Err(OutFault::NoMemory) => {
                put_memory(err);
                Status::NoMemory
            }
        },
    }
}

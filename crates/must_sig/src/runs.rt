//! Lists of runs in which no two neighbours are of one basic type.

ghost use Rattle.std.specs.Prelude.{◌≡◌, ◌+◌, ◌*◌, ◌<◌, ◌≤◌, ◌^◌, ◌++◌, ◌↔◌, length, replicate, IsTrue, OnOk};
ghost use Rattle.must_sig.specs.Signatures.{laid, repeated};
ghost use Rattle.must_sig.specs.Runs.{AreRuns, AreMerged, EndsWith};

use crate::run::Run;
use must_base::NoMemory;
use must_call::Basic;

/// Whether the last run is of this basic type.
fn ends_with(runs: &[Run], basic: Basic) -> bool
    ensures { IsTrue result ↔ EndsWith runs.now basic }
{
    if runs.is_empty() {
        return false;
    }
    runs[runs.len() - 1].basic.number() == basic.number()
}

/// A run more behind the others; it is joined to the last one where that is of the same basic type.
fn push_run(runs: &mut Vec<Run>, run: Run) -> Result<(), NoMemory>
    requires runs { AreRuns runs.old.items }
    requires merged { AreMerged runs.old.items }
    requires run { 0 < run.length }
    requires short { length (laid runs.old.items) + run.length ≤ 2 ^ 62 }
    ensures laid { OnOk result (laid runs.new.items ≡ laid runs.old.items ++ replicate run.length run.basic) }
    ensures runs { OnOk result (AreRuns runs.new.items) }
    ensures merged { OnOk result (AreMerged runs.new.items) }
{
    if ends_with(runs.as_slice(), run.basic) {
        let last = runs.len() - 1;
        runs[last] = Run {
            basic: run.basic,
            length: runs[last].length + run.length,
        };
        return Ok(());
    }
    runs.push(run)?;
    Ok(())
}

/// More runs behind the others.
pub(crate) fn append(runs: &mut Vec<Run>, more: &[Run]) -> Result<(), NoMemory>
    requires runs { AreRuns runs.old.items }
    requires merged { AreMerged runs.old.items }
    requires more { AreRuns more.now }
    requires short { length (laid runs.old.items) + length (laid more.now) ≤ 2 ^ 62 }
    ensures laid { OnOk result (laid runs.new.items ≡ laid runs.old.items ++ laid more.now) }
    ensures runs { OnOk result (AreRuns runs.new.items) }
    ensures merged { OnOk result (AreMerged runs.new.items) }
{
    for i in 0..more.len() {
        push_run(runs, more[i])?;
    }
    Ok(())
}

/// More runs behind the others, so many times over. Takes time for the runs that come of it: one run is one run more,
/// however often it is repeated.
pub(crate) fn append_times(runs: &mut Vec<Run>, more: &[Run], times: u64) -> Result<(), NoMemory>
    requires runs { AreRuns runs.old.items }
    requires merged { AreMerged runs.old.items }
    requires more { AreRuns more.now }
    requires short { length (laid runs.old.items) + times * length (laid more.now) ≤ 2 ^ 62 }
    ensures laid { OnOk result (laid runs.new.items ≡ laid runs.old.items ++ repeated times (laid more.now)) }
    ensures runs { OnOk result (AreRuns runs.new.items) }
    ensures merged { OnOk result (AreMerged runs.new.items) }
{
    if times == 0 {
        return Ok(());
    }
    if more.is_empty() {
        return Ok(());
    }
    if more.len() == 1 {
        let run = more[0];
        let long = Run {
            basic: run.basic,
            length: times * run.length,
        };
        push_run(runs, long)?;
        return Ok(());
    }
    for copy in 0..times {
        append(runs, more)?;
    }
    Ok(())
}

/// How many basic types the runs are.
pub(crate) fn total(runs: &[Run]) -> u64
    requires { length (laid runs.now) ≤ 2 ^ 62 }
    ensures { result ≡ length (laid runs.now) }
{
    let mut sum = 0;
    for i in 0..runs.len() {
        sum += runs[i].length;
    }
    sum
}

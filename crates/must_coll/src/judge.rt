//! The rows of a wave.

ghost use Rattle.std.specs.Prelude.{◌≡◌, ◌⊎◌, List, IfOk, OnOk, Some, map, slice_get};
ghost use Rattle.std.specs.Option.{option_copied};
ghost use Rattle.must_find.specs.declared.finding.Finding.{Finding};
ghost use Rattle.must_find.specs.Adds.{Adds};
ghost use Rattle.must_coll.specs.Rows.{is_kind, are_kind, one_kind_of, kind_row, gap_row, IsCallsRow, IsRowOf};
ghost use Rattle.must_coll.specs.Given.{GivenBy};
ghost use Rattle.must_coll.specs.Duties.{IsDutyRow};

use crate::agreement::report_agreement;
use crate::amounts::report_amounts;
use crate::created::report_created;
use crate::item::WaveItem;
use crate::made::report_made;
use must_base::NoMemory;
use must_call::Place;
use must_find::{Finding, Findings, Rule};
use std::alloc::Global;

fn has_kind_of(first: &WaveItem, call: &WaveItem) -> bool
    ensures { result ≡ is_kind first.now call.now }
{
    call.kind.number() == first.kind.number()
}

fn judge_kind(first: &WaveItem, call: &WaveItem) -> Option<Finding>
    ensures { result ≡ kind_row (Some first.now) call.now }
{
    if has_kind_of(first, call) {
        return None;
    }
    Some(Finding {
        rank: call.place.rank,
        call: call.place.call,
        rule: Rule::C1,
        part: 0,
        see: Some(first.place),
        value: i128::from(call.kind.number()),
    })
}

pub(crate) fn call_at(calls: &[WaveItem], i: usize) -> Option<&WaveItem>
    ensures { option_copied result ≡ slice_get calls.now i }
{
    calls.get(i)
}

/// Adds a finding, where there is one.
pub(crate) fn report(out: &mut Findings, finding: Option<Finding>) -> Result<(), NoMemory>
    ensures { OnOk result (Adds out.old out.new (λ f. finding ≡ Some f)) }
{
    match finding {
        None => Ok(()),
        Some(finding) => {
            out.add(finding)?;
            Ok(())
        }
    }
}

/// Adds the rows C1 of a wave.
fn report_kinds(first: &WaveItem, calls: &[WaveItem], out: &mut Findings) -> Result<(), NoMemory>
    ensures { OnOk result (Adds out.old out.new (GivenBy (kind_row (Some first.now)) calls.now)) }
{
    for call in calls {
        report(out, judge_kind(first, call))?;
    }
    Ok(())
}

/// Whether all calls are of the kind of this one.
fn are_kind_of(first: &WaveItem, calls: &[WaveItem]) -> bool
    ensures { result ≡ are_kind (Some first.now) calls.now }
{
    for call in calls {
        if !has_kind_of(first, call) {
            return false;
        }
    }
    true
}

/// Whether all calls of a wave are of one kind.
fn is_one_kind(calls: &[WaveItem]) -> bool
    ensures { result ≡ one_kind_of calls.now }
{
    match calls.first() {
        None => true,
        Some(first) => are_kind_of(first, calls),
    }
}

fn judge_gap(missing: Option<u32>, first: &WaveItem) -> Option<Finding>
    ensures { result ≡ gap_row missing (Some first.now) }
{
    let member = missing?;
    Some(Finding {
        rank: first.place.rank,
        call: first.place.call,
        rule: Rule::C5,
        part: 0,
        see: None,
        value: i128::from(member),
    })
}

/// Adds the rows C1 and C5 of a wave with these calls, where this member is the first without one.
fn report_calls(
    missing: Option<u32>,
    calls: &[WaveItem],
    out: &mut Findings,
) -> Result<(), NoMemory>
    ensures { OnOk result (Adds out.old out.new (IsCallsRow missing calls.now)) }
{
    match calls.first() {
        None => Ok(()),
        Some(first) => {
            report_kinds(first, calls, out)?;
            report(out, judge_gap(missing, first))
        }
    }
}

/// Adds the rows of a whole wave of one kind.
fn report_duties(alloc: Global, calls: &[WaveItem], out: &mut Findings) -> Result<(), NoMemory>
    ensures { OnOk result (Adds out.old out.new (IsDutyRow calls.now)) }
{
    report_agreement(calls, out)?;
    report_amounts(calls, out)?;
    report_made(alloc, calls, out)?;
    report_created(calls, out)
}

/// Adds the rows of a wave with these calls, where this member is the first without one, and tells whether the calls are of
/// one kind.
pub(crate) fn report_wave(
    alloc: Global,
    missing: Option<u32>,
    calls: &[WaveItem],
    out: &mut Findings,
) -> Result<bool, NoMemory>
    ensures rows { OnOk result (Adds out.old out.new (IsRowOf missing calls.now)) }
    ensures kind { IfOk result (λ b. b ≡ one_kind_of calls.now) }
{
    report_calls(missing, calls, out)?;
    if missing.is_some() {
        return Ok(is_one_kind(calls));
    }
    if !is_one_kind(calls) {
        return Ok(false);
    }
    report_duties(alloc, calls, out)?;
    Ok(true)
}

/// The places of some calls.
pub(crate) fn places_of(alloc: Global, calls: &[WaveItem]) -> Result<Vec<Place>, NoMemory>
    ensures { IfOk result (λ v. v.items ≡ map (λ x. x.place) calls.now) }
{
    let mut places = Vec::new(alloc);
    for call in calls {
        places.push(call.place)?;
    }
    Ok(places)
}

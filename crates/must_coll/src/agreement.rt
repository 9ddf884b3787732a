//! Roots and operations of a wave: rules C2 and C3.

ghost use Rattle.std.specs.Prelude.{◌≡◌, ◌⊎◌, OnOk, Some, None, length};
ghost use Rattle.std.specs.Option.{option_copied};
ghost use Rattle.must_call.specs.declared.place.Place.{Place};
ghost use Rattle.must_find.specs.Adds.{Adds};
ghost use Rattle.must_coll.specs.Given.{GivenBy};
ghost use Rattle.must_coll.specs.Agreement.{has_root, root_of, root_by, root_row, same_commute, agree_by, agree, operation_by, operation_row, first_counting, IsAgreementRow};

use crate::item::{Oper, WaveItem};
use crate::judge::report;
use must_base::NoMemory;
use must_call::{Kind, Place};
use must_find::{Finding, Findings, Rule};

/// Whether the collective names a root.
pub(crate) fn has_root(kind: Kind) -> bool
    ensures { result ≡ has_root kind }
{
    matches!(
        kind,
        Kind::Bcast
            | Kind::Ibcast
            | Kind::Gather
            | Kind::Gatherv
            | Kind::Igather
            | Kind::Scatter
            | Kind::Scatterv
            | Kind::Reduce
            | Kind::Ireduce
    )
}

/// The root of a call among so many members, where its kind has one and it is a position.
pub(crate) fn root_of(members: usize, call: &WaveItem) -> Option<usize>
    ensures { result ≡ root_of members call.now }
{
    if !has_root(call.kind) {
        return None;
    }
    if call.root < 0 {
        return None;
    }
    let root = call.root as usize;
    if root < members { Some(root) } else { None }
}

/// The first call that counts.
pub(crate) fn first_counting(calls: &[WaveItem]) -> Option<&WaveItem>
    ensures { option_copied result ≡ first_counting calls.now }
{
    for call in calls {
        if call.counts {
            return Some(call);
        }
    }
    None
}

fn root_finding(
    see: Place,
    first: Option<usize>,
    call: &WaveItem,
    root: Option<usize>,
) -> Option<Finding>
    ensures { result ≡ root_by see first call.now root }
{
    let first = first?;
    let root = root?;
    if first == root {
        return None;
    }
    Some(Finding {
        rank: call.place.rank,
        call: call.place.call,
        rule: Rule::C2,
        part: 0,
        see: Some(see),
        value: i128::from(call.root),
    })
}

fn judge_root(members: usize, first: &WaveItem, call: &WaveItem) -> Option<Finding>
    ensures { result ≡ root_row members (Some first.now) call.now }
{
    if !call.counts {
        return None;
    }
    root_finding(
        first.place,
        root_of(members, first),
        call,
        root_of(members, call),
    )
}

fn same_commute(first: bool, own: bool) -> bool
    ensures { result ≡ same_commute first own }
{
    if first { own } else { !own }
}

/// Whether both are predefined and the same, or both created and of one commutativity.
fn agree(first: Oper, own: Oper) -> bool
    ensures { result ≡ agree first own }
{
    match (first.commute, own.commute) {
        (None, None) => first.number == own.number,
        (Some(first), Some(own)) => same_commute(first, own),
        (None, Some(_)) => false,
        (Some(_), None) => false,
    }
}

fn operation_finding(
    see: Place,
    first: Option<Oper>,
    place: Place,
    own: Option<Oper>,
) -> Option<Finding>
    ensures { result ≡ operation_by see first place own }
{
    let first = first?;
    let own = own?;
    if agree(first, own) {
        return None;
    }
    Some(Finding {
        rank: place.rank,
        call: place.call,
        rule: Rule::C3,
        part: 0,
        see: Some(see),
        value: i128::from(own.number),
    })
}

fn judge_operation(first: &WaveItem, call: &WaveItem) -> Option<Finding>
    ensures { result ≡ operation_row (Some first.now) call.now }
{
    if !call.counts {
        return None;
    }
    operation_finding(first.place, first.operation, call.place, call.operation)
}

/// Adds the rows C2 of a wave.
fn report_roots(first: &WaveItem, calls: &[WaveItem], out: &mut Findings) -> Result<(), NoMemory>
    ensures { OnOk result (Adds out.old out.new (GivenBy (root_row (length calls.now) (Some first.now)) calls.now)) }
{
    for call in calls {
        report(out, judge_root(calls.len(), first, call))?;
    }
    Ok(())
}

/// Adds the rows C3 of a wave.
fn report_operations(
    first: &WaveItem,
    calls: &[WaveItem],
    out: &mut Findings,
) -> Result<(), NoMemory>
    ensures { OnOk result (Adds out.old out.new (GivenBy (operation_row (Some first.now)) calls.now)) }
{
    for call in calls {
        report(out, judge_operation(first, call))?;
    }
    Ok(())
}

/// Adds the rows C2 and C3 of a whole wave of one kind.
pub(crate) fn report_agreement(calls: &[WaveItem], out: &mut Findings) -> Result<(), NoMemory>
    ensures { OnOk result (Adds out.old out.new (IsAgreementRow calls.now)) }
{
    match first_counting(calls) {
        None => Ok(()),
        Some(first) => {
            report_roots(first, calls, out)?;
            report_operations(first, calls, out)
        }
    }
}

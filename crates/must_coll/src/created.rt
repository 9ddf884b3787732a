//! Groups that the calls of a wave give to make communicators: rule C8.

ghost use Rattle.std.specs.Prelude.{◌≡◌, OnOk, Some, None, nat_eq};
ghost use Rattle.std.specs.Option.{option_copied};
ghost use Rattle.must_find.specs.Adds.{Adds};
ghost use Rattle.must_coll.specs.Given.{GivenBy};
ghost use Rattle.must_coll.specs.Created.{call_of_member, is_other, other_place, first_other, other_found, counted_group, group_row, is_create, IsCreatedRow};

use crate::item::WaveItem;
use crate::judge::{call_at, report};
use crate::made::first_unlike;
use crate::making::{Making, making_of};
use must_base::NoMemory;
use must_call::Place;
use must_find::{Finding, Findings, Rule};
use must_group::Group;

/// The call of a member.
fn call_of_member<'a>(members: &Group, calls: &'a [WaveItem], member: u32) -> Option<&'a WaveItem>
    ensures { option_copied result ≡ call_of_member members.now calls.now member }
{
    match members.position(member) {
        None => None,
        Some(position) => call_at(calls, position as usize),
    }
}

/// Whether a call gave another group than this.
fn is_other(group: &[u32], call: &WaveItem) -> bool
    ensures { result ≡ is_other group.now call.now.group }
{
    match &call.group {
        None => false,
        Some(other) => first_unlike(group, other.ranks()).is_some(),
    }
}

/// The place of the member's call, where that counts and gave another group.
fn other_place(members: &Group, calls: &[WaveItem], group: &[u32], member: u32) -> Option<Place>
    ensures { result ≡ other_place group.now (call_of_member members.now calls.now member) }
{
    match call_of_member(members, calls, member) {
        None => None,
        Some(call) => {
            if !call.counts {
                return None;
            }
            if is_other(group, call) {
                Some(call.place)
            } else {
                None
            }
        }
    }
}

/// The first member of a group whose call gave another group, with the place of that call.
fn first_other(members: &Group, calls: &[WaveItem], group: &[u32]) -> Option<(Place, u32)>
    ensures { result ≡ first_other members.now calls.now group.now group.now }
{
    for member in group {
        match other_place(members, calls, group, *member) {
            None => {}
            Some(see) => return Some((see, *member)),
        }
    }
    None
}

fn other_finding(call: &WaveItem, other: Option<(Place, u32)>) -> Option<Finding>
    ensures { result ≡ other_found call.now other }
{
    match other {
        None => None,
        Some((see, member)) => Some(Finding {
            rank: call.place.rank,
            call: call.place.call,
            rule: Rule::C8,
            part: 0,
            see: Some(see),
            value: i128::from(member),
        }),
    }
}

/// The group of a call that counts.
fn counted_group(call: &WaveItem) -> Option<&[u32]>
    ensures { option_copied result ≡ counted_group call.now }
{
    if !call.counts {
        return None;
    }
    match &call.group {
        None => None,
        Some(group) => Some(group.ranks()),
    }
}

/// The first member of the own group whose call gave another, where the same is told of the last group.
fn first_other_after(
    members: &Group,
    calls: &[WaveItem],
    last: &[u32],
    other: Option<(Place, u32)>,
    own: &[u32],
) -> Option<(Place, u32)>
    ensures { other ≡ first_other members.now calls.now last.now last.now → result ≡ first_other members.now calls.now own.now own.now }
{
    if first_unlike(last, own).is_some() {
        return first_other(members, calls, own);
    }
    other
}

/// Adds the rows C8 of a wave of these members that makes communicators of groups. Calls with the group of the call before
/// have its answer.
fn report_others(members: &Group, calls: &[WaveItem], out: &mut Findings) -> Result<(), NoMemory>
    ensures { OnOk result (Adds out.old out.new (GivenBy (group_row members.now calls.now) calls.now)) }
{
    let mut group: &[u32] = &[];
    let mut other = None;
    for call in calls {
        match counted_group(call) {
            None => {}
            Some(own) => {
                other = first_other_after(members, calls, group, other, own);
                group = own;
                report(out, other_finding(call, other))?;
            }
        }
    }
    Ok(())
}

fn is_create(making: Making) -> bool
    ensures { result ≡ is_create making }
{
    matches!(making, Making::Create)
}

/// Adds the rows C8 of a whole wave of one kind.
pub(crate) fn report_created(calls: &[WaveItem], out: &mut Findings) -> Result<(), NoMemory>
    ensures { OnOk result (Adds out.old out.new (IsCreatedRow calls.now)) }
{
    match calls.first() {
        None => Ok(()),
        Some(first) => {
            if !is_create(making_of(first.kind)) {
                return Ok(());
            }
            report_others(first.name.members(), calls, out)
        }
    }
}

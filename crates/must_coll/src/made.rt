//! The members of communicators that a wave makes: rule C7.

ghost use Rattle.std.specs.Prelude.{◌≡◌, ◌<◌, ◌++◌, [], IfOk, OnOk, IfSome, Some, None, List, ℕ, slice_get, nat_eq, map, unwrap_or};
ghost use Rattle.std.specs.List.{IsDistinct};
ghost use Rattle.std.specs.Option.{option_map};
ghost use Rattle.must_find.specs.Adds.{Adds};
ghost use Rattle.must_group.specs.Split.{group_at};
ghost use Rattle.must_coll.specs.declared.making.Making.TheVariants as Making;
ghost use Rattle.must_coll.specs.Given.{GivenFrom};
ghost use Rattle.must_coll.specs.Made.{is_same, split_row, unlike_from, member_found, recorded_row, group_with, split_rows, members_row, all_count, made_row, IsMadeRow};

use crate::item::{ColorKey, WaveItem};
use crate::judge::{call_at, report};
use crate::making::{Making, making_of};
use must_base::NoMemory;
use must_find::{Finding, Findings, Rule};
use must_group::{Groups, SplitRow, split};
use std::alloc::Global;

fn rank_at(ranks: &[u32], i: usize) -> Option<u32>
    ensures { result ≡ slice_get ranks.now i }
{
    ranks.get(i).copied()
}

/// Whether the same stands at a place of two lists.
fn is_same_at(xs: &[u32], ys: &[u32], i: usize) -> bool
    ensures { result ≡ is_same (slice_get xs.now i) (slice_get ys.now i) }
{
    match (rank_at(xs, i), rank_at(ys, i)) {
        (Some(x), Some(y)) => x == y,
        (None, None) => true,
        (None, Some(_)) => false,
        (Some(_), None) => false,
    }
}

/// The first position where two lists differ; a proper prefix differs at its end.
pub(crate) fn first_unlike(xs: &[u32], ys: &[u32]) -> Option<usize>
    ensures { result ≡ unlike_from 0 xs.now ys.now }
{
    for i in 0..xs.len() {
        if !is_same_at(xs, ys, i) {
            return Some(i);
        }
    }
    if xs.len() < ys.len() {
        Some(xs.len())
    } else {
        None
    }
}

fn member_finding(call: &WaveItem, at: Option<usize>) -> Option<Finding>
    ensures { result ≡ member_found call.now at }
{
    let at = at?;
    Some(Finding {
        rank: call.place.rank,
        call: call.place.call,
        rule: Rule::C7,
        part: 0,
        see: None,
        value: at as i128,
    })
}

/// The finding C7 at a call with these defined members.
fn judge_recorded(call: &WaveItem, members: &[u32]) -> Option<Finding>
    ensures { result ≡ recorded_row call.now call.now.members (Some members.now) }
{
    match &call.members {
        None => None,
        Some(recorded) => member_finding(call, first_unlike(members, recorded.ranks())),
    }
}

/// Adds the rows C7 of a wave that duplicates.
fn report_duplicate(members: &[u32], calls: &[WaveItem], out: &mut Findings) -> Result<(), NoMemory>
    ensures { OnOk result (Adds out.old out.new (GivenFrom (λ i x. recorded_row x x.members (Some members.now)) 0 calls.now)) }
{
    for (i, call) in calls.iter().enumerate() {
        report(out, judge_recorded(call, members))?;
    }
    Ok(())
}

/// The finding C7 at a call whose process is in this group of a split, or in none.
fn judge_split(call: &WaveItem, groups: &Groups, i: u32) -> Option<Finding>
    ensures { result ≡ recorded_row call.now call.now.members (Some (unwrap_or (group_at groups.now i) [])) }
{
    match groups.of(i) {
        None => judge_recorded(call, &[]),
        Some(group) => judge_recorded(call, group.ranks()),
    }
}

/// Adds the rows C7 of a split with these groups.
fn report_groups(groups: &Groups, calls: &[WaveItem], out: &mut Findings) -> Result<(), NoMemory>
    ensures { OnOk result (Adds out.old out.new (GivenFrom (λ i x. recorded_row x x.members (Some (unwrap_or (group_at groups.now i) []))) 0 calls.now)) }
{
    for (i, call) in calls.iter().enumerate() {
        if i > 0xffff_ffff {
            return Err(NoMemory);
        }
        report(out, judge_split(call, groups, i as u32))?;
    }
    Ok(())
}

fn split_row(member: u32, split: ColorKey) -> SplitRow
    ensures { result ≡ split_row member split }
{
    SplitRow {
        member,
        color: split.color,
        key: split.key,
    }
}

/// What the members gave to a split, in member order; none where a call tells no color.
fn split_rows(
    alloc: Global,
    members: &[u32],
    calls: &[WaveItem],
) -> Result<Option<Vec<SplitRow>>, NoMemory>
    ensures rows { IfOk result (λ o. option_map (λ v. v.items) o ≡ split_rows members.now calls.now) }
{
    let mut rows = Vec::new(alloc);
    for i in 0..members.len() {
        match rank_at(members, i) {
            None => return Ok(Some(rows)),
            Some(member) => match call_at(calls, i) {
                None => return Ok(Some(rows)),
                Some(call) => match call.split {
                    None => return Ok(None),
                    Some(split) => rows.push(split_row(member, split))?,
                },
            },
        }
    }
    Ok(Some(rows))
}

/// Adds the rows C7 of a wave that splits.
fn report_split(
    alloc: Global,
    members: &[u32],
    calls: &[WaveItem],
    out: &mut Findings,
) -> Result<(), NoMemory>
    requires { IsDistinct nat_eq members.now }
    ensures { OnOk result (Adds out.old out.new (GivenFrom (members_row Making.Split members.now (split_rows members.now calls.now)) 0 calls.now)) }
{
    match split_rows(alloc, members, calls)? {
        None => Ok(()),
        Some(rows) => {
            let groups = split(alloc, &rows)?;
            report_groups(&groups, calls, out)
        }
    }
}

/// The finding C7 at a call that gave this group.
fn judge_created(call: &WaveItem) -> Option<Finding>
    ensures { result ≡ recorded_row call.now call.now.members (group_with call.now.place.rank call.now.group) }
{
    match &call.group {
        None => None,
        Some(group) => {
            if group.position(call.place.rank).is_some() {
                judge_recorded(call, group.ranks())
            } else {
                judge_recorded(call, &[])
            }
        }
    }
}

/// Adds the rows C7 of a wave that makes communicators of groups.
fn report_create(calls: &[WaveItem], out: &mut Findings) -> Result<(), NoMemory>
    ensures { OnOk result (Adds out.old out.new (GivenFrom (λ i x. recorded_row x x.members (group_with x.place.rank x.group)) 0 calls.now)) }
{
    for (i, call) in calls.iter().enumerate() {
        report(out, judge_created(call))?;
    }
    Ok(())
}

/// Adds the rows C7 of a wave with these members, whose calls all count.
fn report_members(
    alloc: Global,
    making: Making,
    members: &[u32],
    calls: &[WaveItem],
    out: &mut Findings,
) -> Result<(), NoMemory>
    requires { IsDistinct nat_eq members.now }
    ensures { OnOk result (Adds out.old out.new (GivenFrom (members_row making members.now (split_rows members.now calls.now)) 0 calls.now)) }
{
    match making {
        Making::Nothing => Ok(()),
        Making::Duplicate => report_duplicate(members, calls, out),
        Making::Split => report_split(alloc, members, calls, out),
        Making::Create => report_create(calls, out),
    }
}

/// Whether all calls count.
fn all_count(calls: &[WaveItem]) -> bool
    ensures { result ≡ all_count calls.now }
{
    for call in calls {
        if !call.counts {
            return false;
        }
    }
    true
}

/// Adds the rows C7 of a whole wave of one kind.
pub(crate) fn report_made(
    alloc: Global,
    calls: &[WaveItem],
    out: &mut Findings,
) -> Result<(), NoMemory>
    ensures { OnOk result (Adds out.old out.new (IsMadeRow calls.now)) }
{
    match calls.first() {
        None => Ok(()),
        Some(first) => {
            if !all_count(calls) {
                return Ok(());
            }
            let members = first.name.members().ranks();
            report_members(alloc, making_of(first.kind), members, calls, out)
        }
    }
}

//! Rule A6: rank lists, and the group of a new communicator.

ghost use Rattle.std.specs.Prelude.{◌≡◌, Some, IfOk, OnOk};
ghost use Rattle.must_find.specs.declared.rule.Rule.TheVariants.{A6};
ghost use Rattle.std.specs.Option.{option_map};
ghost use Rattle.must_rules.specs.Breaches.{AddsBreaches};
ghost use Rattle.must_rules.specs.ArgumentRules.{wrong_rank, outsider, wrong_member, wrong_ranks, index_told};
ghost use Rattle.must_args.specs.Told.{filed};

use crate::adding::add_value;
use crate::view::View;
use must_base::NoMemory;
use must_call::{Body, Object, Place};
use must_find::{Findings, Rule};
use must_group::Group;
use std::alloc::Global;

/// The index of the first rank that is out of range or repeated.
fn wrong_rank(group: Option<&Group>, ranks: &[i32]) -> Option<u32>
    ensures { result ≡ wrong_rank (option_map (λ g. g.now) group.entry) ranks.now }
{
    match group {
        Some(group) => group.valid_ranks(ranks),
        None => None,
    }
}

/// The index of the first member of a group that isn't in the communicator.
fn first_outside(alloc: Global, comm: &Group, group: &Group) -> Result<Option<u32>, NoMemory>
    ensures { IfOk result (λ o. o ≡ outsider (Some comm.now) (Some group.now)) }
{
    let outside = group.difference(alloc, comm)?;
    match outside.ranks().first() {
        Some(rank) => Ok(group.position(*rank)),
        None => Ok(None),
    }
}

fn outsider(
    alloc: Global,
    comm: Option<&Group>,
    group: Option<&Group>,
) -> Result<Option<u32>, NoMemory>
    ensures { IfOk result (λ o. o ≡ outsider (option_map (λ g. g.now) comm.entry) (option_map (λ g. g.now) group.entry)) }
{
    match (comm, group) {
        (Some(comm), Some(group)) => first_outside(alloc, comm, group),
        _ => Ok(None),
    }
}

fn wrong_member<V: View>(alloc: Global, view: &V, body: &Body) -> Result<Option<u32>, NoMemory>
    ensures { IfOk result (λ o. o ≡ wrong_member (V.facts view.now) body.now) }
{
    match body {
        Body::Object(
            Object::GroupIncl { group, ranks, .. } | Object::GroupExcl { group, ranks, .. },
        ) => Ok(wrong_rank(view.group(*group), ranks.items())),
        Body::Object(Object::CommCreate { comm, group, .. }) => {
            outsider(alloc, view.comm_group(*comm), view.group(*group))
        }
        _ => Ok(None),
    }
}

fn index_told(index: Option<u32>) -> Option<(Rule, i128)>
    ensures { result ≡ filed A6 (index_told index) }
{
    match index {
        Some(index) => Some((Rule::A6, i128::from(index))),
        None => None,
    }
}

/// Adds what the rank list of a call, or its group, breaks.
pub(crate) fn judge_ranks<V: View>(
    alloc: Global,
    view: &V,
    at: Place,
    body: &Body,
    rows: &mut Findings,
) -> Result<(), NoMemory>
    ensures { OnOk result (AddsBreaches at rows.old rows.new (wrong_ranks (V.facts view.now) body.now)) }
{
    let wrong = wrong_member(alloc, view, body)?;
    add_value(rows, at, 0, index_told(wrong))
}

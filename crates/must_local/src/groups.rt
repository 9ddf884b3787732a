//! Groups that a call makes of others (MPI 3.1 section 6.3.2).

ghost use Rattle.std.specs.Prelude.{◌≡◌, List, ℕ, None, option_map, IfOk};
ghost use Rattle.must_group.specs.Groups as list;
ghost use Rattle.must_rules.specs.ArgumentRules.{wrong_rank};
ghost use Rattle.must_rules.specs.Known.{together};

use must_base::NoMemory;
use must_group::Group;
use std::alloc::Global;

/// A group with the same members.
pub fn copy_of(alloc: Global, group: Option<&Group>) -> Result<Option<Group>, NoMemory>
    ensures { IfOk result (λ made. made ≡ option_map (λ g. g.now) group.entry) }
{
    match group {
        None => Ok(None),
        Some(group) => Ok(Some(Group::of(alloc, group.ranks())?)),
    }
}

/// The listed members of a group.
pub fn included(
    alloc: Global,
    group: Option<&Group>,
    ranks: &[i32],
) -> Result<Option<Group>, NoMemory>
    requires { wrong_rank (option_map (λ g. g.now) group) ranks.now ≡ None }
    ensures { IfOk result (λ made. made ≡ option_map (λ members. list.incl members ranks.now) (option_map (λ g. g.now) group.entry)) }
{
    match group {
        None => Ok(None),
        Some(group) => Ok(Some(group.incl(alloc, ranks)?)),
    }
}

/// The members of a group that aren't listed.
pub fn excluded(
    alloc: Global,
    group: Option<&Group>,
    ranks: &[i32],
) -> Result<Option<Group>, NoMemory>
    requires { wrong_rank (option_map (λ g. g.now) group) ranks.now ≡ None }
    ensures { IfOk result (λ made. made ≡ option_map (λ members. list.excl members ranks.now) (option_map (λ g. g.now) group.entry)) }
{
    match group {
        None => Ok(None),
        Some(group) => Ok(Some(group.excl(alloc, ranks)?)),
    }
}

/// All members of both.
pub fn union(
    alloc: Global,
    first: Option<&Group>,
    second: Option<&Group>,
) -> Result<Option<Group>, NoMemory>
    ensures { IfOk result (λ made. made ≡ together list.union (option_map (λ g. g.now) first.entry) (option_map (λ g. g.now) second.entry)) }
{
    match (first, second) {
        (Some(first), Some(second)) => Ok(Some(first.union(alloc, second)?)),
        _ => Ok(None),
    }
}

/// The members of the first that are also in the second.
pub fn intersection(
    alloc: Global,
    first: Option<&Group>,
    second: Option<&Group>,
) -> Result<Option<Group>, NoMemory>
    ensures { IfOk result (λ made. made ≡ together list.intersection (option_map (λ g. g.now) first.entry) (option_map (λ g. g.now) second.entry)) }
{
    match (first, second) {
        (Some(first), Some(second)) => Ok(Some(first.intersection(alloc, second)?)),
        _ => Ok(None),
    }
}

/// The members of the first that aren't in the second.
pub fn difference(
    alloc: Global,
    first: Option<&Group>,
    second: Option<&Group>,
) -> Result<Option<Group>, NoMemory>
    ensures { IfOk result (λ made. made ≡ together list.difference (option_map (λ g. g.now) first.entry) (option_map (λ g. g.now) second.entry)) }
{
    match (first, second) {
        (Some(first), Some(second)) => Ok(Some(first.difference(alloc, second)?)),
        _ => Ok(None),
    }
}

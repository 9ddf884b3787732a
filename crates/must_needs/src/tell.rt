//! What names stand for, once it is known what each operation needs.

ghost use Rattle.std.specs.Prelude.{◌≡◌, ◌++◌, map, filter_map, IfOk, OnOk};
ghost use Rattle.std.specs.Option.{option_map, option_to_list};
ghost use Rattle.must_messages.specs.CallNeeds.{together, any_way};
ghost use Rattle.must_hold.specs.Ended.{need_seen};
ghost use Rattle.must_needs.specs.Naming.{name_need, ways_named};
ghost use Rattle.must_needs.specs.Stating.{entries_from};

use crate::names::{Name, Ways};
use must_base::NoMemory;
use must_call::Place;
use must_entry::{Entry, Want, Way, WayList};
use must_hold::Need;
use std::alloc::Global;

/// What an operation of this rank adds to an alternative, if anything; none where nothing will ever do.
fn operation_want(rank: u32, need: Need) -> Option<Option<Want>>
    ensures { option_map option_to_list result ≡ need_seen rank need }
{
    match need {
        Need::Nothing => Some(None),
        Need::Partner {
            call,
            part,
            standard,
        } => Some(Some(Want::Op {
            place: Place { rank, call },
            part,
            standard,
        })),
        Need::Never => None,
        Need::Unmet { .. } => None,
    }
}

/// What a name adds to an alternative, if anything; none where nothing will ever do.
fn name_want(rank: u32, needs: &[Need], name: Name) -> Option<Option<Want>>
    ensures { option_map option_to_list result ≡ name_need rank (map (need_seen rank) needs.now) name }
{
    match name {
        Name::Nothing => Some(None),
        Name::Operation(number) => match needs.get(number as usize) {
            Some(need) => operation_want(rank, *need),
            None => Some(None),
        },
        Name::Wave(call) => Some(Some(Want::Wave {
            place: Place { rank, call },
        })),
    }
}

/// Puts a want behind others, if there is one.
fn push_want(wants: &mut Vec<Want>, want: Option<Want>) -> Result<(), NoMemory>
    ensures { OnOk result (wants.new.items ≡ wants.old.items ++ option_to_list want) }
{
    if let Some(want) = want {
        wants.push(want)?;
    }
    Ok(())
}

/// The alternative of all these names together; none where one of them will never be met.
fn join_names(
    alloc: Global,
    rank: u32,
    needs: &[Need],
    names: &[Name],
) -> Result<Option<Way>, NoMemory>
    ensures { IfOk result (λ way. way ≡ together (map (name_need rank (map (need_seen rank) needs.now)) names.now)) }
{
    let mut wants = Vec::with_capacity(alloc, names.len())?;
    for name in names {
        let Some(want) = name_want(rank, needs, *name) else {
            return Ok(None);
        };
        push_want(&mut wants, want)?;
    }
    Ok(Some(Way::from_vec(wants)))
}

/// Puts an alternative behind others, if there is one.
fn push_way(ways: &mut Vec<Way>, way: Option<Way>) -> Result<(), NoMemory>
    ensures { OnOk result (ways.new.items ≡ ways.old.items ++ option_to_list way) }
{
    if let Some(way) = way {
        ways.push(way)?;
    }
    Ok(())
}

/// One alternative, if it is there.
fn one_way(alloc: Global, way: Option<Way>) -> Result<Vec<Way>, NoMemory>
    ensures { IfOk result (λ ways. ways.items ≡ option_to_list way) }
{
    let mut ways = Vec::with_capacity(alloc, 1)?;
    push_way(&mut ways, way)?;
    Ok(ways)
}

/// The alternative of one name; none where it will never be met.
fn lone_way(alloc: Global, rank: u32, needs: &[Need], name: Name) -> Result<Option<Way>, NoMemory>
    ensures { IfOk result (λ way. way ≡ name_need rank (map (need_seen rank) needs.now) name) }
{
    let Some(want) = name_want(rank, needs, name) else {
        return Ok(None);
    };
    let mut wants = Vec::with_capacity(alloc, 1)?;
    push_want(&mut wants, want)?;
    Ok(Some(Way::from_vec(wants)))
}

/// The alternatives of these names one by one, without those that will never be met.
fn each_way(alloc: Global, rank: u32, needs: &[Need], names: &[Name]) -> Result<Vec<Way>, NoMemory>
    ensures { IfOk result (λ ways. ways.items ≡ filter_map (name_need rank (map (need_seen rank) needs.now)) names.now) }
{
    let mut ways = Vec::with_capacity(alloc, names.len())?;
    for name in names {
        let way = lone_way(alloc, rank, needs, *name)?;
        push_way(&mut ways, way)?;
    }
    Ok(ways)
}

/// The alternatives where one of these names is enough: one that is empty where there are no names.
fn any_way(alloc: Global, rank: u32, needs: &[Need], names: &[Name]) -> Result<Vec<Way>, NoMemory>
    ensures { IfOk result (λ ways. ways.items ≡ any_way (map (name_need rank (map (need_seen rank) needs.now)) names.now)) }
{
    if names.is_empty() {
        return one_way(alloc, Some(Way::from_vec(Vec::new(alloc))));
    }
    each_way(alloc, rank, needs, names)
}

/// The alternatives that names stand for.
fn tell_ways(alloc: Global, rank: u32, needs: &[Need], ways: &Ways) -> Result<WayList, NoMemory>
    ensures { IfOk result (λ told. told ≡ ways_named rank (map (need_seen rank) needs.now) ways.now) }
{
    let told = match ways {
        Ways::All(names) => one_way(alloc, join_names(alloc, rank, needs, names)?)?,
        Ways::Any(names) => any_way(alloc, rank, needs, names)?,
    };
    Ok(WayList::from_vec(told))
}

/// Puts the needs of the calls of a rank behind `entries`, by their alternatives.
pub(crate) fn push_needs(
    rank: u32,
    needs: &[Need],
    calls: &[Ways],
    entries: &mut Vec<Entry>,
) -> Result<(), NoMemory>
    ensures { OnOk result (entries.new.items ≡ entries.old.items ++ entries_from rank 0 (map (ways_named rank (map (need_seen rank) needs.now)) calls.now)) }
{
    let alloc = *entries.allocator();
    entries.reserve_exact(calls.len())?;
    for (i, ways) in calls.iter().enumerate() {
        let Ok(call) = u32::try_from(i) else {
            return Err(NoMemory);
        };
        let ways = tell_ways(alloc, rank, needs, ways)?;
        let place = Place { rank, call };
        entries.push(Entry::Need { place, ways })?;
    }
    Ok(())
}

//! Worked examples. What is expected comes from the rules of the standard, not from the program.

ghost use Rattle.std.specs.Prelude.{◌≡◌, nat_eq, true, Some, OnOk};
ghost use Rattle.std.specs.BTreeMap as tree;
ghost use Rattle.std.specs.List.{IsDistinct};
ghost use Rattle.must_group.specs.Names.{name_cmp};

use crate::{CommName, Group, Groups, NameFault, SplitRow, split};
use must_base::NoMemory;
use std::alloc::Global;
use std::cmp::Ordering;
use std::collections::BTreeMap;
use std::process::Abort;
use std::test::Fail;

fn is_distinct(ranks: &[u32]) -> bool
    ensures { result ≡ true → IsDistinct nat_eq ranks.now }
{
    for (place, rank) in ranks.iter().enumerate() {
        if ranks[..place].contains(rank) {
            return false;
        }
    }
    true
}

fn group(rt: &impl Abort, alloc: Global, ranks: &[u32]) -> Result<Group, NoMemory> {
    assert!(rt; is_distinct(ranks));
    Group::of(alloc, ranks)
}

/// The group of the ranks from 0 to one less than `count`.
fn first_ranks(rt: &impl Abort, alloc: Global, count: u32) -> Result<Group, NoMemory> {
    let ranks: Vec<u32> = (0..count).collect(alloc)?;
    group(rt, alloc, &ranks)
}

fn groups_of(rt: &impl Abort, alloc: Global, rows: &[SplitRow]) -> Result<Groups, NoMemory> {
    let members: Vec<u32> = rows.iter().map(|row| row.member).collect(alloc)?;
    assert!(rt; is_distinct(&members));
    split(alloc, rows)
}

/// The rows of processes with these world ranks, colors and keys.
fn rows_of(alloc: Global, rows: &[(u32, i32, i32)]) -> Result<Vec<SplitRow>, NoMemory> {
    let rows = rows.iter().map(|row| SplitRow {
        member: row.0,
        color: row.1,
        key: row.2,
    });
    Ok(rows.collect(alloc)?)
}

/// The ranks of a group, or none.
fn ranks_of<'a>(group: Option<&'a Group>) -> Option<&'a [u32]> {
    match group {
        Some(group) => Some(group.ranks()),
        None => None,
    }
}

fn has_positions(rt: &impl Abort, group: &Group, positions: &[(u32, Option<u32>)]) {
    for (rank, position) in positions {
        assert_eq!(rt; group.position(*rank), *position, "rank {rank}");
    }
}

#[test]
fn position_of_a_rank(rt: HostRuntime) -> Result<(), Fail> {
    let alloc = rt.alloc();
    let mixed = group(&rt, alloc, &[4, 2, 9])?;
    has_positions(
        &rt,
        &mixed,
        &[(4, Some(0)), (9, Some(2)), (0, None), (10, None)],
    );
    let world = first_ranks(&rt, alloc, 1024)?;
    has_positions(
        &rt,
        &world,
        &[(0, Some(0)), (1023, Some(1023)), (1024, None)],
    );
    let rows = rows_of(alloc, &[(8, 0, 1), (3, 0, 2), (5, 1, 0), (6, 1, 0)])?;
    let groups = groups_of(&rt, alloc, &rows)?;
    if let Some(group) = groups.of(0) {
        has_positions(&rt, group, &[(8, Some(0)), (3, Some(1)), (5, None)]);
    }
    if let Some(group) = groups.of(2) {
        has_positions(&rt, group, &[(5, Some(0)), (6, Some(1)), (8, None)]);
    }
    let none = group(&rt, alloc, &[])?;
    has_positions(&rt, &none, &[(0, None)]);
    Ok(())
}

#[test]
fn set_operations(rt: HostRuntime) -> Result<(), Fail> {
    let alloc = rt.alloc();
    let cases: [[&[u32]; 5]; 6] = [
        [&[2, 0], &[1, 0], &[2, 0, 1], &[0], &[2]],
        [&[], &[], &[], &[], &[]],
        [&[], &[3, 1], &[3, 1], &[], &[]],
        [&[3, 1], &[], &[3, 1], &[], &[3, 1]],
        [&[4, 2, 9], &[9, 4, 2], &[4, 2, 9], &[4, 2, 9], &[]],
        [
            &[7, 5],
            &[4294967295, 0],
            &[7, 5, 4294967295, 0],
            &[],
            &[7, 5],
        ],
    ];
    for [first, second, union, shared, left] in cases {
        let first = group(&rt, alloc, first)?;
        let second = group(&rt, alloc, second)?;
        assert_eq!(rt; first.union(alloc, &second)?.ranks(), union);
        assert_eq!(rt; first.intersection(alloc, &second)?.ranks(), shared);
        assert_eq!(rt; first.difference(alloc, &second)?.ranks(), left);
    }
    Ok(())
}

#[test]
fn positions(rt: HostRuntime) -> Result<(), Fail> {
    let alloc = rt.alloc();
    let members = group(&rt, alloc, &[5, 7, 9])?;
    let cases: [(&[i32], &[u32], &[u32]); 4] = [
        (&[2, 0], &[9, 5], &[7]),
        (&[1], &[7], &[5, 9]),
        (&[], &[], &[5, 7, 9]),
        (&[1, 2, 0], &[7, 9, 5], &[]),
    ];
    for (listed, chosen, left) in cases {
        let bad = members.valid_ranks(listed);
        assert!(rt; bad.is_none());
        assert_eq!(rt; members.incl(alloc, listed)?.ranks(), chosen);
        assert_eq!(rt; members.excl(alloc, listed)?.ranks(), left);
    }
    Ok(())
}

#[test]
fn bad_positions(rt: HostRuntime) -> Result<(), Fail> {
    let alloc = rt.alloc();
    let cases: [(u32, &[i32], Option<u32>); 12] = [
        (1, &[0, 0], Some(1)),
        (1, &[0], None),
        (0, &[], None),
        (0, &[0], Some(0)),
        (3, &[0, 1, 2, 3], Some(3)),
        (3, &[2, -1, 2], Some(1)),
        (3, &[2, 1, 2, -1], Some(2)),
        (1024, &[1023, 0, 1024], Some(2)),
        (1024, &[-2147483648], Some(0)),
        (1025, &[1024, 0, 2147483647], Some(2)),
        (1500, &[1499, 3, 1024, 1499, 3], Some(3)),
        (1500, &[1499, 3, 1024], None),
    ];
    for (members, listed, bad) in cases {
        let members = first_ranks(&rt, alloc, members)?;
        assert_eq!(rt; members.valid_ranks(listed), bad);
    }
    Ok(())
}

#[test]
fn splits_by_color_and_key(rt: HostRuntime) -> Result<(), Fail> {
    let alloc = rt.alloc();
    let low = -2147483648;
    let high = 2147483647;
    let cases: [(&[(u32, i32, i32)], &[Option<&[u32]>]); 7] = [
        (
            &[(0, 1, 0), (1, 1, 0), (2, -1, 0)],
            &[Some(&[0, 1]), Some(&[0, 1]), None],
        ),
        (&[], &[]),
        (&[(4, -1, 3), (5, -1, 2)], &[None, None]),
        (
            &[(8, 0, 2), (3, 0, 2), (5, 0, 1), (1, 0, 2)],
            &[
                Some(&[5, 8, 3, 1]),
                Some(&[5, 8, 3, 1]),
                Some(&[5, 8, 3, 1]),
                Some(&[5, 8, 3, 1]),
            ],
        ),
        (
            &[(0, 7, high), (1, 7, low), (2, 7, 0), (3, 7, low)],
            &[
                Some(&[1, 3, 2, 0]),
                Some(&[1, 3, 2, 0]),
                Some(&[1, 3, 2, 0]),
                Some(&[1, 3, 2, 0]),
            ],
        ),
        (
            &[(6, high, 1), (2, low, 0), (9, high, 0), (4, -2, 5)],
            &[Some(&[9, 6]), Some(&[2]), Some(&[9, 6]), Some(&[4])],
        ),
        (
            &[(3, 2, -1), (0, 1, -1), (1, 2, -2), (2, 1, -1)],
            &[Some(&[1, 3]), Some(&[0, 2]), Some(&[1, 3]), Some(&[0, 2])],
        ),
    ];
    for (rows, wanted) in cases {
        let rows = rows_of(alloc, rows)?;
        let groups = groups_of(&rt, alloc, &rows)?;
        let mut i = 0u32;
        for ranks in wanted {
            assert_eq!(rt; ranks_of(groups.of(i)), *ranks);
            i = i.saturating_add(1);
        }
        assert!(rt; groups.of(i).is_none());
    }
    Ok(())
}

#[test]
fn splits_all_ranks_of_a_run(rt: HostRuntime) -> Result<(), Fail> {
    let alloc = rt.alloc();
    let mut rows = Vec::new(alloc);
    for member in 0..1024u32 {
        let key = -(member as i32);
        rows.push(SplitRow {
            member,
            color: (member % 2) as i32,
            key,
        })?;
    }
    let groups = groups_of(&rt, alloc, &rows)?;
    let even = groups.of(0).expect(&rt, "rank 0 is in a group").ranks();
    assert_eq!(rt; even.len(), 512);
    for (i, rank) in even.iter().enumerate() {
        assert_eq!(rt; *rank as usize + 2 * i, 1022);
    }
    let all = first_ranks(&rt, alloc, 1024)?;
    let odd = groups.of(1).expect(&rt, "rank 1 is in a group");
    let left = all.difference(alloc, odd)?;
    assert_eq!(rt; left.ranks().len(), 512);
    assert_eq!(rt; left.union(alloc, odd)?.ranks().len(), 1024);
    assert_eq!(rt; left.intersection(alloc, odd)?.ranks().len(), 0);
    Ok(())
}

fn named(
    rt: &impl Abort,
    alloc: Global,
    root: u8,
    steps: &[(u32, i32)],
    members: &[u32],
) -> Result<CommName, NameFault> {
    let mut name = CommName::start(alloc, root, group(rt, alloc, members)?)?;
    for (number, class) in steps {
        name = name.child(alloc, *number, *class, group(rt, alloc, members)?)?;
    }
    Ok(name)
}

#[test]
fn names_in_order(rt: HostRuntime) -> Result<(), Fail> {
    let alloc = rt.alloc();
    // Each name is below all later ones.
    let rising: [(u8, &[(u32, i32)], &[u32]); 12] = [
        (0, &[], &[0]),
        (0, &[], &[0, 1]),
        (0, &[], &[1]),
        (0, &[(0, 5)], &[0]),
        (0, &[(0, 5), (0, -1)], &[0]),
        (0, &[(0, 5), (2, -3)], &[0, 3]),
        (0, &[(0, 5), (2, -3)], &[1, 0]),
        (0, &[(0, 6)], &[0]),
        (0, &[(1, -7)], &[0]),
        (0, &[(1, 4)], &[0]),
        (1, &[], &[0]),
        (1, &[(0, 0)], &[0]),
    ];
    for (i, (root, path, members)) in rising.iter().enumerate() {
        let name = named(&rt, alloc, *root, path, members)?;
        for (j, (root, path, members)) in rising.iter().enumerate() {
            let other = named(&rt, alloc, *root, path, members)?;
            assert_eq!(rt; name.cmp(&other), i.cmp(&j));
            assert_eq!(rt; name == other, i == j);
        }
    }
    Ok(())
}

/// Counts a call on a communicator, by its name.
fn count(calls: &mut BTreeMap<CommName, u32>, name: CommName, number: u32) -> Result<(), NoMemory>
    ensures { OnOk result (tree.get name_cmp calls.new name ≡ Some number) }
{
    calls.insert(name, number)?;
    Ok(())
}

#[test]
fn names_as_keys(rt: HostRuntime) -> Result<(), Fail> {
    let alloc = rt.alloc();
    let world = CommName::start(alloc, 0, first_ranks(&rt, alloc, 3)?)?;
    let half = world.child(alloc, 4, -1, group(&rt, alloc, &[2, 0])?)?;
    let mut seen = BTreeMap::new(alloc);
    count(&mut seen, world.copy()?, 1)?;
    count(&mut seen, half.copy()?, 2)?;
    assert_eq!(rt; seen.get(&world).copied(), Some(1));
    assert_eq!(rt; seen.get(&half).copied(), Some(2));
    assert_eq!(rt; half.copy()?.members().ranks(), [2, 0].as_slice());
    assert_eq!(rt; world.members().ranks(), [0, 1, 2].as_slice());
    Ok(())
}

#[test]
fn names_too_deep(rt: HostRuntime) -> Result<(), Fail> {
    let alloc = rt.alloc();
    let mut name = CommName::start(alloc, 1, group(&rt, alloc, &[3])?)?;
    for number in 0..32 {
        name = name.child(alloc, number, 0, group(&rt, alloc, &[3])?)?;
    }
    match name.child(alloc, 32, 0, group(&rt, alloc, &[3])?) {
        Ok(_) => assert!(rt; false, "a path of 33 steps"),
        Err(fault) => assert_eq!(rt; fault, NameFault::TooDeep),
    }
    assert_eq!(rt; name.cmp(&name.copy()?), Ordering::Equal);
    Ok(())
}

fn is_shared<T: Send + Sync>(_value: &T) -> bool {
    true
}

#[test]
fn shared_by_threads(rt: HostRuntime) -> Result<(), Fail> {
    let alloc = rt.alloc();
    let name = CommName::start(alloc, 0, first_ranks(&rt, alloc, 2)?)?;
    assert!(rt; is_shared(&name));
    assert!(rt; is_shared(name.members()));
    Ok(())
}

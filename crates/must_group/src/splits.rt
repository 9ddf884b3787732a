//! The groups that a split of a communicator makes.

ghost use Rattle.std.specs.Prelude.{◌≡◌, ℕ, ℤ, List, IfOk, OnOk, Option, Some, ◌∷◌, [], ◌++◌, map, nat_eq, unwrap_or, if◌then◌else◌, false, not, negsuc, IsPermutation, IsSortedByKey};
ghost use Rattle.std.specs.BTreeMap as tree;
ghost use Rattle.std.specs.List.{IsDistinct};
ghost use Rattle.std.specs.List.Sorted.{IsStableByKey};
ghost use Rattle.std.specs.Option.{option_copied};
ghost use Rattle.std.specs.Ordering.{int_cmp, int_eq};
ghost use Rattle.std.specs.Set.{is_member};
ghost use Rattle.must_group.specs.Split.{split_groups, group_at};

use crate::group::Group;
use must_base::NoMemory;
use must_call::UNDEFINED;
use std::alloc::Global;
use std::collections::BTreeMap;
use std::marker::Model;

/// What one process of the old communicator gave to a split.
#[derive(Clone, Copy, Debug, PartialEq, Eq)]
pub struct SplitRow {
    /// Its world rank.
    pub member: u32,
    /// The processes of one color make one new group; -1 is `MPI_UNDEFINED`.
    pub color: i32,
    /// Orders the new group.
    pub key: i32,
}

/// The groups of a split, by the rows that it was given.
#[derive(Drop)]
pub struct Groups {
    colors: Vec<i32>,
    groups: BTreeMap<i32, Group>,
}

impl Model for Groups {
    ghost use Rattle.std.specs.Prelude.{List, Option, ℕ, map};
    ghost use Rattle.std.specs.BTreeMap as tree;
    ghost use Rattle.std.specs.Ordering.{int_cmp};

    ghost Value = { List (Option (List ℕ)) };

    ghost view = { λ g. map (λ color. tree.get int_cmp g.groups color) g.colors.items };
}

impl Groups {
    /// The group of the i-th row. There is none where there is no such row, or its color is `MPI_UNDEFINED`.
    ///
    /// It takes no memory.
    pub fn of(&self, i: u32) -> Option<&Group>
        ensures { option_copied result ≡ group_at self.now i }
    {
        let color = self.colors.get(i as usize)?;
        self.groups.get(color)
    }
}

/// Whether the process of a row is in a new group.
fn is_defined(row: &SplitRow) -> bool
    ensures { result ≡ not (int_eq row.now.color (negsuc 0)) }
{
    row.color != UNDEFINED
}

/// The color of each row.
fn colors_of(alloc: Global, rows: &[SplitRow]) -> Result<Vec<i32>, NoMemory>
    ensures { IfOk result (λ v. v.items ≡ map (λ row. row.color) rows.now) }
{
    Ok(rows.iter().map(|row| row.color).collect(alloc)?)
}

/// The rows by key, and those of one key in their old order.
fn by_key(alloc: Global, rows: &[SplitRow]) -> Result<Vec<SplitRow>, NoMemory>
    ensures permutation { IfOk result (λ v. IsPermutation rows.now v.items) }
    ensures sorted { IfOk result (λ v. IsSortedByKey (λ row. row.key) int_cmp v.items) }
    ensures stable { IfOk result (λ v. IsStableByKey (λ row. row.key) int_cmp rows.now v.items) }
{
    let mut ordered = rows.to_vec(alloc)?;
    ordered.sort_by_key(|row| row.key)?;
    Ok(ordered)
}

/// Puts the process of a row behind the others of its color.
fn join(alloc: Global, groups: &mut BTreeMap<i32, Group>, row: &SplitRow) -> Result<(), NoMemory>
    requires { is_member nat_eq (unwrap_or (tree.get int_cmp groups.old row.now.color) []) row.now.member ≡ false }
    ensures { OnOk result ((color : ℤ) → tree.get int_cmp groups.new color
        ≡ (if int_eq row.now.color color then Some (unwrap_or (tree.get int_cmp groups.old row.now.color) [] ++ row.now.member ∷ []) else tree.get int_cmp groups.old color)) }
{
    let group = groups.entry(row.color)?.or_insert(Group::empty(alloc));
    group.push(row.member)
}

/// The groups of a split with these rows, which stand in the order of the old communicator (`MPI_Comm_split`).
///
/// A new group has the members of one color by key, and those of one key in their old order.
pub fn split(alloc: Global, rows: &[SplitRow]) -> Result<Groups, NoMemory>
    requires { IsDistinct nat_eq (map (λ row. row.member) rows.now) }
    ensures { IfOk result (λ groups. groups ≡ split_groups rows.now) }
{
    let ordered = by_key(alloc, rows)?;
    let mut groups = BTreeMap::new(alloc);
    for row in &ordered {
        if is_defined(row) {
            join(alloc, &mut groups, row)?;
        }
    }
    let colors = colors_of(alloc, rows)?;
    Ok(Groups { colors, groups })
}

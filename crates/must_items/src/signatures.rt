//! The signatures of what a side of a call moves.

ghost use Rattle.std.specs.Prelude.{◌≡◌, ◌≤◌, ◌^◌, ℕ, ℤ, pos, Option, Some, List, map, length, take, get_or, IfOk};
ghost use Rattle.std.specs.Option.{IsSome};
ghost use Rattle.must_type.specs.Tree.{TypeTree};
ghost use Rattle.must_type.specs.Table.{tree_at};
ghost use Rattle.must_sig.specs.Signatures.{expansion, repeated, signature};
ghost use Rattle.std.specs.Option.{option_map};
ghost use Rattle.must_rules.specs.ArgumentRules.{for_members};
ghost use Rattle.must_items.specs.Moved.{elements, signatures_by};
ghost use Rattle.must_items.specs.Seen.{counts_seen};
ghost use Rattle.must_items.specs.Typed.{HasTypes};

use crate::moved::{Moved, SideMoved};
use must_base::NoMemory;
use must_coll::SigList;
use must_derived::Datatypes;
use must_sig::Sig;
use must_type::{TypeNo, TypeTable};
use std::alloc::Global;

impl Moved<'_> {
    fn len(&self) -> usize
        ensures { result ≡ length (counts_seen self.now) }
    {
        match self {
            Moved::Alike(_) => 1,
            Moved::ByMember(amounts) => amounts.items().len(),
            Moved::Counts(counts) => counts.items().len(),
        }
    }

    fn count(&self, i: usize) -> i32
        ensures { result ≡ get_or (counts_seen self.now) i (pos 0) }
    {
        match self {
            Moved::Alike(count) => if i == 0 { *count } else { 0 },
            Moved::ByMember(amounts) => match amounts.items().get(i) {
                Some(amount) => amount.count,
                None => 0,
            },
            Moved::Counts(counts) => counts.items().get(i).copied().unwrap_or(0),
        }
    }
}

/// A count that isn't below zero.
fn elements(count: i32) -> u64
    ensures { result ≡ elements count }
{
    u64::try_from(count).unwrap_or(0)
}

/// How many of so many entries are of members.
fn entries(members: Option<u32>, len: usize) -> usize
    ensures front { (counts : List ℤ) → length counts ≡ len → take result counts ≡ for_members members counts }
    ensures few { result ≤ len }
{
    match members {
        Some(members) => len.min(members as usize),
        None => len,
    }
}

/// The signature of one element, so many times over for each.
fn repeated_each(
    alloc: Global,
    one: &Sig,
    moved: &Moved<'_>,
    members: Option<u32>,
) -> Result<SigList, NoMemory>
    requires { length (expansion one.now) ≤ 2 ^ 62 }
    ensures { IfOk result (λ sigs. map expansion sigs ≡ map (λ z. repeated (elements z) (expansion one.now)) (for_members members (counts_seen moved.now))) }
{
    let mut sigs = Vec::new(alloc);
    for i in 0..entries(members, moved.len()) {
        sigs.push(one.repeated(elements(moved.count(i)))?)?;
    }
    Ok(SigList::from_vec(sigs))
}

/// The signatures of so many elements each of a type.
fn each(
    alloc: Global,
    table: &TypeTable,
    no: TypeNo,
    moved: &Moved<'_>,
    members: Option<u32>,
) -> Result<SigList, NoMemory>
    requires { IsSome (tree_at table.now.slots no.number) }
    ensures { IfOk result (λ sigs. (t : TypeTree) → tree_at table.now.slots no.number ≡ Some t → map expansion sigs ≡ map (λ z. signature t (elements z)) (for_members members (counts_seen moved.now))) }
{
    let one = Sig::of(alloc, table, no, 1)?;
    repeated_each(alloc, &one, moved, members)
}

/// The signatures of what a side moves, one for each member, or one where there is one count for all. A type that isn't
/// live any more is taken for want of memory: none of a clear call is.
pub fn signatures(
    alloc: Global,
    types: &Datatypes,
    side: &SideMoved<'_>,
    members: Option<u32>,
) -> Result<SigList, NoMemory>
    ensures { IfOk result (λ sigs. (trees : ℕ → Option TypeTree) → HasTypes types.now trees → map expansion sigs ≡ signatures_by trees members (option_map counts_seen side.now.moved) side.now.dtype) }
{
    let (Some(moved), Some(dtype)) = (side.moved, side.dtype) else {
        return Ok(SigList::from_vec(Vec::new(alloc)));
    };
    let Some(no) = types.type_no(dtype) else {
        return Ok(SigList::from_vec(Vec::new(alloc)));
    };
    if !types.table().is_live(no) {
        return Err(NoMemory);
    }
    each(alloc, types.table(), no, &moved, members)
}

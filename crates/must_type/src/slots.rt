//! Types by their numbers: what a table holds.

ghost use Rattle.std.specs.Prelude.{◌≡◌, ℕ, ◌+◌, ◌<◌, ◌≤◌, ◌^◌, ◌↔◌, [], ◌∷◌, ◌++◌, length, map, IsTrue, IfOk, OnOk, OnErr, Some, None, Ok, Err};
ghost use Rattle.std.specs.Option.{IsSome};
ghost use Rattle.must_type.specs.declared.tree.Origin.TheVariants.{Predefined};
ghost use Rattle.must_type.specs.Allowed.{IsAllowed};
ghost use Rattle.must_type.specs.Olds.{HasOneOld, old_numbers};
ghost use Rattle.must_type.specs.Tree.{TypeTree, Elementary, Made, weight, IsWithinReach};
ghost use Rattle.must_type.specs.View.{trees_of, slots_of};
ghost use Rattle.must_type.specs.Table.{tree_at, trees_at, AreLive, IsDerived, basic_types, pair_call, predefined};

use crate::construct::{Construct, StructItem, StructList, TypeNo};
use crate::fault::{Limit2, TypeFault};
use crate::tree::{Origin, Tree};
use crate::weight::weight_of;
use must_base::NoMemory;
use must_call::Basic;
use std::alloc::Global;
use std::rc::Rc;

/// Whether the type is live.
pub(crate) fn is_in(slots: &[Option<Rc<Tree>>], no: TypeNo) -> bool
    ensures { IsTrue result ↔ IsSome (tree_at (slots_of slots.now) no.number) }
{
    let index = no.number as usize;
    if index >= slots.len() {
        return false;
    }
    slots[index].is_some()
}

/// The type's tree.
pub(crate) fn tree_in(slots: &[Option<Rc<Tree>>], no: TypeNo) -> &Rc<Tree>
    requires { IsSome (tree_at (slots_of slots.now) no.number) }
    ensures { tree_at (slots_of slots.now) no.number ≡ Some result.now.value }
{
    match &slots[no.number as usize] {
        Some(tree) => tree,
        None => unreachable!(),
    }
}

/// The old type of a call that has one.
fn only_old(call: &Construct) -> TypeNo
    requires { HasOneOld call.now }
    ensures { old_numbers call.now ≡ result.number ∷ [] }
{
    match call {
        Construct::Contiguous { old, .. }
        | Construct::Vector { old, .. }
        | Construct::Hvector { old, .. }
        | Construct::Indexed { old, .. }
        | Construct::Hindexed { old, .. }
        | Construct::IndexedBlock { old, .. }
        | Construct::HindexedBlock { old, .. }
        | Construct::Dup { old }
        | Construct::Resized { old, .. }
        | Construct::Subarray { old, .. } => *old,
        Construct::Struct { .. } => unreachable!(),
    }
}

/// Whether the old types of the blocks of a `Struct` are live.
fn blocks_are_in(slots: &[Option<Rc<Tree>>], blocks: &[StructItem]) -> bool
    ensures { IsTrue result ↔ AreLive (slots_of slots.now) (map (λ it. it.old.number) blocks.now) }
{
    for item in blocks {
        if !is_in(slots, item.old) {
            return false;
        }
    }
    true
}

/// Whether the types that the call names are live.
pub(crate) fn are_in(slots: &[Option<Rc<Tree>>], call: &Construct) -> bool
    ensures { IsTrue result ↔ AreLive (slots_of slots.now) (old_numbers call.now) }
{
    if let Construct::Struct { blocks } = call {
        return blocks_are_in(slots, blocks.items());
    }
    is_in(slots, only_old(call))
}

/// Whether the type is derived and live.
pub(crate) fn is_derived(slots: &[Option<Rc<Tree>>], no: TypeNo) -> bool
    ensures { IsTrue result ↔ IsDerived (tree_at (slots_of slots.now) no.number) }
{
    is_in(slots, no) && tree_in(slots, no).as_ref().is_derived()
}

/// The old types of the blocks of a `Struct`.
fn block_olds(
    alloc: Global,
    slots: &[Option<Rc<Tree>>],
    blocks: &[StructItem],
) -> Result<Vec<Rc<Tree>>, NoMemory>
    requires { AreLive (slots_of slots.now) (map (λ it. it.old.number) blocks.now) }
    ensures { IfOk result (λ olds. (trees_of olds.items ≡ trees_at (slots_of slots.now) (map (λ it. it.old.number) blocks.now)) × (length olds.items ≡ length blocks.now)) }
{
    let mut olds = Vec::new(alloc);
    for item in blocks {
        olds.push(tree_in(slots, item.old).clone()?)?;
    }
    Ok(olds)
}

/// The types that the call names.
pub(crate) fn olds_of(
    alloc: Global,
    slots: &[Option<Rc<Tree>>],
    call: &Construct,
) -> Result<Vec<Rc<Tree>>, NoMemory>
    requires { AreLive (slots_of slots.now) (old_numbers call.now) }
    ensures { IfOk result (λ olds. (trees_of olds.items ≡ trees_at (slots_of slots.now) (old_numbers call.now)) × (length olds.items ≡ length (old_numbers call.now))) }
{
    if let Construct::Struct { blocks } = call {
        return block_olds(alloc, slots, blocks.items());
    }
    let mut olds = Vec::new(alloc);
    olds.push(tree_in(slots, only_old(call)).clone()?)?;
    Ok(olds)
}

/// The type that the call makes of these old types, with its weight, where that is at most `room`.
pub(crate) fn derived(
    alloc: Global,
    origin: Origin,
    call: &Construct,
    olds: Vec<Rc<Tree>>,
    room: u64,
) -> Result<(Tree, u64), TypeFault>
    requires allowed { IsAllowed call.now }
    requires olds { length olds.items ≡ length (old_numbers call.now) }
    ensures made { IfOk result (λ made. let tree = Made origin call.now (trees_of olds.items) in (made.0 ≡ tree) × (made.1 ≡ weight tree) × (weight tree ≤ room) × IsWithinReach tree) }
    ensures heavy { result ≡ Err (TypeFault.TooWide Limit2.Weight) → room < weight (Made origin call.now (trees_of olds.items)) }
    ensures wide { result ≡ Err (TypeFault.TooWide Limit2.Reach) → (weight (Made origin call.now (trees_of olds.items)) ≤ room) × (IsWithinReach (Made origin call.now (trees_of olds.items)) → ⊥) }
{
    let weight = weight_of(call, olds.as_slice());
    if weight > u128::from(room) {
        return Err(TypeFault::TooWide {
            limit: Limit2::Weight,
        });
    }
    let copy = call.copy(alloc)?;
    match Tree::derive(origin, copy, olds, weight as u64) {
        Some(tree) => Ok((tree, weight as u64)),
        None => Err(TypeFault::TooWide {
            limit: Limit2::Reach,
        }),
    }
}

/// Gives the tree the next number.
pub(crate) fn push_tree(
    alloc: Global,
    slots: &mut Vec<Option<Rc<Tree>>>,
    tree: Tree,
) -> Result<(), NoMemory>
    ensures err { OnErr result (slots_of slots.new.items ≡ slots_of slots.old.items) }
    ensures ok { OnOk result (slots_of slots.new.items ≡ slots_of slots.old.items ++ Some tree ∷ []) }
{
    slots.push(Some(Rc::new(alloc, tree)?))?;
    Ok(())
}

/// Makes a predefined type.
fn push_made(
    alloc: Global,
    slots: &mut Vec<Option<Rc<Tree>>>,
    call: &Construct,
) -> Result<(), NoMemory>
    requires live { AreLive (slots_of slots.old.items) (old_numbers call.now) }
    requires allowed { IsAllowed call.now }
    ensures { OnOk result (slots_of slots.new.items ≡ slots_of slots.old.items ++ Some (Made Predefined call.now (trees_at (slots_of slots.old.items) (old_numbers call.now))) ∷ []) }
{
    let olds = olds_of(alloc, slots.as_slice(), call)?;
    match derived(alloc, Origin::Predefined, call, olds, u64::MAX) {
        Ok((tree, _weight)) => push_tree(alloc, slots, tree),
        Err(_) => Err(NoMemory),
    }
}

/// The basic types in the order of their numbers, from 1 on.
const BASICS: [Basic; 25] = [
    Basic::Char,
    Basic::SignedChar,
    Basic::UnsignedChar,
    Basic::Byte,
    Basic::Short,
    Basic::UnsignedShort,
    Basic::Int,
    Basic::Unsigned,
    Basic::Long,
    Basic::UnsignedLong,
    Basic::LongLong,
    Basic::UnsignedLongLong,
    Basic::Float,
    Basic::Double,
    Basic::LongDouble,
    Basic::Wchar,
    Basic::CBool,
    Basic::Int8,
    Basic::Int16,
    Basic::Int32,
    Basic::Int64,
    Basic::Uint8,
    Basic::Uint16,
    Basic::Uint32,
    Basic::Uint64,
];

/// The number of INT.
const INT: TypeNo = TypeNo { number: 7 };

/// Gives the basic types the next numbers.
fn push_basics(
    alloc: Global,
    slots: &mut Vec<Option<Rc<Tree>>>,
    basics: &[Basic],
) -> Result<(), NoMemory>
    ensures { OnOk result (slots_of slots.new.items ≡ slots_of slots.old.items ++ map (λ b. Some (Elementary b)) basics.now) }
{
    for basic in basics {
        push_tree(alloc, slots, Tree::elementary(*basic))?;
    }
    Ok(())
}

/// The basic types, behind a number that no type has.
fn basic_slots(alloc: Global) -> Result<Vec<Option<Rc<Tree>>>, NoMemory>
    ensures { IfOk result (λ slots. slots_of slots.items ≡ basic_types) }
{
    let mut slots = Vec::new(alloc);
    slots.push(None)?;
    push_basics(alloc, &mut slots, &BASICS)?;
    Ok(slots)
}

/// The call of a pair: a value of the type `first`, and an int at `at`.
fn pair_of(alloc: Global, first: u32, at: i64) -> Result<Construct, NoMemory>
    ensures { IfOk result (λ call. call ≡ pair_call first at) }
{
    let mut blocks = Vec::new(alloc);
    blocks.push(StructItem {
        block: 1,
        disp: 0,
        old: TypeNo { number: first },
    })?;
    blocks.push(StructItem {
        block: 1,
        disp: at,
        old: INT,
    })?;
    Ok(Construct::Struct {
        blocks: StructList::from_vec(blocks),
    })
}

/// The types that are there from the start.
pub(crate) fn predefined_slots(alloc: Global) -> Result<Vec<Option<Rc<Tree>>>, NoMemory>
    ensures { IfOk result (λ slots. slots_of slots.items ≡ predefined) }
{
    let mut slots = basic_slots(alloc)?;
    push_made(alloc, &mut slots, &pair_of(alloc, 13, 4)?)?;
    push_made(alloc, &mut slots, &pair_of(alloc, 14, 8)?)?;
    push_made(alloc, &mut slots, &pair_of(alloc, 9, 8)?)?;
    push_made(alloc, &mut slots, &pair_of(alloc, 5, 4)?)?;
    push_made(
        alloc,
        &mut slots,
        &Construct::Contiguous { count: 2, old: INT },
    )?;
    Ok(slots)
}

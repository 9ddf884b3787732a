//! The ranges of a type.

ghost use Rattle.std.specs.Prelude.{◌≡◌, ℕ, ◌<◌, ◌≤◌, ◌^◌, ℤ, pos, [], ◌∷◌, length, slice_get, OnOk, IfOk, Some, None, ◌↔◌};
ghost use Rattle.std.specs.Int.RustNames.{unsigned_abs};
ghost use Rattle.must_call.specs.Basics.{size_of};
ghost use Rattle.must_type.specs.declared.construct.Construct.TheVariants.{Struct as StructOf};
ghost use Rattle.must_type.specs.Maps.{block};
ghost use Rattle.must_type.specs.Weights.{weigh};
ghost use Rattle.must_type.specs.Olds.{HasOneOld};
ghost use Rattle.must_type.specs.Making.{IsMadeBy, IsMakeable};
ghost use Rattle.must_type.specs.Tree.{type_map, weight, as_old, basic_of, old_maps, old_weights, height};
ghost use Rattle.must_type.specs.Table.{message_weight};
ghost use Rattle.must_span.specs.Ranges.{AreApart};
ghost use Rattle.must_span.specs.Bytes.{AreBytes, message_map};
ghost use Rattle.must_span.specs.Steps.{IsLaid, AreUsable, AreOf, Adds};

use crate::copies::{repeat, settled};
use crate::forms::made_of;
use crate::laid::Laid;
use crate::places::natural;
use crate::ranges::AddressRange;
use must_base::NoMemory;
use must_call::Basic;
use must_type::{Construct, StructItem, Tree};
use std::alloc::Global;

/// The one range of a basic type.
fn basic_range(alloc: Global, basic: Basic) -> Result<Vec<AddressRange>, NoMemory>
    ensures { IfOk result (λ laid. laid.items ≡ record { low = pos 0; high = pos (size_of basic) } ∷ []) }
{
    let mut laid = Vec::new(alloc);
    laid.push(AddressRange {
        low: 0,
        high: i128::from(basic.size()),
    })?;
    Ok(laid)
}

/// The call that made a type that isn't basic.
fn call_of(tree: &Tree) -> &Construct
    requires { basic_of tree.now ≡ None }
    ensures { IsMadeBy tree.now result.now }
{
    match tree.made() {
        Some(call) => call,
        None => unreachable!(),
    }
}

/// The `i`-th old type.
fn old_of(tree: &Tree, i: usize) -> &Tree
    requires { i < length (old_maps tree.now) }
    ensures map { slice_get (old_maps tree.now) i ≡ Some (type_map result.now) }
    ensures weight { slice_get (old_weights tree.now) i ≡ Some (as_old result.now) }
    ensures lower { height result.now < height tree.now }
{
    match tree.old(i) {
        Some(old) => old,
        None => unreachable!(),
    }
}

/// The ranges of one element of a type, in any order. What has no bytes is not walked.
#[cycle(lay)]
fn lay(alloc: Global, tree: &Tree) -> Result<Vec<AddressRange>, NoMemory>
    ensures { IfOk result (λ laid. IsLaid laid.items (type_map tree.now) (weight tree.now)) }
{
    let bounds = tree.bounds();
    if bounds.size == 0 {
        return Ok(Vec::new(alloc));
    }
    if let Some(basic) = tree.basic() {
        let laid = basic_range(alloc, basic)?;
        return Ok(laid);
    }
    let call = call_of(tree);
    if let Construct::Struct { blocks } = call {
        let laid = struct_ranges(alloc, tree, blocks.items())?;
        return Ok(laid);
    }
    let laid = lay_made(alloc, tree, call)?;
    Ok(laid)
}

/// The ranges of one element of a type that a call made of one old type.
#[cycle(lay)]
fn lay_made(alloc: Global, tree: &Tree, call: &Construct) -> Result<Vec<AddressRange>, NoMemory>
    requires makeable { IsMakeable tree.now }
    requires made { IsMadeBy tree.now call.now }
    requires one { HasOneOld call.now }
    ensures { IfOk result (λ laid. IsLaid laid.items (type_map tree.now) (weight tree.now)) }
{
    let old = laid_out(alloc, old_of(tree, 0))?;
    let laid = made_of(alloc, call, old)?;
    Ok(laid)
}

/// The ranges of one element of a type, with its extent.
#[cycle(lay)]
fn laid_out(alloc: Global, tree: &Tree) -> Result<Laid, NoMemory>
    ensures usable { IfOk result (λ laid. AreUsable laid) }
    ensures of { IfOk result (λ laid. AreOf (type_map tree.now) (weight tree.now) laid) }
{
    let bounds = tree.bounds();
    let ranges = lay(alloc, tree)?;
    Ok(Laid {
        ranges,
        extent: bounds.extent,
    })
}

/// Puts in the ranges of `count` elements of a type, from `at` on. Where there are none, the type isn't looked at.
#[cycle(lay)]
fn push_block(
    alloc: Global,
    made: &mut Vec<AddressRange>,
    tree: &Tree,
    at: i128,
    count: u64,
) -> Result<(), NoMemory>
    requires at_near { unsigned_abs at ≤ 2 ^ 96 }
    requires few { count ≤ 2 ^ 48 }
    ensures { OnOk result (Adds made.old.items made.new.items (block count (type_map tree.now) at) (weigh count (as_old tree.now))) }
{
    if count == 0 {
        return Ok(());
    }
    let old = laid_out(alloc, tree)?;
    repeat(made, old.ranges.as_slice(), at, old.extent, count)?;
    Ok(())
}

/// The ranges of one element of a `Struct`.
#[cycle(lay)]
fn struct_ranges(
    alloc: Global,
    tree: &Tree,
    blocks: &[StructItem],
) -> Result<Vec<AddressRange>, NoMemory>
    requires { IsMadeBy tree.now (StructOf blocks.now) }
    ensures { IfOk result (λ made. IsLaid made.items (type_map tree.now) (weight tree.now)) }
{
    let mut made = Vec::new(alloc);
    for i in 0..blocks.len() {
        let at = i128::from(blocks[i].disp);
        let count = natural(blocks[i].block);
        push_block(alloc, &mut made, old_of(tree, i), at, count)?;
    }
    Ok(made)
}

/// The ranges of `count` elements of a type, from `base` on, in order.
pub(crate) fn message(
    alloc: Global,
    tree: &Tree,
    count: u64,
    base: i128,
) -> Result<Vec<AddressRange>, NoMemory>
    requires base { unsigned_abs base ≤ 2 ^ 96 }
    requires count { count ≤ 2 ^ 48 }
    ensures apart { IfOk result (λ ranges. AreApart ranges.items) }
    ensures bytes { IfOk result (λ ranges. AreBytes ranges.items (message_map base count tree.now)) }
    ensures few { IfOk result (λ ranges. length ranges.items ≤ message_weight count tree.now) }
{
    let mut laid = Vec::new(alloc);
    push_block(alloc, &mut laid, tree, base, count)?;
    let ranges = settled(alloc, laid)?;
    Ok(ranges)
}

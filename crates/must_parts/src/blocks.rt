//! The blocks of a buffer.

ghost use Rattle.std.specs.Prelude.{◌≡◌, ◌*◌, pos, [], ◌∷◌, ◌++◌, map, take, length, sum_by, slice_get, Option, Some, None, if◌then◌else◌, IfOk, OnOk};
ghost use Rattle.std.specs.Option.{option_map};
ghost use Rattle.must_call.specs.Arguments.{seen, all_seen};
ghost use Rattle.must_call.specs.declared.field.Field.TheVariants as field;
ghost use Rattle.must_call.specs.declared.field.Int.TheVariants as int;
ghost use Rattle.must_call.specs.declared.field.Item.TheVariants as item;
ghost use Rattle.must_type.specs.Constructs.{natural};
ghost use Rattle.must_rules.specs.Significant.{first_told};
ghost use Rattle.must_rules.specs.Parts.{natural_at, listed, block_of, blocks_in, blocks_at};
ghost use Rattle.must_parts.specs.Telling.{block_seen, blocks_seen, layout_seen};

use crate::roles::serves;
use must_base::NoMemory;
use must_call::{Amount, Argument, Int, Ints, Side};
use std::alloc::Global;

/// So many elements, one extent apart, from an address on.
#[derive(Clone, Copy, Debug, PartialEq, Eq)]
pub struct Block {
    pub address: i128,
    pub count: u64,
}

/// What says where the elements of a buffer lie, beside its counts.
#[derive(Clone, Copy)]
pub(crate) struct Layout {
    pub address: u64,
    /// That of the datatype.
    pub extent: i128,
    pub members: u32,
    pub position: u32,
    /// The count is that of each member, and the buffer has so many for each.
    pub for_each: bool,
}

/// What is below zero counts as nothing.
fn natural(count: i32) -> u32
    ensures { result ≡ natural count }
{
    if count < 0 { 0 } else { count as u32 }
}

/// One block.
fn single(alloc: Global, address: u64, count: u64) -> Result<Vec<Block>, NoMemory>
    ensures { IfOk result (λ blocks. map block_seen blocks.items ≡ record { address = pos address; count = count } ∷ []) }
{
    let mut blocks = Vec::new(alloc);
    blocks.push(Block {
        address: i128::from(address),
        count,
    })?;
    Ok(blocks)
}

/// How many elements a count gives.
fn counted(layout: &Layout, count: i32) -> u64
    ensures { result ≡ (if layout.now.for_each then layout.now.members * natural count else natural count) }
{
    let count = u64::from(natural(count));
    if layout.for_each {
        u64::from(layout.members) * count
    } else {
        count
    }
}

/// The first of a list, at most so many.
fn front<T>(items: &[T], most: u32) -> &[T]
    ensures { result.now ≡ take most items.now }
{
    if items.len() <= most as usize {
        return items;
    }
    let (front, _) = items.split_at(most as usize);
    front
}

/// The sum of some counts. A list is short enough for it.
fn sum_of(counts: &[i32]) -> Result<u64, NoMemory>
    ensures { IfOk result (λ sum. sum ≡ sum_by natural counts.now) }
{
    let mut sum: u64 = 0;
    for count in counts {
        let Some(more) = sum.checked_add(u64::from(natural(*count))) else {
            return Err(NoMemory);
        };
        sum = more;
    }
    Ok(sum)
}

/// The count at an index.
fn count_at(counts: &[i32], index: u32) -> u64
    ensures { result ≡ natural_at (slice_get counts.now index) }
{
    match counts.get(index as usize) {
        Some(count) => u64::from(natural(*count)),
        None => 0,
    }
}

/// How many elements a list of counts by member gives.
fn listed(layout: &Layout, counts: &[i32]) -> Result<u64, NoMemory>
    ensures { IfOk result (λ count. count ≡ listed (layout_seen layout.now) counts.now) }
{
    if layout.for_each {
        sum_of(front(counts, layout.members))
    } else {
        Ok(count_at(counts, layout.position))
    }
}

/// The block of a member. Its address is far below 2^127.
fn block_of(layout: &Layout, amount: Amount) -> Result<Block, NoMemory>
    ensures { IfOk result (λ block. block_seen block ≡ block_of (layout_seen layout.now) amount) }
{
    let Some(offset) = i128::from(amount.disp).checked_mul(layout.extent) else {
        return Err(NoMemory);
    };
    let Some(address) = i128::from(layout.address).checked_add(offset) else {
        return Err(NoMemory);
    };
    Ok(Block {
        address,
        count: u64::from(natural(amount.count)),
    })
}

/// The blocks of members.
fn by_member(alloc: Global, layout: &Layout, amounts: &[Amount]) -> Result<Vec<Block>, NoMemory>
    ensures { IfOk result (λ blocks. map block_seen blocks.items ≡ map (block_of (layout_seen layout.now)) amounts.now) }
{
    let mut blocks = Vec::new(alloc);
    for amount in amounts {
        blocks.push(block_of(layout, *amount)?)?;
    }
    Ok(blocks)
}

/// The blocks that a count of one side gives another.
fn counted_by(
    alloc: Global,
    layout: &Layout,
    side: Side,
    of: Side,
    count: &i32,
) -> Result<Option<Vec<Block>>, NoMemory>
    ensures { IfOk result (λ told. blocks_seen told ≡ blocks_in (layout_seen layout.now) side (field.I32 (int.Count of)) count.now) }
{
    if !serves(of, side) {
        return Ok(None);
    }
    let blocks = single(alloc, layout.address, counted(layout, *count))?;
    Ok(Some(blocks))
}

fn count_told(
    alloc: Global,
    layout: &Layout,
    side: Side,
    role: Int,
    value: &i32,
) -> Result<Option<Vec<Block>>, NoMemory>
    ensures { IfOk result (λ told. blocks_seen told ≡ blocks_in (layout_seen layout.now) side (field.I32 role) value.now) }
{
    match role {
        Int::Count(of) => counted_by(alloc, layout, side, of, value),
        Int::Copies
        | Int::Block
        | Int::Stride
        | Int::Dest
        | Int::Source
        | Int::Tag(_)
        | Int::Root
        | Int::Color
        | Int::Key => Ok(None),
    }
}

/// The block that counts by member give.
fn listed_told(
    alloc: Global,
    layout: &Layout,
    side: Side,
    role: Ints,
    counts: &[i32],
) -> Result<Option<Vec<Block>>, NoMemory>
    ensures { IfOk result (λ told. blocks_seen told ≡ blocks_in (layout_seen layout.now) side (field.Items (item.Int role)) counts.now) }
{
    match role {
        Ints::Counts => {
            let count = listed(layout, counts)?;
            let blocks = single(alloc, layout.address, count)?;
            Ok(Some(blocks))
        }
        Ints::Ranks | Ints::Displacements => Ok(None),
    }
}

/// The blocks that a list by member of one side gives another.
fn amounts_told(
    alloc: Global,
    layout: &Layout,
    side: Side,
    of: Side,
    amounts: &[Amount],
) -> Result<Option<Vec<Block>>, NoMemory>
    ensures { IfOk result (λ told. blocks_seen told ≡ blocks_in (layout_seen layout.now) side (field.Items (item.Amount of)) amounts.now) }
{
    if !serves(of, side) {
        return Ok(None);
    }
    let blocks = by_member(alloc, layout, front(amounts, layout.members))?;
    Ok(Some(blocks))
}

/// The blocks that a field tells of a side's buffer.
fn blocks_told(
    alloc: Global,
    layout: &Layout,
    side: Side,
    argument: &Argument<'_>,
) -> Result<Option<Vec<Block>>, NoMemory>
    ensures { IfOk result (λ told. blocks_seen told ≡ blocks_in (layout_seen layout.now) side (seen argument.now).0 (seen argument.now).1) }
{
    match argument {
        Argument::I32(role, value) => count_told(alloc, layout, side, *role, value),
        Argument::Ints(role, counts) => listed_told(alloc, layout, side, *role, counts.items()),
        Argument::Amounts(of, amounts) => {
            amounts_told(alloc, layout, side, *of, amounts.items())
        }
        _ => Ok(None),
    }
}

/// The blocks of a side's buffer.
pub(crate) fn blocks_at(
    alloc: Global,
    layout: &Layout,
    side: Side,
    arguments: &[Argument<'_>],
) -> Result<Vec<Block>, NoMemory>
    ensures { IfOk result (λ blocks. map block_seen blocks.items ≡ blocks_at (layout_seen layout.now) side (all_seen arguments.now)) }
{
    for argument in arguments {
        if let Some(blocks) = blocks_told(alloc, layout, side, argument)? {
            return Ok(blocks);
        }
    }
    Ok(Vec::new(alloc))
}

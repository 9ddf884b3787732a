//! The ranges of what a call makes of its old type.

ghost use Rattle.std.specs.Prelude.{◌≡◌, ℕ, ◌*◌, ◌^◌, ◌≤◌, ℤ, pos, ◌*ℤ◌, List, [], ◌∷◌, sum_by, flat_map, IfOk};
ghost use Rattle.std.specs.Int.RustNames.{unsigned_abs};
ghost use Rattle.std.specs.List.{AllByRecursion};
ghost use Rattle.must_type.specs.Maps.{Entry, extent, block as block_map};
ghost use Rattle.must_type.specs.Constructs.{natural, map_of, vector_map, hvector_map, indexed_map, hindexed_map, indexed_block_map, hindexed_block_map, resized_map};
ghost use Rattle.must_type.specs.Weights.{weigh, weight_of};
ghost use Rattle.must_type.specs.Allowed.{IsCount, IsAllowed};
ghost use Rattle.must_type.specs.Olds.{HasOneOld};
ghost use Rattle.must_span.specs.Steps.{AreUsable, AreOf, IsLaid, element, HasRoom};

use crate::copies::repeat;
use crate::laid::Laid;
use crate::parts::part;
use crate::places::{Place, natural, times};
use crate::ranges::AddressRange;
use must_base::NoMemory;
use must_call::{HindexItem, IndexItem};
use must_type::Construct;
use std::alloc::Global;

/// The ranges of a block: `count` copies of the old type, one extent apart.
fn block(alloc: Global, old: &Laid, count: u64) -> Result<Vec<AddressRange>, NoMemory>
    requires old { AreUsable old.now }
    requires few { count ≤ 2 ^ 31 }
    ensures { (T : List Entry) (w : ℕ) → AreOf T w old.now → IfOk result (λ made. IsLaid made.items (block_map count T (pos 0)) (weigh count (element T w))) }
{
    let mut made = Vec::new(alloc);
    repeat(&mut made, old.ranges.as_slice(), 0, old.extent, count)?;
    Ok(made)
}

/// The ranges of `count` blocks, `stride` bytes apart.
fn rows(
    alloc: Global,
    old: &Laid,
    count: u64,
    blocklength: u64,
    stride: i128,
) -> Result<Vec<AddressRange>, NoMemory>
    requires old { AreUsable old.now }
    requires few { count ≤ 2 ^ 31 }
    requires short { blocklength ≤ 2 ^ 31 }
    requires stride_near { unsigned_abs stride ≤ 2 ^ 94 }
    ensures { (T : List Entry) (w : ℕ) → AreOf T w old.now → IfOk result (λ made. IsLaid made.items (hvector_map count blocklength stride T) (count * weigh blocklength (element T w))) }
{
    let mut row = Vec::new(alloc);
    repeat(&mut row, old.ranges.as_slice(), 0, old.extent, blocklength)?;
    let mut made = Vec::new(alloc);
    repeat(&mut made, row.as_slice(), 0, stride, count)?;
    Ok(made)
}

/// The ranges of the blocks of an indexed form; `common` is the length of those that have none of their own.
fn all_blocks<P: Place>(
    alloc: Global,
    old: &Laid,
    common: u64,
    items: &[P],
) -> Result<Vec<AddressRange>, NoMemory>
    requires old { AreUsable old.now }
    requires few { common ≤ 2 ^ 31 }
    requires allowed { AllByRecursion P.allowed items.now }
    ensures { (T : List Entry) (w : ℕ) → AreOf T w old.now → IfOk result (λ made. IsLaid made.items (flat_map (λ it. block_map (P.blocklength it common) T (P.at it (extent T))) items.now) (sum_by (λ it. weigh (P.blocklength it common) (element T w)) items.now)) }
{
    let mut made = Vec::new(alloc);
    for item in items {
        let at = item.begins(old.extent);
        let count = item.blocklength_of(common);
        repeat(&mut made, old.ranges.as_slice(), at, old.extent, count)?;
    }
    Ok(made)
}

fn vector(
    alloc: Global,
    old: &Laid,
    count: i32,
    blocklength: i32,
    stride: i32,
) -> Result<Vec<AddressRange>, NoMemory>
    requires old { AreUsable old.now }
    requires count { IsCount count }
    requires block { IsCount blocklength }
    ensures { (T : List Entry) (w : ℕ) → AreOf T w old.now → IfOk result (λ made. IsLaid made.items (vector_map (natural count) (natural blocklength) stride T) (natural count * weigh (natural blocklength) (element T w))) }
{
    let stride = times(i128::from(stride), old.extent);
    rows(alloc, old, natural(count), natural(blocklength), stride)
}

fn hvector(
    alloc: Global,
    old: &Laid,
    count: i32,
    blocklength: i32,
    stride: i64,
) -> Result<Vec<AddressRange>, NoMemory>
    requires old { AreUsable old.now }
    requires count { IsCount count }
    requires block { IsCount blocklength }
    ensures { (T : List Entry) (w : ℕ) → AreOf T w old.now → IfOk result (λ made. IsLaid made.items (hvector_map (natural count) (natural blocklength) stride T) (natural count * weigh (natural blocklength) (element T w))) }
{
    rows(
        alloc,
        old,
        natural(count),
        natural(blocklength),
        i128::from(stride),
    )
}

#[tactic(auto, unfolding(must_type::specs::Constructs::indexed_map))]
fn indexed(alloc: Global, old: &Laid, items: &[IndexItem]) -> Result<Vec<AddressRange>, NoMemory>
    requires old { AreUsable old.now }
    requires counts { AllByRecursion (λ it. IsCount it.block) items.now }
    ensures { (T : List Entry) (w : ℕ) → AreOf T w old.now → IfOk result (λ made. IsLaid made.items (indexed_map items.now T) (sum_by (λ it. weigh (natural it.block) (element T w)) items.now)) }
{
    all_blocks(alloc, old, 0, items)
}

#[tactic(auto, unfolding(must_type::specs::Constructs::hindexed_map))]
fn hindexed(alloc: Global, old: &Laid, items: &[HindexItem]) -> Result<Vec<AddressRange>, NoMemory>
    requires old { AreUsable old.now }
    requires counts { AllByRecursion (λ it. IsCount it.block) items.now }
    ensures { (T : List Entry) (w : ℕ) → AreOf T w old.now → IfOk result (λ made. IsLaid made.items (hindexed_map items.now T) (sum_by (λ it. weigh (natural it.block) (element T w)) items.now)) }
{
    all_blocks(alloc, old, 0, items)
}

#[tactic(auto, unfolding(must_type::specs::Constructs::indexed_block_map))]
fn indexed_block(
    alloc: Global,
    old: &Laid,
    blocklength: i32,
    disps: &[i32],
) -> Result<Vec<AddressRange>, NoMemory>
    requires old { AreUsable old.now }
    requires block { IsCount blocklength }
    ensures { (T : List Entry) (w : ℕ) → AreOf T w old.now → IfOk result (λ made. IsLaid made.items (indexed_block_map (natural blocklength) disps.now T) (sum_by (λ d. weigh (natural blocklength) (element T w)) disps.now)) }
{
    all_blocks(alloc, old, natural(blocklength), disps)
}

#[tactic(auto, unfolding(must_type::specs::Constructs::hindexed_block_map))]
fn hindexed_block(
    alloc: Global,
    old: &Laid,
    blocklength: i32,
    disps: &[i64],
) -> Result<Vec<AddressRange>, NoMemory>
    requires old { AreUsable old.now }
    requires block { IsCount blocklength }
    ensures { (T : List Entry) (w : ℕ) → AreOf T w old.now → IfOk result (λ made. IsLaid made.items (hindexed_block_map (natural blocklength) disps.now T) (sum_by (λ d. weigh (natural blocklength) (element T w)) disps.now)) }
{
    all_blocks(alloc, old, natural(blocklength), disps)
}

/// The ranges of the old type; a marker has none.
fn resized(old: Laid) -> Vec<AddressRange>
    ensures { (T : List Entry) (w : ℕ) (lb extent : ℤ) → AreOf T w old → IsLaid result.items (resized_map lb extent T) w }
{
    old.ranges
}

/// The ranges of what a call makes of its old type.
pub(crate) fn made_of(
    alloc: Global,
    call: &Construct,
    old: Laid,
) -> Result<Vec<AddressRange>, NoMemory>
    requires old { AreUsable old }
    requires allowed { IsAllowed call.now }
    requires one { HasOneOld call.now }
    requires room { HasRoom old.extent call.now }
    ensures { (T : List Entry) (w : ℕ) → AreOf T w old → IfOk result (λ made. IsLaid made.items (map_of call.now (T ∷ [])) (weight_of call.now (element T w ∷ []))) }
{
    match call {
        Construct::Contiguous { count, .. } => block(alloc, &old, natural(*count)),
        Construct::Vector {
            count,
            block,
            stride,
            ..
        } => vector(alloc, &old, *count, *block, *stride),
        Construct::Hvector {
            count,
            block,
            stride,
            ..
        } => hvector(alloc, &old, *count, *block, *stride),
        Construct::Indexed { blocks, .. } => indexed(alloc, &old, blocks.items()),
        Construct::Hindexed { blocks, .. } => hindexed(alloc, &old, blocks.items()),
        Construct::IndexedBlock { block, disps, .. } => {
            indexed_block(alloc, &old, *block, disps.items())
        }
        Construct::HindexedBlock { block, disps, .. } => {
            hindexed_block(alloc, &old, *block, disps.items())
        }
        Construct::Struct { .. } => unreachable!(),
        Construct::Dup { .. } => Ok(old.ranges),
        Construct::Resized { .. } => Ok(resized(old)),
        Construct::Subarray { order, dims, .. } => part(alloc, old, *order, dims.items()),
    }
}

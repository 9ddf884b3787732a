//! The weight of what a call makes, which a table limits. Weights end at 2^64, which every limit is below.

ghost use Rattle.std.specs.Prelude.{◌≡◌, ℕ, [], ◌∷◌, ◌*◌, ◌+◌, ◌≤◌, ◌<◌, ◌^◌, min, length, sum_by};
ghost use Rattle.std.specs.List.{AllByRecursion};
ghost use Rattle.must_type.specs.Constructs.{slow_first};
ghost use Rattle.must_type.specs.Weights.{struct_weight, part_weight, weigh, weight_of};
ghost use Rattle.must_type.specs.Allowed.{IsAllowed, IsCount, IsPart, IsArrayPart};
ghost use Rattle.must_type.specs.Olds.{old_numbers, HasOneOld};
ghost use Rattle.must_type.specs.Tree.{weighed};
ghost use Rattle.must_type.specs.View.{trees_of};
ghost use Rattle.must_type.specs.Facts.{IsSettled, weighed_facts};

use crate::construct::{Construct, StructItem};
use crate::facts::Facts;
use crate::forms::{nth_fastest, old_facts};
use crate::places::{Place, natural};
use crate::tree::Tree;
use must_call::Dim;
use std::rc::Rc;

/// Where weights end.
const MOST: u128 = 0x1_0000_0000_0000_0000;

/// The weight of `count` elements.
pub(crate) fn weigh(old: &Facts, count: u64) -> u128
    requires settled { IsSettled old.now }
    ensures value { result ≡ weigh count (weighed_facts old.now) }
    ensures bounded { result ≤ count * 2 ^ 64 }
{
    if count == 0 {
        return 0;
    }
    if old.weight == 1 && old.summary.size as i128 == old.bounds.extent {
        return 1;
    }
    u128::from(count) * u128::from(old.weight)
}

/// `count` times the weight of a block.
fn rows(old: &Facts, count: u32, blocklength: u32) -> u128
    requires settled { IsSettled old.now }
    requires few { count ≤ 2 ^ 31 }
    requires short { blocklength ≤ 2 ^ 31 }
    ensures { result ≡ min (count * weigh blocklength (weighed_facts old.now)) (2 ^ 64) }
{
    let row = weigh(old, u64::from(blocklength));
    (u128::from(count) * row).min(MOST)
}

/// The weight of the blocks of an indexed form; `common` is the length of those that have none of their own.
fn all_blocks<P: Place>(old: &Facts, common: u32, items: &[P]) -> u128
    requires settled { IsSettled old.now }
    requires few { common ≤ 2 ^ 31 }
    requires allowed { AllByRecursion P.allowed items.now }
    ensures { result ≡ min (sum_by (λ it. weigh (P.blocklength it common) (weighed_facts old.now)) items.now) (2 ^ 64) }
{
    let mut total = 0;
    for item in items {
        let blocklength = item.blocklength_of(common);
        total = (total + weigh(old, u64::from(blocklength))).min(MOST);
    }
    total
}

/// The weight of the blocks of a `Struct`.
fn struct_blocks(olds: &[Rc<Tree>], blocks: &[StructItem]) -> u128
    requires counts { AllByRecursion (λ it. IsCount it.block) blocks.now }
    requires olds { length olds.now ≡ length blocks.now }
    ensures { result ≡ min (struct_weight blocks.now (weighed (trees_of olds.now))) (2 ^ 64) }
{
    let mut total = 0;
    for (i, item) in blocks.iter().enumerate() {
        let old = old_facts(olds, i);
        total = (total + weigh(&old, u64::from(natural(item.block)))).min(MOST);
    }
    total
}

/// The weight of a part of an array.
fn part(old: &Facts, order: u8, dims: &[Dim]) -> u128
    requires settled { IsSettled old.now }
    requires part { IsArrayPart order dims.now }
    ensures { result ≡ min (part_weight (slow_first order dims.now) (weighed_facts old.now)) (2 ^ 64) }
{
    let fastest = nth_fastest(order, dims, 0);
    let mut total = weigh(old, u64::from(natural(fastest.subsize))).min(MOST);
    for k in 1..dims.len() {
        let dim = nth_fastest(order, dims, k);
        total = (u128::from(natural(dim.subsize)) * total).min(MOST);
    }
    total
}

/// The weight of what the calls with one old type make of it.
fn weigh_one(call: &Construct, old: &Facts) -> u128
    requires settled { IsSettled old.now }
    requires allowed { IsAllowed call.now }
    requires one { HasOneOld call.now }
    ensures { result ≡ min (weight_of call.now (weighed_facts old.now ∷ [])) (2 ^ 64) }
{
    match call {
        Construct::Contiguous { count, .. } => rows(old, 1, natural(*count)),
        Construct::Vector { count, block, .. } => rows(old, natural(*count), natural(*block)),
        Construct::Hvector { count, block, .. } => rows(old, natural(*count), natural(*block)),
        Construct::Indexed { blocks, .. } => all_blocks(old, 0, blocks.items()),
        Construct::Hindexed { blocks, .. } => all_blocks(old, 0, blocks.items()),
        Construct::IndexedBlock { block, disps, .. } => {
            all_blocks(old, natural(*block), disps.items())
        }
        Construct::HindexedBlock { block, disps, .. } => {
            all_blocks(old, natural(*block), disps.items())
        }
        Construct::Struct { .. } => 0,
        Construct::Dup { .. } => u128::from(old.weight),
        Construct::Resized { .. } => u128::from(old.weight),
        Construct::Subarray { order, dims, .. } => part(old, *order, dims.items()),
    }
}

/// The weight of what the call makes of these old types, where it is below 2^64; else 2^64.
pub(crate) fn weight_of(call: &Construct, olds: &[Rc<Tree>]) -> u128
    requires allowed { IsAllowed call.now }
    requires olds { length olds.now ≡ length (old_numbers call.now) }
    ensures { result ≡ min (weight_of call.now (weighed (trees_of olds.now))) (2 ^ 64) }
{
    if let Construct::Struct { blocks } = call {
        return struct_blocks(olds, blocks.items());
    }
    weigh_one(call, &old_facts(olds, 0))
}

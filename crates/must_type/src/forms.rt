//! The summary and the weight of what a call makes of its old types.

ghost use Rattle.std.specs.Prelude.{◌≡◌, ℕ, ℤ, pos, [], ◌∷◌, ◌*ℤ◌, ◌*◌, ◌-◌, ◌+◌, ◌≤◌, ◌<◌, ◌^◌, List, length, slice_index_or, min, IsTrue, ◌↔◌, MatchOption};
ghost use Rattle.std.specs.List.{AllByRecursion};
ghost use Rattle.std.specs.declared.rc.Rc.{Rc};
ghost use Rattle.std.specs.declared.alloc.Global.{Global};
ghost use Rattle.std.specs.Int.RustNames.{unsigned_abs};
ghost use Rattle.must_call.specs.declared.items.Dim.{Dim};
ghost use Rattle.must_type.specs.declared.construct.Construct.{Construct};
ghost use Rattle.must_type.specs.Maps.{Entry, IsBounded, extent, block as block_map};
ghost use Rattle.must_type.specs.Constructs.{natural, map_of, struct_map, vector_map, hvector_map, indexed_map, hindexed_map, indexed_block_map, hindexed_block_map, resized_map, subarray_map, slow_first};
ghost use Rattle.must_type.specs.Weights.{weight_of};
ghost use Rattle.must_type.specs.Allowed.{IsAllowed, IsCount, IsPart, IsArrayPart};
ghost use Rattle.must_type.specs.Olds.{HasOneOld, old_numbers};
ghost use Rattle.must_type.specs.Summaries.{summary, shift, repeated as repeat, IsBoundedBy, IsOrdered};
ghost use Rattle.must_type.specs.Tree.{TypeTree, Made, type_map, type_maps, depth, greatest_depth, weighed, IsWithinReach};
ghost use Rattle.must_type.specs.View.{trees_of};
ghost use Rattle.must_type.specs.Facts.{facts_of, IsSettled, IsOf, IsPartly, IsWhereFits};

use crate::construct::{Construct, StructItem};
use crate::facts::Facts;
use crate::layout::{add, all_blocks, block, run, runs, where_fits};
use crate::places::natural;
use crate::summary::{REACH, Summary, times};
use crate::tree::{Origin, Tree};
use must_call::{Dim, HindexItem, IndexItem};
use std::rc::Rc;

/// What the `i`-th old type knows of itself.
pub(crate) fn old_facts(olds: &[Rc<Tree>], i: usize) -> Facts
    requires { i < length olds.now }
    ensures value { (d : Rc TypeTree Global) → result ≡ facts_of (slice_index_or olds.now i d).value }
    ensures settled { IsSettled result }
    ensures of { (d : Rc TypeTree Global) → IsOf (type_map (slice_index_or olds.now i d).value) result }
    ensures shallow { result.depth ≤ 256 }
{
    olds[i].as_ref().facts()
}

/// The greatest depth of the old types.
pub(crate) fn deepest(olds: &[Rc<Tree>]) -> u32
    ensures value { result ≡ greatest_depth (trees_of olds.now) }
    ensures shallow { result ≤ 256 }
{
    let mut depth = 0;
    for i in 0..olds.len() {
        depth = depth.max(old_facts(olds, i).depth);
    }
    depth
}

/// The blocks of a `Struct`.
fn struct_blocks(olds: &[Rc<Tree>], blocks: &[StructItem]) -> Option<Summary>
    requires counts { AllByRecursion (λ it. IsCount it.block) blocks.now }
    requires olds { length olds.now ≡ length blocks.now }
    ensures { IsWhereFits result (summary (struct_map blocks.now (type_maps (trees_of olds.now)))) }
{
    let mut all = Summary::empty();
    for (i, item) in blocks.iter().enumerate() {
        let old = old_facts(olds, i);
        let next = block(&old, natural(item.block), i128::from(item.disp));
        let Some(next) = add(all, next) else {
            return None;
        };
        all = next;
    }
    Some(all)
}

/// The `k`-th dimension from the fastest on.
pub(crate) fn nth_fastest(order: u8, dims: &[Dim], k: usize) -> Dim
    requires within { k < length dims.now }
    requires parts { AllByRecursion IsPart dims.now }
    ensures value { (d : Dim) → result ≡ slice_index_or (slow_first order dims.now) (length dims.now - 1 - k) d }
    ensures part { IsPart result }
{
    if order == 0 {
        return dims[dims.len() - 1 - k];
    }
    dims[k]
}

/// The part with one dimension more, in which a step is `step` bytes.
fn widened(all: Summary, step: i128, dim: Dim) -> Summary
    requires part { IsPart dim }
    requires partly { IsPartly step all }
    ensures value { result ≡ repeat (natural dim.subsize) step (shift (pos (natural dim.start) *ℤ step) all) }
    ensures bounded { IsBoundedBy (2 ^ 62 + natural dim.size * unsigned_abs step) result }
{
    let first = times(i128::from(dim.start), step);
    all.moved(first).repeated(natural(dim.subsize), step)
}

/// Whether one dimension more may follow, in which a step is `step` bytes.
fn has_room(all: &Summary, step: i128) -> bool
    ensures { IsTrue result ↔ (all.now.size ≤ 2 ^ 62) × IsBounded (2 ^ 62) step }
{
    all.size <= REACH as u128 && -REACH <= step && step <= REACH
}

/// The part of an array: all cells that lie in it, with the bounds of the whole array.
fn part(old: &Facts, order: u8, dims: &[Dim]) -> Option<Summary>
    requires settled { IsSettled old.now }
    requires part { IsArrayPart order dims.now }
    ensures { (T : List Entry) → IsOf T old.now → IsWhereFits result (summary (subarray_map order dims.now T)) }
{
    let mut step = old.bounds.extent;
    let mut all = old.summary.unmarked();
    for k in 0..dims.len() {
        let dim = nth_fastest(order, dims, k);
        let wider = widened(all, step, dim);
        let size = times(i128::from(dim.size), step);
        if !has_room(&wider, size) {
            return None;
        }
        all = wider;
        step = size;
    }
    where_fits(all.marked(0, step))
}

fn contiguous(old: &Facts, count: i32) -> Option<Summary>
    requires settled { IsSettled old.now }
    requires count { IsCount count }
    ensures { (T : List Entry) → IsOf T old.now → IsWhereFits result (summary (block_map (natural count) T (pos 0))) }
{
    where_fits(run(old, natural(count)))
}

fn vector(old: &Facts, count: i32, blocklength: i32, stride: i32) -> Option<Summary>
    requires settled { IsSettled old.now }
    requires count { IsCount count }
    requires block { IsCount blocklength }
    ensures { (T : List Entry) → IsOf T old.now → IsWhereFits result (summary (vector_map (natural count) (natural blocklength) stride T)) }
{
    let stride = times(i128::from(stride), old.bounds.extent);
    runs(old, natural(count), natural(blocklength), stride)
}

fn hvector(old: &Facts, count: i32, blocklength: i32, stride: i64) -> Option<Summary>
    requires settled { IsSettled old.now }
    requires count { IsCount count }
    requires block { IsCount blocklength }
    ensures { (T : List Entry) → IsOf T old.now → IsWhereFits result (summary (hvector_map (natural count) (natural blocklength) stride T)) }
{
    runs(
        old,
        natural(count),
        natural(blocklength),
        i128::from(stride),
    )
}

fn resized(old: &Facts, lb: i64, extent: i64) -> Option<Summary>
    requires settled { IsSettled old.now }
    ensures { (T : List Entry) → IsOf T old.now → IsWhereFits result (summary (resized_map lb extent T)) }
{
    let lb = i128::from(lb);
    where_fits(old.summary.marked(lb, lb + i128::from(extent)))
}

#[tactic(auto, unfolding(crate::specs::Constructs::indexed_map))]
fn indexed(old: &Facts, items: &[IndexItem]) -> Option<Summary>
    requires settled { IsSettled old.now }
    requires counts { AllByRecursion (λ it. IsCount it.block) items.now }
    ensures { (T : List Entry) → IsOf T old.now → IsWhereFits result (summary (indexed_map items.now T)) }
{
    all_blocks(old, 0, items)
}

#[tactic(auto, unfolding(crate::specs::Constructs::hindexed_map))]
fn hindexed(old: &Facts, items: &[HindexItem]) -> Option<Summary>
    requires settled { IsSettled old.now }
    requires counts { AllByRecursion (λ it. IsCount it.block) items.now }
    ensures { (T : List Entry) → IsOf T old.now → IsWhereFits result (summary (hindexed_map items.now T)) }
{
    all_blocks(old, 0, items)
}

#[tactic(auto, unfolding(crate::specs::Constructs::indexed_block_map))]
fn indexed_block(old: &Facts, blocklength: i32, disps: &[i32]) -> Option<Summary>
    requires settled { IsSettled old.now }
    requires block { IsCount blocklength }
    ensures { (T : List Entry) → IsOf T old.now → IsWhereFits result (summary (indexed_block_map (natural blocklength) disps.now T)) }
{
    all_blocks(old, natural(blocklength), disps)
}

#[tactic(auto, unfolding(crate::specs::Constructs::hindexed_block_map))]
fn hindexed_block(old: &Facts, blocklength: i32, disps: &[i64]) -> Option<Summary>
    requires settled { IsSettled old.now }
    requires block { IsCount blocklength }
    ensures { (T : List Entry) → IsOf T old.now → IsWhereFits result (summary (hindexed_block_map (natural blocklength) disps.now T)) }
{
    all_blocks(old, natural(blocklength), disps)
}

/// What the calls with one old type make of it.
fn lay_out_one(call: &Construct, old: &Facts) -> Option<Summary>
    requires settled { IsSettled old.now }
    requires allowed { IsAllowed call.now }
    requires one { HasOneOld call.now }
    ensures { (T : List Entry) → IsOf T old.now → IsWhereFits result (summary (map_of call.now (T ∷ []))) }
{
    match call {
        Construct::Contiguous { count, .. } => contiguous(old, *count),
        Construct::Vector {
            count,
            block,
            stride,
            ..
        } => vector(old, *count, *block, *stride),
        Construct::Hvector {
            count,
            block,
            stride,
            ..
        } => hvector(old, *count, *block, *stride),
        Construct::Indexed { blocks, .. } => indexed(old, blocks.items()),
        Construct::Hindexed { blocks, .. } => hindexed(old, blocks.items()),
        Construct::IndexedBlock { block, disps, .. } => indexed_block(old, *block, disps.items()),
        Construct::HindexedBlock { block, disps, .. } => {
            hindexed_block(old, *block, disps.items())
        }
        Construct::Struct { .. } => None,
        Construct::Dup { .. } => Some(old.summary),
        Construct::Resized { lb, extent, .. } => resized(old, *lb, *extent),
        Construct::Subarray { order, dims, .. } => part(old, *order, dims.items()),
    }
}

/// The summary of the map that the call makes of these old types, where it lies within reach.
pub(crate) fn lay_out(call: &Construct, olds: &[Rc<Tree>]) -> Option<Summary>
    requires allowed { IsAllowed call.now }
    requires olds { length olds.now ≡ length (old_numbers call.now) }
    ensures { IsWhereFits result (summary (map_of call.now (type_maps (trees_of olds.now)))) }
{
    if let Construct::Struct { blocks } = call {
        return struct_blocks(olds, blocks.items());
    }
    lay_out_one(call, &old_facts(olds, 0))
}

/// What the type knows of itself that the call makes, where it lies within reach.
pub(crate) fn settle(
    origin: Origin,
    call: &Construct,
    olds: &[Rc<Tree>],
    weight: u64,
) -> Option<Facts>
    requires allowed { IsAllowed call.now }
    requires olds { length olds.now ≡ length (old_numbers call.now) }
    requires weight { weight ≡ weight_of call.now (weighed (trees_of olds.now)) }
    ensures { let tree = Made origin call.now (trees_of olds.now) in MatchOption result (IsWithinReach tree → ⊥) (λ f. (f ≡ facts_of tree) × IsWithinReach tree) }
{
    let Some(summary) = lay_out(call, olds) else {
        return None;
    };
    let Some(bounds) = summary.bounds() else {
        return None;
    };
    let depth = depth_of(origin, olds);
    if depth > DEEPEST {
        return None;
    }
    Some(Facts {
        summary,
        bounds,
        depth,
        weight,
    })
}

/// How deep a type may be.
const DEEPEST: u32 = 256;

fn depth_of(origin: Origin, olds: &[Rc<Tree>]) -> u32
    ensures { (call : Construct) → result ≡ depth (Made origin call (trees_of olds.now)) }
{
    match origin {
        Origin::Predefined => 0,
        Origin::Derived => deepest(olds) + 1,
    }
}

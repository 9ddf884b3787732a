//! A plain program that lists the addresses of a type entry by entry, to test against.

use must_base::NoMemory;
use must_call::Dim;
use must_type::{Construct, Tree};
use std::alloc::Global;

/// Old types, each by its number and its displacement.
type Places = Vec<(usize, i128)>;

fn push_block(
    out: &mut Places,
    which: usize,
    at: i128,
    extent: i128,
    count: i32,
) -> Result<(), NoMemory> {
    for j in 0..count {
        out.push((which, at.wrapping_add(i128::from(j).wrapping_mul(extent))))?;
    }
    Ok(())
}

fn push_rows(
    out: &mut Places,
    stride: i128,
    extent: i128,
    count: i32,
    block: i32,
) -> Result<(), NoMemory> {
    for i in 0..count {
        push_block(out, 0, i128::from(i).wrapping_mul(stride), extent, block)?;
    }
    Ok(())
}

/// How many cells an array has.
fn cells(dims: &[Dim]) -> i64 {
    let mut all: i64 = 1;
    for dim in dims {
        all = all.wrapping_mul(i64::from(dim.size));
    }
    all
}

/// Whether the part goes over the place of a cell in one dimension; and the cell's number in the slower ones.
fn divide(dim: &Dim, cell: i64) -> (bool, i64) {
    if dim.size < 1 {
        return (false, 0);
    }
    let size = i64::from(dim.size);
    let place = cell % size;
    let first = i64::from(dim.start);
    (
        first <= place && place < first + i64::from(dim.subsize),
        cell / size,
    )
}

fn is_in_part(order: u8, dims: &[Dim], cell: i64) -> bool {
    let mut rest = cell;
    let mut within = true;
    for k in 0..dims.len() {
        let nth = if order == 0 { dims.len() - 1 - k } else { k };
        let (yes, slower) = divide(&dims[nth], rest);
        within = within & yes;
        rest = slower;
    }
    within
}

fn push_part(out: &mut Places, order: u8, dims: &[Dim], extent: i128) -> Result<(), NoMemory> {
    for cell in 0..cells(dims) {
        if is_in_part(order, dims, cell) {
            out.push((0, i128::from(cell).wrapping_mul(extent)))?;
        }
    }
    Ok(())
}

fn extent_of(tree: &Tree, which: usize) -> i128 {
    match tree.old(which) {
        Some(old) => old.bounds().extent,
        None => 0,
    }
}

fn push_places(out: &mut Places, tree: &Tree, call: &Construct) -> Result<(), NoMemory> {
    let extent = extent_of(tree, 0);
    match call {
        Construct::Contiguous { count, .. } => push_block(out, 0, 0, extent, *count),
        Construct::Vector {
            count,
            block,
            stride,
            ..
        } => push_rows(
            out,
            i128::from(*stride).wrapping_mul(extent),
            extent,
            *count,
            *block,
        ),
        Construct::Hvector {
            count,
            block,
            stride,
            ..
        } => push_rows(out, i128::from(*stride), extent, *count, *block),
        Construct::Indexed { blocks, .. } => {
            for item in blocks.items() {
                let at = i128::from(item.disp).wrapping_mul(extent);
                push_block(out, 0, at, extent, item.block)?;
            }
            Ok(())
        }
        Construct::Hindexed { blocks, .. } => {
            for item in blocks.items() {
                push_block(out, 0, i128::from(item.disp), extent, item.block)?;
            }
            Ok(())
        }
        Construct::IndexedBlock { block, disps, .. } => {
            for disp in disps.items() {
                let at = i128::from(*disp).wrapping_mul(extent);
                push_block(out, 0, at, extent, *block)?;
            }
            Ok(())
        }
        Construct::HindexedBlock { block, disps, .. } => {
            for disp in disps.items() {
                push_block(out, 0, i128::from(*disp), extent, *block)?;
            }
            Ok(())
        }
        Construct::Struct { blocks } => {
            for (i, item) in blocks.items().iter().enumerate() {
                push_block(
                    out,
                    i,
                    i128::from(item.disp),
                    extent_of(tree, i),
                    item.block,
                )?;
            }
            Ok(())
        }
        Construct::Dup { .. } | Construct::Resized { .. } => push_block(out, 0, 0, extent, 1),
        Construct::Subarray { order, dims, .. } => push_part(out, *order, dims.items(), extent),
    }
}

/// Lists the addresses of one element of a type at `at`.
pub(crate) fn mark(
    alloc: Global,
    tree: &Tree,
    at: i128,
    out: &mut Vec<i128>,
) -> Result<(), NoMemory> {
    if let Some(basic) = tree.basic() {
        for b in 0..basic.size() {
            out.push(at.wrapping_add(i128::from(b)))?;
        }
        return Ok(());
    }
    let Some(call) = tree.made() else {
        return Ok(());
    };
    let mut places = Vec::new(alloc);
    push_places(&mut places, tree, call)?;
    for (which, disp) in places.as_slice() {
        if let Some(old) = tree.old(*which) {
            mark(alloc, old, at.wrapping_add(*disp), out)?;
        }
    }
    Ok(())
}

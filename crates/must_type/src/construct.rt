//! The calls that make derived types, with their numbers.

ghost use Rattle.std.specs.Prelude.{◌≡◌, IfOk};

use must_base::NoMemory;
use must_call::{DimList, DispList, HdispList, HindexList, IndexList, Items};
use std::alloc::Global;

/// The number that names a type in its table.
#[derive(Clone, Copy, Debug, PartialEq, Eq)]
pub struct TypeNo {
    pub number: u32,
}

/// A block of a `Struct`: its length, its displacement in bytes, and its type.
#[derive(Clone, Copy, Debug, PartialEq, Eq)]
pub struct StructItem {
    pub block: i32,
    pub disp: i64,
    pub old: TypeNo,
}

/// The blocks of a `Struct`.
pub type StructList = Items<StructItem>;

/// The call that makes a derived type (MPI 3.1, 4.1.2, 4.1.3, 4.1.7 and 4.1.10), with its numbers. `block` is the length
/// of each block, in elements of the old type. Displacements of type `i32` count extents of the old type, those of type
/// `i64` bytes.
#[derive(Drop)]
pub enum Construct {
    Contiguous {
        count: i32,
        old: TypeNo,
    },
    /// `count` blocks, `stride` extents of the old type apart.
    Vector {
        count: i32,
        block: i32,
        stride: i32,
        old: TypeNo,
    },
    /// `count` blocks, `stride` bytes apart.
    Hvector {
        count: i32,
        block: i32,
        stride: i64,
        old: TypeNo,
    },
    Indexed {
        blocks: IndexList,
        old: TypeNo,
    },
    Hindexed {
        blocks: HindexList,
        old: TypeNo,
    },
    IndexedBlock {
        block: i32,
        disps: DispList,
        old: TypeNo,
    },
    HindexedBlock {
        block: i32,
        disps: HdispList,
        old: TypeNo,
    },
    Struct {
        blocks: StructList,
    },
    Dup {
        old: TypeNo,
    },
    /// The bounds are `lb` and `lb + extent`, in bytes.
    Resized {
        lb: i64,
        extent: i64,
        old: TypeNo,
    },
    /// A part of an array. `order` is 0 where the last dimension is the fastest (C), 1 where the first is (Fortran).
    Subarray {
        order: u8,
        dims: DimList,
        old: TypeNo,
    },
}

impl Construct {
    /// The same call once more. Takes memory for its lists.
    pub fn copy(&self, alloc: Global) -> Result<Construct, NoMemory>
        ensures { IfOk result (λ copy. copy ≡ self.now) }
    {
        Ok(match self {
            Construct::Contiguous { count, old } => Construct::Contiguous {
                count: *count,
                old: *old,
            },
            Construct::Vector {
                count,
                block,
                stride,
                old,
            } => Construct::Vector {
                count: *count,
                block: *block,
                stride: *stride,
                old: *old,
            },
            Construct::Hvector {
                count,
                block,
                stride,
                old,
            } => Construct::Hvector {
                count: *count,
                block: *block,
                stride: *stride,
                old: *old,
            },
            Construct::Indexed { blocks, old } => Construct::Indexed {
                blocks: copied(alloc, blocks)?,
                old: *old,
            },
            Construct::Hindexed { blocks, old } => Construct::Hindexed {
                blocks: copied(alloc, blocks)?,
                old: *old,
            },
            Construct::IndexedBlock { block, disps, old } => Construct::IndexedBlock {
                block: *block,
                disps: copied(alloc, disps)?,
                old: *old,
            },
            Construct::HindexedBlock { block, disps, old } => Construct::HindexedBlock {
                block: *block,
                disps: copied(alloc, disps)?,
                old: *old,
            },
            Construct::Struct { blocks } => Construct::Struct {
                blocks: copied(alloc, blocks)?,
            },
            Construct::Dup { old } => Construct::Dup { old: *old },
            Construct::Resized { lb, extent, old } => Construct::Resized {
                lb: *lb,
                extent: *extent,
                old: *old,
            },
            Construct::Subarray { order, dims, old } => Construct::Subarray {
                order: *order,
                dims: copied(alloc, dims)?,
                old: *old,
            },
        })
    }
}

/// The same list once more. Takes memory for its items.
pub(crate) fn copied<T: Copy>(alloc: Global, list: &Items<T>) -> Result<Items<T>, NoMemory>
    ensures { IfOk result (λ copy. copy ≡ list.now) }
{
    let items = Vec::from_slice(alloc, list.items())?;
    Ok(Items::from_vec(items))
}

//! Constructors of derived datatypes, commit and free (MPI 3.1 section 4.1).

ghost use Rattle.std.specs.Prelude.{◌≡◌};
ghost use Rattle.std.specs.Option.{option_map};
ghost use Rattle.must_call.specs.declared.body.Body.TheVariants as body;
ghost use Rattle.must_call.specs.Kinds.{kind_of};
ghost use Rattle.must_call.specs.Bodies.{inputs_of, given_of};
ghost use Rattle.must_call.specs.Arguments.{all_seen, output_seen};

use crate::argument::{Argument, Arguments, Given, given_made, listed};
use crate::class::Class;
use crate::field::{Aint, Handle, Int, Ints};
use crate::kind::Kind;
use crate::lists::{DimList, DispList, HdispList, HindexList, IndexList, StructBlockList};

/// A call on datatypes. Displacements of type `i32` count extents of the old type, those of type `i64` bytes.
#[derive(Drop)]
pub enum Derive {
    /// `MPI_Type_contiguous`.
    TypeContiguous {
        count: i32,
        old: u32,
        made: Option<u32>,
    },
    /// `MPI_Type_vector`.
    TypeVector {
        count: i32,
        block: i32,
        stride: i32,
        old: u32,
        made: Option<u32>,
    },
    /// `MPI_Type_create_hvector`.
    TypeHvector {
        count: i32,
        block: i32,
        stride: i64,
        old: u32,
        made: Option<u32>,
    },
    /// `MPI_Type_indexed`.
    TypeIndexed {
        blocks: IndexList,
        old: u32,
        made: Option<u32>,
    },
    /// `MPI_Type_create_hindexed`.
    TypeHindexed {
        blocks: HindexList,
        old: u32,
        made: Option<u32>,
    },
    /// `MPI_Type_create_indexed_block`.
    TypeIndexedBlock {
        block: i32,
        disps: DispList,
        old: u32,
        made: Option<u32>,
    },
    /// `MPI_Type_create_hindexed_block`.
    TypeHindexedBlock {
        block: i32,
        disps: HdispList,
        old: u32,
        made: Option<u32>,
    },
    /// `MPI_Type_create_struct`.
    TypeStruct {
        blocks: StructBlockList,
        made: Option<u32>,
    },
    /// `MPI_Type_dup`.
    TypeDup {
        old: u32,
        made: Option<u32>,
    },
    /// `MPI_Type_create_resized`.
    TypeResized {
        lb: i64,
        extent: i64,
        old: u32,
        made: Option<u32>,
    },
    /// `MPI_Type_create_subarray`. The order is 0 as in C and 1 as in Fortran.
    TypeSubarray {
        order: u8,
        dims: DimList,
        old: u32,
        made: Option<u32>,
    },
    /// `MPI_Type_commit`.
    TypeCommit {
        dtype: u32,
    },
    /// `MPI_Type_free`.
    TypeFree {
        dtype: u32,
    },
}

impl Derive {
    /// The kind of the call.
    pub fn kind(&self) -> Kind
        ensures { result ≡ kind_of (body.Derive self.now) }
    {
        match self {
            Derive::TypeContiguous { .. } => Kind::TypeContiguous,
            Derive::TypeVector { .. } => Kind::TypeVector,
            Derive::TypeHvector { .. } => Kind::TypeHvector,
            Derive::TypeIndexed { .. } => Kind::TypeIndexed,
            Derive::TypeHindexed { .. } => Kind::TypeHindexed,
            Derive::TypeIndexedBlock { .. } => Kind::TypeIndexedBlock,
            Derive::TypeHindexedBlock { .. } => Kind::TypeHindexedBlock,
            Derive::TypeStruct { .. } => Kind::TypeStruct,
            Derive::TypeDup { .. } => Kind::TypeDup,
            Derive::TypeResized { .. } => Kind::TypeResized,
            Derive::TypeSubarray { .. } => Kind::TypeSubarray,
            Derive::TypeCommit { .. } => Kind::TypeCommit,
            Derive::TypeFree { .. } => Kind::TypeFree,
        }
    }

    /// The fields that stand in each record of the kind.
    pub fn inputs(&self) -> Arguments<'_>
        ensures { all_seen result.items ≡ inputs_of (body.Derive self.now) }
    {
        match self {
            Derive::TypeContiguous { count, old, .. } => listed(&[
                Argument::I32(Int::Copies, *count),
                Argument::Handle(Handle::Old, *old),
            ]),
            Derive::TypeVector {
                count,
                block,
                stride,
                old,
                ..
            } => listed(&[
                Argument::I32(Int::Copies, *count),
                Argument::I32(Int::Block, *block),
                Argument::I32(Int::Stride, *stride),
                Argument::Handle(Handle::Old, *old),
            ]),
            Derive::TypeHvector {
                count,
                block,
                stride,
                old,
                ..
            } => listed(&[
                Argument::I32(Int::Copies, *count),
                Argument::I32(Int::Block, *block),
                Argument::I64(Aint::Stride, *stride),
                Argument::Handle(Handle::Old, *old),
            ]),
            Derive::TypeIndexed { blocks, old, .. } => listed(&[
                Argument::Blocks(blocks),
                Argument::Handle(Handle::Old, *old),
            ]),
            Derive::TypeHindexed { blocks, old, .. } => listed(&[
                Argument::ByteBlocks(blocks),
                Argument::Handle(Handle::Old, *old),
            ]),
            Derive::TypeIndexedBlock {
                block,
                disps,
                old,
                ..
            } => listed(&[
                Argument::I32(Int::Block, *block),
                Argument::Ints(Ints::Displacements, disps),
                Argument::Handle(Handle::Old, *old),
            ]),
            Derive::TypeHindexedBlock {
                block,
                disps,
                old,
                ..
            } => listed(&[
                Argument::I32(Int::Block, *block),
                Argument::Aints(disps),
                Argument::Handle(Handle::Old, *old),
            ]),
            Derive::TypeStruct { blocks, .. } => listed(&[Argument::StructBlocks(blocks)]),
            Derive::TypeDup { old, .. } => listed(&[Argument::Handle(Handle::Old, *old)]),
            Derive::TypeResized {
                lb,
                extent,
                old,
                ..
            } => listed(&[
                Argument::I64(Aint::LowerBound, *lb),
                Argument::I64(Aint::Extent, *extent),
                Argument::Handle(Handle::Old, *old),
            ]),
            Derive::TypeSubarray {
                order,
                dims,
                old,
                ..
            } => listed(&[
                Argument::Order(*order),
                Argument::Dims(dims),
                Argument::Handle(Handle::Old, *old),
            ]),
            Derive::TypeCommit { dtype } | Derive::TypeFree { dtype } => listed(&[Argument::Handle(
                Handle::Subject,
                *dtype,
            )]),
        }
    }

    /// The outputs, where they stand.
    pub fn given(&self) -> Option<Given<'_>>
        ensures { option_map output_seen result ≡ given_of (body.Derive self.now) }
    {
        match self {
            Derive::TypeContiguous { made, .. }
            | Derive::TypeVector { made, .. }
            | Derive::TypeHvector { made, .. }
            | Derive::TypeIndexed { made, .. }
            | Derive::TypeHindexed { made, .. }
            | Derive::TypeIndexedBlock { made, .. }
            | Derive::TypeHindexedBlock { made, .. }
            | Derive::TypeStruct { made, .. } => given_made(Class::Datatype, made),
            Derive::TypeDup { made, .. }
            | Derive::TypeResized { made, .. }
            | Derive::TypeSubarray { made, .. } => given_made(Class::Datatype, made),
            Derive::TypeCommit { .. } | Derive::TypeFree { .. } => None,
        }
    }
}

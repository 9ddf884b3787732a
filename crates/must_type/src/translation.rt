//! From recorded calls on datatypes to the calls of this crate.

ghost use Rattle.std.specs.Prelude.{◌≡◌, ℕ, IfOk, Option, Some, None, MatchOption};
ghost use Rattle.must_type.specs.declared.construct.TypeNo.{TypeNo};
ghost use Rattle.must_type.specs.Translation.{construct_of, items_of, IsWithoutBlocks};

use crate::construct::{Construct, StructItem, TypeNo, copied};
use must_base::NoMemory;
use must_call::{Derive, Items, StructBlock};
use std::alloc::Global;

/// What knows which handles of datatypes stand for types of a table.
pub trait TypeHandles {
    /// The type that a handle stands for, if it stands for one.
    ghost types: { Self → ℕ → Option TypeNo };

    /// The type that the handle stands for, if it stands for one.
    fn type_of(&self, handle: u32) -> Option<TypeNo>
        ensures { result ≡ types self.now handle };
}

/// The blocks with the types that their handles stand for; none where some handle stands for none.
fn items_of<H: TypeHandles>(
    alloc: Global,
    handles: &H,
    blocks: &[StructBlock],
) -> Result<Option<Items<StructItem>>, NoMemory>
    ensures { IfOk result (λ items. items ≡ items_of (H.types handles.now) blocks.now) }
{
    let mut items = Vec::new(alloc);
    for block in blocks {
        let Some(old) = handles.type_of(block.old) else {
            return Ok(None);
        };
        items.push(StructItem {
            block: block.block,
            disp: block.disp,
            old,
        })?;
    }
    Ok(Some(Items::from_vec(items)))
}

/// The old handle of a call that has one.
fn old_handle(call: &Derive) -> Option<u32>
    ensures { IsWithoutBlocks call.now → (types : ℕ → Option TypeNo) → MatchOption result (construct_of types call.now ≡ None) (λ handle. construct_of types call.now ≡ construct_of (λ _. types handle) call.now) }
{
    match call {
        Derive::TypeContiguous { old, .. }
        | Derive::TypeVector { old, .. }
        | Derive::TypeHvector { old, .. }
        | Derive::TypeIndexed { old, .. }
        | Derive::TypeHindexed { old, .. }
        | Derive::TypeIndexedBlock { old, .. }
        | Derive::TypeHindexedBlock { old, .. }
        | Derive::TypeDup { old, .. }
        | Derive::TypeResized { old, .. }
        | Derive::TypeSubarray { old, .. } => Some(*old),
        Derive::TypeStruct { .. } | Derive::TypeCommit { .. } | Derive::TypeFree { .. } => None,
    }
}

/// What the call makes of its one old type.
fn with_old(alloc: Global, call: &Derive, old: TypeNo) -> Result<Option<Construct>, NoMemory>
    ensures { IsWithoutBlocks call.now → IfOk result (λ made. made ≡ construct_of (λ _. Some old) call.now) }
{
    Ok(Some(match call {
        Derive::TypeContiguous { count, .. } => Construct::Contiguous { count: *count, old },
        Derive::TypeVector {
            count,
            block,
            stride,
            ..
        } => Construct::Vector {
            count: *count,
            block: *block,
            stride: *stride,
            old,
        },
        Derive::TypeHvector {
            count,
            block,
            stride,
            ..
        } => Construct::Hvector {
            count: *count,
            block: *block,
            stride: *stride,
            old,
        },
        Derive::TypeIndexed { blocks, .. } => Construct::Indexed {
            blocks: copied(alloc, blocks)?,
            old,
        },
        Derive::TypeHindexed { blocks, .. } => Construct::Hindexed {
            blocks: copied(alloc, blocks)?,
            old,
        },
        Derive::TypeIndexedBlock { block, disps, .. } => Construct::IndexedBlock {
            block: *block,
            disps: copied(alloc, disps)?,
            old,
        },
        Derive::TypeHindexedBlock { block, disps, .. } => Construct::HindexedBlock {
            block: *block,
            disps: copied(alloc, disps)?,
            old,
        },
        Derive::TypeDup { .. } => Construct::Dup { old },
        Derive::TypeResized { lb, extent, .. } => Construct::Resized {
            lb: *lb,
            extent: *extent,
            old,
        },
        Derive::TypeSubarray { order, dims, .. } => Construct::Subarray {
            order: *order,
            dims: copied(alloc, dims)?,
            old,
        },
        Derive::TypeStruct { .. } | Derive::TypeCommit { .. } | Derive::TypeFree { .. } => {
            return Ok(None);
        }
    }))
}

/// The call that makes the type that a recorded call asks for: its numbers, and the types that its handles stand for.
/// None where an old handle stands for no type, and for a commit or a free.
///
/// Takes memory for the lists of the call once more, since a `Construct` owns its lists, and time for them and for one
/// question a handle.
pub fn construct_of<H: TypeHandles>(
    alloc: Global,
    handles: &H,
    call: &Derive,
) -> Result<Option<Construct>, NoMemory>
    ensures { IfOk result (λ made. made ≡ construct_of (H.types handles.now) call.now) }
{
    if let Derive::TypeStruct { blocks, .. } = call {
        let Some(blocks) = items_of(alloc, handles, blocks.items())? else {
            return Ok(None);
        };
        return Ok(Some(Construct::Struct { blocks }));
    }
    let Some(old) = old_handle(call) else {
        return Ok(None);
    };
    let Some(old) = handles.type_of(old) else {
        return Ok(None);
    };
    with_old(alloc, call, old)
}

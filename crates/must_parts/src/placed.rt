//! Parts that are laid out.

ghost use Rattle.std.specs.Prelude.{◌≡◌, List, IfOk, OnOk};
ghost use Rattle.std.specs.Option.{option_map};
ghost use Rattle.must_rules.specs.Parts.{Part, numbered};
ghost use Rattle.must_parts.specs.Telling.{IsTold, AreTold};
ghost use Rattle.must_parts.specs.Placing.{IsPlaced, IsPlacedOf, ArePlaced};

use crate::lay::{Laid, lay_blocks};
use crate::told::Told;
use crate::weigh::part_weight;
use must_base::NoMemory;
use must_pending::Access;
use must_type::TypeTable;
use std::alloc::Global;

/// A part with its addresses.
#[derive(Drop)]
pub struct Placed {
    pub number: u32,
    pub access: Access,
    /// That of its blocks (docs/TYPES.md).
    pub weight: u64,
    pub laid: Laid,
}

/// Lays a part out.
fn place(alloc: Global, table: &TypeTable, told: &Told) -> Result<Placed, NoMemory>
    ensures { IfOk result (λ placed. (part : Part) → IsTold table.now.slots told.now part → IsPlaced placed part) }
{
    let Ok(weight) = u64::try_from(part_weight(table, told)?) else {
        return Err(NoMemory);
    };
    let laid = lay_blocks(alloc, table, told.dtype, told.blocks.as_slice())?;
    Ok(Placed {
        number: told.number,
        access: told.access,
        weight,
        laid,
    })
}

/// Lays parts out, which takes time and memory for their weights.
pub fn place_parts(
    alloc: Global,
    table: &TypeTable,
    parts: &[Told],
) -> Result<Vec<Placed>, NoMemory>
    ensures { IfOk result (λ placed. (ps : List Part) → AreTold table.now.slots parts.now ps → ArePlaced placed.items ps) }
{
    let mut placed = Vec::new(alloc);
    for told in parts {
        placed.push(place(alloc, table, told)?)?;
    }
    Ok(placed)
}

/// The part with this number.
pub fn numbered(parts: &[Placed], number: u32) -> Option<&Placed>
    ensures { (ps : List Part) → ArePlaced parts.now ps → IsPlacedOf (option_map (λ p. p.now) result) (numbered number ps) }
{
    for part in parts {
        if part.number == number {
            return Some(part);
        }
    }
    None
}

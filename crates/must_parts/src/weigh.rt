//! The weights of parts (docs/TYPES.md), which need no layout.

ghost use Rattle.std.specs.Prelude.{◌≡◌, List, sum_by, IfOk};
ghost use Rattle.must_rules.specs.Parts.{Part, part_weight};
ghost use Rattle.must_parts.specs.Telling.{IsTold, AreTold};

use crate::told::Told;
use must_base::NoMemory;
use must_type::TypeTable;

/// The weight of a part. Its datatype is in the table, and the weight is far below 2^128.
pub(crate) fn part_weight(table: &TypeTable, told: &Told) -> Result<u128, NoMemory>
    ensures { IfOk result (λ weight. (part : Part) → IsTold table.now.slots told.now part → weight ≡ part_weight part) }
{
    if !table.is_live(told.dtype) {
        return Err(NoMemory);
    }
    let mut weight: u128 = 0;
    for block in told.blocks.as_slice() {
        let Some(more) = weight.checked_add(table.weight(told.dtype, block.count)) else {
            return Err(NoMemory);
        };
        weight = more;
    }
    Ok(weight)
}

/// The sum of the weights of some parts.
pub fn weight_of(table: &TypeTable, parts: &[Told]) -> Result<u128, NoMemory>
    ensures { IfOk result (λ weight. (ps : List Part) → AreTold table.now.slots parts.now ps → weight ≡ sum_by part_weight ps) }
{
    let mut sum: u128 = 0;
    for told in parts {
        let Some(more) = sum.checked_add(part_weight(table, told)?) else {
            return Err(NoMemory);
        };
        sum = more;
    }
    Ok(sum)
}

//! Operations that a call begins.

ghost use Rattle.std.specs.Prelude.{◌≡◌, ◌++◌, ◌∷◌, [], List, map, OnOk};
ghost use Rattle.must_rules.specs.Parts.{Part};
ghost use Rattle.must_rules.specs.PendingOperations.{Operation, operation};
ghost use Rattle.must_parts.specs.Placing.{IsPlaced, ArePlaced};
ghost use Rattle.must_parts.specs.Holding.{AreHeld};

use crate::placed::Placed;
use must_base::NoMemory;
use must_pending::Pending;

/// Begins an operation of a call, for a request, with this part. The weights that are held are far below 2^64.
pub(crate) fn begin(
    pending: &mut Pending,
    call: u32,
    request: u32,
    part: Placed,
) -> Result<(), NoMemory>
    ensures { OnOk result ((ops : List Operation) (p : Part) → AreHeld pending.old ops → IsPlaced part p → AreHeld pending.new (ops ++ operation call request p ∷ [])) }
{
    if pending.weight().checked_add(part.weight).is_none() {
        return Err(NoMemory);
    }
    pending.start(call, request, part.access, part.laid.spans, part.weight)?;
    Ok(())
}

/// Begins an operation with each of these parts, in order.
pub fn begin_all(
    pending: &mut Pending,
    call: u32,
    request: u32,
    parts: Vec<Placed>,
) -> Result<(), NoMemory>
    ensures { OnOk result ((ops : List Operation) (ps : List Part) → AreHeld pending.old ops → ArePlaced parts.items ps → AreHeld pending.new (ops ++ map (operation call request) ps)) }
{
    let mut parts = parts;
    let Some(last) = parts.pop() else {
        return Ok(());
    };
    begin_all(pending, call, request, parts)?;
    begin(pending, call, request, last)?;
    Ok(())
}

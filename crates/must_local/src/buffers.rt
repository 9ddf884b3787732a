//! The buffers of a call beside those of operations that are pending.

ghost use Rattle.std.specs.Prelude.{◌≡◌, ◌++◌, ◌∷◌, [], List, Option, length, None, IfErr, OnOk};
ghost use Rattle.must_call.specs.declared.call.Call.{Call};
ghost use Rattle.must_find.specs.Adds.{Adds};
ghost use Rattle.must_rules.specs.Rank.{Rank};
ghost use Rattle.must_rules.specs.Clear.{is_clear};
ghost use Rattle.must_rules.specs.UsableParts.{usable_parts};
ghost use Rattle.must_rules.specs.PendingOperations.{pending_limit_at};
ghost use Rattle.must_format.specs.declared.cause.Limit.{Limit};
ghost use Rattle.must_rules.specs.Limits.{or_limit, limit_at};
ghost use Rattle.must_parts.specs.Rows.{BufferRows, IsPendingLimit};
ghost use Rattle.must_parts.specs.Standing.{Stands};
ghost use Rattle.must_local.specs.HandlesKnown.{facts_in, sound_in, HandlesStand, IsLimitAt};

use crate::fault::WalkFault;
use crate::handles::Handles;
use must_args::Usable;
use must_call::{Call, Place};
use must_find::Findings;
use must_format::Limit;
use must_parts::{Buffers, BuffersFault};
use std::alloc::Global;

/// The fault of a walk, by that of the buffers of its call.
fn fault_at(call: u32, fault: BuffersFault) -> WalkFault
    ensures { (pending other : Option Limit) → IsPendingLimit pending fault → IsLimitAt call (or_limit pending other) result }
{
    match fault {
        BuffersFault::TooWide => WalkFault::TooWide {
            call,
            limit: Limit::PendingWeight,
        },
        BuffersFault::NoMemory => WalkFault::NoMemory,
    }
}

/// Adds the rows of the buffers of the next call, and ends and begins operations. `usable` is what its arguments leave for other
/// rules, and `size` is the number of ranks.
pub(crate) fn take_buffers(
    buffers: &mut Buffers,
    alloc: Global,
    handles: &Handles,
    at: Place,
    size: u32,
    call: &Call,
    usable: &Usable,
    rows: &mut Findings,
) -> Result<(), WalkFault>
    requires clear { usable.now.clear ≡ is_clear (facts_in handles.now) call.now.body }
    requires parts { usable.now.parts ≡ usable_parts (facts_in handles.now) (sound_in handles.now) call.now.body }
    ensures rows { OnOk result ((r : Rank) (calls : List Call) → r.rank ≡ at.rank → length calls ≡ at.call → HandlesStand r handles.now calls → Stands r calls buffers.old → Adds rows.old rows.new (BufferRows at r calls call.now)) }
    ensures stands { OnOk result ((r : Rank) (calls : List Call) → length calls ≡ at.call → HandlesStand r handles.now calls → Stands r calls buffers.old → Stands r (calls ++ call.now ∷ []) buffers.new) }
    ensures within { OnOk result ((r : Rank) (calls : List Call) → r.size ≡ size → length calls ≡ at.call → HandlesStand r handles.now calls → Stands r calls buffers.old → pending_limit_at r calls call.now ≡ None) }
    ensures over { IfErr result (λ fault. (r : Rank) (calls : List Call) → r.size ≡ size → length calls ≡ at.call → HandlesStand r handles.now calls → Stands r calls buffers.old → IsLimitAt at.call (limit_at r calls call.now) fault) }
{
    match buffers.take(alloc, handles, &handles.types, at, size, call, usable, rows) {
        Ok(()) => Ok(()),
        Err(fault) => Err(fault_at(at.call, fault)),
    }
}

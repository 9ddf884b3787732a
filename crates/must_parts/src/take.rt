//! The buffers of a call beside those of the operations that are pending.

ghost use Rattle.std.specs.Prelude.{◌≡◌, ◌/◌, ◌+◌, ◌++◌, ◌∷◌, [], ◌≤◌, ◌^◌, ℕ, true, false, nat_lt, List, length, None, IfOk, IfErr, OnOk};
ghost use Rattle.must_call.specs.declared.call.Call.{Call};
ghost use Rattle.must_find.specs.Adds.{Adds};
ghost use Rattle.must_rules.specs.Rank.{Rank};
ghost use Rattle.must_rules.specs.Making.{is_persistent_kind, made_by};
ghost use Rattle.must_rules.specs.UsableParts.{usable_parts};
ghost use Rattle.must_rules.specs.Starts.{is_start_kind};
ghost use Rattle.must_rules.specs.Parts.{Part};
ghost use Rattle.must_rules.specs.PendingOperations.{Operation, pending as pending_behind, parts_behind, begun_with, request_in, most_pending, pending_limit_at};
ghost use Rattle.must_parts.specs.Placing.{ArePlaced};
ghost use Rattle.must_parts.specs.Holding.{AreHeld};
ghost use Rattle.must_parts.specs.Telling.{Sees};
ghost use Rattle.must_parts.specs.Rows.{BufferRows, IsPendingLimit};

use crate::begin::begin_all;
use crate::clashes::add_clashes;
use crate::fault::BuffersFault;
use crate::finish::finish_call;
use crate::overlaps::add_overlaps;
use crate::placed::{Placed, place_parts};
use crate::told::told_parts;
use crate::weigh::weight_of;
use must_args::View;
use must_base::NoMemory;
use must_call::{Call, Class, Place};
use must_derived::Datatypes;
use must_find::Findings;
use must_handle::made;
use must_pending::Pending;
use std::alloc::Global;

/// The greatest sum of the weights of what is pending in a whole run.
const MOST_PENDING: u128 = 0x400_0000;

/// The greatest sum of weights at a rank of a run of so many.
fn most_pending(size: u32) -> u128
    ensures { result ≡ most_pending size }
{
    if size == 0 {
        0
    } else {
        MOST_PENDING / u128::from(size)
    }
}

/// Whether these weights are too great together at a rank of a run of so many.
pub(crate) fn is_too_wide(size: u32, held: u64, own: u128) -> Result<bool, NoMemory>
    ensures { IfOk result (λ wide. wide ≡ nat_lt (most_pending size) (held + own)) }
{
    let Some(sum) = own.checked_add(u128::from(held)) else {
        return Err(NoMemory);
    };
    Ok(most_pending(size) < sum)
}

/// Begins the operations of a call that makes this handle, if it is a request.
fn begin_made(
    pending: &mut Pending,
    call: u32,
    handle: Option<(Class, u32)>,
    parts: Vec<Placed>,
) -> Result<(), NoMemory>
    ensures { OnOk result ((ops : List Operation) (ps : List Part) → AreHeld pending.old ops → ArePlaced parts.items ps → AreHeld pending.new (ops ++ begun_with call (request_in handle) ps)) }
{
    match handle {
        Some((Class::Request, request)) => begin_all(pending, call, request, parts),
        _ => Ok(()),
    }
}

/// Takes a call of any kind but those of persistent requests: adds its rows of T1, T2 and T3, and then ends and begins
/// operations. `usable` has a bit for each usable part, as `check_args` answers it, and `size` is the number of ranks. `TooWide`
/// comes exactly where the call reaches the limit of the weights that are pending, before anything is laid out; the operations
/// aren't to be used any more then.
pub fn take_plain<V: View>(
    pending: &mut Pending,
    alloc: Global,
    view: &V,
    types: &Datatypes,
    at: Place,
    size: u32,
    call: &Call,
    usable: u8,
    rows: &mut Findings,
) -> Result<(), BuffersFault>
    requires usable { usable ≡ usable_parts (V.facts view.now) (V.sound view.now) call.now.body }
    requires plain { is_persistent_kind call.now.body ≡ false }
    ensures rows { OnOk result ((r : Rank) (calls : List Call) → r.rank ≡ at.rank → length calls ≡ at.call → Sees r calls (V.facts view.now) (V.sound view.now) (V.starts view.now) types.now → AreHeld pending.old (pending_behind r calls) → Adds rows.old rows.new (BufferRows at r calls call.now)) }
    ensures stands { OnOk result ((r : Rank) (calls : List Call) → length calls ≡ at.call → Sees r calls (V.facts view.now) (V.sound view.now) (V.starts view.now) types.now → AreHeld pending.old (pending_behind r calls) → AreHeld pending.new (pending_behind r (calls ++ call.now ∷ []))) }
    ensures within { OnOk result ((r : Rank) (calls : List Call) → r.size ≡ size → Sees r calls (V.facts view.now) (V.sound view.now) (V.starts view.now) types.now → AreHeld pending.old (pending_behind r calls) → pending_limit_at r calls call.now ≡ None) }
    ensures over { IfErr result (λ fault. (r : Rank) (calls : List Call) → r.size ≡ size → Sees r calls (V.facts view.now) (V.sound view.now) (V.starts view.now) types.now → AreHeld pending.old (pending_behind r calls) → IsPendingLimit (pending_limit_at r calls call.now) fault) }
{
    let told = told_parts(alloc, view, types, call, usable)?;
    let weight = weight_of(types.table(), told.as_slice())?;
    if is_too_wide(size, pending.weight(), weight)? {
        return Err(BuffersFault::TooWide);
    }
    let placed = place_parts(alloc, types.table(), told.as_slice())?;
    add_overlaps(rows, at, placed.as_slice())?;
    add_clashes(rows, at, pending, placed.as_slice())?;
    finish_call(pending, call);
    begin_made(pending, at.call, made(call), placed)?;
    Ok(())
}

/// Takes a call that makes a persistent request, and answers its parts, for when the request is started: adds its rows of T1.
/// It begins nothing. The rest is as in [`take_plain`].
pub fn take_init<V: View>(
    pending: &mut Pending,
    alloc: Global,
    view: &V,
    types: &Datatypes,
    at: Place,
    size: u32,
    call: &Call,
    usable: u8,
    rows: &mut Findings,
) -> Result<Vec<Placed>, BuffersFault>
    requires usable { usable ≡ usable_parts (V.facts view.now) (V.sound view.now) call.now.body }
    requires init { (is_persistent_kind call.now.body ≡ true) × (is_start_kind call.now.body ≡ false) }
    ensures rows { OnOk result ((r : Rank) (calls : List Call) → r.rank ≡ at.rank → length calls ≡ at.call → Sees r calls (V.facts view.now) (V.sound view.now) (V.starts view.now) types.now → Adds rows.old rows.new (BufferRows at r calls call.now)) }
    ensures stands { OnOk result ((r : Rank) (calls : List Call) → AreHeld pending.old (pending_behind r calls) → AreHeld pending.new (pending_behind r (calls ++ call.now ∷ []))) }
    ensures parts { IfOk result (λ parts. (r : Rank) (calls : List Call) → Sees r calls (V.facts view.now) (V.sound view.now) (V.starts view.now) types.now → ArePlaced parts.items (parts_behind r calls call.now)) }
    ensures within { OnOk result ((r : Rank) (calls : List Call) → r.size ≡ size → Sees r calls (V.facts view.now) (V.sound view.now) (V.starts view.now) types.now → AreHeld pending.old (pending_behind r calls) → pending_limit_at r calls call.now ≡ None) }
    ensures over { IfErr result (λ fault. (r : Rank) (calls : List Call) → r.size ≡ size → Sees r calls (V.facts view.now) (V.sound view.now) (V.starts view.now) types.now → AreHeld pending.old (pending_behind r calls) → IsPendingLimit (pending_limit_at r calls call.now) fault) }
{
    let told = told_parts(alloc, view, types, call, usable)?;
    let weight = weight_of(types.table(), told.as_slice())?;
    if is_too_wide(size, pending.weight(), weight)? {
        return Err(BuffersFault::TooWide);
    }
    let placed = place_parts(alloc, types.table(), told.as_slice())?;
    add_overlaps(rows, at, placed.as_slice())?;
    finish_call(pending, call);
    Ok(placed)
}

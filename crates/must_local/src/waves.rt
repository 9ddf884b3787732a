//! What a call gives to the wave of a collective.

ghost use Rattle.std.specs.Prelude.{◌≡◌, List, length, Some, is_some, IfOk, IfSome};
ghost use Rattle.std.specs.Option.{option_to_list};
ghost use Rattle.must_call.specs.declared.call.Call.{Call};
ghost use Rattle.must_rules.specs.Rank.{Rank};
ghost use Rattle.must_rules.specs.Clear.{is_clear};
ghost use Rattle.must_rules.specs.Communicators.{comm_named, derived_of};
ghost use Rattle.must_items.specs.CollectiveItems.{IsCommute};
ghost use Rattle.must_items.specs.CollectiveLists.{stands_in_wave, IsGivenBy};
ghost use Rattle.must_local.specs.Counted.{counted};
ghost use Rattle.must_local.specs.Objects.{HasMembers, operation_in};
ghost use Rattle.must_local.specs.HandlesKnown.{facts_in, usable_comm, HandlesStand};

use crate::derived::{comm_named, is_collective};
use crate::handles::Handles;
use must_base::NoMemory;
use must_call::{Body, Call, Place};
use must_coll::WaveItem;
use must_items::{Communicator, collective_item, operation_named};
use std::alloc::Global;

/// Whether the operation of a call commutes, where a call made it.
fn commute_of(handles: &Handles, call: &Call) -> Option<bool>
    ensures { IsCommute (operation_in handles.now.objects) call.now.body result }
{
    match operation_named(call) {
        Some(op) => handles.commute(op),
        None => None,
    }
}

/// The communicator whose members all make this call, where it is live and sound.
fn wave_of<'a>(handles: &'a Handles, body: &Body) -> Option<Communicator<'a>>
    ensures there { is_some result ≡ stands_in_wave (facts_in handles.now) body.now }
    ensures told { IfSome result (λ on. (comm_named body.now ≡ Some on.comm) × (usable_comm handles.now on.comm ≡ Some (counted on.calls on.name.now))) }
{
    if !is_collective(body) {
        return None;
    }
    match comm_named(body) {
        Some(comm) => handles.communicator(comm),
        None => None,
    }
}

/// What a call gives to its wave, where it stands in one; `clear` says whether the call is.
pub fn wave_item(
    alloc: Global,
    handles: &Handles,
    at: Place,
    call: &Call,
    clear: bool,
) -> Result<Option<WaveItem>, NoMemory>
    requires clear { clear ≡ is_clear (facts_in handles.now) call.now.body }
    requires members { HasMembers (derived_of call.now.body) }
    ensures { (r : Rank) (calls : List Call) → HandlesStand r handles.now calls → at.rank ≡ handles.now.rank → at.call ≡ length calls → IfOk result (λ item. IsGivenBy r calls call.now (option_to_list item)) }
{
    match wave_of(handles, &call.body) {
        None => Ok(None),
        Some(on) => {
            let commute = commute_of(handles, call);
            let types = &handles.types;
            let item = collective_item(alloc, handles, types, on, at, call, clear, commute)?;
            Ok(Some(item))
        }
    }
}

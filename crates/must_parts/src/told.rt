//! The parts of a call, before their addresses are laid out.

ghost use Rattle.std.specs.Prelude.{◌≡◌, ◌||◌, ◌&&◌, ◌+◌, ◌++◌, ℕ, List, Some, if◌then◌else◌, nat_le, nat_eq, filter_map, IfOk, OnOk};
ghost use Rattle.std.specs.Option.{IsSome, option_to_list};
ghost use Rattle.must_call.specs.Arguments.{seen, all_seen};
ghost use Rattle.must_call.specs.Bodies.{inputs_of};
ghost use Rattle.must_call.specs.declared.body.Body.{Body};
ghost use Rattle.must_call.specs.declared.call.Call.{Call};
ghost use Rattle.must_call.specs.declared.field.Field.TheVariants as field;
ghost use Rattle.must_type.specs.Tree.{TypeTree};
ghost use Rattle.must_type.specs.Table.{tree_at};
ghost use Rattle.must_rules.specs.Rank.{Rank};
ghost use Rattle.must_rules.specs.Facts.{Facts, Comm};
ghost use Rattle.must_rules.specs.Significant.{is_receive};
ghost use Rattle.must_rules.specs.UsableParts.{usable_parts};
ghost use Rattle.must_rules.specs.Known.{facts_of, clear_behind};
ghost use Rattle.must_rules.specs.Types.{type_of, sound_type};
ghost use Rattle.must_derived.specs.Standing.{Stands};
ghost use Rattle.must_rules.specs.Parts.{part_at, part_told};
ghost use Rattle.must_rules.specs.PendingOperations.{parts_behind};
ghost use Rattle.must_parts.specs.Scopes.{seats_of, IsScope};
ghost use Rattle.must_parts.specs.Telling.{IsAlike, IsTold, IsToldOf, AreTold, Sees};

use crate::blocks::{Block, Layout, blocks_at};
use crate::roles::{is_receive, type_of};
use crate::scope::{Scope, Seats, access_of, is_for_each, scope_of};
use must_args::View;
use must_base::NoMemory;
use must_call::{Argument, Body, Call, Side};
use must_derived::Datatypes;
use must_pending::Access;
use must_type::{TypeNo, TypeTable};
use std::alloc::Global;

/// A buffer that a call reads or writes.
#[derive(Drop)]
pub struct Told {
    /// 0, or 1 for what is received where the call sends too.
    pub number: u32,
    pub access: Access,
    /// In the table of the rank's types.
    pub dtype: TypeNo,
    pub blocks: Vec<Block>,
}

/// Whether a part is among the usable ones: bit i says that part i is.
fn has_part(parts: u8, second: bool) -> bool
    ensures { result ≡ (if second then nat_le 2 parts else (nat_eq parts 1 || nat_eq parts 3)) }
{
    if second {
        2 <= parts
    } else {
        parts == 1 || parts == 3
    }
}

/// Whether what is received is a part of its own.
fn is_second(sends: bool, side: Side) -> bool
    ensures { result ≡ (sends && is_receive side) }
{
    sends && is_receive(side)
}

/// The number of a part.
fn number_of(second: bool) -> u32
    ensures { result ≡ (if second then 1 else 0) }
{
    if second { 1 } else { 0 }
}

/// The part of a side's buffer, by the call's communicator and the buffer's datatype. The datatype of a usable part is in the
/// table.
fn part_at(
    alloc: Global,
    table: &TypeTable,
    scope: Scope,
    seats: Seats,
    arguments: &[Argument<'_>],
    side: Side,
    address: u64,
    dtype: TypeNo,
) -> Result<Told, NoMemory>
    ensures live { IfOk result (λ told. IsSome (tree_at table.now.slots dtype.number)) }
    ensures told { IfOk result (λ told. (facts : Facts) (b : Body) (comm : Comm) (held t : TypeTree) → IsScope facts b scope → all_seen arguments.now ≡ inputs_of b → seats ≡ seats_of comm → tree_at table.now.slots dtype.number ≡ Some held → IsAlike held t → IsTold table.now.slots told (part_at facts b side address comm t)) }
{
    if !table.is_live(dtype) {
        return Err(NoMemory);
    }
    let layout = Layout {
        address,
        extent: table.bounds(dtype).extent,
        members: seats.members,
        position: seats.position,
        for_each: is_for_each(scope.kind, scope.in_place, side),
    };
    let blocks = blocks_at(alloc, &layout, side, arguments)?;
    Ok(Told {
        number: number_of(is_second(scope.sends, side)),
        access: access_of(scope.is_root, side),
        dtype,
        blocks,
    })
}

/// The part of a side's buffer, where it is usable.
fn told_buffer(
    alloc: Global,
    types: &Datatypes,
    usable: u8,
    scope: Scope,
    arguments: &[Argument<'_>],
    side: Side,
    address: u64,
) -> Result<Option<Told>, NoMemory>
    ensures { IfOk result (λ told. (r : Rank) (calls : List Call) (b : Body) → IsScope (facts_of r calls) b scope → all_seen arguments.now ≡ inputs_of b → usable ≡ usable_parts (facts_of r calls) (sound_type (clear_behind r) calls) b → Stands (clear_behind r) types.now calls → IsToldOf types.now.table.slots told (part_told (facts_of r calls) (type_of (clear_behind r) calls) b (field.Buffer side) address)) }
{
    if !has_part(usable, is_second(scope.sends, side)) {
        return Ok(None);
    }
    let Some(seats) = scope.seats else {
        return Ok(None);
    };
    let Some(handle) = type_of(arguments, side) else {
        return Ok(None);
    };
    let Some(dtype) = types.type_no(handle) else {
        return Ok(None);
    };
    let told = part_at(
        alloc,
        types.table(),
        scope,
        seats,
        arguments,
        side,
        address,
        dtype,
    )?;
    Ok(Some(told))
}

/// The part that a field tells, where it is a buffer with a usable part.
fn told_field(
    alloc: Global,
    types: &Datatypes,
    usable: u8,
    scope: Scope,
    arguments: &[Argument<'_>],
    argument: &Argument<'_>,
) -> Result<Option<Told>, NoMemory>
    ensures { IfOk result (λ told. (r : Rank) (calls : List Call) (b : Body) → IsScope (facts_of r calls) b scope → all_seen arguments.now ≡ inputs_of b → usable ≡ usable_parts (facts_of r calls) (sound_type (clear_behind r) calls) b → Stands (clear_behind r) types.now calls → IsToldOf types.now.table.slots told (part_told (facts_of r calls) (type_of (clear_behind r) calls) b (seen argument.now).0 (seen argument.now).1)) }
{
    match argument {
        Argument::Buffer(side, address) => {
            told_buffer(alloc, types, usable, scope, arguments, *side, *address)
        }
        _ => Ok(None),
    }
}

/// Puts a part behind the others, where there is one.
fn push_told(parts: &mut Vec<Told>, told: Option<Told>) -> Result<(), NoMemory>
    ensures { OnOk result (parts.new.items ≡ parts.old.items ++ option_to_list told) }
{
    if let Some(told) = told {
        parts.push(told)?;
    }
    Ok(())
}

/// The parts of a call with these fields.
fn told_fields(
    alloc: Global,
    types: &Datatypes,
    usable: u8,
    scope: Scope,
    arguments: &[Argument<'_>],
) -> Result<Vec<Told>, NoMemory>
    ensures { IfOk result (λ told. (r : Rank) (calls : List Call) (b : Body) → IsScope (facts_of r calls) b scope → all_seen arguments.now ≡ inputs_of b → usable ≡ usable_parts (facts_of r calls) (sound_type (clear_behind r) calls) b → Stands (clear_behind r) types.now calls → AreTold types.now.table.slots told.items (filter_map (λ t. part_told (facts_of r calls) (type_of (clear_behind r) calls) b t.0 t.1) (all_seen arguments.now))) }
{
    let mut parts = Vec::new(alloc);
    for argument in arguments {
        let told = told_field(alloc, types, usable, scope, arguments, argument)?;
        push_told(&mut parts, told)?;
    }
    Ok(parts)
}

/// The usable parts of a call, by what its rank knows at it; `usable` has a bit for each, as `check_args` answers it.
pub fn told_parts<V: View>(
    alloc: Global,
    view: &V,
    types: &Datatypes,
    call: &Call,
    usable: u8,
) -> Result<Vec<Told>, NoMemory>
    requires { usable ≡ usable_parts (V.facts view.now) (V.sound view.now) call.now.body }
    ensures { IfOk result (λ told. (r : Rank) (calls : List Call) → Sees r calls (V.facts view.now) (V.sound view.now) (V.starts view.now) types.now → AreTold types.now.table.slots told.items (parts_behind r calls call.now)) }
{
    if usable == 0 {
        return Ok(Vec::new(alloc));
    }
    let arguments = call.body.inputs();
    let scope = scope_of(view, &call.body, &arguments);
    let parts = told_fields(alloc, types, usable, scope, &arguments)?;
    Ok(parts)
}

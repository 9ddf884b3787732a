//! What the fields of a call say, asked by what they are for.

ghost use Rattle.std.specs.Prelude.{◌≡◌};
ghost use Rattle.must_call.specs.declared.field.Field.TheVariants as field;
ghost use Rattle.must_call.specs.declared.field.Handle.TheVariants as handle;
ghost use Rattle.must_call.specs.Arguments.{seen, all_seen};
ghost use Rattle.must_rules.specs.Significant.{first_told, comm_in, root_in, in_place_in, side, is_send, is_receive};
ghost use Rattle.must_rules.specs.Breaches.{sends};
ghost use Rattle.must_rules.specs.UsableParts.{serves, type_in};

use must_call::{Argument, Flag, Handle, Int, Side};

pub(crate) fn is_send(side: Side) -> bool
    ensures { result ≡ is_send side }
{
    matches!(side, Side::Send)
}

pub(crate) fn is_receive(side: Side) -> bool
    ensures { result ≡ is_receive side }
{
    matches!(side, Side::Receive)
}

/// A field of this side serves the other side too.
pub(crate) fn serves(side: Side, other: Side) -> bool
    ensures { result ≡ serves side other }
{
    match (side, other) {
        (Side::Both, _) | (Side::Send, Side::Send) | (Side::Receive, Side::Receive) => true,
        _ => false,
    }
}

/// The side of a transfer that a field speaks of.
fn side_of(argument: &Argument<'_>) -> Side
    ensures { result ≡ side (seen argument.now).0 }
{
    match argument {
        Argument::Buffer(side, _)
        | Argument::Handle(Handle::Datatype(side), _)
        | Argument::I32(Int::Count(side), _)
        | Argument::I32(Int::Tag(side), _)
        | Argument::Amounts(side, _) => *side,
        Argument::I32(Int::Dest, _) => Side::Send,
        Argument::I32(Int::Source, _) => Side::Receive,
        _ => Side::Both,
    }
}

fn comm_of(role: Handle, handle: u32) -> Option<u32>
    ensures { result ≡ comm_in (field.Handle role) handle }
{
    match role {
        Handle::Comm => Some(handle),
        Handle::Group
        | Handle::Datatype(_)
        | Handle::Old
        | Handle::Subject
        | Handle::Operation
        | Handle::Request => None,
    }
}

fn root_of(role: Int, value: &i32) -> Option<i32>
    ensures { result ≡ root_in (field.I32 role) value.now }
{
    match role {
        Int::Root => Some(*value),
        Int::Count(_)
        | Int::Copies
        | Int::Block
        | Int::Stride
        | Int::Dest
        | Int::Source
        | Int::Tag(_)
        | Int::Color
        | Int::Key => None,
    }
}

fn in_place_of(flag: Flag, bit: bool) -> Option<bool>
    ensures { result ≡ in_place_in (field.Bit flag) bit }
{
    match flag {
        Flag::InPlace => Some(bit),
        Flag::Commute => None,
    }
}

fn comm_told(argument: &Argument<'_>) -> Option<u32>
    ensures { result ≡ comm_in (seen argument.now).0 (seen argument.now).1 }
{
    match argument {
        Argument::Handle(role, handle) => comm_of(*role, *handle),
        _ => None,
    }
}

fn root_told(argument: &Argument<'_>) -> Option<i32>
    ensures { result ≡ root_in (seen argument.now).0 (seen argument.now).1 }
{
    match argument {
        Argument::I32(role, value) => root_of(*role, value),
        _ => None,
    }
}

fn in_place_told(argument: &Argument<'_>) -> Option<bool>
    ensures { result ≡ in_place_in (seen argument.now).0 (seen argument.now).1 }
{
    match argument {
        Argument::Bit(flag, bit) => in_place_of(*flag, *bit),
        _ => None,
    }
}

fn served_by(of: Side, side: Side, dtype: u32) -> Option<u32>
    ensures { result ≡ type_in side (field.Handle (handle.Datatype of)) dtype }
{
    if serves(of, side) { Some(dtype) } else { None }
}

fn type_with(role: Handle, side: Side, value: u32) -> Option<u32>
    ensures { result ≡ type_in side (field.Handle role) value }
{
    match role {
        Handle::Datatype(of) => served_by(of, side, value),
        Handle::Comm
        | Handle::Group
        | Handle::Old
        | Handle::Subject
        | Handle::Operation
        | Handle::Request => None,
    }
}

fn type_told(side: Side, argument: &Argument<'_>) -> Option<u32>
    ensures { result ≡ type_in side (seen argument.now).0 (seen argument.now).1 }
{
    match argument {
        Argument::Handle(role, value) => type_with(*role, side, *value),
        _ => None,
    }
}

/// The datatype of a side's buffer.
pub(crate) fn type_of(arguments: &[Argument<'_>], side: Side) -> Option<u32>
    ensures { result ≡ first_told (type_in side) (all_seen arguments.now) }
{
    for argument in arguments {
        if let Some(dtype) = type_told(side, argument) {
            return Some(dtype);
        }
    }
    None
}

/// The communicator that a call names.
pub(crate) fn comm_named(arguments: &[Argument<'_>]) -> Option<u32>
    ensures { result ≡ first_told comm_in (all_seen arguments.now) }
{
    for argument in arguments {
        if let Some(comm) = comm_told(argument) {
            return Some(comm);
        }
    }
    None
}

/// The root that a call names.
pub(crate) fn root_named(arguments: &[Argument<'_>]) -> Option<i32>
    ensures { result ≡ first_told root_in (all_seen arguments.now) }
{
    for argument in arguments {
        if let Some(root) = root_told(argument) {
            return Some(root);
        }
    }
    None
}

/// Whether a call says `MPI_IN_PLACE`; none where it can't.
pub(crate) fn in_place_said(arguments: &[Argument<'_>]) -> Option<bool>
    ensures { result ≡ first_told in_place_in (all_seen arguments.now) }
{
    for argument in arguments {
        if let Some(in_place) = in_place_told(argument) {
            return Some(in_place);
        }
    }
    None
}

/// Whether a call sends.
pub(crate) fn sends(arguments: &[Argument<'_>]) -> bool
    ensures { result ≡ sends (all_seen arguments.now) }
{
    for argument in arguments {
        if is_send(side_of(argument)) {
            return true;
        }
    }
    false
}

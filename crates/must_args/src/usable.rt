//! Which parts of a call are usable.

ghost use Rattle.std.specs.Prelude.{◌≡◌, ◌+◌, ◌||◌, ◌&&◌, Some, None, if◌then◌else◌};
ghost use Rattle.must_call.specs.declared.field.Field.TheVariants as field;
ghost use Rattle.must_call.specs.declared.field.Handle.TheVariants as handle;
ghost use Rattle.must_call.specs.Arguments.{seen, all_seen};
ghost use Rattle.must_call.specs.Bodies.{inputs_of};
ghost use Rattle.must_rules.specs.Significant.{first_told};
ghost use Rattle.must_rules.specs.Clear.{is_clear};
ghost use Rattle.must_rules.specs.UsableParts.{serves, type_in, peer_in, is_sound, is_proc_null, is_usable_side, usable_parts};
ghost use Rattle.must_args.specs.Settings.{IsSetting, usable_field, usable_from};

use crate::setting::{Setting, first_of, is_receive, is_send};
use crate::view::View;
use must_call::{Argument, Body, Handle, Int, PROC_NULL, Side};

/// What a call's arguments leave for other rules.
#[derive(Clone, Copy, Debug, PartialEq, Eq)]
pub struct Usable {
    /// The call breaks none of the rules A1 to A7 and H1 to H4.
    pub clear: bool,
    /// Bit i says that part i of the call is usable: the call is clear, the communicator is live and sound, the type is sound,
    /// and the peer isn't `MPI_PROC_NULL`.
    pub parts: u8,
}

/// A field of this side serves the other side too.
fn serves(side: Side, other: Side) -> bool
    ensures { result ≡ serves side other }
{
    match (side, other) {
        (Side::Both, _) | (Side::Send, Side::Send) | (Side::Receive, Side::Receive) => true,
        _ => false,
    }
}

fn served_by(of: Side, side: Side, dtype: u32) -> Option<u32>
    ensures { result ≡ type_in side (field.Handle (handle.Datatype of)) dtype }
{
    if serves(of, side) { Some(dtype) } else { None }
}

fn type_with(role: Handle, side: Side, value: u32) -> Option<u32>
    ensures { result ≡ type_in side (field.Handle role) value }
{
    match role {
        Handle::Datatype(of) => served_by(of, side, value),
        Handle::Comm
        | Handle::Group
        | Handle::Old
        | Handle::Subject
        | Handle::Operation
        | Handle::Request => None,
    }
}

fn type_told(side: Side, argument: &Argument<'_>) -> Option<u32>
    ensures { result ≡ type_in side (seen argument.now).0 (seen argument.now).1 }
{
    match argument {
        Argument::Handle(role, value) => type_with(*role, side, *value),
        _ => None,
    }
}

fn only_where(is_so: bool, value: &i32) -> Option<i32>
    ensures { result ≡ (if is_so then Some value.now else None) }
{
    if is_so { Some(*value) } else { None }
}

fn peer_with(role: Int, side: Side, value: &i32) -> Option<i32>
    ensures { result ≡ peer_in side (field.I32 role) value.now }
{
    match role {
        Int::Dest => only_where(is_send(side), value),
        Int::Source => only_where(is_receive(side), value),
        Int::Count(_)
        | Int::Copies
        | Int::Block
        | Int::Stride
        | Int::Tag(_)
        | Int::Root
        | Int::Color
        | Int::Key => None,
    }
}

fn peer_told(side: Side, argument: &Argument<'_>) -> Option<i32>
    ensures { result ≡ peer_in side (seen argument.now).0 (seen argument.now).1 }
{
    match argument {
        Argument::I32(role, value) => peer_with(*role, side, value),
        _ => None,
    }
}

/// The datatype of a side's buffer.
fn type_of(arguments: &[Argument<'_>], side: Side) -> Option<u32>
    ensures { result ≡ first_told (type_in side) (all_seen arguments.now) }
{
    let mut dtype = None;
    for argument in arguments {
        dtype = first_of(dtype, type_told(side, argument));
    }
    dtype
}

/// The rank that a side goes to or comes from.
fn peer_of(arguments: &[Argument<'_>], side: Side) -> Option<i32>
    ensures { result ≡ first_told (peer_in side) (all_seen arguments.now) }
{
    let mut peer = None;
    for argument in arguments {
        peer = first_of(peer, peer_told(side, argument));
    }
    peer
}

fn is_sound<V: View>(view: &V, dtype: Option<u32>) -> bool
    ensures { result ≡ is_sound (V.sound view.now) dtype }
{
    match dtype {
        Some(dtype) => view.sound_type(dtype),
        None => false,
    }
}

fn is_proc_null(peer: Option<i32>) -> bool
    ensures { result ≡ is_proc_null peer }
{
    match peer {
        Some(peer) => peer == PROC_NULL,
        None => false,
    }
}

fn is_usable_side<V: View>(view: &V, arguments: &[Argument<'_>], side: Side) -> bool
    ensures { result ≡ is_usable_side (V.sound view.now) (all_seen arguments.now) side }
{
    is_sound(view, type_of(arguments, side)) && !is_proc_null(peer_of(arguments, side))
}

fn is_usable_field<V: View>(
    view: &V,
    setting: &Setting,
    arguments: &[Argument<'_>],
    argument: &Argument<'_>,
) -> bool
    ensures { result ≡ usable_field (V.sound view.now) setting.now (all_seen arguments.now) (seen argument.now).0 }
{
    match argument {
        Argument::Buffer(side, _) => {
            setting.has_sense(argument) && is_usable_side(view, arguments, *side)
        }
        _ => false,
    }
}

fn is_more(so_far: bool, is_part: bool, usable: bool) -> bool
    ensures { result ≡ (so_far || (is_part && usable)) }
{
    so_far || (is_part && usable)
}

fn bits(first: bool, second: bool) -> u8
    ensures { result ≡ (if first then 1 else 0) + (if second then 2 else 0) }
{
    match (first, second) {
        (false, false) => 0,
        (true, false) => 1,
        (false, true) => 2,
        (true, true) => 3,
    }
}

/// The usable sides of a clear call on a live and sound communicator, as bits of their parts.
fn usable_sides<V: View>(view: &V, setting: &Setting, arguments: &[Argument<'_>]) -> u8
    ensures { result ≡ (if usable_from (V.sound view.now) setting.now (all_seen arguments.now) 0 (all_seen arguments.now) then 1 else 0) + (if usable_from (V.sound view.now) setting.now (all_seen arguments.now) 1 (all_seen arguments.now) then 2 else 0) }
{
    let mut first = false;
    let mut second = false;
    for argument in arguments {
        let usable = is_usable_field(view, setting, arguments, argument);
        let part = setting.part(argument);
        first = is_more(first, part == 0, usable);
        second = is_more(second, part == 1, usable);
    }
    bits(first, second)
}

/// The usable parts of a call; `clear` says whether it is.
pub(crate) fn parts_of<V: View>(
    view: &V,
    setting: &Setting,
    body: &Body,
    arguments: &[Argument<'_>],
    clear: bool,
) -> u8
    requires fields { all_seen arguments.now ≡ inputs_of body.now }
    requires setting { IsSetting (V.facts view.now) body.now setting.now }
    requires clear { clear ≡ is_clear (V.facts view.now) body.now }
    ensures { result ≡ usable_parts (V.facts view.now) (V.sound view.now) body.now }
{
    if !clear {
        return 0;
    }
    match setting.size {
        None => 0,
        Some(_) => usable_sides(view, setting, arguments),
    }
}

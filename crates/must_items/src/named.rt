//! What a collective call names and recorded.

ghost use Rattle.std.specs.Prelude.{◌≡◌, ◌&&◌, ℕ, Option, Some, None, IfOk, IfSome, option_map, nat_eq, unwrap_or, pos, Bool};
ghost use Rattle.std.specs.List.{IsDistinct};
ghost use Rattle.must_call.specs.Bodies.{inputs_of};
ghost use Rattle.must_call.specs.declared.field.Field.TheVariants as field;
ghost use Rattle.must_call.specs.Arguments.{seen, all_seen};
ghost use Rattle.must_type.specs.Tree.{TypeTree};
ghost use Rattle.must_rules.specs.Significant.{first_told};
ghost use Rattle.must_args.specs.Settings.{has_sense};
ghost use Rattle.must_items.specs.CollectiveItems.{operation_in, is_sound_in, is_sound_here, all_sound, split_named, group_named, comm_answered, members_made};
ghost use Rattle.must_items.specs.Typed.{HasTypes};

use crate::moved::first_of;
use must_args::{Setting, View};
use must_base::NoMemory;
use must_call::{Argument, Body, Handle, MadeComm, Object};
use must_coll::ColorKey;
use must_derived::Datatypes;
use must_group::Group;
use std::alloc::Global;

fn operation_with(role: Handle, number: u32) -> Option<u32>
    ensures { result ≡ operation_in (field.Handle role) number }
{
    match role {
        Handle::Operation => Some(number),
        _ => None,
    }
}

fn operation_told(argument: &Argument<'_>) -> Option<u32>
    ensures { result ≡ operation_in (seen argument.now).0 (seen argument.now).1 }
{
    match argument {
        Argument::Handle(role, number) => operation_with(*role, *number),
        _ => None,
    }
}

/// The operation that a call names.
pub fn operation_of(arguments: &[Argument<'_>]) -> Option<u32>
    ensures { result ≡ first_told operation_in (all_seen arguments.now) }
{
    let mut operation = None;
    for argument in arguments {
        operation = first_of(operation, operation_told(argument));
    }
    operation
}

/// Whether a datatype or a group is sound.
fn is_sound_handle<V: View>(view: &V, types: &Datatypes, role: Handle, number: u32) -> bool
    ensures { (trees : ℕ → Option TypeTree) → HasTypes types.now trees → result ≡ is_sound_in (V.facts view.now) trees (field.Handle role) number }
{
    match role {
        Handle::Datatype(_) => types.is_sound(number),
        Handle::Group => view.group(number).is_some(),
        _ => true,
    }
}

fn is_sound<V: View>(view: &V, types: &Datatypes, argument: &Argument<'_>) -> bool
    ensures { (trees : ℕ → Option TypeTree) → HasTypes types.now trees → result ≡ is_sound_in (V.facts view.now) trees (seen argument.now).0 (seen argument.now).1 }
{
    match argument {
        Argument::Handle(role, number) => is_sound_handle(view, types, *role, *number),
        _ => true,
    }
}

/// Whether what a field names is sound, where it is significant.
fn is_sound_here<V: View>(
    view: &V,
    types: &Datatypes,
    setting: &Setting,
    argument: &Argument<'_>,
) -> bool
    ensures { (trees : ℕ → Option TypeTree) → HasTypes types.now trees → result ≡ is_sound_here (V.facts view.now) trees (has_sense setting.now) (seen argument.now) }
{
    !setting.has_sense(argument) || is_sound(view, types, argument)
}

fn both(first: bool, second: bool) -> bool
    ensures { result ≡ (first && second) }
{
    first && second
}

/// Whether all that a call names is sound.
pub fn all_sound<V: View>(
    view: &V,
    types: &Datatypes,
    setting: &Setting,
    arguments: &[Argument<'_>],
) -> bool
    ensures { (trees : ℕ → Option TypeTree) → HasTypes types.now trees → result ≡ all_sound (V.facts view.now) trees (has_sense setting.now) (all_seen arguments.now) }
{
    let mut sound = true;
    for argument in arguments {
        sound = both(sound, is_sound_here(view, types, setting, argument));
    }
    sound
}

/// Color and key of a split.
pub fn split_of(body: &Body) -> Option<ColorKey>
    ensures { result ≡ split_named body.now }
{
    match body {
        Body::Object(Object::CommSplit { color, key, .. }) => Some(ColorKey {
            color: *color,
            key: *key,
        }),
        _ => None,
    }
}

/// The group of `MPI_Comm_create`, where it is live and sound.
pub fn group_of<V: View>(alloc: Global, view: &V, body: &Body) -> Result<Option<Group>, NoMemory>
    ensures { IfOk result (λ group. group ≡ group_named (V.facts view.now) body.now) }
{
    match body {
        Body::Object(Object::CommCreate { group, .. }) => match view.group(*group) {
            Some(group) => Ok(Some(Group::of(alloc, group.ranks())?)),
            None => Ok(None),
        },
        _ => Ok(None),
    }
}

/// The communicator that a collective call answered.
fn comm_answered(body: &Body) -> Option<&MadeComm>
    ensures { option_map (λ m. m.now) result ≡ comm_answered body.now }
{
    match body {
        Body::Object(
            Object::CommDup { made, .. }
            | Object::CommSplit { made, .. }
            | Object::CommCreate { made, .. },
        ) => made.as_ref(),
        _ => None,
    }
}

/// The recorded members of the communicator that was made.
pub fn members_of(alloc: Global, body: &Body) -> Result<Option<Group>, NoMemory>
    requires { IfSome (comm_answered body.now) (λ made. IsDistinct nat_eq made.members) }
    ensures { IfOk result (λ members. members ≡ members_made body.now) }
{
    match comm_answered(body) {
        Some(made) => Ok(Some(Group::of(alloc, made.members.items())?)),
        None => Ok(None),
    }
}

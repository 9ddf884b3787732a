//! Collective calls that wait for their wave (docs/MESSAGES.md, "Needs").

ghost use Rattle.std.specs.Prelude.{◌≡◌, ◌&&◌, ◌||◌, ℕ, List, Option, not, is_some};
ghost use Rattle.must_call.specs.declared.call.Call.{Call};
ghost use Rattle.must_call.specs.declared.field.Field.TheVariants as field;
ghost use Rattle.must_call.specs.Arguments.{seen, all_seen};
ghost use Rattle.must_type.specs.Tree.{TypeTree};
ghost use Rattle.must_rules.specs.Rank.{Rank};
ghost use Rattle.must_call.specs.Bodies.{inputs_of};
ghost use Rattle.must_rules.specs.Significant.{comm_of, significant_in};
ghost use Rattle.must_rules.specs.Clear.{is_clear};
ghost use Rattle.must_rules.specs.Communicators.{is_collective};
ghost use Rattle.must_args.specs.Settings.{has_sense};
ghost use Rattle.must_items.specs.Typed.{HasTypes};
ghost use Rattle.must_parts.specs.Telling.{Sees};
ghost use Rattle.must_messages.specs.CallNeeds.{is_sound_datatype, has_sound_types, waits_for_wave};

use must_args::{Setting, View, setting_of};
use must_call::{Argument, Body, Call, Handle, Object};
use must_derived::Datatypes;

/// Whether all members of a communicator make such a call.
fn is_collective(body: &Body) -> bool
    ensures { result ≡ is_collective body.now }
{
    match body {
        Body::Object(
            Object::CommDup { .. }
            | Object::CommSplit { .. }
            | Object::CommCreate { .. }
            | Object::CommFree { .. },
        )
        | Body::Collective(_)
        | Body::Started(_) => true,
        _ => false,
    }
}

fn is_sound_handle(types: &Datatypes, role: Handle, number: u32) -> bool
    ensures { (trees : ℕ → Option TypeTree) → HasTypes types.now trees → result ≡ is_sound_datatype trees (field.Handle role) number }
{
    match role {
        Handle::Datatype(_) => types.is_sound(number),
        _ => true,
    }
}

/// Whether a field that is a datatype names a sound one.
fn is_sound(types: &Datatypes, argument: &Argument<'_>) -> bool
    ensures { (trees : ℕ → Option TypeTree) → HasTypes types.now trees → result ≡ is_sound_datatype trees (seen argument.now).0 (seen argument.now).1 }
{
    match argument {
        Argument::Handle(role, number) => is_sound_handle(types, *role, *number),
        _ => true,
    }
}

/// Whether the datatype of a field is sound, where it is significant.
fn is_sound_here(types: &Datatypes, setting: &Setting, argument: &Argument<'_>) -> bool
    ensures { (trees : ℕ → Option TypeTree) → HasTypes types.now trees → result ≡ (not (has_sense setting.now (seen argument.now).0) || is_sound_datatype trees (seen argument.now).0 (seen argument.now).1) }
{
    !setting.has_sense(argument) || is_sound(types, argument)
}

/// Whether the datatypes that are significant are sound.
fn has_sound_types(types: &Datatypes, setting: &Setting, arguments: &[Argument<'_>]) -> bool
    ensures { (trees : ℕ → Option TypeTree) → HasTypes types.now trees → result ≡ has_sound_types (has_sense setting.now) trees (all_seen arguments.now) }
{
    for argument in arguments {
        if !is_sound_here(types, setting, argument) {
            return false;
        }
    }
    true
}

/// Whether a call's communicator is live and sound, and its significant datatypes are sound.
fn is_ready<V: View>(view: &V, types: &Datatypes, body: &Body) -> bool
    ensures { (trees : ℕ → Option TypeTree) → HasTypes types.now trees → result ≡ (is_some (comm_of (V.facts view.now) body.now) && has_sound_types (significant_in (V.facts view.now) body.now) trees (inputs_of body.now)) }
{
    let arguments = body.inputs();
    let setting = setting_of(view, body, &arguments);
    setting.size.is_some() && has_sound_types(types, &setting, &arguments)
}

/// Whether a collective call waits for the calls of all members in its wave; `clear` says whether the call is.
pub fn waits_for_wave<V: View>(view: &V, types: &Datatypes, call: &Call, clear: bool) -> bool
    requires { clear ≡ is_clear (V.facts view.now) call.now.body }
    ensures { (r : Rank) (calls : List Call) → Sees r calls (V.facts view.now) (V.sound view.now) (V.starts view.now) types.now → result ≡ waits_for_wave r calls call.now }
{
    is_collective(&call.body) && (clear && is_ready(view, types, &call.body))
}

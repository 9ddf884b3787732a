//! The operations that a call begins with its own arguments.

ghost use Rattle.std.specs.Prelude.{◌≡◌, ◌++◌, ℕ, List, Option, Some, None, length, true, false, if◌then◌else◌, IfOk, OnOk};
ghost use Rattle.std.specs.Option.{option_map, option_to_list};
ghost use Rattle.must_call.specs.declared.field.Side.TheVariants as side;
ghost use Rattle.must_call.specs.declared.field.Field.TheVariants as field;
ghost use Rattle.must_call.specs.declared.call.Call.{Call};
ghost use Rattle.must_rules.specs.Rank.{Rank};
ghost use Rattle.must_rules.specs.Breaches.{part_in};
ghost use Rattle.must_rules.specs.Clear.{is_clear};
ghost use Rattle.must_rules.specs.Making.{is_persistent_kind};
ghost use Rattle.must_rules.specs.UsableParts.{usable_parts};
ghost use Rattle.must_rules.specs.PendingOperations.{begun_request, request_in};
ghost use Rattle.must_messages.specs.Asking.{AreBegun};
ghost use Rattle.must_rules.specs.Operations.{Message, operation, message_at, operations_at};
ghost use Rattle.must_parts.specs.Telling.{Sees};
ghost use Rattle.must_begin.specs.Telling.{IsOn, IsAskedOf, IsBegunOf};

use crate::named::Named;
use crate::sides::{probed, sent, taken};
use crate::terms::{taken_part, waits_for_probe};
use must_args::{Usable, View};
use must_base::NoMemory;
use must_call::{Body, Call, Class};
use must_derived::Datatypes;
use must_handle::made;
use must_messages::{Asked, Begun};
use std::alloc::Global;

/// Whether a call is of the family that makes and starts persistent requests.
pub(crate) fn is_persistent_kind(body: &Body) -> bool
    ensures { result ≡ is_persistent_kind body.now }
{
    matches!(body, Body::Persist(_))
}

fn request_in(made: Option<(Class, u32)>) -> Option<u32>
    ensures { result ≡ request_in made }
{
    match made {
        Some((Class::Request, request)) => Some(request),
        _ => None,
    }
}

/// The request of the operations that a call begins with its own arguments.
#[tactic(auto, unfolding(must_rules::specs::Making::persists))]
fn begun_request(call: &Call) -> Option<u32>
    ensures { result ≡ begun_request call.now }
{
    if is_persistent_kind(&call.body) {
        None
    } else {
        request_in(made(call))
    }
}

/// What a side of a call asks for, as an operation.
fn begun_with(part: u32, request: Option<u32>, asked: Option<Asked>) -> Option<Begun>
    ensures { (call : ℕ) (m : Option Message) → IsAskedOf asked m → IsBegunOf call result (option_map (operation call part request) m) }
{
    match asked {
        Some(asked) => Some(Begun {
            part,
            request,
            asked,
        }),
        None => None,
    }
}

/// Puts an operation behind the others, where there is one.
pub(crate) fn push_begun(begun: &mut Vec<Begun>, more: Option<Begun>) -> Result<(), NoMemory>
    ensures { OnOk result (begun.new.items ≡ begun.old.items ++ option_to_list more) }
{
    if let Some(more) = more {
        begun.push(more)?;
    }
    Ok(())
}

/// What a call receives or waits to probe.
fn awaited<V: View>(
    alloc: Global,
    view: &V,
    types: &Datatypes,
    on: Option<Named<'_>>,
    call: &Call,
    usable: &Usable,
) -> Result<Option<Asked>, NoMemory>
    requires clear { usable.now.clear ≡ is_clear (V.facts view.now) call.now.body }
    requires parts { usable.now.parts ≡ usable_parts (V.facts view.now) (V.sound view.now) call.now.body }
    ensures { IfOk result (λ asked. (r : Rank) (calls : List Call) → Sees r calls (V.facts view.now) (V.sound view.now) (V.starts view.now) types.now → IsOn r calls call.now.body on.entry → IsAskedOf asked (message_at r calls call.now side.Receive)) }
{
    if let Some(asked) = taken(alloc, types, on, call, usable.parts)? {
        return Ok(Some(asked));
    }
    if !waits_for_probe(&call.body) {
        return Ok(None);
    }
    let asked = probed(alloc, view, types, on, call, usable.clear)?;
    Ok(asked)
}

/// The operations that a call begins with its own arguments, where it makes or starts no persistent request.
pub(crate) fn begun_here<V: View>(
    alloc: Global,
    view: &V,
    types: &Datatypes,
    on: Option<Named<'_>>,
    call: &Call,
    usable: &Usable,
) -> Result<Vec<Begun>, NoMemory>
    requires clear { usable.now.clear ≡ is_clear (V.facts view.now) call.now.body }
    requires parts { usable.now.parts ≡ usable_parts (V.facts view.now) (V.sound view.now) call.now.body }
    requires plain { is_persistent_kind call.now.body ≡ false }
    ensures { IfOk result (λ begun. (r : Rank) (calls : List Call) → Sees r calls (V.facts view.now) (V.sound view.now) (V.starts view.now) types.now → IsOn r calls call.now.body on.entry → AreBegun (length calls) begun.items (operations_at r calls call.now)) }
{
    let mut begun = Vec::new(alloc);
    let request = begun_request(call);
    let sent = sent(alloc, types, on, call, usable.parts)?;
    push_begun(&mut begun, begun_with(0, request, sent))?;
    let awaited = awaited(alloc, view, types, on, call, usable)?;
    push_begun(
        &mut begun,
        begun_with(taken_part(&call.body), request, awaited),
    )?;
    Ok(begun)
}

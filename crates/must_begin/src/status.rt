//! What the status in a call's own record contradicts: rule S1 (docs/MESSAGES.md, "S1 status contradicts arguments").

ghost use Rattle.std.specs.Prelude.{◌≡◌, List, Some, IfOk};
ghost use Rattle.must_call.specs.Arguments.{output_seen};
ghost use Rattle.must_call.specs.Fields.{source};
ghost use Rattle.must_call.specs.declared.call.Call.{Call};
ghost use Rattle.must_rules.specs.Rank.{Rank};
ghost use Rattle.must_rules.specs.Breaches.{part_in};
ghost use Rattle.must_rules.specs.Clear.{is_clear};
ghost use Rattle.must_rules.specs.UsableParts.{usable_parts};
ghost use Rattle.must_parts.specs.Telling.{Sees};
ghost use Rattle.must_rules.specs.Fates.{own_status, status_among};
ghost use Rattle.must_rules.specs.Statuses.{own_contradiction, received_here};
ghost use Rattle.must_begin.specs.Telling.{IsOn, IsAskedOf};

use crate::named::Named;
use crate::sides::{probed, taken};
use crate::terms::taken_part;
use must_args::{Usable, View};
use must_base::NoMemory;
use must_call::{Call, Given, Status3};
use must_derived::Datatypes;
use must_messages::{Asked, contradiction};
use std::alloc::Global;

fn status_in(given: &Given<'_>) -> Option<Status3>
    ensures { result ≡ status_among (Some (output_seen given.now)) }
{
    match given {
        Given::Status(status) => Some(*status),
        Given::MaybeStatus(status) => *status,
        _ => None,
    }
}

/// The status of a receive or a probe that stands in its own record.
fn own_status(call: &Call) -> Option<Status3>
    ensures { result ≡ own_status call.now }
{
    if !call.returned {
        return None;
    }
    match call.body.given() {
        Some(given) => status_in(&given),
        None => None,
    }
}

/// What a call receives or probes.
fn received_here<V: View>(
    alloc: Global,
    view: &V,
    types: &Datatypes,
    on: Option<Named<'_>>,
    call: &Call,
    usable: &Usable,
) -> Result<Option<Asked>, NoMemory>
    requires clear { usable.now.clear ≡ is_clear (V.facts view.now) call.now.body }
    requires parts { usable.now.parts ≡ usable_parts (V.facts view.now) (V.sound view.now) call.now.body }
    ensures { IfOk result (λ asked. (r : Rank) (calls : List Call) → Sees r calls (V.facts view.now) (V.sound view.now) (V.starts view.now) types.now → IsOn r calls call.now.body on.entry → IsAskedOf asked (received_here r calls call.now)) }
{
    if let Some(asked) = taken(alloc, types, on, call, usable.parts)? {
        return Ok(Some(asked));
    }
    let asked = probed(alloc, view, types, on, call, usable.clear)?;
    Ok(asked)
}

/// What the status in a call's own record contradicts of the receive or the probe that the call asks for: 1 its source, 2 its tag,
/// 3 that nobody asked to cancel it. `on` and `usable` are as in `Requests::begins`.
pub fn own_contradiction<V: View>(
    alloc: Global,
    view: &V,
    types: &Datatypes,
    on: Option<Named<'_>>,
    call: &Call,
    usable: &Usable,
) -> Result<Option<i32>, NoMemory>
    requires clear { usable.now.clear ≡ is_clear (V.facts view.now) call.now.body }
    requires parts { usable.now.parts ≡ usable_parts (V.facts view.now) (V.sound view.now) call.now.body }
    ensures { IfOk result (λ value. (r : Rank) (calls : List Call) → Sees r calls (V.facts view.now) (V.sound view.now) (V.starts view.now) types.now → IsOn r calls call.now.body on.entry → value ≡ own_contradiction r.tag_ub (received_here r calls call.now) (own_status call.now)) }
{
    let Some(status) = own_status(call) else {
        return Ok(None);
    };
    let Some(asked) = received_here(alloc, view, types, on, call, usable)? else {
        return Ok(None);
    };
    Ok(contradiction(view.tag_ub(), &asked, false, status))
}

/// The part of a call at which a contradiction of its own status stands: 1 for what is received where the call sends too, else 0.
pub fn own_part(call: &Call) -> u32
    ensures { result ≡ part_in call.now.body source }
{
    taken_part(&call.body)
}

//! Rules H1 to H4: handle arguments.

ghost use Rattle.std.specs.Prelude.{◌≡◌, ◌+◌, ◌<◌, ◌^◌, ℕ, map, length, false, OnOk};
ghost use Rattle.must_call.specs.declared.field.Field.TheVariants as field;
ghost use Rattle.must_call.specs.Arguments.{seen};
ghost use Rattle.must_call.specs.Handles.{request_of, old_of, typed_handles};
ghost use Rattle.must_rules.specs.Breaches.{AddsBreaches};
ghost use Rattle.must_rules.specs.ArgumentHandles.{may_complete, frees_object, is_of_buffer, by_life, wrong_handle, wrong_handles};
ghost use Rattle.must_args.specs.Told.{handle_told};

use crate::adding::add_handle;
use crate::view::View;
use must_base::NoMemory;
use must_call::{Argument, Class, Handle, Kind, Life, NULL_HANDLE, Place, StructBlock};
use must_find::{Findings, Rule};

/// Calls that may name the null request.
fn may_complete(kind: Kind) -> bool
    ensures { result ≡ may_complete kind }
{
    matches!(
        kind,
        Kind::Wait
            | Kind::Waitall
            | Kind::Waitany
            | Kind::Waitsome
            | Kind::Test
            | Kind::Testall
            | Kind::Testany
            | Kind::Testsome
    )
}

fn frees_object(kind: Kind) -> bool
    ensures { result ≡ frees_object kind }
{
    matches!(kind, Kind::TypeFree | Kind::CommFree | Kind::OpFree)
}

/// The rule that a handle breaks, with the call that is seen.
fn judge_life<V: View>(
    view: &V,
    kind: Kind,
    of_buffer: bool,
    class: Class,
    handle: u32,
) -> Option<(Rule, Option<u32>)>
    ensures { (part : ℕ) → handle_told part handle result ≡ wrong_handle (V.facts view.now) kind of_buffer part (class, handle) }
{
    match view.life(class, handle) {
        Life::Never => {
            if may_complete(kind) && handle == NULL_HANDLE {
                None
            } else {
                Some((Rule::H1, None))
            }
        }
        Life::Freed { freed, .. } => Some((Rule::H2, Some(freed))),
        Life::Predefined => {
            if frees_object(kind) {
                Some((Rule::H3, None))
            } else {
                None
            }
        }
        Life::Live { made } => {
            if of_buffer && !view.committed(handle) {
                Some((Rule::H4, Some(made)))
            } else {
                None
            }
        }
    }
}

/// Whether a field has the datatype of a buffer.
fn is_of_buffer(role: Handle) -> bool
    ensures { result ≡ is_of_buffer (field.Handle role) }
{
    matches!(role, Handle::Datatype(_))
}

/// Adds what the handle argument with this number breaks.
fn judge_handle<V: View>(
    view: &V,
    at: Place,
    kind: Kind,
    of_buffer: bool,
    part: u32,
    class: Class,
    handle: u32,
    rows: &mut Findings,
) -> Result<(), NoMemory>
    ensures { OnOk result (AddsBreaches at rows.old rows.new (wrong_handle (V.facts view.now) kind of_buffer part (class, handle))) }
{
    add_handle(
        rows,
        at,
        part,
        handle,
        judge_life(view, kind, of_buffer, class, handle),
    )
}

fn judge_requests<V: View>(
    view: &V,
    at: Place,
    kind: Kind,
    number: u32,
    requests: &[u32],
    rows: &mut Findings,
) -> Result<(), NoMemory>
    requires { number + length (map request_of requests.now) < 2 ^ 32 }
    ensures { OnOk result (AddsBreaches at rows.old rows.new (wrong_handles (V.facts view.now) kind false number (map request_of requests.now))) }
{
    for (i, request) in requests.iter().enumerate() {
        let part = number + i as u32;
        judge_handle(view, at, kind, false, part, Class::Request, *request, rows)?;
    }
    Ok(())
}

fn judge_olds<V: View>(
    view: &V,
    at: Place,
    kind: Kind,
    number: u32,
    blocks: &[StructBlock],
    rows: &mut Findings,
) -> Result<(), NoMemory>
    requires { number + length (map old_of blocks.now) < 2 ^ 32 }
    ensures { OnOk result (AddsBreaches at rows.old rows.new (wrong_handles (V.facts view.now) kind false number (map old_of blocks.now))) }
{
    for (i, block) in blocks.iter().enumerate() {
        let part = number + i as u32;
        judge_handle(
            view,
            at,
            kind,
            false,
            part,
            Class::Datatype,
            block.old,
            rows,
        )?;
    }
    Ok(())
}

/// Adds what the handles of a field break, of which the first has this number.
pub(crate) fn judge_handles<V: View>(
    view: &V,
    at: Place,
    kind: Kind,
    number: u32,
    argument: &Argument<'_>,
    rows: &mut Findings,
) -> Result<(), NoMemory>
    requires { number + length (typed_handles (seen argument.now)) < 2 ^ 32 }
    ensures { OnOk result (AddsBreaches at rows.old rows.new (wrong_handles (V.facts view.now) kind (is_of_buffer (seen argument.now).0) number (typed_handles (seen argument.now)))) }
{
    match argument {
        Argument::Handle(role, handle) => {
            let of_buffer = is_of_buffer(*role);
            judge_handle(
                view,
                at,
                kind,
                of_buffer,
                number,
                role.class(),
                *handle,
                rows,
            )
        }
        Argument::Requests(list) => judge_requests(view, at, kind, number, list.items(), rows),
        Argument::StructBlocks(list) => judge_olds(view, at, kind, number, list.items(), rows),
        _ => Ok(()),
    }
}

fn request_count(requests: &[u32]) -> u32
    requires { length (map request_of requests.now) < 2 ^ 32 }
    ensures { result ≡ length (map request_of requests.now) }
{
    requests.len() as u32
}

fn old_count(blocks: &[StructBlock]) -> u32
    requires { length (map old_of blocks.now) < 2 ^ 32 }
    ensures { result ≡ length (map old_of blocks.now) }
{
    blocks.len() as u32
}

/// How many handle arguments a field has.
pub(crate) fn handle_count(argument: &Argument<'_>) -> u32
    requires { length (typed_handles (seen argument.now)) < 2 ^ 32 }
    ensures { result ≡ length (typed_handles (seen argument.now)) }
{
    match argument {
        Argument::Handle(..) => 1,
        Argument::Requests(list) => request_count(list.items()),
        Argument::StructBlocks(list) => old_count(list.items()),
        _ => 0,
    }
}

//! The rules of arguments at a call.

ghost use Rattle.std.specs.Prelude.{◌≡◌, ◌<◌, ◌^◌, [], length, IfOk, OnOk, OnErr};
ghost use Rattle.must_call.specs.Arguments.{all_seen};
ghost use Rattle.must_call.specs.Bodies.{inputs_of};
ghost use Rattle.must_call.specs.Handles.{handles_of};
ghost use Rattle.must_rules.specs.Breaches.{AddsBreaches};
ghost use Rattle.must_rules.specs.Clear.{wrong_arguments, is_clear, argument_breaches};
ghost use Rattle.must_rules.specs.UsableParts.{usable_parts};
ghost use Rattle.must_args.specs.Settings.{IsSetting};

use crate::adding::{is_empty, join};
use crate::fields::judge_fields;
use crate::ranks::judge_ranks;
use crate::setting::{Setting, setting_of};
use crate::starts::judge_starts;
use crate::usable::{Usable, parts_of};
use crate::view::View;
use must_base::NoMemory;
use must_call::{Argument, Body, Call, Place};
use must_find::Findings;
use std::alloc::Global;

/// The findings of the rules A1 to A7 and H1 to H4 at a call with these fields.
fn judge_arguments<V: View>(
    alloc: Global,
    view: &V,
    at: Place,
    body: &Body,
    setting: &Setting,
    arguments: &[Argument<'_>],
) -> Result<Findings, NoMemory>
    requires fields { all_seen arguments.now ≡ inputs_of body.now }
    requires setting { IsSetting (V.facts view.now) body.now setting.now }
    requires few { length (handles_of body.now) < 2 ^ 32 }
    ensures { IfOk result (λ rows. AddsBreaches at [] rows (wrong_arguments (V.facts view.now) body.now)) }
{
    let mut rows = Findings::new(alloc);
    judge_ranks(alloc, view, at, body, &mut rows)?;
    judge_fields(view, at, setting, arguments, &mut rows)?;
    Ok(rows)
}

/// Adds the findings of the rules A1 to A7 and H1 to H5 at a call, and tells whether the call is clear and which of its
/// parts are usable. The view tells of the calls before it. Where memory is short, the findings stay as they were.
pub fn check_args<V: View>(
    alloc: Global,
    view: &V,
    at: Place,
    call: &Call,
    out: &mut Findings,
) -> Result<Usable, NoMemory>
    requires { length (handles_of call.now.body) < 2 ^ 32 }
    ensures rows { OnOk result (AddsBreaches at out.old out.new (argument_breaches (V.facts view.now) (V.starts view.now) at.call call.now.body)) }
    ensures clear { IfOk result (λ usable. usable.clear ≡ is_clear (V.facts view.now) call.now.body) }
    ensures parts { IfOk result (λ usable. usable.parts ≡ usable_parts (V.facts view.now) (V.sound view.now) call.now.body) }
    ensures err { OnErr result (out.new ≡ out.old) }
{
    let body = &call.body;
    let arguments = body.inputs();
    let setting = setting_of(view, body, &arguments);
    let mut rows = judge_arguments(alloc, view, at, body, &setting, &arguments)?;
    let clear = is_empty(&rows);
    let parts = parts_of(view, &setting, body, &arguments, clear);
    judge_starts(alloc, view, at, clear, body, &mut rows)?;
    join(out, &rows)?;
    Ok(Usable { clear, parts })
}

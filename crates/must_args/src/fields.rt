//! The pass over the fields of a call.

ghost use Rattle.std.specs.Prelude.{◌≡◌, ◌+◌, ◌<◌, ◌^◌, length, if◌then◌else◌, [], OnOk, IfOk};
ghost use Rattle.std.specs.List.{flat_map};
ghost use Rattle.must_call.specs.Arguments.{seen, all_seen};
ghost use Rattle.must_call.specs.Handles.{typed_handles};
ghost use Rattle.must_rules.specs.Breaches.{AddsBreaches, asked_from};
ghost use Rattle.must_args.specs.Settings.{has_sense, asks};

use crate::adding::add_value;
use crate::handles::{handle_count, judge_handles};
use crate::numbers::judge_value;
use crate::setting::Setting;
use crate::view::View;
use must_base::NoMemory;
use must_call::{Argument, Place};
use must_find::Findings;

/// Adds what a significant field breaks, whose first handle argument has this number.
fn judge_significant<V: View>(
    view: &V,
    at: Place,
    setting: &Setting,
    number: u32,
    argument: &Argument<'_>,
    rows: &mut Findings,
) -> Result<(), NoMemory>
    requires { number + length (typed_handles (seen argument.now)) < 2 ^ 32 }
    ensures { OnOk result (AddsBreaches at rows.old rows.new (asks (V.facts view.now) setting.now number (seen argument.now))) }
{
    add_value(
        rows,
        at,
        setting.part(argument),
        judge_value(setting, argument),
    )?;
    judge_handles(view, at, setting.kind, number, argument, rows)?;
    Ok(())
}

/// Adds what a field breaks, and gives the number of the next field's first handle argument.
fn judge_field<V: View>(
    view: &V,
    at: Place,
    setting: &Setting,
    number: u32,
    argument: &Argument<'_>,
    rows: &mut Findings,
) -> Result<u32, NoMemory>
    requires { number + length (typed_handles (seen argument.now)) < 2 ^ 32 }
    ensures adds { OnOk result (AddsBreaches at rows.old rows.new (if has_sense setting.now (seen argument.now).0 then asks (V.facts view.now) setting.now number (seen argument.now) else [])) }
    ensures next { IfOk result (λ n. n ≡ number + length (typed_handles (seen argument.now))) }
{
    if setting.has_sense(argument) {
        judge_significant(view, at, setting, number, argument, rows)?;
    }
    Ok(number + handle_count(argument))
}

/// Adds what the fields of a call break.
pub(crate) fn judge_fields<V: View>(
    view: &V,
    at: Place,
    setting: &Setting,
    arguments: &[Argument<'_>],
    rows: &mut Findings,
) -> Result<(), NoMemory>
    requires { length (flat_map typed_handles (all_seen arguments.now)) < 2 ^ 32 }
    ensures { OnOk result (AddsBreaches at rows.old rows.new (asked_from (has_sense setting.now) (asks (V.facts view.now) setting.now) 0 (all_seen arguments.now))) }
{
    let mut number = 0;
    for argument in arguments {
        number = judge_field(view, at, setting, number, argument, rows)?;
    }
    Ok(())
}

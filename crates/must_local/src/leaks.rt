//! Handles that are open at the first Finalize.

ghost use Rattle.std.specs.Prelude.{◌≡◌, ◌+◌, ◌-◌, ◌<◌, ◌^◌, List, IfOk, OnOk};
ghost use Rattle.must_call.specs.declared.call.Call.{Call};
ghost use Rattle.must_rules.specs.LiveLaws.{live_now};
ghost use Rattle.must_rules.specs.Leaks.{leak};
ghost use Rattle.must_rules.specs.Starts.{Clearness};
ghost use Rattle.must_find.specs.Adds.{Adds};
ghost use Rattle.must_rules.specs.Answer.{IsAnswer};
ghost use Rattle.must_handle.specs.Slots.{Stands};
ghost use Rattle.must_local.specs.Adding.{ClassRows, LeakRows, LeakRowsAt, open_one};

use crate::rows::add_answer;
use must_base::NoMemory;
use must_call::{Class, FIRST_MADE, Life, Place};
use must_find::{Findings, Rule};
use must_handle::Lives;

/// Adds the row of a handle, where it is live, and gives the part of the next.
fn add_live(
    rows: &mut Findings,
    at: Place,
    rule: Rule,
    part: u32,
    number: u32,
    life: Life,
) -> Result<u32, NoMemory>
    requires { part < 2 ^ 32 - 1 }
    ensures { IfOk result (λ next. (next ≡ part + live_now life) × Adds rows.old rows.new (IsAnswer at.rank at.call rule part (leak at.rank (open_one number life)))) }
{
    match life {
        Life::Live { made } => {
            let see = Place {
                rank: at.rank,
                call: made,
            };
            add_answer(rows, at, rule, part, Some((Some(see), i128::from(number))))?;
            Ok(part + 1)
        }
        _ => Ok(part),
    }
}

/// Adds the open handles of a class.
fn add_class(
    rows: &mut Findings,
    at: Place,
    lives: &Lives,
    class: Class,
    rule: Rule,
) -> Result<(), NoMemory>
    ensures { (is_clear : Clearness) (calls : List Call) → Stands is_clear lives.now calls → OnOk result (Adds rows.old rows.new (ClassRows at.rank at.call class rule calls)) }
{
    let mut part = 0;
    for i in 0..lives.made() {
        let number = FIRST_MADE + i as u32;
        part = add_live(rows, at, rule, part, number, lives.state(class, number))?;
    }
    Ok(())
}

/// Adds the handles that are open at the first Finalize.
fn add_leaks(rows: &mut Findings, at: Place, lives: &Lives) -> Result<(), NoMemory>
    ensures { (is_clear : Clearness) (calls : List Call) → Stands is_clear lives.now calls → OnOk result (Adds rows.old rows.new (LeakRows at.rank at.call calls)) }
{
    add_class(rows, at, lives, Class::Datatype, Rule::L1)?;
    add_class(rows, at, lives, Class::Comm, Rule::L2)?;
    add_class(rows, at, lives, Class::Group, Rule::L3)?;
    add_class(rows, at, lives, Class::Operation, Rule::L4)?;
    add_class(rows, at, lives, Class::Request, Rule::L5)?;
    Ok(())
}

/// Adds the handles that are open, where the call is the first Finalize.
pub fn add_leaks_at(
    rows: &mut Findings,
    at: Place,
    ends: bool,
    lives: &Lives,
) -> Result<(), NoMemory>
    ensures { (is_clear : Clearness) (calls : List Call) → Stands is_clear lives.now calls → OnOk result (Adds rows.old rows.new (LeakRowsAt at.rank at.call ends calls)) }
{
    if ends {
        add_leaks(rows, at, lives)?;
    }
    Ok(())
}

//! Findings of one call.

ghost use Rattle.std.specs.Prelude.{◌≡◌, ◌↔◌, ◌⊎◌, ◌∷◌, [], OnOk, OnErr};
ghost use Rattle.must_base.specs.Listing.{Has};
ghost use Rattle.must_find.specs.declared.finding.Finding.{Finding};
ghost use Rattle.must_rules.specs.Breaches.{AddsBreaches, see_at};
ghost use Rattle.must_rules.specs.Clear.{is_nil};
ghost use Rattle.must_args.specs.Told.{value_told, handle_told};

use must_base::NoMemory;
use must_call::Place;
use must_find::{Finding, Findings, Rule};

/// A call of this rank.
fn see_at(rank: u32, see: Option<u32>) -> Option<Place>
    ensures { result ≡ see_at rank see }
{
    match see {
        Some(call) => Some(Place { rank, call }),
        None => None,
    }
}

/// There are no findings.
pub(crate) fn is_empty(rows: &Findings) -> bool
    ensures { result ≡ is_nil rows.now }
{
    match rows.as_slice() {
        [] => true,
        [_, ..] => false,
    }
}

/// Adds a finding of this rank and call.
fn add(
    rows: &mut Findings,
    at: Place,
    rule: Rule,
    part: u32,
    see: Option<u32>,
    value: i128,
) -> Result<(), NoMemory>
    ensures { OnOk result (AddsBreaches at rows.old rows.new (record { rule = rule; part = part; see = see; value = value } ∷ [])) }
{
    let see = see_at(at.rank, see);
    rows.add(Finding {
        rank: at.rank,
        call: at.call,
        rule,
        part,
        see,
        value,
    })?;
    Ok(())
}

/// Adds what a value breaks.
pub(crate) fn add_value(
    rows: &mut Findings,
    at: Place,
    part: u32,
    broken: Option<(Rule, i128)>,
) -> Result<(), NoMemory>
    ensures { OnOk result (AddsBreaches at rows.old rows.new (value_told part broken)) }
{
    match broken {
        None => Ok(()),
        Some((rule, value)) => add(rows, at, rule, part, None, value),
    }
}

/// Adds what a handle breaks, with the call that is seen.
pub(crate) fn add_handle(
    rows: &mut Findings,
    at: Place,
    part: u32,
    handle: u32,
    broken: Option<(Rule, Option<u32>)>,
) -> Result<(), NoMemory>
    ensures { OnOk result (AddsBreaches at rows.old rows.new (handle_told part handle broken)) }
{
    match broken {
        None => Ok(()),
        Some((rule, see)) => add(rows, at, rule, part, see, i128::from(handle)),
    }
}

/// Puts the findings of a call among others.
pub(crate) fn join(out: &mut Findings, rows: &Findings) -> Result<(), NoMemory>
    ensures ok { OnOk result ((x : Finding) → Has out.new x ↔ (Has out.old x ⊎ Has rows.now x)) }
    ensures err { OnErr result (out.new ≡ out.old) }
{
    if is_empty(rows) {
        return Ok(());
    }
    out.merge(rows)
}

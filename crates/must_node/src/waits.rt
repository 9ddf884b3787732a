//! Rules W1 and W2: at which calls ranks are blocked.

ghost use Rattle.std.specs.Prelude.{◌≡◌, true, ◌↔◌, OnOk};
ghost use Rattle.must_base.specs.Listing.{Has};
ghost use Rattle.must_find.specs.Adds.{Adds};
ghost use Rattle.must_wait.specs.Core.{IsCore};
ghost use Rattle.must_wait.specs.CoreLaws.{in_core};
ghost use Rattle.must_wait.specs.Needs.{needs_of};
ghost use Rattle.must_wait.specs.Replay.{IsBlockedList};
ghost use Rattle.must_node.specs.Waits.{first_unreached, waits_for, wait_finding, wait_rule, IsWaitOf, IsWaitRow};

use must_base::NoMemory;
use must_call::Place;
use must_find::{Finding, Findings, Rule};
use must_wait::{Blocked, RankSet, Rows, core, is_reached, replay};
use std::alloc::Global;

/// The first of these places that the replay doesn't reach.
fn first_unreached(rows: &Rows, blocked: &Blocked, places: &[Place]) -> Option<Place>
    requires { IsBlockedList rows.now blocked.now }
    ensures { result ≡ first_unreached rows.now places.now }
{
    for place in places {
        if !is_reached(rows, blocked, *place) {
            return Some(*place);
        }
    }
    None
}

/// What a blocked call waits for first.
fn waits_for(rows: &Rows, blocked: &Blocked, place: Place) -> Option<Place>
    requires { IsBlockedList rows.now blocked.now }
    ensures { result ≡ waits_for rows.now (needs_of rows.now place.rank place.call) }
{
    match rows.needs(place.rank, place.call) {
        None => None,
        Some(needs) => match needs.items().first() {
            None => None,
            Some(places) => first_unreached(rows, blocked, places.items()),
        },
    }
}

/// Whether a rank is one of these.
fn has_rank(ranks: &[u32], rank: u32) -> bool
    ensures { (result ≡ true) ↔ Has ranks.now rank }
{
    for other in ranks {
        if *other == rank {
            return true;
        }
    }
    false
}

/// W1 or W2.
fn wait_rule(is_core: bool) -> Rule
    ensures { result ≡ wait_rule is_core }
{
    if is_core { Rule::W1 } else { Rule::W2 }
}

/// The row of a blocked call.
fn finding_of(rows: &Rows, blocked: &Blocked, core: &RankSet, place: Place) -> Finding
    requires blocked { IsBlockedList rows.now blocked.now }
    requires core { IsCore rows.now blocked.now core.now }
    ensures { result ≡ wait_finding rows.now (in_core rows.now blocked.now place.rank) place }
{
    Finding {
        rank: place.rank,
        call: place.call,
        rule: wait_rule(has_rank(core.items(), place.rank)),
        part: 0,
        see: waits_for(rows, blocked, place),
        value: 0,
    }
}

/// Adds the rows of the blocked calls.
fn report_blocked(
    rows: &Rows,
    blocked: &Blocked,
    core: &RankSet,
    out: &mut Findings,
) -> Result<(), NoMemory>
    requires blocked { IsBlockedList rows.now blocked.now }
    requires core { IsCore rows.now blocked.now core.now }
    ensures { OnOk result (Adds out.old out.new (IsWaitOf rows.now blocked.now blocked.now)) }
{
    for place in blocked.items() {
        out.add(finding_of(rows, blocked, core, *place))?;
    }
    Ok(())
}

/// Adds W1 or W2 for each blocked rank. A rank is compared with those of the core, of which there are at most 1,024.
pub(crate) fn add_waits(alloc: Global, rows: &Rows, out: &mut Findings) -> Result<(), NoMemory>
    ensures { OnOk result (Adds out.old out.new (IsWaitRow rows.now)) }
{
    let blocked = replay(alloc, rows)?;
    let core = core(alloc, rows, &blocked)?;
    report_blocked(rows, &blocked, &core, out)
}

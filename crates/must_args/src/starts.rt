//! Rule H5: requests that are active where a call starts them.

ghost use Rattle.std.specs.Prelude.{◌≡◌, ◌<◌, ◌^◌, ◌||◌, ℕ, length, true, false, [], nat_eq, OnOk, IfOk};
ghost use Rattle.std.specs.Ordering.{nat_cmp};
ghost use Rattle.std.specs.BTreeSet.{contains};
ghost use Rattle.must_call.specs.Handles.{handles_of};
ghost use Rattle.must_rules.specs.Breaches.{AddsBreaches};
ghost use Rattle.must_rules.specs.ArgumentHandles.{active, active_from, active_requests};
ghost use Rattle.must_args.specs.Told.{handle_told};

use crate::adding::add_handle;
use crate::view::View;
use must_base::NoMemory;
use must_call::{Body, Persist, Place};
use must_find::{Findings, Rule};
use std::alloc::Global;
use std::collections::BTreeSet;

/// The start that a request shows: `again` says that this very call, with number `here`, started it before.
fn judge_start<V: View>(
    view: &V,
    here: u32,
    again: bool,
    request: u32,
) -> Option<(Rule, Option<u32>)>
    ensures { (part : ℕ) → handle_told part request result ≡ active here again part request (V.starts view.now request) }
{
    match view.start_of(request) {
        Some(start) => Some((Rule::H5, Some(start))),
        None => {
            if again {
                Some((Rule::H5, Some(here)))
            } else {
                None
            }
        }
    }
}

/// Adds the requests that were active before the call.
fn judge_active<V: View>(
    view: &V,
    at: Place,
    requests: &[u32],
    rows: &mut Findings,
) -> Result<(), NoMemory>
    requires { length requests.now < 2 ^ 32 }
    ensures { OnOk result (AddsBreaches at rows.old rows.new (active_from (V.starts view.now) at.call false [] 0 requests.now)) }
{
    for (i, request) in requests.iter().enumerate() {
        let broken = judge_start(view, at.call, false, *request);
        add_handle(rows, at, i as u32, *request, broken)?;
    }
    Ok(())
}

/// Puts a request among those seen, and tells whether it was there. Takes time for the logarithm of their number.
pub fn was_seen(seen: &mut BTreeSet<u32>, request: u32) -> Result<bool, NoMemory>
    ensures again { IfOk result (λ again. again ≡ contains nat_cmp seen.old request) }
    ensures seen { OnOk result ((h : ℕ) → contains nat_cmp seen.new h ≡ (contains nat_cmp seen.old h || nat_eq h request)) }
{
    let added = seen.insert(request)?;
    Ok(!added)
}

/// Adds the requests of a clear call that were active before it, or that stand in its list before.
fn judge_started<V: View>(
    alloc: Global,
    view: &V,
    at: Place,
    requests: &[u32],
    rows: &mut Findings,
) -> Result<(), NoMemory>
    requires { length requests.now < 2 ^ 32 }
    ensures { OnOk result (AddsBreaches at rows.old rows.new (active_from (V.starts view.now) at.call true [] 0 requests.now)) }
{
    let mut seen = BTreeSet::new(alloc);
    for (i, request) in requests.iter().enumerate() {
        let again = was_seen(&mut seen, *request)?;
        let broken = judge_start(view, at.call, again, *request);
        add_handle(rows, at, i as u32, *request, broken)?;
    }
    Ok(())
}

/// Adds the active requests that a call starts; `clear` says whether it is.
pub(crate) fn judge_starts<V: View>(
    alloc: Global,
    view: &V,
    at: Place,
    clear: bool,
    body: &Body,
    rows: &mut Findings,
) -> Result<(), NoMemory>
    requires { length (handles_of body.now) < 2 ^ 32 }
    ensures { OnOk result (AddsBreaches at rows.old rows.new (active_requests (V.starts view.now) at.call clear body.now)) }
{
    match body {
        Body::Persist(Persist::Start { request }) => judge_active(view, at, &[*request], rows),
        Body::Persist(Persist::Startall { requests }) => {
            if clear {
                judge_started(alloc, view, at, requests.items(), rows)
            } else {
                judge_active(view, at, requests.items(), rows)
            }
        }
        _ => Ok(()),
    }
}

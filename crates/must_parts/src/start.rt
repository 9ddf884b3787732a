//! Persistent requests that a call starts.

ghost use Rattle.std.specs.Prelude.{◌≡◌, ◌≤◌, ◌+◌, ◌++◌, ◌∷◌, [], ℕ, Bool, true, false, not, ◌&&◌, nat_lt, List, length, Option, Some, None, if◌then◌else◌, IfOk, IfErr, OnOk};
ghost use Rattle.std.specs.Option.{option_map};
ghost use Rattle.must_call.specs.declared.call.Call.{Call};
ghost use Rattle.must_find.specs.declared.rule.Rule.TheVariants.{T3};
ghost use Rattle.must_find.specs.Adds.{Adds};
ghost use Rattle.must_rules.specs.Rank.{Rank};
ghost use Rattle.must_rules.specs.Answer.{IsAnswer};
ghost use Rattle.must_rules.specs.Clear.{is_clear};
ghost use Rattle.must_rules.specs.Making.{started_of};
ghost use Rattle.must_rules.specs.Starts.{is_start_kind};
ghost use Rattle.must_rules.specs.Parts.{Part};
ghost use Rattle.must_rules.specs.PendingOperations.{Operation, operations_weight, pending as pending_behind, most_pending, pending_limit_at, clash_of};
ghost use Rattle.must_parts.specs.Placing.{IsPlaced, IsPlacedOf};
ghost use Rattle.must_parts.specs.Holding.{AreHeld};
ghost use Rattle.must_parts.specs.Keeping.{HaveParts, AreKept};
ghost use Rattle.must_parts.specs.Starting.{starts_now, starting, part_for, begun_for, begun_by, clash_started};
ghost use Rattle.must_parts.specs.Rows.{BufferRows, IsOfRule, IsPendingLimit, IsWide};
ghost use Rattle.must_parts.specs.Telling.{SeesStarts};

use crate::begin::begin;
use crate::clashes::judge_part;
use crate::fault::BuffersFault;
use crate::kept::Kept;
use crate::lay::Laid;
use crate::overlaps::add_answer;
use crate::placed::Placed;
use crate::take::is_too_wide;
use must_args::{View, was_seen};
use must_base::NoMemory;
use must_call::{Body, Call, Persist, Place};
use must_find::{Findings, Rule};
use must_pending::Pending;
use must_span::Spans;
use std::alloc::Global;
use std::collections::BTreeSet;

/// Whether a call starts a request, if it's a live persistent one; `again` says that the request stands in the list before.
fn starts_now<V: View>(view: &V, clear: bool, again: bool, request: u32) -> bool
    ensures { result ≡ starts_now clear (V.starts view.now) again request }
{
    if clear {
        if view.start_of(request).is_none() {
            !again
        } else {
            false
        }
    } else {
        false
    }
}

/// The request, where it is started.
fn if_started(is_started: bool, request: u32) -> Option<u32>
    ensures { result ≡ (if is_started then Some request else None) }
{
    if is_started { Some(request) } else { None }
}

/// Each of these requests, where the call starts it if it's a live persistent one.
fn starting<V: View>(
    alloc: Global,
    view: &V,
    clear: bool,
    requests: &[u32],
) -> Result<Vec<Option<u32>>, NoMemory>
    ensures { IfOk result (λ started. started.items ≡ starting clear (V.starts view.now) [] requests.now) }
{
    let mut seen = BTreeSet::new(alloc);
    let mut started = Vec::new(alloc);
    for request in requests {
        let again = was_seen(&mut seen, *request)?;
        let is_started = starts_now(view, clear, again, *request);
        started.push(if_started(is_started, *request))?;
    }
    Ok(started)
}

/// The part of a request that is started.
fn part_for(kept: &Kept, request: Option<u32>) -> Option<&Placed>
    ensures { (part : ℕ → Option Part) → HaveParts kept.now part → IsPlacedOf (option_map (λ p. p.now) result) (part_for part request) }
{
    match request {
        Some(request) => kept.part(request),
        None => None,
    }
}

/// The weight of the part of a request that is started.
fn weight_for(kept: &Kept, request: Option<u32>) -> u64
    ensures { (part : ℕ → Option Part) (call : ℕ) → HaveParts kept.now part → result ≡ operations_weight (begun_for call part request []) }
{
    match part_for(kept, request) {
        Some(part) => part.weight,
        None => 0,
    }
}

/// The sum of the weights of the parts of requests that are started.
fn weight_started(kept: &Kept, started: &[Option<u32>]) -> Result<u128, NoMemory>
    ensures { IfOk result (λ weight. (part : ℕ → Option Part) (call : ℕ) → HaveParts kept.now part → weight ≡ operations_weight (begun_by call part started.now)) }
{
    let mut weight: u128 = 0;
    for request in started {
        let Some(more) = weight.checked_add(u128::from(weight_for(kept, *request))) else {
            return Err(NoMemory);
        };
        weight = more;
    }
    Ok(weight)
}

/// A part once more. Takes time and memory for its ranges.
fn copy(alloc: Global, part: &Placed) -> Result<Placed, NoMemory>
    ensures { IfOk result (λ copied. (p : Part) → IsPlaced part.now p → IsPlaced copied p) }
{
    let mut spans = Spans::empty(alloc);
    spans.join(alloc, &part.laid.spans)?;
    Ok(Placed {
        number: part.number,
        access: part.access,
        weight: part.weight,
        laid: Laid {
            spans,
            overlaps: part.laid.overlaps,
        },
    })
}

/// Begins the operation of a request that is started, with this part.
fn begin_started(
    pending: &mut Pending,
    alloc: Global,
    call: u32,
    request: Option<u32>,
    part: Option<&Placed>,
) -> Result<(), NoMemory>
    ensures { OnOk result ((part_of : ℕ → Option Part) (ops : List Operation) → IsPlacedOf (option_map (λ p. p.now) part.entry) (part_for part_of request) → AreHeld pending.old ops → AreHeld pending.new (ops ++ begun_for call part_of request [])) }
{
    let Some(request) = request else {
        return Ok(());
    };
    let Some(part) = part else {
        return Ok(());
    };
    begin(pending, call, request, copy(alloc, part)?)?;
    Ok(())
}

/// Adds the rows of T3 at a call that starts these requests, each beside what the call started before it, and begins their
/// operations.
fn start_all(
    pending: &mut Pending,
    alloc: Global,
    kept: &Kept,
    at: Place,
    started: &[Option<u32>],
    rows: &mut Findings,
) -> Result<(), NoMemory>
    ensures rows { OnOk result ((part : ℕ → Option Part) (ops : List Operation) → HaveParts kept.now part → AreHeld pending.old ops → Adds rows.old rows.new (IsOfRule at T3 (clash_started at.rank at.call part ops started.now))) }
    ensures stands { OnOk result ((part : ℕ → Option Part) (ops : List Operation) → HaveParts kept.now part → AreHeld pending.old ops → AreHeld pending.new (ops ++ begun_by at.call part started.now)) }
{
    for (i, request) in started.iter().enumerate() {
        let Ok(index) = u32::try_from(i) else {
            return Err(NoMemory);
        };
        let part = part_for(kept, *request);
        let answer = judge_part(at.rank, pending, part);
        add_answer(rows, at, Rule::T3, index, answer)?;
        begin_started(pending, alloc, at.call, *request, part)?;
    }
    Ok(())
}

/// The requests that a call starts where it is clear.
fn started_by(body: &Body) -> &[u32]
    ensures { result.now ≡ started_of body.now }
{
    match body {
        Body::Persist(Persist::Start { request }) => std::slice::from_ref(request),
        Body::Persist(Persist::Startall { requests }) => requests.items(),
        _ => &[],
    }
}

/// Starts these requests, and adds the rows of T3.
fn start_requests<V: View>(
    pending: &mut Pending,
    alloc: Global,
    view: &V,
    kept: &Kept,
    at: Place,
    size: u32,
    clear: bool,
    requests: &[u32],
    rows: &mut Findings,
) -> Result<(), BuffersFault>
    ensures rows { OnOk result ((part : ℕ → Option Part) (ops : List Operation) → HaveParts kept.now part → AreHeld pending.old ops → Adds rows.old rows.new (IsOfRule at T3 (clash_started at.rank at.call part ops (starting clear (V.starts view.now) [] requests.now)))) }
    ensures stands { OnOk result ((part : ℕ → Option Part) (ops : List Operation) → HaveParts kept.now part → AreHeld pending.old ops → AreHeld pending.new (ops ++ begun_by at.call part (starting clear (V.starts view.now) [] requests.now))) }
    ensures within { OnOk result ((part : ℕ → Option Part) (ops : List Operation) → HaveParts kept.now part → AreHeld pending.old ops → nat_lt (most_pending size) (operations_weight ops + operations_weight (begun_by at.call part (starting clear (V.starts view.now) [] requests.now))) ≡ false) }
    ensures over { IfErr result (λ fault. (part : ℕ → Option Part) (ops : List Operation) → HaveParts kept.now part → AreHeld pending.old ops → IsWide (nat_lt (most_pending size) (operations_weight ops + operations_weight (begun_by at.call part (starting clear (V.starts view.now) [] requests.now)))) fault) }
{
    let started = starting(alloc, view, clear, requests)?;
    let weight = weight_started(kept, started.as_slice())?;
    if is_too_wide(size, pending.weight(), weight)? {
        return Err(BuffersFault::TooWide);
    }
    start_all(pending, alloc, kept, at, started.as_slice(), rows)?;
    Ok(())
}

/// Takes a call that starts persistent requests, whose parts are kept: adds its rows of T3, each beside what the call started
/// before it, and begins their operations. `clear` says whether the call is, as `check_args` answers it. The rest is as in
/// `take_plain`.
pub fn take_start<V: View>(
    pending: &mut Pending,
    alloc: Global,
    view: &V,
    kept: &Kept,
    at: Place,
    size: u32,
    call: &Call,
    clear: bool,
    rows: &mut Findings,
) -> Result<(), BuffersFault>
    requires clear { clear ≡ is_clear (V.facts view.now) call.now.body }
    requires start { is_start_kind call.now.body ≡ true }
    ensures rows { OnOk result ((r : Rank) (calls : List Call) → r.rank ≡ at.rank → length calls ≡ at.call → SeesStarts r calls (V.facts view.now) (V.starts view.now) → AreKept kept.now r calls → AreHeld pending.old (pending_behind r calls) → Adds rows.old rows.new (BufferRows at r calls call.now)) }
    ensures stands { OnOk result ((r : Rank) (calls : List Call) → length calls ≡ at.call → SeesStarts r calls (V.facts view.now) (V.starts view.now) → AreKept kept.now r calls → AreHeld pending.old (pending_behind r calls) → AreHeld pending.new (pending_behind r (calls ++ call.now ∷ []))) }
    ensures within { OnOk result ((r : Rank) (calls : List Call) → r.size ≡ size → length calls ≡ at.call → SeesStarts r calls (V.facts view.now) (V.starts view.now) → AreKept kept.now r calls → AreHeld pending.old (pending_behind r calls) → pending_limit_at r calls call.now ≡ None) }
    ensures over { IfErr result (λ fault. (r : Rank) (calls : List Call) → r.size ≡ size → length calls ≡ at.call → SeesStarts r calls (V.facts view.now) (V.starts view.now) → AreKept kept.now r calls → AreHeld pending.old (pending_behind r calls) → IsPendingLimit (pending_limit_at r calls call.now) fault) }
{
    start_requests(
        pending,
        alloc,
        view,
        kept,
        at,
        size,
        clear,
        started_by(&call.body),
        rows,
    )?;
    Ok(())
}

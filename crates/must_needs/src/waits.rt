//! What a call waits for, by names (docs/MESSAGES.md, "Needs").

ghost use Rattle.std.specs.Prelude.{◌≡◌, ◌+◌, ◌++◌, ◌∷◌, ◌&&◌, ◌||◌, [], ℕ, List, length, nat_eq, IfOk, OnOk};
ghost use Rattle.std.specs.Option.{option_to_list};
ghost use Rattle.std.specs.Ordering.{nat_cmp};
ghost use Rattle.std.specs.BTreeSet.{contains};
ghost use Rattle.must_call.specs.declared.body.Body.TheVariants as body;
ghost use Rattle.must_call.specs.declared.call.Call.{Call};
ghost use Rattle.must_call.specs.Fields.{output};
ghost use Rattle.must_call.specs.Kinds.{kind_of};
ghost use Rattle.must_rules.specs.Rank.{Rank};
ghost use Rattle.must_rules.specs.Numbered.{AreNumbered};
ghost use Rattle.must_rules.specs.Starts.{start_of};
ghost use Rattle.must_rules.specs.Known.{clear_behind};
ghost use Rattle.must_rules.specs.Operations.{operations_at, operations_of};
ghost use Rattle.must_messages.specs.CallNeeds.{is_started_collective, answers_request, waits_for_wave, request_needs, wave_wants, clear_ways, ways_by};
ghost use Rattle.must_hold.specs.Keeping.{Keeps};
ghost use Rattle.must_needs.specs.Naming.{AreStarted};
ghost use Rattle.must_needs.specs.Stating.{name_of, numbers_from, AreNamed, AreWays};

use crate::names::{Name, Ways};
use must_args::View;
use must_base::NoMemory;
use must_call::{Body, Call, Finish, Point};
use must_hold::Messages;
use std::alloc::Global;
use std::collections::BTreeSet;

/// What is known of the next call of a rank.
#[derive(Clone, Copy)]
pub(crate) struct Next {
    pub number: u32,
    pub clear: bool,
    /// How many operations it begins.
    pub begun: usize,
    /// It is a collective call that waits for its wave, if it is a blocking one.
    pub waits: bool,
}

/// Whether a call answers a request.
fn answers_request(point: &Point) -> bool
    ensures { result ≡ answers_request (output (kind_of (body.Point point.now))) }
{
    matches!(
        point,
        Point::Isend { .. }
            | Point::Issend { .. }
            | Point::Ibsend { .. }
            | Point::Irsend { .. }
            | Point::Irecv { .. }
    )
}

/// The operation with this number, where it is one of so many.
fn name_of(number: Option<u64>, count: u64) -> Name
    ensures { result ≡ name_of number count }
{
    match number {
        Some(number) => {
            if number < count {
                Name::Operation(number)
            } else {
                Name::Nothing
            }
        }
        None => Name::Nothing,
    }
}

/// What the completion of a request waits for; none where the request isn't active.
fn name_request<V: View>(
    view: &V,
    messages: &Messages,
    started: &BTreeSet<u32>,
    request: u32,
) -> Option<Name>
    ensures { (r : Rank) (calls : List Call) → V.starts view.now ≡ start_of (clear_behind r) calls → AreNumbered 64 calls → Keeps r calls messages.now → AreStarted r calls started.now
        → AreNamed r (operations_of r calls) (λ need. request_needs r need calls (request ∷ [])) (option_to_list result) }
{
    let Some(start) = view.start_of(request) else {
        return None;
    };
    if started.contains(&start) {
        return Some(Name::Wave(start));
    }
    let number = messages.under_way(request);
    Some(name_of(number, messages.count()))
}

/// Puts a name behind others, where there is one.
fn push_name(names: &mut Vec<Name>, name: Option<Name>) -> Result<(), NoMemory>
    ensures { OnOk result (names.new.items ≡ names.old.items ++ option_to_list name) }
{
    if let Some(name) = name {
        names.push(name)?;
    }
    Ok(())
}

/// What the completion of requests waits for, in their order; those that aren't active are left out.
fn name_requests<V: View>(
    alloc: Global,
    view: &V,
    messages: &Messages,
    started: &BTreeSet<u32>,
    requests: &[u32],
) -> Result<Vec<Name>, NoMemory>
    ensures { IfOk result (λ names. (r : Rank) (calls : List Call) → V.starts view.now ≡ start_of (clear_behind r) calls → AreNumbered 64 calls → Keeps r calls messages.now → AreStarted r calls started.now
        → AreNamed r (operations_of r calls) (λ need. request_needs r need calls requests.now) names.items) }
{
    let mut names = Vec::new(alloc);
    for request in requests {
        let name = name_request(view, messages, started, *request);
        push_name(&mut names, name)?;
    }
    Ok(names)
}

/// The number behind another. `NoMemory` comes where it has none of 64 bits.
fn number_behind(number: u64) -> Result<u64, NoMemory>
    ensures { IfOk result (λ next. next ≡ number + 1) }
{
    match number.checked_add(1) {
        Some(next) => Ok(next),
        None => Err(NoMemory),
    }
}

/// The names of so many operations, of which the first has this number.
fn name_numbers(alloc: Global, first: u64, count: usize) -> Result<Vec<Name>, NoMemory>
    ensures { IfOk result (λ names. names.items ≡ numbers_from first count) }
{
    let mut names = Vec::new(alloc);
    let mut number = first;
    for _ in 0..count {
        names.push(Name::Operation(number))?;
        number = number_behind(number)?;
    }
    Ok(names)
}

/// What a call waits for that sends, receives or probes, and so begins so many operations.
fn point_ways(
    alloc: Global,
    messages: &Messages,
    point: &Point,
    begun: usize,
) -> Result<Ways, NoMemory>
    ensures { IfOk result (λ ways. (r : Rank) (calls : List Call) (call : Call) → call.body ≡ body.Point point.now → Keeps r calls messages.now → begun ≡ length (operations_at r calls call)
        → AreWays r (operations_of r (calls ++ call ∷ [])) (λ need. clear_ways r need calls call call.body) ways) }
{
    if answers_request(point) {
        return Ok(Ways::All(Vec::new(alloc)));
    }
    let names = name_numbers(alloc, messages.count(), begun)?;
    Ok(Ways::All(names))
}

/// What a call waits for that takes requests.
fn finish_ways<V: View>(
    alloc: Global,
    view: &V,
    messages: &Messages,
    started: &BTreeSet<u32>,
    finish: &Finish,
) -> Result<Ways, NoMemory>
    ensures { IfOk result (λ ways. (r : Rank) (calls : List Call) (call : Call) → call.body ≡ body.Finish finish.now → V.starts view.now ≡ start_of (clear_behind r) calls → AreNumbered 64 calls → Keeps r calls messages.now → AreStarted r calls started.now
        → AreWays r (operations_of r calls) (λ need. clear_ways r need calls call call.body) ways) }
{
    match finish {
        Finish::Wait { request, .. } => {
            let names = name_requests(alloc, view, messages, started, &[*request])?;
            Ok(Ways::All(names))
        }
        Finish::Waitall { requests, .. } => {
            let names = name_requests(alloc, view, messages, started, requests.items())?;
            Ok(Ways::All(names))
        }
        Finish::Waitany { requests, .. } | Finish::Waitsome { requests, .. } => {
            let names = name_requests(alloc, view, messages, started, requests.items())?;
            Ok(Ways::Any(names))
        }
        _ => Ok(Ways::All(Vec::new(alloc))),
    }
}

/// What collective call `k` waits for; `waits` says whether that is its wave.
fn wave_ways(alloc: Global, k: u32, waits: bool) -> Result<Ways, NoMemory>
    ensures { IfOk result (λ ways. (r : Rank) (calls : List Call) (call : Call) → length calls ≡ k → waits ≡ waits_for_wave r calls call
        → AreWays r (operations_of r calls) (λ need. wave_wants r calls call ∷ []) ways) }
{
    let mut names = Vec::new(alloc);
    if waits {
        names.push(Name::Wave(k))?;
    }
    Ok(Ways::All(names))
}

/// What a clear call waits for.
fn clear_ways<V: View>(
    alloc: Global,
    view: &V,
    messages: &Messages,
    started: &BTreeSet<u32>,
    call: &Call,
    next: Next,
) -> Result<Ways, NoMemory>
    ensures { IfOk result (λ ways. (r : Rank) (calls : List Call) → length calls ≡ next.number → V.starts view.now ≡ start_of (clear_behind r) calls → AreNumbered 64 calls → Keeps r calls messages.now → AreStarted r calls started.now → next.begun ≡ length (operations_at r calls call.now) → next.waits ≡ waits_for_wave r calls call.now
        → AreWays r (operations_of r (calls ++ call.now ∷ [])) (λ need. clear_ways r need calls call.now call.now.body) ways) }
{
    match &call.body {
        Body::Point(point) => point_ways(alloc, messages, point, next.begun),
        Body::Finish(finish) => finish_ways(alloc, view, messages, started, finish),
        Body::Object(_) | Body::Collective(_) => wave_ways(alloc, next.number, next.waits),
        _ => Ok(Ways::All(Vec::new(alloc))),
    }
}

/// What the next call waits for. `messages` are those before it, and `started` the nonblocking collective calls before it that wait
/// for their waves.
pub(crate) fn ways_at<V: View>(
    alloc: Global,
    view: &V,
    messages: &Messages,
    started: &BTreeSet<u32>,
    call: &Call,
    next: Next,
) -> Result<Ways, NoMemory>
    ensures { IfOk result (λ ways. (r : Rank) (calls : List Call) → length calls ≡ next.number → next.clear ≡ clear_behind r calls call.now → V.starts view.now ≡ start_of (clear_behind r) calls → AreNumbered 64 calls → Keeps r calls messages.now → AreStarted r calls started.now → next.begun ≡ length (operations_at r calls call.now) → next.waits ≡ waits_for_wave r calls call.now
        → AreWays r (operations_of r (calls ++ call.now ∷ [])) (λ need. ways_by r need calls call.now) ways) }
{
    if next.clear {
        clear_ways(alloc, view, messages, started, call, next)
    } else {
        Ok(Ways::All(Vec::new(alloc)))
    }
}

/// Whether a call is a nonblocking collective one.
fn is_started(body: &Body) -> bool
    ensures { result ≡ is_started_collective body.now }
{
    matches!(body, Body::Started(_))
}

/// Puts the next call among the nonblocking collective calls that wait for their waves, if it is one.
pub(crate) fn put_started(
    started: &mut BTreeSet<u32>,
    body: &Body,
    next: Next,
) -> Result<(), NoMemory>
    ensures { OnOk result ((k : ℕ) → contains nat_cmp started.new k ≡ (contains nat_cmp started.old k || ((is_started_collective body.now && next.waits) && nat_eq k next.number))) }
{
    if is_started(body) && next.waits {
        started.insert(next.number)?;
    }
    Ok(())
}

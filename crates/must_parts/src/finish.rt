//! Pending operations that a call ends: their requests are completed or freed.

ghost use Rattle.std.specs.Prelude.{◌≡◌, List, slice_get, if◌then◌else◌};
ghost use Rattle.std.specs.Option.{option_to_list};
ghost use Rattle.must_call.specs.declared.body.Body.TheVariants as body;
ghost use Rattle.must_rules.specs.Making.{picked, chosen, completed_of};
ghost use Rattle.must_rules.specs.PendingOperations.{Operation, left_by};
ghost use Rattle.must_parts.specs.Holding.{AreHeld};
ghost use Rattle.must_parts.specs.Ending.{left, completed_in, freed_in};

use must_call::{Body, Call, Choice, Completion, Finish};
use must_pending::Pending;

/// Ends the operations of these requests.
fn finish_all(pending: &mut Pending, requests: &[u32])
    ensures { pending.new ≡ left requests.now pending.old }
{
    for request in requests {
        pending.finish(*request);
    }
}

/// Ends those of the request with this index in the list.
fn finish_index(pending: &mut Pending, requests: &[u32], index: u32)
    ensures { pending.new ≡ left (option_to_list (slice_get requests.now index)) pending.old }
{
    match requests.get(index as usize) {
        Some(request) => finish_all(pending, &[*request]),
        None => finish_all(pending, &[]),
    }
}

/// Ends those of the requests with these indices in the list.
fn finish_picked(pending: &mut Pending, requests: &[u32], completions: &[Completion])
    ensures { pending.new ≡ left (picked requests.now completions.now) pending.old }
{
    for completion in completions {
        finish_index(pending, requests, completion.index);
    }
}

/// Ends those of the request with this index in the list.
fn finish_chosen(pending: &mut Pending, requests: &[u32], choice: Choice)
    ensures { pending.new ≡ left (chosen requests.now choice) pending.old }
{
    if choice.index < 0 {
        finish_all(pending, &[]);
        return;
    }
    match requests.get(choice.index as usize) {
        Some(request) => finish_all(pending, &[*request]),
        None => finish_all(pending, &[]),
    }
}

/// Ends those of the requests that a call says are complete.
fn finish_told(pending: &mut Pending, finish: &Finish)
    ensures { pending.new ≡ left (completed_of (body.Finish finish.now)) pending.old }
{
    match finish {
        Finish::Wait {
            request,
            status: Some(_),
        }
        | Finish::Test {
            request,
            status: Some(Some(_)),
        } => finish_all(pending, &[*request]),
        Finish::Waitall {
            requests,
            statuses: Some(_),
        }
        | Finish::Testall {
            requests,
            statuses: Some(Some(_)),
        } => finish_all(pending, requests.items()),
        Finish::Waitany {
            requests,
            choice: Some(choice),
        }
        | Finish::Testany {
            requests,
            choice: Some(Some(choice)),
        } => finish_chosen(pending, requests.items(), *choice),
        Finish::Waitsome {
            requests,
            completions: Some(Some(completions)),
        }
        | Finish::Testsome {
            requests,
            completions: Some(Some(completions)),
        } => finish_picked(pending, requests.items(), completions.items()),
        _ => finish_all(pending, &[]),
    }
}

/// Ends those of the requests that a call completes.
fn finish_completed(pending: &mut Pending, call: &Call)
    ensures { pending.new ≡ left (completed_in call.now) pending.old }
{
    if call.returned {
        if let Body::Finish(finish) = &call.body {
            finish_told(pending, finish);
            return;
        }
    }
    finish_all(pending, &[]);
}

/// Ends those of the request that a call frees.
fn finish_freed(pending: &mut Pending, call: &Call)
    ensures { pending.new ≡ left (freed_in call.now) pending.old }
{
    if call.returned {
        if let Body::Finish(Finish::RequestFree { request }) = &call.body {
            finish_all(pending, &[*request]);
            return;
        }
    }
    finish_all(pending, &[]);
}

/// Ends the operations of the requests that a call completes or frees. Takes no memory.
pub fn finish_call(pending: &mut Pending, call: &Call)
    ensures { (ops : List Operation) → AreHeld pending.old ops → AreHeld pending.new (left_by call.now ops) }
{
    finish_completed(pending, call);
    finish_freed(pending, call);
}

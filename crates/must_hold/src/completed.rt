//! What a call recorded of the requests that it completes.

ghost use Rattle.std.specs.Prelude.{◌≡◌, ◌++◌, map, slice_get, OnOk, IfOk};
ghost use Rattle.std.specs.List.{flat_map};
ghost use Rattle.std.specs.Option.{option_to_list};
ghost use Rattle.must_call.specs.declared.body.Body.TheVariants as body;
ghost use Rattle.must_call.specs.Bodies.{given_of};
ghost use Rattle.must_rules.specs.Making.{cancelled_of, completed_of, requests_of, picked as requests_picked, chosen as requests_chosen};
ghost use Rattle.must_rules.specs.Fates.{each_from, at_index, at_choice, completed_among, completions_in};
ghost use Rattle.must_hold.specs.Named.{completed_in, freed_in};
ghost use Rattle.must_hold.specs.Told.{recorded_seen};

use must_base::NoMemory;
use must_call::{Body, Call, Choice, Completion, Finish, Status3};
use std::alloc::Global;

/// The request at an index of a call that completes it, and its status.
#[derive(Clone, Copy, Debug, PartialEq, Eq)]
pub struct Recorded {
    pub index: u32,
    pub request: u32,
    pub status: Status3,
}

/// The index of a place in a list. `NoMemory` comes where it has no number of 32 bits.
fn index_of(place: usize) -> Result<u32, NoMemory>
    ensures { IfOk result (λ index. index ≡ place) }
{
    match u32::try_from(place) {
        Ok(index) => Ok(index),
        Err(_) => Err(NoMemory),
    }
}

/// The request with this index.
fn request_at(requests: &[u32], index: usize) -> Option<u32>
    ensures { result ≡ slice_get requests.now index }
{
    requests.get(index).copied()
}

/// The status with this index.
fn status_at(statuses: &[Status3], index: usize) -> Option<Status3>
    ensures { result ≡ slice_get statuses.now index }
{
    statuses.get(index).copied()
}

/// One status for each request.
fn each(alloc: Global, requests: &[u32], statuses: &[Status3]) -> Result<Vec<Recorded>, NoMemory>
    ensures { IfOk result (λ told. map recorded_seen told.items ≡ each_from 0 requests.now statuses.now) }
{
    let mut told = Vec::new(alloc);
    for i in 0..requests.len() {
        let Some(request) = request_at(requests, i) else {
            return Ok(told);
        };
        let Some(status) = status_at(statuses, i) else {
            return Ok(told);
        };
        let index = index_of(i)?;
        told.push(Recorded {
            index,
            request,
            status,
        })?;
    }
    Ok(told)
}

/// The request with this index, where there is one.
fn push_index(
    told: &mut Vec<Recorded>,
    requests: &[u32],
    index: u32,
    status: Status3,
) -> Result<(), NoMemory>
    ensures { OnOk result (map recorded_seen told.new.items ≡ map recorded_seen told.old.items ++ at_index requests.now status index) }
{
    let Some(request) = request_at(requests, index as usize) else {
        return Ok(());
    };
    told.push(Recorded {
        index,
        request,
        status,
    })?;
    Ok(())
}

/// The request with the chosen index, where there is one.
fn chosen(alloc: Global, requests: &[u32], choice: Choice) -> Result<Vec<Recorded>, NoMemory>
    ensures { IfOk result (λ told. map recorded_seen told.items ≡ at_choice requests.now choice.status choice.index) }
{
    let mut told = Vec::new(alloc);
    if 0 <= choice.index {
        push_index(&mut told, requests, choice.index as u32, choice.status)?;
    }
    Ok(told)
}

/// The requests with these indices.
fn picked(
    alloc: Global,
    requests: &[u32],
    completions: &[Completion],
) -> Result<Vec<Recorded>, NoMemory>
    ensures { IfOk result (λ told. map recorded_seen told.items ≡ flat_map (λ c. at_index requests.now c.status c.index) completions.now) }
{
    let mut told = Vec::new(alloc);
    for completion in completions {
        push_index(&mut told, requests, completion.index, completion.status)?;
    }
    Ok(told)
}

/// What a call that takes requests recorded.
fn told(alloc: Global, finish: &Finish) -> Result<Vec<Recorded>, NoMemory>
    ensures { IfOk result (λ told. map recorded_seen told.items ≡ completed_among (given_of (body.Finish finish.now)) (requests_of (body.Finish finish.now))) }
{
    match finish {
        Finish::Wait {
            request,
            status: Some(status),
        }
        | Finish::Test {
            request,
            status: Some(Some(status)),
        } => each(alloc, &[*request], &[*status]),
        Finish::Waitall {
            requests,
            statuses: Some(statuses),
        }
        | Finish::Testall {
            requests,
            statuses: Some(Some(statuses)),
        } => each(alloc, requests.items(), statuses.items()),
        Finish::Waitany {
            requests,
            choice: Some(choice),
        }
        | Finish::Testany {
            requests,
            choice: Some(Some(choice)),
        } => chosen(alloc, requests.items(), *choice),
        Finish::Waitsome {
            requests,
            completions: Some(Some(completions)),
        }
        | Finish::Testsome {
            requests,
            completions: Some(Some(completions)),
        } => picked(alloc, requests.items(), completions.items()),
        _ => Ok(Vec::new(alloc)),
    }
}

/// What a call completed, with the statuses that it recorded, in the order of the indices.
pub fn completions(alloc: Global, call: &Call) -> Result<Vec<Recorded>, NoMemory>
    ensures { IfOk result (λ told. map recorded_seen told.items ≡ completions_in call.now) }
{
    if call.returned {
        if let Body::Finish(finish) = &call.body {
            return told(alloc, finish);
        }
    }
    Ok(Vec::new(alloc))
}

/// The request with this index, where there is one.
fn put_index(named: &mut Vec<u32>, requests: &[u32], index: u32) -> Result<(), NoMemory>
    ensures { OnOk result (named.new.items ≡ named.old.items ++ option_to_list (slice_get requests.now index)) }
{
    if let Some(request) = requests.get(index as usize) {
        named.push(*request)?;
    }
    Ok(())
}

/// The request with the chosen index, where there is one.
fn request_chosen(alloc: Global, requests: &[u32], choice: Choice) -> Result<Vec<u32>, NoMemory>
    ensures { IfOk result (λ named. named.items ≡ requests_chosen requests.now choice) }
{
    let mut named = Vec::new(alloc);
    if 0 <= choice.index {
        put_index(&mut named, requests, choice.index as u32)?;
    }
    Ok(named)
}

/// The requests with these indices.
fn requests_picked(
    alloc: Global,
    requests: &[u32],
    completions: &[Completion],
) -> Result<Vec<u32>, NoMemory>
    ensures { IfOk result (λ named. named.items ≡ requests_picked requests.now completions.now) }
{
    let mut named = Vec::new(alloc);
    for completion in completions {
        put_index(&mut named, requests, completion.index)?;
    }
    Ok(named)
}

/// The requests that a call which takes requests says are complete.
fn named(alloc: Global, finish: &Finish) -> Result<Vec<u32>, NoMemory>
    ensures { IfOk result (λ named. named.items ≡ completed_of (body.Finish finish.now)) }
{
    match finish {
        Finish::Wait {
            request,
            status: Some(_),
        }
        | Finish::Test {
            request,
            status: Some(Some(_)),
        } => Ok([*request].to_vec(alloc)?),
        Finish::Waitall {
            requests,
            statuses: Some(_),
        }
        | Finish::Testall {
            requests,
            statuses: Some(Some(_)),
        } => Ok(requests.items().to_vec(alloc)?),
        Finish::Waitany {
            requests,
            choice: Some(choice),
        }
        | Finish::Testany {
            requests,
            choice: Some(Some(choice)),
        } => request_chosen(alloc, requests.items(), *choice),
        Finish::Waitsome {
            requests,
            completions: Some(Some(completions)),
        }
        | Finish::Testsome {
            requests,
            completions: Some(Some(completions)),
        } => requests_picked(alloc, requests.items(), completions.items()),
        _ => Ok(Vec::new(alloc)),
    }
}

/// The requests that a call completes.
pub fn completed(alloc: Global, call: &Call) -> Result<Vec<u32>, NoMemory>
    ensures { IfOk result (λ named. named.items ≡ completed_in call.now) }
{
    if call.returned {
        if let Body::Finish(finish) = &call.body {
            return named(alloc, finish);
        }
    }
    Ok(Vec::new(alloc))
}

/// The request that a call frees.
pub fn freed(call: &Call) -> Option<u32>
    ensures { option_to_list result ≡ freed_in call.now }
{
    if call.returned {
        if let Body::Finish(Finish::RequestFree { request }) = &call.body {
            return Some(*request);
        }
    }
    None
}

/// The request that a call asks to cancel.
pub fn cancelled(call: &Call) -> Option<u32>
    ensures { result ≡ cancelled_of call.now.body }
{
    match &call.body {
        Body::Finish(Finish::Cancel { request }) => Some(*request),
        _ => None,
    }
}

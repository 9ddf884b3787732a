//! Handles that a call frees, and requests that it completes or starts.

ghost use Rattle.std.specs.Prelude.{◌≡◌, slice_get};
ghost use Rattle.std.specs.Option.{option_to_list};
ghost use Rattle.must_call.specs.declared.body.Body.TheVariants as body;
ghost use Rattle.must_rules.specs.Making.{picked, chosen, completed_of, freed_of};
ghost use Rattle.must_handle.specs.Changes.{Changes, free_one, freed_slot, complete_one, complete_requests, completed_slot, start_one, start_requests, started_slot};

use crate::slot::{Slot, is_same, unless_persistent};
use must_call::{
    Body, Call, Choice, Class, Completion, Derive, FIRST_MADE, Finish, Object, Persist,
};

/// Call `k` frees this handle, where it is live.
fn free_handle(slots: &mut [Slot], class: Class, number: u32, k: u32)
    ensures { Changes (free_one class number k) slots.old slots.new }
{
    if number < FIRST_MADE {
        return;
    }
    let i = (number - FIRST_MADE) as usize;
    if i < slots.len() {
        let slot = slots[i];
        if is_same(class, slot.class) && slot.freed.is_none() {
            slots[i] = Slot {
                class: slot.class,
                made: slot.made,
                freed: Some(k),
                committed: slot.committed,
                persistent: slot.persistent,
                start: slot.start,
            };
        }
    }
}

/// The handle that this kind of call frees.
fn freed(body: &Body) -> Option<(Class, u32)>
    ensures { result ≡ freed_of body.now }
{
    match body {
        Body::Finish(Finish::RequestFree { request }) => Some((Class::Request, *request)),
        Body::Derive(Derive::TypeFree { dtype }) => Some((Class::Datatype, *dtype)),
        Body::Object(Object::OpFree { op }) => Some((Class::Operation, *op)),
        Body::Object(Object::GroupFree { group }) => Some((Class::Group, *group)),
        Body::Object(Object::CommFree { comm }) => Some((Class::Comm, *comm)),
        _ => None,
    }
}

/// Call `k` frees the handle that it names to be freed.
#[tactic(auto, unfolding(must_rules::specs::Making::frees))]
pub fn free(slots: &mut [Slot], call: &Call, k: u32)
    ensures { Changes (freed_slot call.now k) slots.old slots.new }
{
    if call.returned {
        if let Some((class, number)) = freed(&call.body) {
            free_handle(slots, class, number, k);
        }
    }
}

/// Call `k` completes this request.
fn complete_request(slots: &mut [Slot], number: u32, k: u32)
    ensures { Changes (complete_one number k) slots.old slots.new }
{
    if number < FIRST_MADE {
        return;
    }
    let i = (number - FIRST_MADE) as usize;
    if i < slots.len() {
        let slot = slots[i];
        if is_same(slot.class, Class::Request) && slot.freed.is_none() {
            slots[i] = Slot {
                class: slot.class,
                made: slot.made,
                freed: unless_persistent(slot.persistent, k),
                committed: slot.committed,
                persistent: slot.persistent,
                start: None,
            };
        }
    }
}

/// Call `k` completes each of these requests.
fn complete_all(slots: &mut [Slot], requests: &[u32], k: u32)
    ensures { Changes (complete_requests requests.now k) slots.old slots.new }
{
    for request in requests {
        complete_request(slots, *request, k);
    }
}

/// Call `k` completes the request with this index in the list.
fn complete_index(slots: &mut [Slot], requests: &[u32], index: u32, k: u32)
    ensures { Changes (complete_requests (option_to_list (slice_get requests.now index)) k) slots.old slots.new }
{
    match requests.get(index as usize) {
        Some(request) => complete_all(slots, &[*request], k),
        None => complete_all(slots, &[], k),
    }
}

/// Call `k` completes the requests with these indices in the list.
fn complete_picked(slots: &mut [Slot], requests: &[u32], completions: &[Completion], k: u32)
    ensures { Changes (complete_requests (picked requests.now completions.now) k) slots.old slots.new }
{
    for completion in completions {
        complete_index(slots, requests, completion.index, k);
    }
}

/// Call `k` completes the request with this index in the list.
fn complete_chosen(slots: &mut [Slot], requests: &[u32], choice: Choice, k: u32)
    ensures { Changes (complete_requests (chosen requests.now choice) k) slots.old slots.new }
{
    if choice.index < 0 {
        complete_all(slots, &[], k);
        return;
    }
    match requests.get(choice.index as usize) {
        Some(request) => complete_all(slots, &[*request], k),
        None => complete_all(slots, &[], k),
    }
}

/// Call `k` completes the requests that it says are complete.
fn complete_told(slots: &mut [Slot], finish: &Finish, k: u32)
    ensures { Changes (complete_requests (completed_of (body.Finish finish.now)) k) slots.old slots.new }
{
    match finish {
        Finish::Wait {
            request,
            status: Some(_),
        }
        | Finish::Test {
            request,
            status: Some(Some(_)),
        } => complete_all(slots, &[*request], k),
        Finish::Waitall {
            requests,
            statuses: Some(_),
        }
        | Finish::Testall {
            requests,
            statuses: Some(Some(_)),
        } => complete_all(slots, requests.items(), k),
        Finish::Waitany {
            requests,
            choice: Some(choice),
        }
        | Finish::Testany {
            requests,
            choice: Some(Some(choice)),
        } => complete_chosen(slots, requests.items(), *choice, k),
        Finish::Waitsome {
            requests,
            completions: Some(Some(completions)),
        }
        | Finish::Testsome {
            requests,
            completions: Some(Some(completions)),
        } => complete_picked(slots, requests.items(), completions.items(), k),
        _ => complete_all(slots, &[], k),
    }
}

/// Call `k` completes the requests that it says are complete.
#[tactic(auto, unfolding(must_rules::specs::Making::completes))]
pub fn complete(slots: &mut [Slot], call: &Call, k: u32)
    ensures { Changes (completed_slot call.now k) slots.old slots.new }
{
    if call.returned {
        if let Body::Finish(finish) = &call.body {
            complete_told(slots, finish, k);
        }
    }
}

/// Call `k` starts this request, unless it is under way.
fn start_request(slots: &mut [Slot], number: u32, k: u32)
    ensures { Changes (start_one number k) slots.old slots.new }
{
    if number < FIRST_MADE {
        return;
    }
    let i = (number - FIRST_MADE) as usize;
    if i < slots.len() {
        let slot = slots[i];
        if is_same(slot.class, Class::Request) && slot.start.is_none() {
            slots[i] = Slot {
                class: slot.class,
                made: slot.made,
                freed: slot.freed,
                committed: slot.committed,
                persistent: slot.persistent,
                start: Some(k),
            };
        }
    }
}

/// Call `k` starts each of these requests.
fn start_all(slots: &mut [Slot], requests: &[u32], k: u32)
    ensures { Changes (start_requests requests.now k) slots.old slots.new }
{
    for request in requests {
        start_request(slots, *request, k);
    }
}

/// Call `k` starts the requests that it names to be started, if it is clear.
pub fn start(slots: &mut [Slot], call: &Call, clear: bool, k: u32)
    ensures { Changes (started_slot clear call.now k) slots.old slots.new }
{
    if clear {
        match &call.body {
            Body::Persist(Persist::Start { request }) => start_all(slots, &[*request], k),
            Body::Persist(Persist::Startall { requests }) => start_all(slots, requests.items(), k),
            _ => start_all(slots, &[], k),
        }
    }
}

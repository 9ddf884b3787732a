//! Which calls a record may have.

ghost use Rattle.std.specs.Prelude.{◌↔◌, ◌≡◌, ◌+◌, ◌*◌, ◌<◌, ◌≤◌, ◌^◌, IsTrue, IfSome, IfNone, length};
ghost use Rattle.std.specs.List.{AllByRecursion};
ghost use Rattle.must_call.specs.Kinds.{kind_of};
ghost use Rattle.must_call.specs.Fields.{output};
ghost use Rattle.must_call.specs.Bodies.{inputs_of, given_of};
ghost use Rattle.must_format.specs.Values.{AreStatuses, IsStatus, IsChoice, AreRising, AreValues, IsGiven, requests_in};
ghost use Rattle.must_format.specs.Payload.{payload_text};
ghost use Rattle.must_format.specs.Spelling.{Stand, IsSpellable};
ghost use Rattle.must_payload.specs.Fields.{Fits, AllFit, GivenFits, OutputsFit, size_of, sizes, given_size, outputs_size, requests_of_argument, requests_of as requests_of_arguments};

use crate::tables::output_of;
use must_call::{Argument, Body, Call, Choice, Completion, Given, StatusList};
use must_format::MOST_PAYLOAD;
use must_value::Coded;

/// Whether a record may have the call: its outputs stand exactly where it returned, the values of its fields are
/// those that a record may have, and its payload is at most 1,048,576 bytes. It takes no memory, and time linear in
/// the items of its lists.
pub fn fits(call: &Call) -> bool
    ensures { IsTrue result ↔ IsSpellable call.now }
{
    outputs_stand(call) && body_fits(&call.body)
}

fn outputs_stand(call: &Call) -> bool
    ensures { IsTrue result ↔ Stand (output (kind_of call.now.body)) call.now.returned (given_of call.now.body) }
{
    match output_of(call.kind()) {
        None => true,
        Some(_) => call.body.given().is_some() == call.returned,
    }
}

fn body_fits(body: &Body) -> bool
    ensures { IsTrue result ↔ (AreValues (inputs_of body.now) × IsGiven (requests_in (inputs_of body.now)) (given_of body.now) × (length (payload_text body.now) ≤ 1048576)) }
{
    let inputs = body.inputs();
    let given = body.given();
    values_fit(inputs.as_slice(), given) && is_short(inputs.as_slice(), given)
}

/// Whether the fields and the outputs have values that a record may have.
fn values_fit(arguments: &[Argument<'_>], given: Option<Given<'_>>) -> bool
    ensures { IsTrue result ↔ (AllFit arguments.now × OutputsFit (requests_of_arguments arguments.now) given.entry) }
{
    all_arguments_fit(arguments) && outputs_fit(given, requests_of(arguments))
}

fn all_arguments_fit(arguments: &[Argument<'_>]) -> bool
    ensures { IsTrue result ↔ AllFit arguments.now }
{
    for argument in arguments {
        if !argument_fits(*argument) {
            return false;
        }
    }
    true
}

fn all_fit<T: Coded>(items: &[T]) -> bool
    ensures { IsTrue result ↔ AllByRecursion T.can_stand items.now }
{
    for item in items {
        if !item.fits() {
            return false;
        }
    }
    true
}

/// Whether a record may have the list: its length is a `u32`.
fn list_fits<T: Coded>(items: &[T]) -> bool
    ensures { IsTrue result ↔ ((length items.now < 2 ^ 32) × AllByRecursion T.can_stand items.now) }
{
    u32::try_from(items.len()).is_ok() && all_fit(items)
}

fn argument_fits(argument: Argument<'_>) -> bool
    ensures { IsTrue result ↔ Fits argument.entry }
{
    match argument {
        Argument::Handle(_, handle) => handle.fits(),
        Argument::Buffer(..) => true,
        Argument::I32(_, n) => n.fits(),
        Argument::I64(_, n) => n.fits(),
        Argument::Bit(..) => true,
        Argument::Order(order) => order < 2,
        Argument::Requests(list) => list_fits(list.items()),
        Argument::Ints(_, list) => list_fits(list.items()),
        Argument::Aints(list) => list_fits(list.items()),
        Argument::Blocks(list) => list_fits(list.items()),
        Argument::ByteBlocks(list) => list_fits(list.items()),
        Argument::StructBlocks(list) => list_fits(list.items()),
        Argument::Dims(list) => list_fits(list.items()),
        Argument::Amounts(_, list) => list_fits(list.items()),
    }
}

fn argument_requests(argument: Argument<'_>) -> u64
    ensures { result ≡ requests_of_argument argument.entry }
{
    match argument {
        Argument::Requests(list) => list.items().len() as u64,
        _ => 0,
    }
}

/// The number of requests of a call with these fields.
fn requests_of(arguments: &[Argument<'_>]) -> u64
    ensures { result ≡ requests_of_arguments arguments.now }
{
    match arguments {
        [] => 0,
        [first, ..] => argument_requests(*first),
    }
}

// ---- outputs

fn outputs_fit(given: Option<Given<'_>>, requests: u64) -> bool
    ensures { IsTrue result ↔ OutputsFit requests given.entry }
{
    match given {
        None => true,
        Some(given) => given_fits(given, requests),
    }
}

fn statuses_fit(statuses: &StatusList, requests: u64) -> bool
    ensures { IsTrue result ↔ AreStatuses requests statuses.now }
{
    let statuses = statuses.items();
    statuses.len() as u64 == requests && all_fit(statuses)
}

/// Whether the index is that of one of so many requests, or -1.
fn choice_fits(choice: Choice, requests: u64) -> bool
    ensures { IsTrue result ↔ IsChoice requests choice }
{
    choice.index >= -1 && i128::from(choice.index) < i128::from(requests) && choice.status.fits()
}

/// Whether the index is at least this one and that of one of so many requests.
fn completion_fits(completion: Completion, least: u64, requests: u64) -> bool
    ensures { IsTrue result ↔ ((least ≤ completion.index) × (completion.index < requests) × ((completion.index < 2 ^ 32) × IsStatus completion.status)) }
{
    let index = u64::from(completion.index);
    least <= index && index < requests && completion.fits()
}

/// Whether the indices rise and are those of so many requests.
fn are_rising(completions: &[Completion], requests: u64) -> bool
    ensures { IsTrue result ↔ AreRising 0 requests completions.now }
{
    let mut least = 0;
    for completion in completions {
        if !completion_fits(*completion, least, requests) {
            return false;
        }
        least = u64::from(completion.index) + 1;
    }
    true
}

fn completions_fit(completions: &[Completion], requests: u64) -> bool
    ensures { IsTrue result ↔ ((length completions.now < 2 ^ 31) × AreRising 0 requests completions.now) }
{
    completions.len() < 0x8000_0000 && are_rising(completions, requests)
}

fn given_fits(given: Given<'_>, requests: u64) -> bool
    ensures { IsTrue result ↔ GivenFits requests given.entry }
{
    match given {
        Given::Made(_, handle) => handle.fits(),
        Given::MadeComm(made) => made.made.fits() && list_fits(made.members.items()),
        Given::Status(status) => status.fits(),
        Given::MaybeStatus(None) | Given::MaybeStatuses(None) => true,
        Given::MaybeStatus(Some(status)) => status.fits(),
        Given::Statuses(statuses) | Given::MaybeStatuses(Some(statuses)) => {
            statuses_fit(statuses, requests)
        }
        Given::MaybeChoice(None) | Given::Completions(None) => true,
        Given::Choice(choice) | Given::MaybeChoice(Some(choice)) => choice_fits(choice, requests),
        Given::Completions(Some(completions)) => completions_fit(completions.items(), requests),
    }
}

// ---- lengths

/// The bytes of a list of so many items of this width.
fn list_length(width: u64, count: usize) -> u64
    requires { (width ≤ 16) × (count < 2 ^ 32) }
    ensures { result ≡ 4 + width * count }
{
    4 + width * count as u64
}

fn argument_length(argument: Argument<'_>) -> u64
    requires { Fits argument }
    ensures { result ≡ size_of argument.entry }
{
    match argument {
        Argument::Bit(..) | Argument::Order(_) => 1,
        Argument::Handle(_, _) | Argument::I32(..) => 4,
        Argument::Buffer(..) | Argument::I64(..) => 8,
        Argument::Requests(list) => list_length(4, list.items().len()),
        Argument::Ints(_, list) => list_length(4, list.items().len()),
        Argument::Aints(list) => list_length(8, list.items().len()),
        Argument::Blocks(list) => list_length(8, list.items().len()),
        Argument::ByteBlocks(list) => list_length(12, list.items().len()),
        Argument::StructBlocks(list) => list_length(16, list.items().len()),
        Argument::Dims(list) => list_length(12, list.items().len()),
        Argument::Amounts(_, list) => list_length(8, list.items().len()),
    }
}

/// The room behind the fields; none where they take more than there is.
fn room_behind(arguments: &[Argument<'_>], room: u64) -> Option<u64>
    requires { AllFit arguments.now }
    ensures some { IfSome result (λ left. sizes arguments.now + left ≡ room) }
    ensures none { IfNone result (room < sizes arguments.now) }
{
    let mut left = room;
    for argument in arguments {
        let length = argument_length(*argument);
        if left < length {
            return None;
        }
        left -= length;
    }
    Some(left)
}

fn given_length(given: Given<'_>) -> u128
    ensures { result ≡ given_size given.entry }
{
    match given {
        Given::Made(_, _) | Given::Completions(None) => 4,
        Given::MadeComm(made) => 8 + 4 * made.members.items().len() as u128,
        Given::Status(_) => 9,
        Given::MaybeStatus(None) | Given::MaybeStatuses(None) | Given::MaybeChoice(None) => 1,
        Given::MaybeStatus(Some(_)) => 10,
        Given::Statuses(statuses) => 9 * statuses.items().len() as u128,
        Given::MaybeStatuses(Some(statuses)) => 1 + 9 * statuses.items().len() as u128,
        Given::Choice(_) => 13,
        Given::MaybeChoice(Some(_)) => 14,
        Given::Completions(Some(completions)) => 4 + 13 * completions.items().len() as u128,
    }
}

/// Whether the payload is at most 1,048,576 bytes.
fn is_short(arguments: &[Argument<'_>], given: Option<Given<'_>>) -> bool
    requires { AllFit arguments.now }
    ensures { IsTrue result ↔ (sizes arguments.now + outputs_size given.entry ≤ 1048576) }
{
    let Some(room) = room_behind(arguments, u64::from(MOST_PAYLOAD)) else {
        return false;
    };
    match given {
        None => true,
        Some(given) => given_length(given) <= u128::from(room),
    }
}

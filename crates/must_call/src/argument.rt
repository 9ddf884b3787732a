//! The payload of a call, field by field.

ghost use Rattle.std.specs.Prelude.{◌≡◌, ◌≤◌, length, Some};
ghost use Rattle.std.specs.Option.{option_map};
ghost use Rattle.must_call.specs.declared.field.Output.TheVariants as output;
ghost use Rattle.must_call.specs.Values.{given};
ghost use Rattle.must_call.specs.Arguments.{output_seen};

use crate::class::Class;
use crate::field::{Aint, Flag, Handle, Int, Ints, Side};
use crate::items::{Choice, MadeComm};
use crate::lists::{
    AmountList, CompletionList, DimList, HandleList, HdispList, HindexList, IndexList, IntList,
    StatusList, StructBlockList,
};
use crate::status::Status3;
use arrayvec::ArrayVec;

/// A field that stands in each record of a kind, with its value.
#[derive(Clone, Copy, Drop)]
pub enum Argument<'a> {
    Handle(Handle, u32),
    /// The address of a buffer.
    Buffer(Side, u64),
    I32(Int, i32),
    I64(Aint, i64),
    Bit(Flag, bool),
    /// The order of an array: 0 as in C, 1 as in Fortran.
    Order(u8),
    Requests(&'a HandleList),
    Ints(Ints, &'a IntList),
    /// Displacements in bytes.
    Aints(&'a HdispList),
    Blocks(&'a IndexList),
    ByteBlocks(&'a HindexList),
    StructBlocks(&'a StructBlockList),
    Dims(&'a DimList),
    /// What goes to or comes from each member.
    Amounts(Side, &'a AmountList),
}

/// A field that isn't there: what stands in the free places of `Arguments`.
impl Default for Argument<'_> {
    ghost use Rattle.must_call.specs.declared.argument.Argument.TheVariants as argument;

    ghost is_default = { λ p. p ≡ argument.Order 0 };

    fn default() -> Self {
        Argument::Order(0)
    }
}

/// The fields of a call in the order of its payload. No kind has more than 11.
pub type Arguments<'a> = ArrayVec<Argument<'a>, 11>;

/// What stands behind the fields of a call that returned.
#[derive(Clone, Copy, Drop)]
pub enum Given<'a> {
    /// The handle that was made, and what it stands for.
    Made(Class, u32),
    /// The communicator that was made, and its members.
    MadeComm(&'a MadeComm),
    Status(Status3),
    /// None where the flag was 0.
    MaybeStatus(Option<Status3>),
    /// A status for each request.
    Statuses(&'a StatusList),
    /// None where the flag was 0.
    MaybeStatuses(Option<&'a StatusList>),
    /// The request that was completed.
    Choice(Choice),
    /// None where the flag was 0.
    MaybeChoice(Option<Choice>),
    /// None where the count was -1.
    Completions(Option<&'a CompletionList>),
}

/// These fields.
pub(crate) fn listed<'a>(arguments: &[Argument<'a>]) -> Arguments<'a>
    requires { length arguments.now ≤ 11 }
    ensures { result.items ≡ arguments.now }
{
    let mut listed = ArrayVec::new();
    let _fits = listed.try_extend_from_slice(arguments);
    listed
}

pub(crate) fn given_made(class: Class, made: &Option<u32>) -> Option<Given<'_>>
    ensures { option_map output_seen result ≡ given (Some (output.Made class)) made.now }
{
    match made {
        Some(made) => Some(Given::Made(class, *made)),
        None => None,
    }
}

pub(crate) fn given_comm(made: &Option<MadeComm>) -> Option<Given<'_>>
    ensures { option_map output_seen result ≡ given (Some output.MadeComm) made.now }
{
    match made {
        Some(made) => Some(Given::MadeComm(made)),
        None => None,
    }
}

pub(crate) fn given_status(status: &Option<Status3>) -> Option<Given<'_>>
    ensures { option_map output_seen result ≡ given (Some output.Status) status.now }
{
    match status {
        Some(status) => Some(Given::Status(*status)),
        None => None,
    }
}

pub(crate) fn given_maybe_status(status: &Option<Option<Status3>>) -> Option<Given<'_>>
    ensures { option_map output_seen result ≡ given (Some output.MaybeStatus) status.now }
{
    match status {
        Some(status) => Some(Given::MaybeStatus(*status)),
        None => None,
    }
}

pub(crate) fn given_statuses(statuses: &Option<StatusList>) -> Option<Given<'_>>
    ensures { option_map output_seen result ≡ given (Some output.Statuses) statuses.now }
{
    match statuses {
        Some(statuses) => Some(Given::Statuses(statuses)),
        None => None,
    }
}

pub(crate) fn given_maybe_statuses(statuses: &Option<Option<StatusList>>) -> Option<Given<'_>>
    ensures { option_map output_seen result ≡ given (Some output.MaybeStatuses) statuses.now }
{
    match statuses {
        Some(Some(statuses)) => Some(Given::MaybeStatuses(Some(statuses))),
        Some(None) => Some(Given::MaybeStatuses(None)),
        None => None,
    }
}

pub(crate) fn given_choice(choice: &Option<Choice>) -> Option<Given<'_>>
    ensures { option_map output_seen result ≡ given (Some output.Choice) choice.now }
{
    match choice {
        Some(choice) => Some(Given::Choice(*choice)),
        None => None,
    }
}

pub(crate) fn given_maybe_choice(choice: &Option<Option<Choice>>) -> Option<Given<'_>>
    ensures { option_map output_seen result ≡ given (Some output.MaybeChoice) choice.now }
{
    match choice {
        Some(choice) => Some(Given::MaybeChoice(*choice)),
        None => None,
    }
}

pub(crate) fn given_completions(completions: &Option<Option<CompletionList>>) -> Option<Given<'_>>
    ensures { option_map output_seen result ≡ given (Some output.Completions) completions.now }
{
    match completions {
        Some(Some(completions)) => Some(Given::Completions(Some(completions))),
        Some(None) => Some(Given::Completions(None)),
        None => None,
    }
}

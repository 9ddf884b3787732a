//! What the outputs of a record say that the call made.

ghost use Rattle.std.specs.Prelude.{◌≡◌, ◌<◌, ◌≤◌, ℕ, Some, drop};
ghost use Rattle.must_call.specs.declared.field.Item.TheVariants as item;
ghost use Rattle.must_call.specs.Values.{given};
ghost use Rattle.must_call.specs.Made.{made_handle, made_comm, handle_given, comm_given};
ghost use Rattle.must_format.specs.declared.limits.TheConstants.{MOST_RANKS};
ghost use Rattle.must_format.specs.Decoding.{u32_at, list_at, items_at, output_at, outcome_at};
ghost use Rattle.must_format.specs.Stream.{are_members, have_members};
ghost use Rattle.must_record.specs.Views.{are_ranks_with};

use must_call::{Class, NULL_HANDLE, Output};
use must_format::MOST_RANKS;
use must_value::Cursor;

/// The handle that these outputs say, and what it stands for.
pub(crate) fn made_at(
    output: Option<Output>,
    returned: bool,
    outputs: &[u8],
) -> Option<(Class, u32)>
    ensures { (n : ℕ) → result ≡ handle_given (given output (outcome_at output returned n outputs.now)) }
{
    match output {
        None => None,
        Some(output) => made_where(output, returned, outputs),
    }
}

fn made_where(output: Output, returned: bool, outputs: &[u8]) -> Option<(Class, u32)>
    ensures { (n : ℕ) → result ≡ handle_given (given (Some output) (outcome_at (Some output) returned n outputs.now)) }
{
    if !returned {
        return None;
    }
    made_by(output, outputs)
}

fn made_by(output: Output, outputs: &[u8]) -> Option<(Class, u32)>
    ensures { (n : ℕ) → result ≡ made_handle output (output_at output n outputs.now) }
{
    match output {
        Output::Made(class) => Some((class, front_of(outputs))),
        Output::MadeComm => Some((Class::Comm, front_of(outputs))),
        Output::Status
        | Output::MaybeStatus
        | Output::Statuses
        | Output::MaybeStatuses
        | Output::Choice
        | Output::MaybeChoice
        | Output::Completions => None,
    }
}

fn front_of(outputs: &[u8]) -> u32
    ensures { result ≡ u32_at outputs.now }
{
    Cursor { rest: outputs }.u32()
}

/// Whether the members that these outputs say can be.
pub(crate) fn members_at(
    output: Option<Output>,
    returned: bool,
    rank: u32,
    size: u32,
    outputs: &[u8],
) -> bool
    requires rank { rank < size }
    requires size { size ≤ MOST_RANKS }
    ensures { (n : ℕ) → result ≡ have_members rank size (comm_given (given output (outcome_at output returned n outputs.now))) }
{
    match output {
        None => true,
        Some(output) => members_where(output, returned, rank, size, outputs),
    }
}

fn members_where(output: Output, returned: bool, rank: u32, size: u32, outputs: &[u8]) -> bool
    requires rank { rank < size }
    requires size { size ≤ MOST_RANKS }
    ensures { (n : ℕ) → result ≡ have_members rank size (comm_given (given (Some output) (outcome_at (Some output) returned n outputs.now))) }
{
    if !returned {
        return true;
    }
    members_by(output, rank, size, outputs)
}

fn members_by(output: Output, rank: u32, size: u32, outputs: &[u8]) -> bool
    requires rank { rank < size }
    requires size { size ≤ MOST_RANKS }
    ensures { (n : ℕ) → result ≡ have_members rank size (made_comm output (output_at output n outputs.now)) }
{
    match output {
        Output::MadeComm => comm_stands(rank, size, outputs),
        Output::Made(_)
        | Output::Status
        | Output::MaybeStatus
        | Output::Statuses
        | Output::MaybeStatuses
        | Output::Choice
        | Output::MaybeChoice
        | Output::Completions => true,
    }
}

/// Whether this communicator, which is spelled at the front, has members that can be.
fn comm_stands(rank: u32, size: u32, outputs: &[u8]) -> bool
    requires rank { rank < size }
    requires size { size ≤ MOST_RANKS }
    ensures { result ≡ are_members rank size (record { made = u32_at outputs.now; members = list_at item.Request (drop 4 outputs.now) }) }
{
    let mut fields = Cursor { rest: outputs };
    let made = fields.u32();
    let count = fields.u32();
    if made == NULL_HANDLE {
        return count == 0;
    }
    are_ranks(rank, size, count, fields.rest)
}

/// Whether so many members are distinct ranks below the size, with this rank among them. Linear in the members: past as
/// many as the size one of them is repeated.
fn are_ranks(rank: u32, size: u32, count: u32, members: &[u8]) -> bool
    requires rank { rank < size }
    requires size { size ≤ MOST_RANKS }
    ensures { result ≡ are_ranks_with rank size (items_at item.Request count members.now) }
{
    let mut marks = [false; MOST_RANKS as usize];
    let mut fields = Cursor { rest: members };
    for _ in 0..count {
        let member = fields.u32();
        if member >= size {
            return false;
        }
        if marks[member as usize] {
            return false;
        }
        marks[member as usize] = true;
    }
    marks[rank as usize]
}

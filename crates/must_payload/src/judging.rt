//! The first fault of a payload.

ghost use Rattle.std.specs.Prelude.{◌≡◌, ◌≤◌, IfOk};
ghost use Rattle.must_call.specs.Fields.{inputs};
ghost use Rattle.must_format.specs.Values.{requests, width};
ghost use Rattle.must_format.specs.Decoding.{u32_at, list_at, value_at, requests_at, behind_all};
ghost use Rattle.must_format.specs.Judging.{Gives, past, past_bit, past_list, one, all_of, past_status, past_statuses, past_flagged, choice_index, past_choice, completion_index, past_completion, past_all_completions, past_completions, past_output, past_outcome, whole, nothing_left as nothing_left_of};
ghost use Rattle.must_format.specs.Record.{end_whole};
ghost use Rattle.must_payload.specs.Outputs.{outputs_whole};

use crate::tables::{inputs_of, output_of};
use must_call::{Field, Item, Kind, Output};
use must_format::Cause;
use must_value::Cursor;

/// What is left behind the first n bytes.
fn skip(n: usize, bytes: &[u8]) -> Result<&[u8], Cause>
    ensures { Gives (λ rest. rest.now) result (past n bytes.now) }
{
    if bytes.len() < n {
        return Err(Cause::Length);
    }
    let (_, rest) = bytes.split_at(n);
    Ok(rest)
}

fn skip_bit(bytes: &[u8]) -> Result<&[u8], Cause>
    ensures { Gives (λ rest. rest.now) result (past_bit bytes.now) }
{
    match bytes {
        [] => Err(Cause::Length),
        [0 | 1, rest @ ..] => Ok(rest),
        _ => Err(Cause::Field),
    }
}

/// The number that stands at the front.
fn count_at(bytes: &[u8]) -> u32
    ensures { result ≡ u32_at bytes.now }
{
    Cursor { rest: bytes }.u32()
}

/// The bytes of an item.
fn width_of(item: Item) -> usize
    ensures exact { result ≡ width item }
    ensures most { result ≤ 16 }
{
    match item {
        Item::Request | Item::Int(_) => 4,
        Item::Aint | Item::Block | Item::Amount(_) => 8,
        Item::ByteBlock | Item::Dim => 12,
        Item::StructBlock => 16,
    }
}

fn skip_list(item: Item, bytes: &[u8]) -> Result<&[u8], Cause>
    ensures { Gives (λ rest. rest.now) result (past_list item bytes.now) }
{
    let items = skip(4, bytes)?;
    let count = count_at(bytes) as usize;
    skip(width_of(item) * count, items)
}

fn skip_field(field: Field, bytes: &[u8]) -> Result<&[u8], Cause>
    ensures { Gives (λ rest. rest.now) result (one field bytes.now) }
{
    match field {
        Field::Handle(_) | Field::I32(_) => skip(4, bytes),
        Field::Buffer(_) | Field::I64(_) => skip(8, bytes),
        Field::Bit(_) | Field::Order => skip_bit(bytes),
        Field::Items(item) => skip_list(item, bytes),
    }
}

fn skip_fields<'a>(fields: &[Field], bytes: &'a [u8]) -> Result<&'a [u8], Cause>
    ensures { Gives (λ rest. rest.now) result (all_of fields.now bytes.now) }
{
    let mut rest = bytes;
    for field in fields {
        rest = skip_field(*field, rest)?;
    }
    Ok(rest)
}

/// The number of requests of a list that stands at the front.
fn list_requests(item: Item, bytes: &[u8]) -> u32
    ensures { result ≡ requests (Field.Items item) (list_at item bytes.now) }
{
    match item {
        Item::Request => count_at(bytes),
        Item::Int(_)
        | Item::Aint
        | Item::Block
        | Item::ByteBlock
        | Item::StructBlock
        | Item::Dim
        | Item::Amount(_) => 0,
    }
}

/// The number of requests that a field of a payload lists.
fn field_requests(field: Field, bytes: &[u8]) -> u32
    ensures { result ≡ requests field (value_at field bytes.now) }
{
    match field {
        Field::Items(item) => list_requests(item, bytes),
        Field::Handle(_)
        | Field::Buffer(_)
        | Field::I32(_)
        | Field::I64(_)
        | Field::Bit(_)
        | Field::Order => 0,
    }
}

/// The number of requests of a call with this payload.
fn requests_of(kind: Kind, payload: &[u8]) -> u32
    ensures { result ≡ requests_at kind payload.now }
{
    match inputs_of(kind) {
        [] => 0,
        [first, ..] => field_requests(*first, payload),
    }
}

// ---- outputs

fn skip_status(bytes: &[u8]) -> Result<&[u8], Cause>
    ensures { Gives (λ rest. rest.now) result (past_status bytes.now) }
{
    let tag = skip(4, bytes)?;
    let cancelled = skip(4, tag)?;
    skip_bit(cancelled)
}

fn skip_statuses(count: u32, bytes: &[u8]) -> Result<&[u8], Cause>
    ensures { Gives (λ rest. rest.now) result (past_statuses count bytes.now) }
{
    let mut rest = bytes;
    for _ in 0..count {
        rest = skip_status(rest)?;
    }
    Ok(rest)
}

fn skip_maybe_status(bytes: &[u8]) -> Result<&[u8], Cause>
    ensures { Gives (λ rest. rest.now) result (past_flagged past_status bytes.now) }
{
    match bytes {
        [] => Err(Cause::Length),
        [0, rest @ ..] => Ok(rest),
        [1, rest @ ..] => skip_status(rest),
        _ => Err(Cause::Field),
    }
}

fn skip_maybe_statuses(count: u32, bytes: &[u8]) -> Result<&[u8], Cause>
    ensures { Gives (λ rest. rest.now) result (past_flagged (past_statuses count) bytes.now) }
{
    match bytes {
        [] => Err(Cause::Length),
        [0, rest @ ..] => Ok(rest),
        [1, rest @ ..] => skip_statuses(count, rest),
        _ => Err(Cause::Field),
    }
}

/// The rest, where the index is that of one of so many requests, or -1.
fn judge_choice(requests: u32, index: i32, rest: &[u8]) -> Result<&[u8], Cause>
    ensures { Gives (λ left. left.now) result (choice_index requests index rest.now) }
{
    if index < -1 {
        return Err(Cause::Field);
    }
    if i64::from(index) < i64::from(requests) {
        Ok(rest)
    } else {
        Err(Cause::Field)
    }
}

fn skip_choice(requests: u32, bytes: &[u8]) -> Result<&[u8], Cause>
    ensures { Gives (λ rest. rest.now) result (past_choice requests bytes.now) }
{
    let rest = skip(4, bytes)?;
    let index = Cursor { rest: bytes }.i32();
    let status = judge_choice(requests, index, rest)?;
    skip_status(status)
}

fn skip_maybe_choice(requests: u32, bytes: &[u8]) -> Result<&[u8], Cause>
    ensures { Gives (λ rest. rest.now) result (past_flagged (past_choice requests) bytes.now) }
{
    match bytes {
        [] => Err(Cause::Length),
        [0, rest @ ..] => Ok(rest),
        [1, rest @ ..] => skip_choice(requests, rest),
        _ => Err(Cause::Field),
    }
}

/// The rest, where the index is at least this one and that of one of so many requests.
fn judge_completion(least: u64, requests: u32, index: u32, rest: &[u8]) -> Result<&[u8], Cause>
    ensures { Gives (λ left. left.now) result (completion_index least requests index rest.now) }
{
    if u64::from(index) < least {
        return Err(Cause::Field);
    }
    if index < requests {
        Ok(rest)
    } else {
        Err(Cause::Field)
    }
}

fn skip_completion(least: u64, requests: u32, bytes: &[u8]) -> Result<&[u8], Cause>
    ensures { Gives (λ rest. rest.now) result (past_completion least requests bytes.now) }
{
    let rest = skip(4, bytes)?;
    let status = judge_completion(least, requests, count_at(bytes), rest)?;
    skip_status(status)
}

fn skip_all_completions(count: u32, requests: u32, bytes: &[u8]) -> Result<&[u8], Cause>
    ensures { Gives (λ rest. rest.now) result (past_all_completions count 0 requests bytes.now) }
{
    let mut least = 0;
    let mut rest = bytes;
    for _ in 0..count {
        let index = count_at(rest);
        rest = skip_completion(least, requests, rest)?;
        least = u64::from(index) + 1;
    }
    Ok(rest)
}

fn skip_completions(requests: u32, bytes: &[u8]) -> Result<&[u8], Cause>
    ensures { Gives (λ rest. rest.now) result (past_completions requests bytes.now) }
{
    let rest = skip(4, bytes)?;
    let count = count_at(bytes);
    if count == u32::MAX {
        return Ok(rest);
    }
    if count < 0x8000_0000 {
        skip_all_completions(count, requests, rest)
    } else {
        Err(Cause::Field)
    }
}

fn skip_comm(bytes: &[u8]) -> Result<&[u8], Cause>
    ensures { Gives (λ rest. rest.now) result (past_output Output.MadeComm 0 bytes.now) }
{
    let members = skip(4, bytes)?;
    skip_list(Item::Request, members)
}

fn skip_output(output: Output, requests: u32, bytes: &[u8]) -> Result<&[u8], Cause>
    ensures { Gives (λ rest. rest.now) result (past_output output requests bytes.now) }
{
    match output {
        Output::Made(_) => skip(4, bytes),
        Output::MadeComm => skip_comm(bytes),
        Output::Status => skip_status(bytes),
        Output::MaybeStatus => skip_maybe_status(bytes),
        Output::Statuses => skip_statuses(requests, bytes),
        Output::MaybeStatuses => skip_maybe_statuses(requests, bytes),
        Output::Choice => skip_choice(requests, bytes),
        Output::MaybeChoice => skip_maybe_choice(requests, bytes),
        Output::Completions => skip_completions(requests, bytes),
    }
}

/// Outputs stand in the records of calls that returned.
fn skip_outcome(
    output: Option<Output>,
    returned: bool,
    requests: u32,
    bytes: &[u8],
) -> Result<&[u8], Cause>
    ensures { Gives (λ rest. rest.now) result (past_outcome output returned requests bytes.now) }
{
    match output {
        Some(output) if returned => skip_output(output, requests, bytes),
        _ => Ok(bytes),
    }
}

fn nothing_left(rest: &[u8]) -> Result<(), Cause>
    ensures { Gives (λ u. u) result (nothing_left_of rest.now) }
{
    if !rest.is_empty() {
        return Err(Cause::Length);
    }
    Ok(())
}

/// Whether the payload has the fields of its kind and nothing else, and then what stands behind the fields of each record
/// of the kind; or else its first fault.
#[tactic(auto, unfolding(must_format::specs::Judging::whole))]
pub fn judge_payload(kind: Kind, returned: bool, payload: &[u8]) -> Result<&[u8], Cause>
    ensures whole { Gives (λ outputs. tt) result (whole kind returned payload.now) }
    ensures outputs { IfOk result (λ outputs. outputs.now ≡ behind_all (inputs kind) payload.now) }
{
    let outputs = skip_fields(inputs_of(kind), payload)?;
    judge_outputs(kind, returned, payload, outputs)?;
    Ok(outputs)
}

/// Whether the outputs are those of the kind and nothing else.
fn judge_outputs(kind: Kind, returned: bool, payload: &[u8], outputs: &[u8]) -> Result<(), Cause>
    ensures { Gives (λ u. u) result (outputs_whole kind returned payload.now outputs.now) }
{
    let requests = requests_of(kind, payload);
    let rest = skip_outcome(output_of(kind), returned, requests, outputs)?;
    nothing_left(rest)
}

/// Whether the payload of an end record is one number.
pub fn judge_end(payload: &[u8]) -> Result<(), Cause>
    ensures { Gives (λ u. u) result (end_whole payload.now) }
{
    let rest = skip(4, payload)?;
    nothing_left(rest)
}

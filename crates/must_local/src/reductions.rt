//! Reductions by an operation that MPI names on a type that it doesn't take.

ghost use Rattle.std.specs.Prelude.{◌≡◌, ◌==◌, ◌&&◌, ◌||◌, pos, is_some, Some, None, if◌then◌else◌, OnOk};
ghost use Rattle.must_call.specs.declared.class.Class.TheVariants.{Operation};
ghost use Rattle.must_find.specs.declared.rule.Rule.TheVariants.{C6};
ghost use Rattle.must_find.specs.Adds.{Adds};
ghost use Rattle.must_rules.specs.Answer.{at_part};
ghost use Rattle.must_rules.specs.Clear.{is_clear};
ghost use Rattle.must_rules.specs.Lives.{is_predefined};
ghost use Rattle.must_rules.specs.Reductions.{is_between, is_integer, is_floating, is_arithmetic, is_logical, is_bitwise, is_of_places, takes, reduced, untaken, wrong_operation};
ghost use Rattle.must_derived.specs.Numbers.{number_of};
ghost use Rattle.must_local.specs.Adding.{IsOfRule};
ghost use Rattle.must_local.specs.HandlesKnown.{facts_in};

use crate::handles::Handles;
use crate::rows::{Answer, add_single};
use must_args::View;
use must_base::NoMemory;
use must_call::{Body, Call, Collective, Place, Started};
use must_find::{Findings, Rule};

/// The operations that MPI names have the numbers from 1 to this one.
const LAST_OPERATION: u32 = 12;

fn is_between(low: u32, high: u32, number: u32) -> bool
    ensures { result ≡ is_between low high number }
{
    low <= number && number <= high
}

fn is_integer(dtype: u32) -> bool
    ensures { result ≡ is_integer dtype }
{
    is_between(2, 3, dtype) || is_between(5, 12, dtype) || is_between(18, 25, dtype)
}

fn is_arithmetic_on(op: u32, dtype: u32) -> bool
    ensures { result ≡ (is_arithmetic op && (is_integer dtype || is_floating dtype)) }
{
    is_between(1, 4, op) && (is_integer(dtype) || is_between(13, 15, dtype))
}

fn is_logical_on(op: u32, dtype: u32) -> bool
    ensures { result ≡ (is_logical op && (is_integer dtype || dtype == 17)) }
{
    (op == 5 || op == 7 || op == 9) && (is_integer(dtype) || dtype == 17)
}

fn is_bitwise_on(op: u32, dtype: u32) -> bool
    ensures { result ≡ (is_bitwise op && (is_integer dtype || dtype == 4)) }
{
    (op == 6 || op == 8 || op == 10) && (is_integer(dtype) || dtype == 4)
}

/// Whether an operation that MPI names takes a type.
fn takes(op: u32, dtype: u32) -> bool
    ensures { result ≡ takes op dtype }
{
    is_arithmetic_on(op, dtype)
        || is_logical_on(op, dtype)
        || is_bitwise_on(op, dtype)
        || (is_between(11, 12, op) && is_between(26, 30, dtype))
}

/// The operation and the type of a rooted reduction, where its communicator is live and sound.
fn rooted(handles: &Handles, comm: u32, op: u32, dtype: u32) -> Option<(u32, u32)>
    ensures { result ≡ (if is_some ((facts_in handles.now).comm comm) then Some (op, dtype) else None) }
{
    if handles.comm_group(comm).is_some() {
        Some((op, dtype))
    } else {
        None
    }
}

/// The operation and the type of a reduction, where they are significant.
fn reduced(handles: &Handles, body: &Body) -> Option<(u32, u32)>
    ensures { result ≡ reduced (facts_in handles.now) body.now }
{
    match body {
        Body::Collective(call) => match call {
            Collective::Reduce {
                dtype,
                op,
                comm,
                ..
            } => rooted(handles, *comm, *op, *dtype),
            Collective::Allreduce { dtype, op, .. }
            | Collective::ReduceScatter { dtype, op, .. }
            | Collective::ReduceScatterBlock { dtype, op, .. }
            | Collective::Scan { dtype, op, .. }
            | Collective::Exscan { dtype, op, .. } => Some((*op, *dtype)),
            _ => None,
        },
        Body::Started(call) => match call {
            Started::Ireduce {
                dtype,
                op,
                comm,
                ..
            } => rooted(handles, *comm, *op, *dtype),
            Started::Iallreduce { dtype, op, .. } => Some((*op, *dtype)),
            _ => None,
        },
        _ => None,
    }
}

/// What C6 says of a reduction.
#[tactic(auto, unfolding(must_rules::specs::Lives::is_predefined))]
fn untaken(handles: &Handles, reduced: Option<(u32, u32)>) -> Option<Answer>
    ensures { result ≡ untaken (λ h. is_some (number_of handles.now.types.numbers h)) reduced }
{
    let (op, dtype) = reduced?;
    if !is_between(1, LAST_OPERATION, op) || !handles.types.is_sound(dtype) || takes(op, dtype) {
        return None;
    }
    Some((None, i128::from(op)))
}

/// What C6 says of a call; `clear` says whether it is.
#[tactic(auto, unfolding(must_rules::specs::Reductions::wrong_operation))]
fn wrong_operation(handles: &Handles, body: &Body, clear: bool) -> Option<Answer>
    requires { clear ≡ is_clear (facts_in handles.now) body.now }
    ensures { result ≡ wrong_operation (facts_in handles.now) (λ h. is_some (number_of handles.now.types.numbers h)) body.now }
{
    if clear {
        untaken(handles, reduced(handles, body))
    } else {
        None
    }
}

/// Adds the row of C6 at a call; `clear` says whether it is.
pub fn add_untaken(
    rows: &mut Findings,
    at: Place,
    handles: &Handles,
    call: &Call,
    clear: bool,
) -> Result<(), NoMemory>
    requires { clear ≡ is_clear (facts_in handles.now) call.now.body }
    ensures { OnOk result (Adds rows.old rows.new (IsOfRule at.rank at.call C6 (at_part 0 (wrong_operation (facts_in handles.now) (λ h. is_some (number_of handles.now.types.numbers h)) call.now.body)))) }
{
    let answer = wrong_operation(handles, &call.body, clear);
    add_single(rows, at, Rule::C6, answer)
}

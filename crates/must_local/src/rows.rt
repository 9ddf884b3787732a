//! The rows of a call: those of Init and Finalize, and what adds a row.

ghost use Rattle.std.specs.Prelude.{◌≡◌, OnOk};
ghost use Rattle.must_find.specs.declared.rule.Rule.TheVariants.{I3};
ghost use Rattle.must_rules.specs.Answer.{IsAnswer, at_part};
ghost use Rattle.must_rules.specs.Frames.{is_init, is_finalize, init_answer, seeing, missing};
ghost use Rattle.must_find.specs.Adds.{Adds};
ghost use Rattle.must_local.specs.Adding.{IsOfRule, FrameRows};

use must_base::NoMemory;
use must_call::{Body, Call, Frame, Place};
use must_find::{Finding, Findings, Rule};

/// The see and the value of a finding.
pub type Answer = (Option<Place>, i128);

/// Adds what a rule found at a part of a call.
pub fn add_answer(
    rows: &mut Findings,
    at: Place,
    rule: Rule,
    part: u32,
    answer: Option<Answer>,
) -> Result<(), NoMemory>
    ensures { OnOk result (Adds rows.old rows.new (IsAnswer at.rank at.call rule part answer)) }
{
    match answer {
        None => Ok(()),
        Some((see, value)) => {
            rows.add(Finding {
                rank: at.rank,
                call: at.call,
                rule,
                part,
                see,
                value,
            })?;
            Ok(())
        }
    }
}

/// Adds what a rule with one part found at a call.
pub fn add_single(
    rows: &mut Findings,
    at: Place,
    rule: Rule,
    answer: Option<Answer>,
) -> Result<(), NoMemory>
    ensures { OnOk result (Adds rows.old rows.new (IsOfRule at.rank at.call rule (at_part 0 answer))) }
{
    add_answer(rows, at, rule, 0, answer)
}

/// Whether a call is an Init.
pub fn is_init_call(call: &Call) -> bool
    ensures { result ≡ is_init call.now }
{
    matches!(&call.body, Body::Frame(Frame::Init))
}

/// Whether a call is a Finalize.
pub fn is_finalize_call(call: &Call) -> bool
    ensures { result ≡ is_finalize call.now }
{
    matches!(&call.body, Body::Frame(Frame::Finalize))
}

fn judge_init(rank: u32, is_init: bool, first: Option<u32>) -> Option<Answer>
    ensures { result ≡ init_answer rank is_init first }
{
    match (is_init, first) {
        (true, Some(call)) => Some((Some(Place { rank, call }), 0)),
        (false, None) => Some((None, 0)),
        _ => None,
    }
}

fn judge_after(rank: u32, first: Option<u32>) -> Option<Answer>
    ensures { result ≡ seeing rank first }
{
    match first {
        Some(call) => Some((Some(Place { rank, call }), 0)),
        None => None,
    }
}

/// Adds the rows of Init and Finalize at a call, by the first earlier ones.
pub fn add_frames(
    rows: &mut Findings,
    at: Place,
    init: Option<u32>,
    finalize: Option<u32>,
    call: &Call,
) -> Result<(), NoMemory>
    ensures { OnOk result (Adds rows.old rows.new (FrameRows at.rank at.call init finalize call.now)) }
{
    add_single(
        rows,
        at,
        Rule::I1,
        judge_init(at.rank, is_init_call(call), init),
    )?;
    add_single(rows, at, Rule::I2, judge_after(at.rank, finalize))?;
    Ok(())
}

fn judge_missing(returned: bool, first: Option<u32>) -> Option<Answer>
    ensures { result ≡ missing returned first }
{
    match (returned, first) {
        (true, None) => Some((None, 0)),
        _ => None,
    }
}

/// Adds the row of a missing Finalize.
pub fn add_missing(
    rows: &mut Findings,
    at: Place,
    returned: bool,
    first: Option<u32>,
) -> Result<(), NoMemory>
    ensures { OnOk result (Adds rows.old rows.new (IsOfRule at.rank at.call I3 (at_part 0 (missing returned first)))) }
{
    add_single(rows, at, Rule::I3, judge_missing(returned, first))
}

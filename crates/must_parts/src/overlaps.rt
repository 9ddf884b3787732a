//! Rules T1 and T2: parts of one call that overlap.

ghost use Rattle.std.specs.Prelude.{◌≡◌, ℕ, List, Option, IfOk, OnOk};
ghost use Rattle.must_find.specs.Adds.{Adds};
ghost use Rattle.must_rules.specs.Answer.{IsAnswer};
ghost use Rattle.must_rules.specs.Parts.{Part, numbered as part_numbered};
ghost use Rattle.must_rules.specs.Overlaps.{overlaps_itself, overlapping, shared_parts};
ghost use Rattle.must_parts.specs.Placing.{IsPlaced, ArePlaced};
ghost use Rattle.must_parts.specs.Rows.{HaveNumbers, OverlapRows};

use crate::placed::{Placed, numbered};
use must_base::NoMemory;
use must_call::Place;
use must_find::{Finding, Findings, Rule};
use must_pending::Access;

/// The see and the value of a finding.
pub(crate) type Answer = (Option<Place>, i128);

/// Adds what a rule found at a part of a call.
pub(crate) fn add_answer(
    rows: &mut Findings,
    at: Place,
    rule: Rule,
    part: u32,
    answer: Option<Answer>,
) -> Result<(), NoMemory>
    ensures { OnOk result (Adds rows.old rows.new (IsAnswer at.rank at.call rule part answer)) }
{
    match answer {
        None => Ok(()),
        Some((see, value)) => {
            rows.add(Finding {
                rank: at.rank,
                call: at.call,
                rule,
                part,
                see,
                value,
            })?;
            Ok(())
        }
    }
}

/// Whether the part is written, and one of its blocks overlaps itself.
fn overlaps_itself(part: &Placed) -> bool
    ensures { (p : Part) → IsPlaced part.now p → result ≡ overlaps_itself p }
{
    match part.access {
        Access::Reads => false,
        Access::Writes => part.laid.overlaps,
    }
}

/// What T1 says of the part with this number.
fn judge_within(parts: &[Placed], number: u32) -> Option<Answer>
    ensures { (ps : List Part) → ArePlaced parts.now ps → result ≡ overlapping (part_numbered number ps) }
{
    let part = numbered(parts, number)?;
    if overlaps_itself(part) {
        Some((None, 0))
    } else {
        None
    }
}

/// What T2 says of parts 0 and 1.
fn judge_between(parts: &[Placed]) -> Option<Answer>
    ensures { (ps : List Part) → ArePlaced parts.now ps → result ≡ shared_parts (part_numbered 0 ps) (part_numbered 1 ps) }
{
    let first = numbered(parts, 0)?;
    let second = numbered(parts, 1)?;
    match first.laid.spans.first_shared(&second.laid.spans) {
        Some(address) => Some((None, address)),
        None => None,
    }
}

/// Adds the rows of T1 and T2 at a call with these parts, whose numbers are 0 and 1.
pub fn add_overlaps(rows: &mut Findings, at: Place, parts: &[Placed]) -> Result<(), NoMemory>
    ensures { OnOk result ((ps : List Part) → HaveNumbers ps → ArePlaced parts.now ps → Adds rows.old rows.new (OverlapRows at ps)) }
{
    add_answer(rows, at, Rule::T1, 0, judge_within(parts, 0))?;
    add_answer(rows, at, Rule::T1, 1, judge_within(parts, 1))?;
    add_answer(rows, at, Rule::T2, 1, judge_between(parts))?;
    Ok(())
}

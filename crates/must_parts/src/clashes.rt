//! Rule T3: parts that clash with pending operations.

ghost use Rattle.std.specs.Prelude.{◌≡◌, List, Option, OnOk};
ghost use Rattle.std.specs.Option.{option_map};
ghost use Rattle.must_find.specs.declared.rule.Rule.TheVariants.{T3};
ghost use Rattle.must_find.specs.Adds.{Adds};
ghost use Rattle.must_rules.specs.Parts.{Part, numbered as part_numbered};
ghost use Rattle.must_rules.specs.PendingOperations.{Operation, clash_of};
ghost use Rattle.must_parts.specs.Placing.{IsPlacedOf, ArePlaced};
ghost use Rattle.must_parts.specs.Holding.{AreHeld};
ghost use Rattle.must_parts.specs.Rows.{HaveNumbers, IsOfRule};

use crate::overlaps::{Answer, add_answer};
use crate::placed::{Placed, numbered};
use must_base::NoMemory;
use must_call::Place;
use must_find::{Findings, Rule};
use must_pending::Pending;

/// What T3 says of a part beside pending operations.
pub(crate) fn judge_part(rank: u32, pending: &Pending, part: Option<&Placed>) -> Option<Answer>
    ensures { (ops : List Operation) (p : Option Part) → AreHeld pending.now ops → IsPlacedOf (option_map (λ q. q.now) part.entry) p → result ≡ clash_of rank ops p }
{
    let Some(part) = part else {
        return None;
    };
    match pending.clash(&part.laid.spans, part.access) {
        Some((call, address)) => Some((Some(Place { rank, call }), address)),
        None => None,
    }
}

/// What T3 says of the part with this number.
fn judge_clash(rank: u32, pending: &Pending, parts: &[Placed], number: u32) -> Option<Answer>
    ensures { (ops : List Operation) (ps : List Part) → AreHeld pending.now ops → ArePlaced parts.now ps → result ≡ clash_of rank ops (part_numbered number ps) }
{
    judge_part(rank, pending, numbered(parts, number))
}

/// Adds the rows of T3 at a call with these parts, whose numbers are 0 and 1, beside pending operations.
pub fn add_clashes(
    rows: &mut Findings,
    at: Place,
    pending: &Pending,
    parts: &[Placed],
) -> Result<(), NoMemory>
    ensures { OnOk result ((ops : List Operation) (ps : List Part) → HaveNumbers ps → AreHeld pending.now ops → ArePlaced parts.now ps → Adds rows.old rows.new (IsOfRule at T3 (λ n. clash_of at.rank ops (part_numbered n ps)))) }
{
    add_answer(
        rows,
        at,
        Rule::T3,
        0,
        judge_clash(at.rank, pending, parts, 0),
    )?;
    add_answer(
        rows,
        at,
        Rule::T3,
        1,
        judge_clash(at.rank, pending, parts, 1),
    )?;
    Ok(())
}

//! Rule S1 at completions.

ghost use Rattle.std.specs.Prelude.{◌≡◌, ◌==◌, if◌then◌else◌, ℕ, List, map, find, option_and_then, IfOk, OnOk, None, Some, is_some};
ghost use Rattle.std.specs.Option.{option_map};
ghost use Rattle.std.specs.Ordering.{nat_cmp};
ghost use Rattle.std.specs.BTreeMap.{get};
ghost use Rattle.must_call.specs.declared.call.Call.{Call};
ghost use Rattle.must_find.specs.declared.rule.Rule.TheVariants.{S1};
ghost use Rattle.must_find.specs.Adds.{Adds};
ghost use Rattle.must_rules.specs.Rank.{Rank};
ghost use Rattle.must_rules.specs.Answer.{Answer, IsAnswer};
ghost use Rattle.must_rules.specs.Numbered.{AreNumbered};
ghost use Rattle.must_rules.specs.Operations.{operations_of};
ghost use Rattle.must_rules.specs.Fates.{Completed as CompletedSeen};
ghost use Rattle.must_rules.specs.Statuses.{completed_wrongly};
ghost use Rattle.must_hold.specs.Queue.{Holds, IsOfRule};
ghost use Rattle.must_hold.specs.Told.{Wrong, recorded_seen, told_more, told_next, told_by, end_told};
ghost use Rattle.must_hold.specs.Judging.{Judges};

use crate::completed::Recorded;
use crate::held::End;
use crate::table::Table;
use must_args::was_seen;
use must_base::NoMemory;
use must_call::{Place, Status3};
use must_find::{Finding, Findings, Rule};
use must_messages::contradiction;
use std::alloc::Global;
use std::collections::{BTreeMap, BTreeSet};

/// What the statuses of a request at one call say.
#[derive(Clone, Copy, Debug, PartialEq, Eq)]
pub struct Told {
    /// The one at the least index.
    pub first: Status3,
    /// One of them breaks S1.
    pub breaks: bool,
}

/// The see and the value of a finding.
type Answer = (Option<Place>, i128);

/// What S1 says of a completion: it is judged by the open operation of its request.
fn judge(table: &Table, rank: u32, tag_ub: i32, completed: &Recorded) -> Option<Answer>
    ensures { (r : Rank) (calls : List Call) → r.rank ≡ rank → r.tag_ub ≡ tag_ub → AreNumbered 64 calls → Holds r calls (operations_of r calls) table.now → result ≡ completed_wrongly r calls (Some (recorded_seen completed.now)) }
{
    let pending = table.find(completed.request)?;
    let value = contradiction(tag_ub, &pending.asked, pending.cancel, completed.status)?;
    Some((
        Some(Place {
            rank,
            call: pending.call,
        }),
        i128::from(value),
    ))
}

/// Adds what S1 says of a completion, unless its index stood before.
fn add_row(
    rows: &mut Findings,
    at: Place,
    index: u32,
    again: bool,
    answer: Option<Answer>,
) -> Result<(), NoMemory>
    ensures { OnOk result (Adds rows.old rows.new (IsAnswer at.rank at.call S1 index (if again then None else answer))) }
{
    if again {
        return Ok(());
    }
    let Some((see, value)) = answer else {
        return Ok(());
    };
    rows.add(Finding {
        rank: at.rank,
        call: at.call,
        rule: Rule::S1,
        part: index,
        see,
        value,
    })?;
    Ok(())
}

/// What is told of a request by one status more.
fn told_more(told: Option<Told>, status: Status3, breaks: bool) -> Told
    ensures { result ≡ told_more told status breaks }
{
    match told {
        None => Told {
            first: status,
            breaks,
        },
        Some(told) => Told {
            first: told.first,
            breaks: told.breaks || breaks,
        },
    }
}

/// Notes what one completion says of its request.
fn note(told: &mut BTreeMap<u32, Told>, completed: &Recorded, breaks: bool) -> Result<(), NoMemory>
    ensures { OnOk result ((wrong : Wrong) → is_some (wrong (recorded_seen completed.now)) ≡ breaks → (q : ℕ) → get nat_cmp told.new q ≡ told_next wrong q (get nat_cmp told.old q) (recorded_seen completed.now)) }
{
    let before = told.get(&completed.request).copied();
    told.insert(
        completed.request,
        told_more(before, completed.status, breaks),
    )?;
    Ok(())
}

/// Adds the rows of S1 at the completions of a call, and tells what their statuses say of each request. Takes time for the logarithm
/// of their number, for each.
pub fn judge_all(
    alloc: Global,
    table: &Table,
    at: Place,
    tag_ub: i32,
    completions: &[Recorded],
    rows: &mut Findings,
) -> Result<BTreeMap<u32, Told>, NoMemory>
    ensures { IfOk result (λ told. (wrong : Wrong) → Judges wrong table.now at.rank tag_ub → ((q : ℕ) → get nat_cmp told q ≡ told_by wrong q None (map recorded_seen completions.now)) × Adds rows.old rows.new (IsOfRule at.rank at.call S1 (λ part. option_and_then wrong (find (λ c. c.index == part) (map recorded_seen completions.now))))) }
{
    let mut told = BTreeMap::new(alloc);
    let mut seen = BTreeSet::new(alloc);
    for completed in completions {
        let answer = judge(table, at.rank, tag_ub, completed);
        let again = was_seen(&mut seen, completed.index)?;
        add_row(rows, at, completed.index, again, answer)?;
        note(&mut told, completed, answer.is_some())?;
    }
    Ok(told)
}

/// How an operation ended that a call completed, by what its statuses say.
pub fn end_told(call: u32, told: Option<Told>) -> End
    ensures { result ≡ end_told call told }
{
    match told {
        None => End {
            status: None,
            done: Some(call),
            breaks: false,
        },
        Some(told) => End {
            status: Some(told.first),
            done: Some(call),
            breaks: told.breaks,
        },
    }
}

//! What an operation needs, once it is known how it ended (docs/MESSAGES.md, "Needs"), and rule N1.

ghost use Rattle.std.specs.Prelude.{◌≡◌, ◌&&◌, ◌||◌, ℕ, List, Some, not, is_some, is_none, OnOk};
ghost use Rattle.must_find.specs.Adds.{Adds};
ghost use Rattle.must_messages.specs.Asking.{envelope_seen};
ghost use Rattle.must_hold.specs.Ended.{item_ended, is_cancelled_as, is_unmet, partner, need_by, need_ended};
ghost use Rattle.must_hold.specs.Needing.{with_need, IsUnmetIn, AreUnmetIn};

use crate::held::{End, Need, Pending, Settling};
use crate::item::{
    known_source, known_tag, probed_source, probed_tag, rank_at, rank_of, says_cancelled,
};
use must_base::NoMemory;
use must_call::{ANY_SOURCE, ANY_TAG, Status3};
use must_find::{Finding, Findings, Rule};
use must_messages::{Asked, Deed, Mode};

/// The operation is cancelled.
fn is_cancelled(deed: Deed, status: Option<Status3>) -> bool
    ensures { result ≡ is_cancelled_as deed status }
{
    match deed {
        Deed::Probe => false,
        Deed::Send { .. } | Deed::Receive => says_cancelled(status),
    }
}

/// What an operation needs that has an item.
fn partner(call: u32, part: u32, deed: Deed) -> Need
    ensures { result ≡ partner call part deed }
{
    match deed {
        Deed::Send {
            mode: Mode::Buffered,
        } => Need::Nothing,
        Deed::Send {
            mode: Mode::Standard | Mode::Ready,
        } => Need::Partner {
            call,
            part,
            standard: true,
        },
        Deed::Send {
            mode: Mode::Synchronous,
        }
        | Deed::Receive
        | Deed::Probe => Need::Partner {
            call,
            part,
            standard: false,
        },
    }
}

/// Nothing completed a receive that named a wildcard.
fn is_unmet(asked: &Asked, done: Option<u32>) -> bool
    ensures { result ≡ is_unmet asked.now.deed (envelope_seen asked.now) done }
{
    match asked.deed {
        Deed::Receive => { (asked.peer == ANY_SOURCE || asked.tag == ANY_TAG) && done.is_none() }
        _ => false,
    }
}

/// Both a source and a tag are known.
fn are_known(source: Option<u32>, tag: Option<i32>) -> bool
    ensures { result ≡ (is_some source && is_some tag) }
{
    source.is_some() && tag.is_some()
}

/// Whether an operation that ended so has an item.
fn has_item(pending: &Pending, end: End) -> bool
    ensures { (rank : ℕ) → result ≡ is_some (item_ended rank pending.now end pending.now.asked.deed) }
{
    let asked = &pending.asked;
    match asked.deed {
        Deed::Send { .. } => { !says_cancelled(end.status) && rank_at(asked, asked.peer).is_some() }
        Deed::Receive => {
            !(says_cancelled(end.status) || end.breaks)
                && are_known(
                    rank_of(asked, known_source(asked, end.status)),
                    known_tag(asked, end.status),
                )
        }
        Deed::Probe => are_known(
            rank_of(asked, probed_source(asked, end.status)),
            probed_tag(asked, end.status),
        ),
    }
}

/// What an operation needs that ended so, where it is known whether it has an item.
fn need_by(pending: &Pending, end: End, there: bool) -> Need
    ensures { result ≡ need_by pending.now.call pending.now.part pending.now.asked.deed (envelope_seen pending.now.asked) end.status end.done there }
{
    let call = pending.call;
    let part = pending.part;
    let deed = pending.asked.deed;
    if is_unmet(&pending.asked, end.done) {
        Need::Unmet { call, part }
    } else if is_cancelled(deed, end.status) {
        Need::Nothing
    } else if there {
        partner(call, part, deed)
    } else {
        Need::Never
    }
}

/// What an operation needs that ended so.
pub fn need_ended(pending: &Pending, end: End) -> Need
    ensures { (rank : ℕ) → result ≡ need_ended rank pending.now end }
{
    let there = has_item(pending, end);
    need_by(pending, end, there)
}

/// Notes what an operation needs that was settled.
pub fn set_need(needs: &mut Vec<Need>, settling: Option<Settling>)
    ensures { needs.new.items ≡ with_need needs.old.items settling }
{
    if let Some(settling) = settling {
        if let Some(need) = needs.get_mut(settling.number as usize) {
            *need = settling.need;
        }
    }
}

/// Adds the row of N1 at an operation, where it is an open wildcard.
fn add_unmet(rank: u32, need: Need, rows: &mut Findings) -> Result<(), NoMemory>
    ensures { OnOk result (Adds rows.old rows.new (IsUnmetIn rank need)) }
{
    match need {
        Need::Unmet { call, part } => {
            rows.add(Finding {
                rank,
                call,
                rule: Rule::N1,
                part,
                see: None,
                value: 0,
            })?;
            Ok(())
        }
        _ => Ok(()),
    }
}

/// Adds the rows of N1 at the operations that need this. They rise, so each is put behind those added before.
pub fn add_wildcards(rank: u32, needs: &[Need], rows: &mut Findings) -> Result<(), NoMemory>
    ensures { OnOk result (Adds rows.old rows.new (AreUnmetIn rank needs.now)) }
{
    for need in needs {
        add_unmet(rank, *need, rows)?;
    }
    Ok(())
}

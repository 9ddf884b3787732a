//! The deadlock core as a worklist: each alternative of a kept rank is watched at one of its places that holds it.
//!
//! When a rank is dropped, the alternatives that were watched at it move on to their next place that holds them, or let their
//! own rank be dropped. So an alternative goes over each of its places at most twice.

ghost use Rattle.std.specs.Prelude.{◌≡◌, ℕ, ◌<◌, ◌≤◌, ◌^◌, ◌+◌, ◌++◌, ◌∷◌, [], length, Some, None, true, false, MatchOption, IfOk, OnOk, is_some};
ghost use Rattle.std.specs.List.{slice_index_or};
ghost use Rattle.must_call.specs.declared.place.Place.{Place};
ghost use Rattle.must_base.specs.Listing.{Has};
ghost use Rattle.must_wait.specs.CodedWay.{coded_places};
ghost use Rattle.must_wait.specs.Core.{is_held};
ghost use Rattle.must_wait.specs.Dropping.{core_state, is_call_at, AllWaysHeld, WasLooked, HasWays, IsCoreReady, CoreSteps, with_dropped, core_taken};
ghost use Rattle.must_wait.specs.Keeping.{kept_call, holds_yet, kept_count, IsKeptSome, AllHeld};
ghost use Rattle.must_wait.specs.Needs.{needs_of};
ghost use Rattle.must_wait.specs.Replay.{IsBlockedList};
ghost use Rattle.must_wait.specs.Shared.{coded};
ghost use Rattle.must_wait.specs.Watching.{HasWatch, way_at, ways_in};

use crate::coded::{CodedWay, way_count, way_of};
use crate::shared::SharedRows;
use crate::worklist::{Watch, Watches};
use must_base::NoMemory;
use must_call::Place;
use std::alloc::Global;

/// A core under way.
#[derive(Drop)]
pub(crate) struct Dropping {
    /// The blocked call of each rank that is kept.
    kept: Vec<Option<u32>>,
    /// The watches at the places of each rank.
    watches: Vec<Watches>,
    /// Dropped ranks whose watches weren't looked at yet.
    dropped: Vec<u32>,
}

/// Whether a place lies behind the blocked call of a kept rank.
fn holds(kept: &[Option<u32>], place: Place) -> bool
    ensures { result ≡ holds_yet kept.now place }
{
    match kept.get(place.rank as usize) {
        Some(Some(blocked)) => *blocked < place.call,
        _ => false,
    }
}

/// Whether this is the blocked call of a kept rank.
fn is_kept(kept: &[Option<u32>], rank: u32, call: u32) -> bool
    ensures { result ≡ is_call_at (kept_call kept.now rank) call }
{
    match kept.get(rank as usize) {
        Some(Some(blocked)) => *blocked == call,
        _ => false,
    }
}

/// The index from `low` and below `high` of the first place that holds.
fn holder_between(
    kept: &[Option<u32>],
    way: &CodedWay<'_>,
    low: usize,
    high: usize,
) -> Option<usize>
    requires { high ≤ length (coded_places way.now) }
    ensures { MatchOption result
        ((k : ℕ) (d : Place) → low ≤ k → k < high → holds_yet kept.now (slice_index_or (coded_places way.now) k d) ≡ false)
        (λ at. (at < high) × ((d : Place) → holds_yet kept.now (slice_index_or (coded_places way.now) at d) ≡ true)) }
{
    for at in low..high {
        if holds(kept, way.at(at)) {
            return Some(at);
        }
    }
    None
}

/// The index of a place that holds an alternative. The search goes from `from` to the end, and then over the places before.
fn holder(kept: &[Option<u32>], way: &CodedWay<'_>, from: usize) -> Option<usize>
    ensures { MatchOption result
        ((k : ℕ) (d : Place) → k < length (coded_places way.now) → holds_yet kept.now (slice_index_or (coded_places way.now) k d) ≡ false)
        (λ at. (at < length (coded_places way.now)) × ((d : Place) → holds_yet kept.now (slice_index_or (coded_places way.now) at d) ≡ true)) }
{
    let middle = from.min(way.len());
    match holder_between(kept, way, middle, way.len()) {
        Some(at) => Some(at),
        None => holder_between(kept, way, 0, middle),
    }
}

impl Dropping {
    /// Drops a kept rank that isn't held.
    fn drop_rank(&mut self, rows: &SharedRows, rank: u32, call: u32) -> Result<(), NoMemory>
        requires ready { IsCoreReady (coded rows.now) (core_state self.old) }
        requires kept { kept_call self.old.kept.items rank ≡ Some call }
        requires free { is_held (holds_yet self.old.kept.items) (needs_of (coded rows.now) rank call) ≡ false }
        ensures steps { OnOk result (CoreSteps (coded rows.now) (core_state self.old) (core_state self.new)) }
        ensures dropped { OnOk result (kept_call self.new.kept.items rank ≡ None) }
    {
        self.kept[rank as usize] = None;
        self.dropped.push(rank)?;
        Ok(())
    }

    /// Lets an alternative wait at a place that holds it.
    fn wait(&mut self, rows: &SharedRows, place: Place, watch: Watch) -> Result<(), NoMemory>
        requires ready { IsCoreReady (coded rows.now) (core_state self.old) }
        requires holds { holds_yet self.old.kept.items place ≡ true }
        ensures steps { OnOk result (CoreSteps (coded rows.now) (core_state self.old) (core_state self.new)) }
        ensures same { OnOk result (self.new.kept.items ≡ self.old.kept.items) }
        ensures waits { OnOk result (HasWatch (slice_index_or self.new.watches.items place.rank []) watch.rank watch.call watch.way) }
    {
        self.watches[place.rank as usize].items.push(watch)?;
        Ok(())
    }

    /// Looks at an alternative: it waits at a place that holds it, or lets its rank be dropped.
    fn look(&mut self, rows: &SharedRows, watch: Watch) -> Result<(), NoMemory>
        requires ready { IsCoreReady (coded rows.now) (core_state self.old) }
        ensures steps { OnOk result (CoreSteps (coded rows.now) (core_state self.old) (core_state self.new)) }
        ensures looked { OnOk result (WasLooked (coded rows.now) (core_state self.new) watch.rank watch.call watch.way) }
    {
        let way = match way_of(rows, watch.rank, watch.call, watch.way) {
            Some(way) => way,
            None => return Ok(()),
        };
        if !is_kept(&self.kept, watch.rank, watch.call) {
            return Ok(());
        }
        match holder(&self.kept, &way, watch.place) {
            Some(at) => self.wait(rows, way.at(at), Watch { place: at, ..watch }),
            None => self.drop_rank(rows, watch.rank, watch.call),
        }
    }

    /// Drops the rank of a call that has no alternative.
    fn drop_without_way(&mut self, rows: &SharedRows, place: Place) -> Result<(), NoMemory>
        requires ready { IsCoreReady (coded rows.now) (core_state self.old) }
        requires none { length (ways_in (needs_of (coded rows.now) place.rank place.call)) ≡ 0 }
        ensures steps { OnOk result (CoreSteps (coded rows.now) (core_state self.old) (core_state self.new)) }
        ensures dropped { OnOk result (is_call_at (kept_call self.new.kept.items place.rank) place.call ≡ false) }
    {
        if is_kept(&self.kept, place.rank, place.call) {
            self.drop_rank(rows, place.rank, place.call)?;
            return Ok(());
        }
        Ok(())
    }

    /// Looks at the alternatives of a blocked call.
    fn begin(&mut self, rows: &SharedRows, place: Place) -> Result<(), NoMemory>
        requires { IsCoreReady (coded rows.now) (core_state self.old) }
        ensures steps { OnOk result (CoreSteps (coded rows.now) (core_state self.old) (core_state self.new)) }
        ensures looked { OnOk result ((way : ℕ) → way < length (ways_in (needs_of (coded rows.now) place.rank place.call)) → WasLooked (coded rows.now) (core_state self.new) place.rank place.call way) }
        ensures ways { OnOk result (is_call_at (kept_call self.new.kept.items place.rank) place.call ≡ true → 0 < length (ways_in (needs_of (coded rows.now) place.rank place.call))) }
    {
        let ways = way_count(rows, place);
        if ways == 0 {
            return self.drop_without_way(rows, place);
        }
        for way in 0..ways {
            let watch = Watch {
                rank: place.rank,
                call: place.call,
                way,
                place: 0,
            };
            self.look(rows, watch)?;
        }
        Ok(())
    }

    /// Looks at the alternatives that were watched at a dropped rank.
    fn look_at(&mut self, alloc: Global, rows: &SharedRows, rank: u32) -> Result<(), NoMemory>
        requires ready { IsCoreReady (coded rows.now) (core_state self.old) }
        requires rank { rank < length (coded rows.now) }
        requires held { AllWaysHeld (coded rows.now) (with_dropped (core_state self.old) rank) }
        ensures steps { OnOk result (CoreSteps (coded rows.now) (core_taken (core_state self.old) rank) (core_state self.new)) }
        ensures held { OnOk result (AllWaysHeld (coded rows.now) (core_state self.new)) }
    {
        let none = Watches {
            items: Vec::new(alloc),
        };
        let woken = std::mem::replace(&mut self.watches[rank as usize], none);
        for watch in &woken.items {
            self.look(rows, *watch)?;
        }
        Ok(())
    }

    /// The start: all blocked ranks are kept, and no alternative was looked at.
    fn start(alloc: Global, rows: &SharedRows, blocked: &[Place]) -> Result<Dropping, NoMemory>
        requires { IsBlockedList (coded rows.now) blocked.now }
        ensures ready { IfOk result (λ list. IsCoreReady (coded rows.now) (core_state list)) }
        ensures kept { IfOk result (λ list. IsKeptSome (coded rows.now) blocked.now list.kept.items) }
        ensures blocked { IfOk result (λ list. (rank call : ℕ) → kept_call list.kept.items rank ≡ Some call → Has blocked.now (record { rank = rank; call = call })) }
    {
        let kept = calls_by_rank(alloc, rows.rank_count(), blocked)?;
        let mut watches = Vec::with_capacity(alloc, rows.rank_count())?;
        for _rank in 0..rows.rank_count() {
            watches.push(Watches {
                items: Vec::new(alloc),
            })?;
        }
        Ok(Dropping {
            kept,
            watches,
            dropped: Vec::new(alloc),
        })
    }

    /// Looks at the alternatives of all blocked calls.
    fn begin_all(&mut self, rows: &SharedRows, blocked: &[Place]) -> Result<(), NoMemory>
        requires ready { IsCoreReady (coded rows.now) (core_state self.old) }
        requires blocked { (rank call : ℕ) → kept_call self.old.kept.items rank ≡ Some call → Has blocked.now (record { rank = rank; call = call }) }
        ensures steps { OnOk result (CoreSteps (coded rows.now) (core_state self.old) (core_state self.new)) }
        ensures held { OnOk result (AllWaysHeld (coded rows.now) (core_state self.new)) }
        ensures ways { OnOk result (HasWays (coded rows.now) self.new.kept.items) }
    {
        for place in blocked {
            self.begin(rows, *place)?;
        }
        Ok(())
    }
}

/// The blocked call of each rank that has one.
pub(crate) fn calls_by_rank(
    alloc: Global,
    ranks: usize,
    blocked: &[Place],
) -> Result<Vec<Option<u32>>, NoMemory>
    requires { (place : Place) → Has blocked.now place → place.rank < ranks }
    ensures len { IfOk result (λ calls. length calls.items ≡ ranks) }
    ensures calls { IfOk result (λ calls. (rank call : ℕ) → kept_call calls.items rank ≡ Some call → Has blocked.now (record { rank = rank; call = call })) }
    ensures all { IfOk result (λ calls. (place : Place) → Has blocked.now place → is_some (kept_call calls.items place.rank) ≡ true) }
{
    let mut calls = vec![in alloc; None; ranks]?;
    for place in blocked {
        calls[place.rank as usize] = Some(place.call);
    }
    Ok(calls)
}

/// The blocked call of each rank of the core.
pub(crate) fn kept_calls(
    alloc: Global,
    rows: &SharedRows,
    blocked: &[Place],
) -> Result<Vec<Option<u32>>, NoMemory>
    requires { IsBlockedList (coded rows.now) blocked.now }
    ensures kept { IfOk result (λ kept. IsKeptSome (coded rows.now) blocked.now kept.items) }
    ensures held { IfOk result (λ kept. AllHeld (coded rows.now) kept.items) }
{
    let mut list = Dropping::start(alloc, rows, blocked)?;
    list.begin_all(rows, blocked)?;
    while let Some(rank) = list.dropped.pop() {
        list.look_at(alloc, rows, rank)?;
    }
    Ok(list.kept)
}

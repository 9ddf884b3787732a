//! The replay as a worklist: each alternative of a rank's next call is watched at one of its places that isn't reached yet.
//!
//! A call that becomes reached is looked at once: its own alternatives, and those that were watched at it, each move on to
//! their next place that isn't reached, or let their call pass. So an alternative goes over each of its places at most twice.

ghost use Rattle.std.specs.Prelude.{◌≡◌, ℕ, ◌<◌, ◌≤◌, ◌^◌, ◌+◌, ◌++◌, ◌∷◌, [], length, Some, true, false, MatchOption, slice_index, slice_get, slice_set, IfOk, OnOk, replicate, is_some, sum};
ghost use Rattle.std.specs.List.{list_all, slice_index_or};
ghost use Rattle.std.specs.Option.{option_copied};
ghost use Rattle.must_call.specs.declared.place.Place.{Place};
ghost use Rattle.must_base.specs.Listing.{Has};
ghost use Rattle.must_wait.specs.CodedWay.{coded_places};
ghost use Rattle.must_wait.specs.Counted.{counted, IsSound, IsClosed};
ghost use Rattle.must_wait.specs.Needs.{needs_of, calls_of};
ghost use Rattle.must_wait.specs.Replay.{reached, some_way};
ghost use Rattle.must_wait.specs.Shared.{coded};
ghost use Rattle.must_wait.specs.Watching.{State, state_of, way_at, ways_in, taken, with_fresh, HasPlace, HasWatch, slot, watches_at, AllWatched, IsSettled, IsReady, Steps};

use crate::coded::{CodedWay, way_count, way_of};
use crate::progress::{is_call, is_reached};
use crate::shared::SharedRows;
use must_base::NoMemory;
use must_call::Place;
use std::alloc::Global;
use std::marker::Model;

/// An alternative of a call, and the index of the place of it at which it is watched.
#[derive(Clone, Copy)]
pub(crate) struct Watch {
    pub(crate) rank: u32,
    pub(crate) call: u32,
    pub(crate) way: usize,
    pub(crate) place: usize,
}

/// The watches at one call.
#[derive(Drop)]
pub(crate) struct Watches {
    pub(crate) items: Vec<Watch>,
}

impl Model for Watches {
    ghost use Rattle.std.specs.Prelude.{List};
    ghost use Rattle.must_wait.specs.declared.worklist.Watch.{Watch};

    ghost Value = { List Watch };

    ghost view = { λ w. w.items.items };
}

/// A replay under way.
#[derive(Drop)]
pub(crate) struct Worklist {
    /// How many calls of each rank are passed.
    done: Vec<u32>,
    /// Where the watches of each rank's first call stand; those of its later calls follow.
    first: Vec<usize>,
    watches: Vec<Watches>,
    /// Reached calls that weren't looked at yet.
    fresh: Vec<Place>,
}

/// The index from `low` and below `high` of the first place that isn't reached.
fn unreached_between(
    rows: &SharedRows,
    done: &[u32],
    way: &CodedWay<'_>,
    low: usize,
    high: usize,
) -> Option<usize>
    requires done { length done.now ≡ length (coded rows.now) }
    requires high { high ≤ length (coded_places way.now) }
    ensures { MatchOption result
        ((k : ℕ) (d : Place) → low ≤ k → k < high → let p = slice_index_or (coded_places way.now) k d in reached (coded rows.now) (counted done.now) p.rank p.call ≡ true)
        (λ at. (at < high) × ((d : Place) → let p = slice_index_or (coded_places way.now) at d in reached (coded rows.now) (counted done.now) p.rank p.call ≡ false)) }
{
    for at in low..high {
        if !is_reached(rows, done, way.at(at)) {
            return Some(at);
        }
    }
    None
}

/// The index of a place that isn't reached. The search goes from `from` to the end, and then over the places before, which
/// were reached when the watch moved past them.
fn unreached(rows: &SharedRows, done: &[u32], way: &CodedWay<'_>, from: usize) -> Option<usize>
    requires { length done.now ≡ length (coded rows.now) }
    ensures { MatchOption result
        ((k : ℕ) (d : Place) → k < length (coded_places way.now) → let p = slice_index_or (coded_places way.now) k d in reached (coded rows.now) (counted done.now) p.rank p.call ≡ true)
        (λ at. (at < length (coded_places way.now)) × ((d : Place) → let p = slice_index_or (coded_places way.now) at d in reached (coded rows.now) (counted done.now) p.rank p.call ≡ false)) }
{
    let middle = from.min(way.len());
    match unreached_between(rows, done, way, middle, way.len()) {
        Some(at) => Some(at),
        None => unreached_between(rows, done, way, 0, middle),
    }
}

impl Worklist {
    /// Passes the next call of a rank, which makes the one behind it reached.
    fn pass(&mut self, rows: &SharedRows, rank: u32) -> Result<(), NoMemory>
        requires ready { IsReady (coded rows.now) (state_of self.old) }
        requires way { some_way (coded rows.now) (counted self.old.done.items) (needs_of (coded rows.now) rank (slice_index self.old.done.items rank)) ≡ true }
        ensures steps { OnOk result (Steps (coded rows.now) (state_of self.old) (state_of self.new)) }
        ensures passed { OnOk result (slice_index self.new.done.items rank ≡ slice_index self.old.done.items rank + 1) }
    {
        let count = self.done[rank as usize] + 1;
        self.done[rank as usize] = count;
        let place = Place { rank, call: count };
        if is_call(rows, place) {
            self.fresh.push(place)?;
        }
        Ok(())
    }

    /// Lets an alternative wait at a place.
    fn wait(&mut self, rows: &SharedRows, place: Place, watch: Watch) -> Result<(), NoMemory>
        requires ready { IsReady (coded rows.now) (state_of self.old) }
        ensures steps { OnOk result (Steps (coded rows.now) (state_of self.old) (state_of self.new)) }
        ensures same { OnOk result (self.new.done.items ≡ self.old.done.items) }
        ensures waits { OnOk result (is_some (needs_of (coded rows.now) place.rank place.call) ≡ true → HasWatch (watches_at (state_of self.new) (slot (state_of self.new) place.rank place.call)) watch.rank watch.call watch.way) }
    {
        if is_call(rows, place) {
            let slot = self.first[place.rank as usize] + place.call as usize;
            self.watches[slot].items.push(watch)?;
        }
        Ok(())
    }

    /// Looks at an alternative: it lets its call pass, or waits at a place that isn't reached.
    fn look(&mut self, rows: &SharedRows, watch: Watch) -> Result<(), NoMemory>
        requires ready { IsReady (coded rows.now) (state_of self.old) }
        ensures steps { OnOk result (Steps (coded rows.now) (state_of self.old) (state_of self.new)) }
        ensures settled { OnOk result (IsSettled (coded rows.now) (state_of self.new) watch.rank watch.call watch.way) }
    {
        let way = match way_of(rows, watch.rank, watch.call, watch.way) {
            Some(way) => way,
            None => return Ok(()),
        };
        if self.done[watch.rank as usize] != watch.call {
            return Ok(());
        }
        match unreached(rows, &self.done, &way, watch.place) {
            Some(at) => self.wait(rows, way.at(at), Watch { place: at, ..watch }),
            None => self.pass(rows, watch.rank),
        }
    }

    /// Takes the watches at a call.
    fn take_watches(&mut self, alloc: Global, place: Place) -> Watches
        requires rank { place.rank < length self.old.first.items }
        requires slot { slot (state_of self.old) place.rank place.call < length self.old.watches.items }
        ensures watches { result ≡ watches_at (state_of self.old) (slot (state_of self.old) place.rank place.call) }
        ensures state { state_of self.new ≡ taken (state_of self.old) (slot (state_of self.old) place.rank place.call) }
    {
        let slot = self.first[place.rank as usize] + place.call as usize;
        let none = Watches {
            items: Vec::new(alloc),
        };
        std::mem::replace(&mut self.watches[slot], none)
    }

    /// Looks at a call that has become reached: at its own alternatives, and at those that were watched at it.
    fn look_at(&mut self, alloc: Global, rows: &SharedRows, place: Place) -> Result<(), NoMemory>
        requires ready { IsReady (coded rows.now) (state_of self.old) }
        requires call { is_some (needs_of (coded rows.now) place.rank place.call) ≡ true }
        requires watched { AllWatched (coded rows.now) (with_fresh (state_of self.old) place) }
        ensures ready { OnOk result (IsReady (coded rows.now) (state_of self.new)) }
        ensures watched { OnOk result (AllWatched (coded rows.now) (state_of self.new)) }
        ensures fresh { OnOk result (length self.new.fresh.items + sum self.old.done.items ≤ length self.old.fresh.items + sum self.new.done.items) }
    {
        let woken = self.take_watches(alloc, place);
        for way in 0..way_count(rows, place) {
            let watch = Watch {
                rank: place.rank,
                call: place.call,
                way,
                place: 0,
            };
            self.look(rows, watch)?;
        }
        for watch in &woken.items {
            self.look(rows, *watch)?;
        }
        Ok(())
    }

    /// The replay before any call is passed: the first calls are to be looked at.
    fn start(alloc: Global, rows: &SharedRows) -> Result<Worklist, NoMemory>
        requires ranks { length (coded rows.now) < 2 ^ 32 }
        requires calls { (rank : ℕ) → length (calls_of (coded rows.now) rank) ≤ 2 ^ 31 }
        ensures ready { IfOk result (λ w. IsReady (coded rows.now) (state_of w)) }
        ensures watched { IfOk result (λ w. AllWatched (coded rows.now) (state_of w)) }
    {
        let done = vec![in alloc; 0; rows.rank_count()]?;
        let fresh = first_calls(alloc, rows)?;
        let mut first = Vec::with_capacity(alloc, rows.rank_count())?;
        let mut watches = Vec::new(alloc);
        for rank in 0..rows.rank_count() as u32 {
            first.push(watches.len())?;
            for _call in 0..rows.call_count(rank) {
                watches.push(Watches {
                    items: Vec::new(alloc),
                })?;
            }
        }
        Ok(Worklist {
            done,
            first,
            watches,
            fresh,
        })
    }
}

/// The first call of each rank that has one.
fn first_calls(alloc: Global, rows: &SharedRows) -> Result<Vec<Place>, NoMemory>
    requires { length (coded rows.now) < 2 ^ 32 }
    ensures all { IfOk result (λ v. (rank : ℕ) → is_some (needs_of (coded rows.now) rank 0) ≡ true → HasPlace v.items rank 0) }
    ensures calls { IfOk result (λ v. (rank call : ℕ) → HasPlace v.items rank call → (call ≡ 0) × (is_some (needs_of (coded rows.now) rank call) ≡ true)) }
{
    let mut calls = Vec::new(alloc);
    for rank in 0..rows.rank_count() as u32 {
        let place = Place { rank, call: 0 };
        if is_call(rows, place) {
            calls.push(place)?;
        }
    }
    Ok(calls)
}

/// How many calls of each rank the replay passes.
pub(crate) fn passed_calls(alloc: Global, rows: &SharedRows) -> Result<Vec<u32>, NoMemory>
    requires ranks { length (coded rows.now) < 2 ^ 32 }
    requires calls { (rank : ℕ) → length (calls_of (coded rows.now) rank) ≤ 2 ^ 31 }
    ensures sound { IfOk result (λ done. IsSound (coded rows.now) done.items) }
    ensures closed { IfOk result (λ done. IsClosed (coded rows.now) done.items) }
{
    let mut list = Worklist::start(alloc, rows)?;
    while let Some(place) = list.fresh.pop() {
        list.look_at(alloc, rows, place)?;
    }
    Ok(list.done)
}

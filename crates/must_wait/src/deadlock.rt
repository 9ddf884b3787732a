//! The deadlock core: which blocked ranks wait for each other alone.

ghost use Rattle.std.specs.Prelude.{◌≡◌, ℕ, ◌+◌, ◌<◌, ◌≤◌, List, Some, true, length, slice_get, IfOk, is_some};
ghost use Rattle.std.specs.List.{list_all};
ghost use Rattle.std.specs.Ordering.{nat_cmp};
ghost use Rattle.must_call.specs.declared.place.Place.{Place};
ghost use Rattle.must_base.specs.Listing.{Lists};
ghost use Rattle.must_wait.specs.Core.{IsCore};
ghost use Rattle.must_wait.specs.Keeping.{kept_call, AreBlocked};
ghost use Rattle.must_wait.specs.Replay.{reached, passed, IsBlocked, IsBlockedList};
ghost use Rattle.must_wait.specs.Shared.{IsTable, coded};

use crate::blocked::Blocked;
use crate::dropping::{calls_by_rank, kept_calls};
use crate::rows::Rows;
use crate::shared::SharedRows;
use must_base::NoMemory;
use must_call::Place;
use std::alloc::Global;
use std::marker::Model;

/// A set of ranks. Contracts see the rising list.
#[derive(Drop)]
pub struct RankSet {
    ranks: Vec<u32>,
}

impl Model for RankSet {
    ghost use Rattle.std.specs.Prelude.{List, ℕ};

    ghost Value = { List ℕ };

    ghost view = { λ s. s.ranks.items };
}

impl RankSet {
    /// Lends the ranks.
    pub fn items(&self) -> &[u32]
        ensures { result.now ≡ self.now }
    {
        &self.ranks
    }

    /// Gives the ranks.
    pub fn into_vec(self) -> Vec<u32>
        ensures { result.items ≡ self }
    {
        let RankSet { ranks } = self;
        ranks
    }
}

/// The blocked call of a rank.
fn call_of(calls: &[Option<u32>], rank: u32) -> Option<u32>
    ensures { result ≡ kept_call calls.now rank }
{
    match calls.get(rank as usize) {
        Some(call) => *call,
        None => None,
    }
}

/// Whether the replay reaches a place, where these are the blocked calls by rank.
fn reaches(rows: &SharedRows, calls: &[Option<u32>], place: Place) -> bool
    requires { AreBlocked rows.now.needs calls.now }
    ensures { result ≡ reached rows.now.needs (passed rows.now.needs) place.rank place.call }
{
    match call_of(calls, place.rank) {
        Some(call) => place.call <= call,
        None => rows.needs(place.rank, place.call).is_some(),
    }
}

/// Whether the replay reaches all places of a list.
fn is_open(rows: &SharedRows, calls: &[Option<u32>], places: &[Place]) -> bool
    requires { AreBlocked rows.now.needs calls.now }
    ensures { result ≡ list_all (λ (p : Place). reached rows.now.needs (passed rows.now.needs) p.rank p.call) places.now }
{
    for place in places {
        if !reaches(rows, calls, *place) {
            return false;
        }
    }
    true
}

/// Whether the replay reaches all places of the list of this number.
fn is_open_list(rows: &SharedRows, calls: &[Option<u32>], number: u32) -> bool
    requires { AreBlocked rows.now.needs calls.now }
    ensures { (places : List Place) → slice_get rows.now.lists number ≡ Some places → result ≡ list_all (λ (p : Place). reached rows.now.needs (passed rows.now.needs) p.rank p.call) places }
{
    match rows.list(number) {
        Some(places) => is_open(rows, calls, places),
        None => false,
    }
}

/// The blocked call of the rank as which a list stands: the first, or the gate once all places of the list are reached.
fn list_call(rows: &SharedRows, calls: &[Option<u32>], number: u32) -> Place
    requires calls { AreBlocked rows.now.needs calls.now }
    requires valid { IsTable rows.now }
    requires number { number < length rows.now.lists }
    ensures rank { result.rank ≡ length rows.now.needs + number }
    ensures blocked { IsBlocked (coded rows.now) result }
{
    let rank = rows.ranks() + number;
    if is_open_list(rows, calls, number) {
        return Place { rank, call: 1 };
    }
    Place { rank, call: 0 }
}

/// The blocked calls of all ranks, and of those as which the lists stand.
fn all_blocked(alloc: Global, rows: &SharedRows, blocked: &[Place]) -> Result<Vec<Place>, NoMemory>
    requires list { IsBlockedList rows.now.needs blocked.now }
    requires valid { IsTable rows.now }
    ensures { IfOk result (λ all. IsBlockedList (coded rows.now) all.items) }
{
    let calls = calls_by_rank(alloc, rows.ranks() as usize, blocked)?;
    let mut all = blocked.to_vec(alloc)?;
    for number in 0..rows.lists() {
        all.push(list_call(rows, &calls, number))?;
    }
    Ok(all)
}

/// The ranks below a number that are kept.
fn kept_ranks(alloc: Global, ranks: u32, kept: &[Option<u32>]) -> Result<RankSet, NoMemory>
    requires { ranks ≤ length kept.now }
    ensures { IfOk result (λ found. Lists nat_cmp (λ rank. (rank < ranks) × (is_some (kept_call kept.now rank) ≡ true)) found) }
{
    let mut found = Vec::new(alloc);
    for rank in 0..ranks {
        if kept[rank as usize].is_some() {
            found.push(rank)?;
        }
    }
    Ok(RankSet { ranks: found })
}

/// The deadlock core: the blocked ranks that wait, in every alternative, for a call of the core that isn't reached.
///
/// `blocked` is what [`replay`](crate::replay) gives for these rows.
pub fn core(alloc: Global, rows: &Rows, blocked: &Blocked) -> Result<RankSet, NoMemory>
    requires { IsBlockedList rows.now blocked.now }
    ensures { IfOk result (λ ranks. IsCore rows.now blocked.now ranks) }
{
    let shared = rows.shared();
    let all = all_blocked(alloc, shared, blocked.items())?;
    let kept = kept_calls(alloc, shared, &all)?;
    kept_ranks(alloc, rows.ranks(), &kept)
}

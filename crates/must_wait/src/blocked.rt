//! The replay: at which call each rank is blocked.

ghost use Rattle.std.specs.Prelude.{◌≡◌, ◌<◌, ◌≤◌, length, IfOk, MatchOption};
ghost use Rattle.must_call.specs.declared.place.Place.{Place};
ghost use Rattle.must_base.specs.Listing.{Has, Lists, Rises};
ghost use Rattle.must_find.specs.Order.{by_spot};
ghost use Rattle.must_wait.specs.Counted.{IsNext};
ghost use Rattle.must_wait.specs.Replay.{IsBlockedList, passed, reached};
ghost use Rattle.must_wait.specs.Shared.{coded};

use crate::progress::is_call;
use crate::rows::Rows;
use crate::shared::SharedRows;
use crate::worklist::passed_calls;
use must_base::NoMemory;
use must_call::Place;
use std::alloc::Global;
use std::cmp::Ordering;
use std::marker::Model;

/// The blocked calls of a run, by rank. Contracts see the list.
#[derive(Drop)]
pub struct Blocked {
    items: Vec<Place>,
}

impl Model for Blocked {
    ghost use Rattle.std.specs.Prelude.{List};
    ghost use Rattle.must_call.specs.declared.place.Place.{Place};

    ghost Value = { List Place };

    ghost view = { λ b. b.items.items };
}

impl Blocked {
    /// Lends the calls.
    pub fn items(&self) -> &[Place]
        ensures { result.now ≡ self.now }
    {
        &self.items
    }

    /// Gives the calls.
    pub fn into_vec(self) -> Vec<Place>
        ensures { result.items ≡ self }
    {
        let Blocked { items } = self;
        items
    }
}

/// The next call of each rank that has one, where so many calls of each rank are passed.
fn next_calls(alloc: Global, rows: &SharedRows, done: &[u32]) -> Result<Blocked, NoMemory>
    requires ranks { length rows.now.needs ≤ length done.now }
    ensures { IfOk result (λ calls. Lists by_spot (λ place. (place.rank < length rows.now.needs) × IsNext (coded rows.now) done.now place) calls) }
{
    let mut items = Vec::new(alloc);
    for rank in 0..rows.ranks() {
        let place = Place {
            rank,
            call: done[rank as usize],
        };
        if is_call(rows, place) {
            items.push(place)?;
        }
    }
    Ok(Blocked { items })
}

/// The blocked call of each rank that has one.
///
/// A call passes once it and all places of one of its alternatives are reached; a call is reached once the calls of its rank
/// before it are passed. So the passed calls are the least set that is closed under this rule, and a rank is blocked at its
/// first call outside.
pub fn replay(alloc: Global, rows: &Rows) -> Result<Blocked, NoMemory>
    ensures { IfOk result (λ blocked. IsBlockedList rows.now blocked) }
{
    let shared = rows.shared();
    let done = passed_calls(alloc, shared)?;
    next_calls(alloc, shared, &done)
}

/// The blocked call of a rank.
fn blocked_call(blocked: &[Place], rank: u32) -> Option<u32>
    requires { Rises by_spot blocked.now }
    ensures { MatchOption result ((place : Place) → Has blocked.now place → place.rank ≡ rank → ⊥) (λ call. Has blocked.now (record { rank = rank; call = call })) }
{
    let mut low = 0;
    let mut high = blocked.len();
    while low < high {
        let middle = low + (high - low) / 2;
        let place = blocked[middle];
        match place.rank.cmp(&rank) {
            Ordering::Less => low = middle + 1,
            Ordering::Equal => return Some(place.call),
            Ordering::Greater => high = middle,
        }
    }
    None
}

/// Whether the replay reaches a place, in time logarithmic in the blocked calls. It takes no memory.
///
/// `blocked` is what [`replay`] gives for these rows. A place that is no call is never reached.
pub fn is_reached(rows: &Rows, blocked: &Blocked, place: Place) -> bool
    requires { IsBlockedList rows.now blocked.now }
    ensures { result ≡ reached rows.now (passed rows.now) place.rank place.call }
{
    match blocked_call(blocked.items(), place.rank) {
        Some(call) => place.call <= call,
        None => rows.needs(place.rank, place.call).is_some(),
    }
}

//! Rows as the worklists see them: each shared list stands as a rank of its own behind the others.
//!
//! The first call of such a rank waits for the list. The second, the gate, has no alternative, and is reached once all places of
//! the list are. Alternatives that are the list wait for the gate. So a list is gone over once, and wakes its calls together.

ghost use Rattle.std.specs.Prelude.{◌≡◌, ℕ, ◌+◌, ◌<◌, ◌≤◌, ◌^◌, List, length, is_some};
ghost use Rattle.std.specs.List.{slice_index_or};
ghost use Rattle.std.specs.Option.{option_copied, option_map};
ghost use Rattle.must_call.specs.declared.place.Place.{Place};
ghost use Rattle.must_wait.specs.CodedWay.{coded_places};
ghost use Rattle.must_wait.specs.Needs.{calls_of, needs_of};
ghost use Rattle.must_wait.specs.Shared.{IsTable, coded, coded_way, gate, inner};
ghost use Rattle.must_wait.specs.Watching.{way_at, ways_in};

use crate::lists::Places;
use crate::shared::SharedRows;
use must_call::Place;

/// An alternative: places, of which those of ranks that aren't there are no call, or a gate.
#[derive(Clone, Copy)]
pub(crate) struct CodedWay<'a> {
    pub(crate) ranks: u32,
    pub(crate) places: &'a [Place],
    pub(crate) gate: Option<Place>,
}

impl CodedWay<'_> {
    pub(crate) fn len(&self) -> usize
        ensures { result ≡ length (coded_places self.now) }
    {
        match self.gate {
            Some(_) => 1,
            None => self.places.len(),
        }
    }

    /// The place at an index.
    pub(crate) fn at(&self, index: usize) -> Place
        requires { index < length (coded_places self.now) }
        ensures { (d : Place) → result ≡ slice_index_or (coded_places self.now) index d }
    {
        match self.gate {
            Some(gate) => gate,
            None => inner_place(self.ranks, self.places[index]),
        }
    }
}

/// A place of a rank that isn't there is no call.
fn inner_place(ranks: u32, place: Place) -> Place
    ensures { result ≡ inner ranks place }
{
    if place.rank < ranks {
        return place;
    }
    Place {
        rank: 4_294_967_295,
        call: 0,
    }
}

/// The places of an alternative.
fn places_at(rows: &SharedRows, rank: u32, call: u32, way: usize) -> Option<&Places>
    ensures { option_copied result ≡ way_at rows.now.needs rank call way }
{
    match rows.needs(rank, call) {
        Some(needs) => needs.items().get(way),
        None => None,
    }
}

/// An alternative of a call of a rank that is there.
fn own_way(rows: &SharedRows, rank: u32, call: u32, way: usize) -> Option<CodedWay<'_>>
    requires { rank < length rows.now.needs }
    ensures { option_map coded_places result ≡ way_at (coded rows.now) rank call way }
{
    match places_at(rows, rank, call, way) {
        Some(places) => Some(CodedWay {
            ranks: rows.ranks(),
            places: places.items(),
            gate: rows.gate_of(rank, call, way),
        }),
        None => None,
    }
}

/// The alternative of a list.
fn list_way(rows: &SharedRows, number: u32) -> Option<CodedWay<'_>>
    ensures { option_map coded_places result ≡ way_at (coded rows.now) (length rows.now.needs + number) 0 0 }
{
    match rows.list(number) {
        Some(places) => Some(CodedWay {
            ranks: rows.ranks(),
            places,
            gate: None,
        }),
        None => None,
    }
}

/// An alternative of a call.
pub(crate) fn way_of(rows: &SharedRows, rank: u32, call: u32, way: usize) -> Option<CodedWay<'_>>
    ensures { option_map coded_places result ≡ way_at (coded rows.now) rank call way }
{
    let ranks = rows.ranks();
    if rank < ranks {
        return own_way(rows, rank, call, way);
    }
    if call > 0 {
        return None;
    }
    if way > 0 {
        return None;
    }
    list_way(rows, rank - ranks)
}

/// How many alternatives a call has that is told by its own needs.
fn own_count(rows: &SharedRows, place: Place) -> usize
    ensures { result ≡ length (ways_in (needs_of rows.now.needs place.rank place.call)) }
{
    match rows.needs(place.rank, place.call) {
        Some(needs) => needs.items().len(),
        None => 0,
    }
}

/// How many alternatives a call has.
pub(crate) fn way_count(rows: &SharedRows, place: Place) -> usize
    ensures { result ≡ length (ways_in (needs_of (coded rows.now) place.rank place.call)) }
{
    let ranks = rows.ranks();
    if place.rank < ranks {
        return own_count(rows, place);
    }
    if place.call > 0 {
        return 0;
    }
    match rows.list(place.rank - ranks) {
        Some(_) => 1,
        None => 0,
    }
}

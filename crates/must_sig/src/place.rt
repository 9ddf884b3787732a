//! Reading runs that are repeated, a piece of a run at a time.

ghost use Rattle.std.specs.Prelude.{◌≡◌, ◌+◌, ◌*◌, ◌<◌, ◌≤◌, ◌^◌, ◌++◌, length, drop, replicate, []};
ghost use Rattle.must_sig.specs.Signatures.{laid, repeated};
ghost use Rattle.must_sig.specs.Runs.{AreRuns};
ghost use Rattle.must_sig.specs.Places.{ahead, IsReady};

use crate::run::Run;
use must_call::Basic;

/// Where a reading stands: before `left` elements of one basic type, then the runs of the unit from `next` on, and then
/// the whole unit `more` times.
#[derive(Clone, Copy)]
pub(crate) struct Place {
    pub basic: Basic,
    pub left: u128,
    pub next: usize,
    pub more: u128,
}

/// The place behind all.
#[tactic(auto, unfolding(crate::specs::Places::ahead))]
fn at_end(unit: &[Run]) -> Place
    ensures ahead { ahead unit.now result ≡ [] }
    ensures ready { IsReady unit.now result }
{
    Place {
        basic: Basic::Byte,
        left: 0,
        next: unit.len(),
        more: 0,
    }
}

/// The place behind a run.
#[tactic(auto, unfolding(crate::specs::Places::ahead))]
fn following(unit: &[Run], next: usize, more: u128) -> Place
    requires runs { AreRuns unit.now }
    requires within { next ≤ length unit.now }
    ensures ahead { ahead unit.now result ≡ laid (drop next unit.now) ++ repeated more (laid unit.now) }
    ensures ready { IsReady unit.now result }
{
    if next < unit.len() {
        let run = unit[next];
        return Place {
            basic: run.basic,
            left: u128::from(run.length),
            next: next + 1,
            more,
        };
    }
    if more == 0 {
        return at_end(unit);
    }
    if unit.is_empty() {
        return at_end(unit);
    }
    let run = unit[0];
    Place {
        basic: run.basic,
        left: u128::from(run.length),
        next: 1,
        more: more - 1,
    }
}

/// The place before the first of all runs. A unit of one run is read as one long run.
#[tactic(auto, unfolding(crate::specs::Places::ahead))]
pub(crate) fn start(unit: &[Run], times: u128) -> Place
    requires runs { AreRuns unit.now }
    requires long { times * length (laid unit.now) < 2 ^ 128 }
    ensures ahead { ahead unit.now result ≡ repeated times (laid unit.now) }
    ensures ready { IsReady unit.now result }
{
    if unit.len() != 1 {
        return following(unit, unit.len(), times);
    }
    let run = unit[0];
    Place {
        basic: run.basic,
        left: times * u128::from(run.length),
        next: 1,
        more: 0,
    }
}

/// The place behind `n` basic types of the run at hand.
#[tactic(auto, unfolding(crate::specs::Places::ahead))]
pub(crate) fn pass(unit: &[Run], place: Place, n: u128) -> Place
    requires runs { AreRuns unit.now }
    requires within { place.next ≤ length unit.now }
    requires at_hand { n ≤ place.left }
    ensures ahead { ahead unit.now place ≡ replicate n place.basic ++ ahead unit.now result }
    ensures ready { IsReady unit.now result }
{
    if n < place.left {
        return Place {
            basic: place.basic,
            left: place.left - n,
            next: place.next,
            more: place.more,
        };
    }
    following(unit, place.next, place.more)
}

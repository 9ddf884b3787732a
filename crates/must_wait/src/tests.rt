//! Worked runs as needs, edges, large runs, and runs that are compared with the rounds of the definitions.

ghost use Rattle.std.specs.Prelude.{◌<◌, ◌^◌, ℕ, length, IsTrue};
ghost use Rattle.must_wait.specs.Replay.{IsBlockedList};

use crate::{Blocked, Needs, Places, Rows, SharedRows, Way, core, is_reached, replay};
use must_base::NoMemory;
use must_call::Place;
use std::alloc::Global;
use std::process::Abort;
use std::test::Fail;

/// One alternative with these places.
fn way(alloc: Global, places: &[(u32, u32)]) -> Result<Places, NoMemory> {
    let mut items = Vec::new(alloc);
    for (rank, call) in places {
        items.push(Place {
            rank: *rank,
            call: *call,
        })?;
    }
    Ok(Places::from_vec(items))
}

fn push(rt: &impl Abort, rows: &mut Rows, rank: u32, needs: Needs) -> Result<(), NoMemory> {
    assert!(rt; rank < rows.ranks());
    assert!(rt; rows.needs(rank, 2_147_483_647).is_none());
    rows.push(rank, needs)
}

/// A run under way.
#[derive(Drop)]
struct Run {
    alloc: Global,
    rows: Rows,
}

impl Run {
    fn new(alloc: Global, ranks: u32) -> Result<Run, NoMemory> {
        Ok(Run {
            alloc,
            rows: Rows::new(alloc, ranks)?,
        })
    }

    /// A call without an alternative.
    fn none(&mut self, rt: &impl Abort, rank: u32) -> Result<(), NoMemory> {
        push(
            rt,
            &mut self.rows,
            rank,
            Needs::from_vec(Vec::new(self.alloc)),
        )
    }

    /// A call with one alternative.
    fn one(&mut self, rt: &impl Abort, rank: u32, places: &[(u32, u32)]) -> Result<(), NoMemory> {
        let mut ways = Vec::new(self.alloc);
        ways.push(way(self.alloc, places)?)?;
        push(rt, &mut self.rows, rank, Needs::from_vec(ways))
    }

    /// A call that never waits.
    fn free(&mut self, rt: &impl Abort, rank: u32) -> Result<(), NoMemory> {
        self.one(rt, rank, &[])
    }

    /// A call with two alternatives.
    fn two(
        &mut self,
        rt: &impl Abort,
        rank: u32,
        places: &[(u32, u32)],
        others: &[(u32, u32)],
    ) -> Result<(), NoMemory> {
        let mut ways = Vec::new(self.alloc);
        ways.push(way(self.alloc, places)?)?;
        ways.push(way(self.alloc, others)?)?;
        push(rt, &mut self.rows, rank, Needs::from_vec(ways))
    }

    /// Checks which calls are blocked, and which of their ranks are the core.
    fn expect(
        &self,
        rt: &impl Abort,
        blocked: &[(u32, u32)],
        ranks: &[u32],
    ) -> Result<(), NoMemory> {
        expect(rt, self.alloc, &self.rows, blocked, ranks)
    }
}

/// Checks which calls are blocked, and which of their ranks are the core.
fn expect(
    rt: &impl Abort,
    alloc: Global,
    rows: &Rows,
    blocked: &[(u32, u32)],
    ranks: &[u32],
) -> Result<(), NoMemory> {
    let found = replay(alloc, rows)?;
    let kept = core(alloc, rows, &found)?;
    assert_eq!(rt; found.items().len(), blocked.len());
    for (place, want) in found.items().iter().zip(blocked) {
        assert_eq!(rt; (place.rank, place.call), *want);
    }
    assert_eq!(rt; kept.items(), ranks);
    assert_eq!(rt; found.into_vec().len(), blocked.len());
    assert_eq!(rt; kept.into_vec().len(), ranks.len());
    Ok(())
}

#[test]
fn lists(rt: HostRuntime) -> Result<(), Fail> {
    let alloc = rt.alloc();
    let mut ways = Vec::new(alloc);
    ways.push(way(alloc, &[(3, 4), (5, 6)])?)?;
    ways.push(way(alloc, &[])?)?;
    let needs = Needs::from_vec(ways);
    assert_eq!(rt; needs.items().len(), 2);
    assert_eq!(rt; needs.items()[0].items().len(), 2);
    assert_eq!(rt; needs.items()[1].items().len(), 0);
    let mut ways = needs.into_vec();
    assert_eq!(rt; ways.len(), 2);
    let last = ways.pop();
    assert!(rt; last.is_some_and(|way| way.items().is_empty()));
    let first = ways.pop();
    assert!(rt; first.is_some_and(|way| way.items().len() == 2));
    Ok(())
}

#[test]
fn needs_of_rows(rt: HostRuntime) -> Result<(), Fail> {
    let mut run = Run::new(rt.alloc(), 2)?;
    run.one(&rt, 1, &[(0, 0)])?;
    run.none(&rt, 1)?;
    let rows = &run.rows;
    assert_eq!(rt; rows.ranks(), 2);
    assert!(rt; rows.needs(0, 0).is_none());
    assert!(rt; rows.needs(1, 2).is_none());
    assert!(rt; rows.needs(2, 0).is_none());
    assert!(rt;
        rows.needs(1, 0)
            .is_some_and(|needs| needs.items().len() == 1)
    );
    assert!(rt;
        rows.needs(1, 1)
            .is_some_and(|needs| needs.items().is_empty())
    );
    Ok(())
}

/// Two ranks that first send to each other, a third that waits for the first, and a fourth whose message never comes.
#[test]
fn sends_that_wait(rt: HostRuntime) -> Result<(), Fail> {
    let mut run = Run::new(rt.alloc(), 4)?;
    for rank in 0..4u32 {
        run.free(&rt, rank)?;
    }
    run.one(&rt, 0, &[(1, 2)])?;
    run.one(&rt, 0, &[(1, 1)])?;
    run.one(&rt, 0, &[(2, 1)])?;
    run.one(&rt, 1, &[(0, 2)])?;
    run.one(&rt, 1, &[(0, 1)])?;
    run.one(&rt, 2, &[(0, 3)])?;
    run.one(&rt, 3, &[(0, 5)])?;
    for rank in 0..3u32 {
        run.free(&rt, rank)?;
    }
    run.expect(&rt, &[(0, 1), (1, 1), (2, 1), (3, 1)], &[0, 1, 2, 3])?;
    Ok(())
}

/// The same calls with sends that need nothing.
#[test]
fn buffered_sends(rt: HostRuntime) -> Result<(), Fail> {
    let mut run = Run::new(rt.alloc(), 4)?;
    for rank in 0..4u32 {
        run.free(&rt, rank)?;
    }
    run.free(&rt, 0)?;
    run.one(&rt, 0, &[(1, 1)])?;
    run.free(&rt, 0)?;
    run.free(&rt, 1)?;
    run.one(&rt, 1, &[(0, 1)])?;
    run.one(&rt, 2, &[(0, 3)])?;
    run.one(&rt, 3, &[(0, 5)])?;
    for rank in 0..3u32 {
        run.free(&rt, rank)?;
    }
    run.expect(&rt, &[(3, 1)], &[])?;
    Ok(())
}

/// A barrier that the other rank never enters.
#[test]
fn lone_barrier(rt: HostRuntime) -> Result<(), Fail> {
    let mut run = Run::new(rt.alloc(), 2)?;
    run.free(&rt, 0)?;
    run.one(&rt, 0, &[(0, 1), (1, 2)])?;
    run.free(&rt, 0)?;
    run.free(&rt, 1)?;
    run.free(&rt, 1)?;
    run.expect(&rt, &[(0, 1)], &[])?;
    Ok(())
}

/// A probe that has no alternative.
#[test]
fn open_probe(rt: HostRuntime) -> Result<(), Fail> {
    let mut run = Run::new(rt.alloc(), 1)?;
    run.free(&rt, 0)?;
    run.none(&rt, 0)?;
    run.expect(&rt, &[(0, 1)], &[])?;
    Ok(())
}

/// Two receives that wait for each other's rank.
#[test]
fn receives_that_wait(rt: HostRuntime) -> Result<(), Fail> {
    let mut run = Run::new(rt.alloc(), 2)?;
    run.free(&rt, 0)?;
    run.one(&rt, 0, &[(1, 2)])?;
    run.free(&rt, 1)?;
    run.one(&rt, 1, &[(0, 2)])?;
    run.expect(&rt, &[(0, 1), (1, 1)], &[0, 1])?;
    Ok(())
}

#[test]
fn runs_without_calls(rt: HostRuntime) -> Result<(), Fail> {
    Run::new(rt.alloc(), 0)?.expect(&rt, &[], &[])?;
    Run::new(rt.alloc(), 3)?.expect(&rt, &[], &[])?;
    Ok(())
}

/// One call that needs itself, a call of its rank past the last, a rank that isn't there, or has an empty alternative.
#[test]
fn lone_calls(rt: HostRuntime) -> Result<(), Fail> {
    let mut run = Run::new(rt.alloc(), 1)?;
    run.one(&rt, 0, &[(0, 0)])?;
    run.expect(&rt, &[], &[])?;
    let mut run = Run::new(rt.alloc(), 1)?;
    run.one(&rt, 0, &[(0, 1)])?;
    run.expect(&rt, &[(0, 0)], &[0])?;
    let mut run = Run::new(rt.alloc(), 1)?;
    run.one(&rt, 0, &[(1, 0)])?;
    run.expect(&rt, &[(0, 0)], &[])?;
    let mut run = Run::new(rt.alloc(), 1)?;
    run.two(&rt, 0, &[(0, 7)], &[])?;
    run.expect(&rt, &[], &[])?;
    Ok(())
}

/// A call that needs a later call of its own rank.
#[test]
fn later_call(rt: HostRuntime) -> Result<(), Fail> {
    let mut run = Run::new(rt.alloc(), 1)?;
    run.one(&rt, 0, &[(0, 1)])?;
    run.free(&rt, 0)?;
    run.expect(&rt, &[(0, 0)], &[0])?;
    Ok(())
}

/// All places of an alternative are needed, and some alternative is enough.
#[test]
fn alternatives(rt: HostRuntime) -> Result<(), Fail> {
    let mut run = Run::new(rt.alloc(), 2)?;
    run.one(&rt, 0, &[(1, 0), (1, 1)])?;
    run.one(&rt, 1, &[(0, 1)])?;
    run.free(&rt, 1)?;
    run.expect(&rt, &[(0, 0), (1, 0)], &[0, 1])?;
    let mut run = Run::new(rt.alloc(), 2)?;
    run.two(&rt, 0, &[(1, 1)], &[(1, 0)])?;
    run.one(&rt, 1, &[(0, 1)])?;
    run.free(&rt, 1)?;
    run.expect(&rt, &[(1, 0)], &[])?;
    Ok(())
}

/// Two ranks wait for each other, a third for them, and a fourth for the first or for nobody that is blocked.
#[test]
fn cycle_with_a_tail(rt: HostRuntime) -> Result<(), Fail> {
    let mut run = Run::new(rt.alloc(), 5)?;
    run.one(&rt, 0, &[(1, 1)])?;
    run.one(&rt, 1, &[(0, 1)])?;
    run.one(&rt, 2, &[(0, 1), (1, 1)])?;
    run.two(&rt, 3, &[(0, 1)], &[(4, 1)])?;
    run.free(&rt, 4)?;
    run.expect(&rt, &[(0, 0), (1, 0), (2, 0), (3, 0)], &[0, 1, 2])?;
    Ok(())
}

/// Each rank waits for the second call of the next one, which is there.
#[test]
fn long_chain(rt: HostRuntime) -> Result<(), Fail> {
    let mut run = Run::new(rt.alloc(), 1024)?;
    for rank in 0..1023u32 {
        run.one(&rt, rank, &[(rank + 1, 1)])?;
        run.free(&rt, rank)?;
    }
    run.free(&rt, 1023)?;
    run.free(&rt, 1023)?;
    run.expect(&rt, &[], &[])?;
    Ok(())
}

/// Each rank waits for a call of the next one that never comes, and the last has no alternative.
#[test]
fn stuck_chain(rt: HostRuntime) -> Result<(), Fail> {
    let mut run = Run::new(rt.alloc(), 1024)?;
    for rank in 0..1023u32 {
        run.one(&rt, rank, &[(rank + 1, 1)])?;
    }
    run.none(&rt, 1023)?;
    let found = replay(run.alloc, &run.rows)?;
    let kept = core(run.alloc, &run.rows, &found)?;
    assert_eq!(rt; found.items().len(), 1024);
    assert_eq!(rt; kept.items().len(), 0);
    Ok(())
}

/// A million calls of one rank, each of which needs the one before.
#[test]
fn many_calls(rt: HostRuntime) -> Result<(), Fail> {
    let mut run = Run::new(rt.alloc(), 1)?;
    for call in 0..1_000_000u32 {
        run.one(&rt, 0, &[(0, call.saturating_sub(1))])?;
    }
    run.none(&rt, 0)?;
    run.expect(&rt, &[(0, 1_000_000)], &[])?;
    Ok(())
}

/// Two ranks that take turns.
#[test]
fn many_turns(rt: HostRuntime) -> Result<(), Fail> {
    let mut run = Run::new(rt.alloc(), 2)?;
    for call in 0..200_000u32 {
        run.one(&rt, 0, &[(1, call)])?;
        run.one(&rt, 1, &[(0, call)])?;
    }
    run.expect(&rt, &[], &[])?;
    Ok(())
}

/// Two waves of three ranks, of which the last rank enters only the first, and waits for a list of its own that names a rank that
/// isn't there.
#[test]
fn waves(rt: HostRuntime) -> Result<(), Fail> {
    let alloc = rt.alloc();
    let mut shared = SharedRows::new(alloc, 3)?;
    for call in 0..2u32 {
        let number = shared.share(way(alloc, &[(0, call), (1, call), (2, call)])?)?;
        assert_eq!(rt; number, call);
    }
    assert_eq!(rt; shared.ranks(), 3);
    assert_eq!(rt; shared.lists(), 2);
    for rank in 0..3u32 {
        let mut ways = Vec::new(alloc);
        ways.push(Way::Shared(0))?;
        push_ways(&rt, &mut shared, rank, ways)?;
    }
    for rank in 0..2u32 {
        let mut ways = Vec::new(alloc);
        ways.push(Way::Shared(1))?;
        push_ways(&rt, &mut shared, rank, ways)?;
    }
    let mut ways = Vec::new(alloc);
    ways.push(Way::Own(way(alloc, &[(3, 1)])?))?;
    assert!(rt; shared.has_lists(&ways));
    ways.push(Way::Shared(2))?;
    assert!(rt; !shared.has_lists(&ways));
    ways.pop();
    push_ways(&rt, &mut shared, 2, ways)?;
    assert!(rt; shared.needs(2, 2).is_none());
    assert!(rt;
        shared.needs(1, 1).is_some_and(|needs| needs
            .items()
            .iter()
            .all(|way| way.items().len() == 3))
    );
    let rows = Rows::from_shared(shared);
    expect(&rt, alloc, &rows, &[(2, 1)], &[])?;
    Ok(())
}

/// Two ranks that wait for a wave, which a third never enters since it waits for a later call of theirs.
#[test]
fn stuck_wave(rt: HostRuntime) -> Result<(), Fail> {
    let alloc = rt.alloc();
    let mut shared = SharedRows::new(alloc, 4)?;
    let wave = shared.share(way(alloc, &[(0, 0), (1, 0), (2, 1)])?)?;
    for rank in 0..2u32 {
        let mut ways = Vec::new(alloc);
        ways.push(Way::Shared(wave))?;
        push_ways(&rt, &mut shared, rank, ways)?;
    }
    let mut ways = Vec::new(alloc);
    ways.push(Way::Own(way(alloc, &[(0, 1)])?))?;
    push_ways(&rt, &mut shared, 2, ways)?;
    let mut ways = Vec::new(alloc);
    ways.push(Way::Shared(wave))?;
    ways.push(Way::Own(way(alloc, &[(4, 0)])?))?;
    push_ways(&rt, &mut shared, 3, ways)?;
    let rows = Rows::from_shared(shared);
    expect(
        &rt,
        alloc,
        &rows,
        &[(0, 0), (1, 0), (2, 0), (3, 0)],
        &[0, 1, 2],
    )?;
    Ok(())
}

/// 64 ranks that meet in 1,000 waves.
#[test]
fn many_waves(rt: HostRuntime) -> Result<(), Fail> {
    let alloc = rt.alloc();
    let mut shared = SharedRows::new(alloc, 64)?;
    for call in 0..1_000u32 {
        let mut places = Vec::with_capacity(alloc, 64)?;
        for rank in 0..64u32 {
            places.push(Place { rank, call })?;
        }
        let number = shared.share(Places::from_vec(places))?;
        for rank in 0..64u32 {
            let mut ways = Vec::with_capacity(alloc, 1)?;
            ways.push(Way::Shared(number))?;
            push_ways(&rt, &mut shared, rank, ways)?;
        }
    }
    let rows = Rows::from_shared(shared);
    expect(&rt, alloc, &rows, &[], &[])?;
    Ok(())
}

/// Numbers that look like chance.
#[derive(Clone, Copy)]
struct Chance {
    state: u64,
}

impl Chance {
    /// A number below `limit`, which is not 0.
    fn below(&mut self, limit: u32) -> u32
        requires { 0 < limit }
        ensures { result < limit }
    {
        self.state = self
            .state
            .wrapping_mul(6_364_136_223_846_793_005)
            .wrapping_add(1_442_695_040_888_963_407);
        ((self.state >> 33) % limit as u64) as u32
    }
}

fn any_places(alloc: Global, chance: &mut Chance, count: u32) -> Result<Places, NoMemory>
    requires { count < 16 }
{
    let mut places = Vec::new(alloc);
    for _place in 0..chance.below(4) {
        let rank = chance.below(count + 1);
        let call = chance.below(5);
        places.push(Place { rank, call })?;
    }
    Ok(Places::from_vec(places))
}

/// Alternatives by chance, of which about half share lists.
fn any_ways(
    alloc: Global,
    chance: &mut Chance,
    count: u32,
    lists: u32,
) -> Result<Vec<Way>, NoMemory>
    requires { count < 16 }
{
    let mut ways = Vec::new(alloc);
    for _way in 0..chance.below(4) {
        if lists > 0 && chance.below(2) == 0 {
            ways.push(Way::Shared(chance.below(lists)))?;
        } else {
            ways.push(Way::Own(any_places(alloc, chance, count)?))?;
        }
    }
    Ok(ways)
}

fn push_ways(
    rt: &impl Abort,
    rows: &mut SharedRows,
    rank: u32,
    ways: Vec<Way>,
) -> Result<(), NoMemory> {
    assert!(rt; rank < rows.ranks());
    assert!(rt; rows.needs(rank, 2_147_483_647).is_none());
    assert!(rt; rows.has_lists(&ways));
    rows.push(rank, ways)
}

/// Whether a place is a reached call, where these calls are passed.
fn reaches(rows: &Rows, passed: &[Place], place: Place) -> bool {
    let before = match place.call.checked_sub(1) {
        Some(call) => passed.contains(&Place {
            rank: place.rank,
            call,
        }),
        None => true,
    };
    before && rows.needs(place.rank, place.call).is_some()
}

fn is_open(rows: &Rows, passed: &[Place], way: &Places) -> bool {
    way.items()
        .iter()
        .all(|place| reaches(rows, passed, *place))
}

/// Whether a call is passed in the round behind the one that passed these.
fn passes(rows: &Rows, passed: &[Place], place: Place) -> bool {
    match rows.needs(place.rank, place.call) {
        Some(needs) => reaches(rows, passed, place)
            && needs.items().iter().any(|way| is_open(rows, passed, way)),
        None => false,
    }
}

/// The calls that are passed after as many rounds as calls.
fn passed_by_rounds(alloc: Global, rows: &Rows, calls: &[Place]) -> Result<Vec<Place>, NoMemory> {
    let mut passed = Vec::new(alloc);
    for _round in 0..calls.len() {
        let mut next = Vec::new(alloc);
        for place in calls {
            if passes(rows, &passed, *place) {
                next.push(*place)?;
            }
        }
        passed = next;
    }
    Ok(passed)
}

fn holds(rows: &Rows, passed: &[Place], kept: &[Place], place: Place) -> bool {
    !reaches(rows, passed, place) && kept.iter().any(|call| call.rank == place.rank)
}

fn is_held(rows: &Rows, passed: &[Place], kept: &[Place], place: Place) -> bool {
    match rows.needs(place.rank, place.call) {
        Some(needs) => {
            let ways = needs.items();
            !ways.is_empty()
                && ways.iter().all(|way| way
                    .items()
                    .iter()
                    .any(|place| holds(rows, passed, kept, *place)))
        }
        None => false,
    }
}

/// The blocked calls that are kept after as many rounds as ranks.
fn kept_by_rounds(
    alloc: Global,
    rows: &Rows,
    passed: &[Place],
    blocked: &[Place],
) -> Result<Vec<Place>, NoMemory> {
    let mut kept = blocked.to_vec(alloc)?;
    for _round in 0..rows.ranks() {
        let mut next = Vec::new(alloc);
        for place in &kept {
            if is_held(rows, passed, &kept, *place) {
                next.push(*place)?;
            }
        }
        kept = next;
    }
    Ok(kept)
}

/// Checks which places are reached, those that are no call among them.
fn expect_reached(
    rt: &impl Abort,
    rows: &Rows,
    passed: &[Place],
    blocked: &Blocked,
) -> Result<(), NoMemory>
    requires { IsBlockedList rows.now blocked.now }
{
    for rank in 0..6u32 {
        for call in 0..6u32 {
            let place = Place { rank, call };
            assert_eq!(rt;
                is_reached(rows, blocked, place),
                reaches(rows, passed, place)
            );
        }
    }
    Ok(())
}

/// Runs by chance, compared with the rounds.
#[test]
fn as_the_rounds(rt: HostRuntime) -> Result<(), Fail> {
    let alloc = rt.alloc();
    let mut chance = Chance { state: 7 };
    let mut waiting = 0usize;
    for _run in 0..2_000u32 {
        let count = chance.below(4) + 1;
        let mut shared = SharedRows::new(alloc, count)?;
        for _list in 0..chance.below(4) {
            shared.share(any_places(alloc, &mut chance, count)?)?;
        }
        let lists = shared.lists();
        let mut calls = Vec::new(alloc);
        for rank in 0..count {
            for call in 0..chance.below(5) {
                let ways = any_ways(alloc, &mut chance, count, lists)?;
                push_ways(&rt, &mut shared, rank, ways)?;
                calls.push(Place { rank, call })?;
            }
        }
        let rows = Rows::from_shared(shared);
        let passed = passed_by_rounds(alloc, &rows, &calls)?;
        let mut want = Vec::new(alloc);
        for place in &calls {
            if reaches(&rows, &passed, *place) && !passed.contains(place) {
                want.push(*place)?;
            }
        }
        let found = replay(alloc, &rows)?;
        assert_eq!(rt; found.items(), want.as_slice());
        expect_reached(&rt, &rows, &passed, &found)?;
        let kept = kept_by_rounds(alloc, &rows, &passed, &want)?;
        let mut ranks = Vec::new(alloc);
        for place in &kept {
            ranks.push(place.rank)?;
        }
        let set = core(alloc, &rows, &found)?;
        assert_eq!(rt; set.items(), ranks.as_slice());
        waiting = waiting.saturating_add(set.items().len());
    }
    assert!(rt; waiting > 100);
    Ok(())
}

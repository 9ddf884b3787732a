//! Trees over ranks in memory, in threads.

ghost use Rattle.std.specs.Prelude.{◌≡◌, IfOk, Option, None};
ghost use Rattle.must_inbox.specs.Rows.{HasRows};
ghost use Rattle.must_levels.specs.RowLists.{HasNeed};

use crate::spot::{Spot, spot_at};
use crate::{RankReader, RunFault, levels, run_tree};
use must_base::{Gate, NoMemory, OpenGate};
use must_call::{Items, Place};
use must_entry::{Batch, Entry, ItemList};
use must_find::{Finding, Rule};
use must_format::{Cause, StreamFault};
use must_node::Closed;
use std::alloc::Global;
use std::array;
use std::process::Abort;
use std::sync::Wait;
use std::sync::atomic::{AtomicU32, Ordering};
use std::test::Fail;

/// The row of a call.
fn finding(rank: u32, call: u32) -> Finding
    ensures { result.rank ≡ rank }
{
    Finding {
        rank,
        call,
        rule: Rule::A1,
        part: 0,
        see: None,
        value: 0,
    }
}

/// A batch of a rank, with a row at this call.
fn row(alloc: Global, rank: u32, call: u32) -> Result<Batch, NoMemory>
    ensures { IfOk result (λ b. HasRows rank b) }
{
    let mut entries = Vec::new(alloc);
    entries.push(Entry::Row {
        finding: finding(rank, call),
    })?;
    Ok(Batch {
        rank,
        entries: ItemList::from_vec(entries),
        last: false,
    })
}

/// A batch of a rank, with a need, which only the root settles.
fn need(alloc: Global, rank: u32) -> Result<Batch, NoMemory>
    ensures { IfOk result (λ b. HasNeed rank b) }
{
    let mut entries = Vec::new(alloc);
    entries.push(Entry::Need {
        place: Place { rank, call: 0 },
        ways: Items::from_vec(Vec::new(alloc)),
    })?;
    Ok(Batch {
        rank,
        entries: ItemList::from_vec(entries),
        last: false,
    })
}

/// A rank with a need and a row at each of its calls. It ends, or its stream ends too early at this offset.
#[derive(Drop)]
struct Calls {
    calls: u32,
    at: u32,
    fault: Option<u64>,
}

/// Reads such a rank.
#[derive(Drop)]
struct CallReader {
    rank: u32,
    told: bool,
}

impl RankReader<Calls> for CallReader {
    ghost use Rattle.std.specs.Prelude.{◌≡◌, true, refl};
    ghost use Rattle.must_levels.specs.RowLists.{GaveCalls, EndsAt, calls_lawful};

    ghost ready = { λ part. part.at ≡ 0 };

    ghost gave = { λ size rank first now reader given. (reader.rank ≡ rank) × (now.fault ≡ first.fault) × GaveCalls rank reader.told given };

    ghost whole = { λ size rank first now given. GaveCalls rank true given };

    ghost failed = { λ size rank first now fault. EndsAt first.fault fault };

    ghost since = { λ first now. now.fault ≡ first.fault };

    ghost lawful = { λ size rank first now reader given g. calls_lawful rank reader.told given g.2 };

    ghost untouched = { λ first r. refl };

    fn new(_alloc: Global, rank: u32, _size: u32) -> Result<CallReader, NoMemory> {
        Ok(CallReader { rank, told: false })
    }

    fn next(&mut self, alloc: Global, part: &mut Calls) -> Result<Option<Batch>, StreamFault> {
        if !self.told {
            let batch = need(alloc, self.rank)?;
            self.told = true;
            return Ok(Some(batch));
        }
        if part.at < part.calls {
            let batch = row(alloc, self.rank, part.at)?;
            part.at += 1;
            return Ok(Some(batch));
        }
        match part.fault {
            None => Ok(None),
            Some(at) => Err(StreamFault::Malformed {
                at,
                cause: Cause::Truncated,
            }),
        }
    }
}

fn sound(calls: u32) -> Calls
    ensures { result.at ≡ 0 }
{
    Calls {
        calls,
        at: 0,
        fault: None,
    }
}

fn cut(calls: u32, at: u64) -> Calls
    ensures { result.at ≡ 0 }
{
    Calls {
        calls,
        at: 0,
        fault: Some(at),
    }
}

/// The rank and the call of each row of the ranks of `every_fan_in`.
const PLACES: [(u32, u32); 8] = [
    (0, 0),
    (0, 1),
    (2, 0),
    (2, 1),
    (2, 2),
    (3, 0),
    (4, 0),
    (4, 1),
];

/// These are the findings, and the facts are a need of each of five ranks.
fn expect_places(rt: &impl Abort, closed: &Closed) -> Result<(), Fail> {
    assert_eq!(rt; closed.findings.len(), PLACES.len());
    for i in 0..PLACES.len() {
        let (rank, call) = PLACES[i];
        let found = closed.findings.get(i).copied();
        assert_eq!(rt; found, Some(finding(rank, call)));
    }
    assert_eq!(rt; closed.facts.items().len(), 5);
    Ok(())
}

/// The fault of a rank that is cut off at this offset.
fn cut_at(rank: u32, at: u64) -> RunFault {
    RunFault::Stream {
        rank,
        fault: StreamFault::Malformed {
            at,
            cause: Cause::Truncated,
        },
    }
}

/// Counts the pushes of the two children of each of the nodes 0 to 6, and all other pushes.
#[derive(Drop)]
struct Counter {
    pushes: [AtomicU32; 14],
    others: AtomicU32,
}

impl Gate for Counter {
    fn at_batch<R: Wait>(&self, _rt: &R, node: u32, child: u32, _entries: u32) {
        let pushes = &self.pushes;
        if node < 7 && child < 2 {
            pushes[(node * 2 + child) as usize].fetch_add(1, Ordering::SeqCst);
        } else {
            self.others.fetch_add(1, Ordering::SeqCst);
        }
    }
}

fn no_pushes() -> Counter {
    Counter {
        pushes: array::from_fn(|_| AtomicU32::new(0)),
        others: AtomicU32::new(0),
    }
}

#[test]
fn shape(rt: HostRuntime) -> Result<(), Fail> {
    assert_eq!(rt; levels(1, 2), 1);
    assert_eq!(rt; levels(2, 2), 1);
    assert_eq!(rt; levels(3, 2), 2);
    assert_eq!(rt; levels(1024, 2), 10);
    assert_eq!(rt; levels(1024, 64), 2);
    assert_eq!(rt; levels(64, 64), 1);
    Ok(())
}

#[test]
fn every_fan_in(rt: HostRuntime) -> Result<(), Fail> {
    let alloc = rt.alloc();
    let mut parts = [sound(2), sound(0), sound(3), sound(1), sound(2)];
    let closed = run_tree::<Calls, CallReader, _, _>(&rt, alloc, 2, &OpenGate, &mut parts)
        .ok()
        .ok_or("fan-in 2")?;
    expect_places(&rt, &closed)?;
    let mut parts = [sound(2), sound(0), sound(3), sound(1), sound(2)];
    let closed = run_tree::<Calls, CallReader, _, _>(&rt, alloc, 3, &OpenGate, &mut parts)
        .ok()
        .ok_or("fan-in 3")?;
    expect_places(&rt, &closed)?;
    let mut parts = [sound(2), sound(0), sound(3), sound(1), sound(2)];
    let closed = run_tree::<Calls, CallReader, _, _>(&rt, alloc, 64, &OpenGate, &mut parts)
        .ok()
        .ok_or("fan-in 64")?;
    expect_places(&rt, &closed)
}

#[test]
fn lowest_rank_decides(rt: HostRuntime) -> Result<(), Fail> {
    let alloc = rt.alloc();
    let mut parts = [sound(2), cut(1, 40), sound(2), cut(0, 70)];
    let ran = run_tree::<Calls, CallReader, _, _>(&rt, alloc, 2, &OpenGate, &mut parts);
    assert_eq!(rt; ran.err(), Some(cut_at(1, 40)));
    Ok(())
}

#[test]
fn only_a_high_rank_fails(rt: HostRuntime) -> Result<(), Fail> {
    let alloc = rt.alloc();
    let mut parts = [sound(2), sound(0), sound(3), sound(1), cut(2, 99)];
    let ran = run_tree::<Calls, CallReader, _, _>(&rt, alloc, 2, &OpenGate, &mut parts);
    assert_eq!(rt; ran.err(), Some(cut_at(4, 99)));
    let mut parts = [sound(2), sound(0), sound(3), sound(1), cut(2, 99)];
    let ran = run_tree::<Calls, CallReader, _, _>(&rt, alloc, 64, &OpenGate, &mut parts);
    assert_eq!(rt; ran.err(), Some(cut_at(4, 99)));
    Ok(())
}

#[test]
fn spots(rt: HostRuntime) -> Result<(), Fail> {
    assert_eq!(rt; spot_at(8, 2, 0, 0), Spot { node: 0, child: 0 });
    assert_eq!(rt; spot_at(8, 2, 0, 7), Spot { node: 3, child: 1 });
    assert_eq!(rt; spot_at(8, 2, 1, 0), Spot { node: 4, child: 0 });
    assert_eq!(rt; spot_at(8, 2, 1, 6), Spot { node: 5, child: 1 });
    assert_eq!(rt; spot_at(8, 2, 2, 4), Spot { node: 6, child: 1 });
    assert_eq!(rt; spot_at(5, 3, 0, 4), Spot { node: 1, child: 1 });
    assert_eq!(rt; spot_at(5, 3, 1, 3), Spot { node: 2, child: 1 });
    Ok(())
}

/// Eight ranks, each with a need, which is pushed on each level, and a row, which the lowest node settles.
#[test]
fn pushes_of_each_child(rt: HostRuntime) -> Result<(), Fail> {
    let alloc = rt.alloc();
    let gate = no_pushes();
    let mut parts = [
        sound(1),
        sound(1),
        sound(1),
        sound(1),
        sound(1),
        sound(1),
        sound(1),
        sound(1),
    ];
    let closed = run_tree::<Calls, CallReader, _, _>(&rt, alloc, 2, &gate, &mut parts)
        .ok()
        .ok_or("eight ranks")?;
    assert_eq!(rt; closed.findings.len(), 8);
    let pushes = &gate.pushes;
    for node in 0..7usize {
        let wanted = if node < 6 { 2 } else { 4 };
        for child in 0..2usize {
            assert_eq!(rt; pushes[node * 2 + child].load(Ordering::SeqCst), wanted);
        }
    }
    assert_eq!(rt; gate.others.load(Ordering::SeqCst), 0);
    Ok(())
}

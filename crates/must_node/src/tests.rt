//! Worked runs, as the entries of their ranks: in several interleavings, at one root and through a tree.

use crate::{Closed, Node};
use must_base::NoMemory;
use must_call::{Kind, Place};
use must_coll::{ColorKey, SigList, WaveItem};
use must_entry::{Batch, Entry, ItemList, RankRange, Want, Way, WayList};
use must_find::{Finding, Findings, Rule};
use must_group::{CommName, Group};
use must_p2p::{MsgItem, Side, Wild};
use must_sig::Sig;
use must_type::{TypeNo, TypeTable};
use std::alloc::Global;
use std::process::Abort;
use std::test::Fail;

const BYTE: u32 = 4;

const INT: u32 = 7;

/// A call in short. The communicator is that of all ranks.
#[derive(Clone, Copy)]
enum Act {
    /// It needs nothing.
    Local,
    /// A blocking standard send.
    Send {
        to: u32,
        tag: i32,
        count: u64,
    },
    Receive {
        from: u32,
        tag: i32,
        count: u64,
        old: u32,
    },
    /// A probe that didn't return, of any sender.
    Probe,
    /// A blocking collective call.
    Collective {
        kind: Kind,
        count: Option<u64>,
    },
    /// A split of this color, which gave a communicator of these ranks.
    Split {
        color: i32,
        members: Ranks,
    },
    /// It starts a collective call and doesn't wait.
    Starts {
        kind: Kind,
    },
    /// It waits for the collective call that this call of its rank started.
    WaitsFor {
        call: u32,
    },
}

#[derive(Clone, Copy)]
enum Ranks {
    Nobody,
    Zero,
    Both,
    Turned,
    Three,
    Four,
}

/// A call of a rank. The calls of a rank are numbered as they stand.
#[derive(Clone, Copy)]
struct Step {
    rank: u32,
    act: Act,
}

fn does(rank: u32, act: Act) -> Step {
    Step { rank, act }
}

fn is_wave(act: Act) -> bool {
    match act {
        Act::Collective { .. } => true,
        Act::Split { .. } => true,
        Act::Starts { .. } => true,
        _ => false,
    }
}

/// The call of a rank with this number, and how many collective calls of the rank stand before it.
fn call_at(run: &[Step], rank: u32, call: u32) -> (Option<Act>, u32) {
    let mut calls: u32 = 0;
    let mut waves: u32 = 0;
    for step in run {
        if step.rank == rank {
            if calls == call {
                return (Some(step.act), waves);
            }
            calls = calls.saturating_add(1);
            if is_wave(step.act) {
                waves = waves.saturating_add(1);
            }
        }
    }
    (None, waves)
}

fn call_count(run: &[Step], rank: u32) -> u32 {
    let mut calls: u32 = 0;
    for step in run {
        if step.rank == rank {
            calls = calls.saturating_add(1);
        }
    }
    calls
}

fn sig(rt: &impl Abort, alloc: Global, old: u32, count: u64) -> Result<Sig, NoMemory> {
    let table = TypeTable::new(alloc, 1000)?;
    let no = TypeNo { number: old };
    assert!(rt; table.is_live(no));
    Sig::of(alloc, &table, no, count)
}

/// A list of ranks.
fn group_of(alloc: Global, ranks: Ranks) -> Result<Group, NoMemory> {
    match ranks {
        Ranks::Nobody => Group::of(alloc, &[]),
        Ranks::Zero => Group::of(alloc, &[0]),
        Ranks::Both => Group::of(alloc, &[0, 1]),
        Ranks::Turned => Group::of(alloc, &[1, 0]),
        Ranks::Three => Group::of(alloc, &[0, 1, 2]),
        Ranks::Four => Group::of(alloc, &[0, 1, 2, 3]),
    }
}

/// The name of the communicator of so many ranks, at most four.
fn world(alloc: Global, size: u32) -> Result<CommName, NoMemory> {
    let ranks = match size {
        1 => Ranks::Zero,
        2 => Ranks::Both,
        3 => Ranks::Three,
        _ => Ranks::Four,
    };
    CommName::start(alloc, 0, group_of(alloc, ranks)?)
}

fn message(
    rt: &impl Abort,
    alloc: Global,
    size: u32,
    place: Place,
    act: Act,
) -> Result<Option<MsgItem>, NoMemory> {
    let (side, source, dest, tag, count, old) = match act {
        Act::Send { to, tag, count } => (Side::Send, place.rank, to, tag, count, INT),
        Act::Receive {
            from,
            tag,
            count,
            old,
        } => (Side::Receive, from, place.rank, tag, count, old),
        _ => return Ok(None),
    };
    Ok(Some(MsgItem {
        place,
        part: 0,
        side,
        name: world(alloc, size)?,
        comm: 1,
        source,
        dest,
        tag,
        sig: sig(rt, alloc, old, count)?,
        wild: Wild {
            source: false,
            tag: false,
            done: None,
        },
    }))
}

fn collective(
    rt: &impl Abort,
    alloc: Global,
    size: u32,
    place: Place,
    number: u32,
    act: Act,
) -> Result<Option<WaveItem>, NoMemory> {
    let (kind, count, split, members) = match act {
        Act::Collective { kind, count } => (kind, count, None, None),
        Act::Starts { kind } => (kind, None, None, None),
        Act::Split { color, members } => (
            Kind::CommSplit,
            None,
            Some(ColorKey { color, key: 0 }),
            Some(group_of(alloc, members)?),
        ),
        _ => return Ok(None),
    };
    let mut sends = Vec::new(alloc);
    let mut recvs = Vec::new(alloc);
    if let Some(count) = count {
        sends.push(sig(rt, alloc, INT, count)?)?;
        if place.rank == 0 {
            recvs.push(sig(rt, alloc, INT, 1)?)?;
        }
    }
    Ok(Some(WaveItem {
        place,
        comm: 1,
        name: world(alloc, size)?,
        number,
        kind,
        counts: true,
        in_place: false,
        root: 0,
        operation: None,
        sends: SigList::from_vec(sends),
        recvs: SigList::from_vec(recvs),
        split,
        group: None,
        members,
    }))
}

fn ways_of(alloc: Global, place: Place, act: Act) -> Result<WayList, NoMemory> {
    let mut way = Vec::new(alloc);
    match act {
        Act::Send { .. } => way.push(Want::Op {
            place,
            part: 0,
            standard: true,
        })?,
        Act::Receive { .. } => way.push(Want::Op {
            place,
            part: 0,
            standard: false,
        })?,
        Act::Collective { .. } => way.push(Want::Wave { place })?,
        Act::Split { .. } => way.push(Want::Wave { place })?,
        Act::WaitsFor { call } => way.push(Want::Wave {
            place: Place {
                rank: place.rank,
                call,
            },
        })?,
        Act::Probe => return Ok(WayList::from_vec(Vec::new(alloc))),
        Act::Local => {}
        Act::Starts { .. } => {}
    }
    let mut ways = Vec::new(alloc);
    ways.push(Way::from_vec(way))?;
    Ok(WayList::from_vec(ways))
}

/// The batch of a call; one past the last call the last batch, which has no entries.
fn batch_of(
    rt: &impl Abort,
    alloc: Global,
    size: u32,
    run: &[Step],
    rank: u32,
    call: u32,
) -> Result<Batch, NoMemory> {
    let mut entries = Vec::new(alloc);
    let place = Place { rank, call };
    let (act, number) = call_at(run, rank, call);
    if let Some(act) = act {
        if let Some(item) = message(rt, alloc, size, place, act)? {
            entries.push(Entry::Message { item })?;
        }
        if let Some(item) = collective(rt, alloc, size, place, number, act)? {
            entries.push(Entry::Wave { item })?;
        }
        entries.push(Entry::Need {
            place,
            ways: ways_of(alloc, place, act)?,
        })?;
    }
    Ok(Batch {
        rank,
        entries: ItemList::from_vec(entries),
        last: act.is_none(),
    })
}

/// In what order the ranks give their batches.
#[derive(Clone, Copy)]
enum Order {
    Rising,
    Falling,
    InTurn,
}

/// The most calls of a rank in these runs, and one more.
const MOST: u32 = 8;

/// The i-th batch in an order: its rank, and the number of its call.
fn turn(order: Order, size: u32, i: u32) -> (u32, u32) {
    match order {
        Order::Rising => (i / MOST, i % MOST),
        Order::Falling => (size.saturating_sub(1).saturating_sub(i / MOST), i % MOST),
        Order::InTurn => match i.checked_rem(size) {
            Some(rank) => (rank, i.checked_div(size).unwrap_or(0)),
            None => (0, 0),
        },
    }
}

/// Nodes of these many ranks each, with all batches of a run.
fn fed(
    rt: &impl Abort,
    alloc: Global,
    size: u32,
    run: &[Step],
    order: Order,
    width: u32,
) -> Result<Vec<Node>, NoMemory> {
    let mut nodes = Vec::new(alloc);
    for i in 0..size {
        let from = i.saturating_mul(width);
        let to = from.saturating_add(width);
        nodes.push(Node::new(alloc, RankRange { from, to }, width >= size)?)?;
    }
    for i in 0..size.saturating_mul(MOST) {
        let (rank, call) = turn(order, size, i);
        if call <= call_count(run, rank) {
            let batch = batch_of(rt, alloc, size, run, rank, call)?;
            let at = rank.checked_div(width).unwrap_or(0);
            if let Some(node) = nodes.get_mut(at as usize) {
                node.take(batch)?;
            }
        }
    }
    Ok(nodes)
}

/// Gives a root what a node hands up.
fn pass_up(node: &mut Node, root: &mut Node) -> Result<(), NoMemory> {
    for _ in 0..1000 {
        match node.hand_up() {
            None => return Ok(()),
            Some(batch) => root.take(batch)?,
        }
    }
    Ok(())
}

/// What the nodes of a tree of two levels close with together.
fn settled(
    rt: &impl Abort,
    alloc: Global,
    size: u32,
    run: &[Step],
    order: Order,
    width: u32,
) -> Result<Closed, NoMemory> {
    let nodes = fed(rt, alloc, size, run, order, width)?;
    let mut root = Node::new(alloc, RankRange { from: 0, to: size }, true)?;
    let mut below = Node::new(alloc, RankRange { from: 0, to: 0 }, false)?.close()?;
    for node in nodes {
        let mut node = node;
        pass_up(&mut node, &mut root)?;
        below.join(node.close()?)?;
    }
    below.join(root.close()?)?;
    Ok(below)
}

/// Whether a run has these rows under a mode, in each order, at one root and through trees.
fn gives(
    rt: &impl Abort,
    alloc: Global,
    size: u32,
    run: &[Step],
    strict: bool,
    rows: &[Finding],
) -> Result<bool, NoMemory> {
    for order in [Order::Rising, Order::Falling, Order::InTurn] {
        for width in [1, 2, 64] {
            let closed = settled(rt, alloc, size, run, order, width)?;
            let found = closed.blocked(alloc, size, strict)?;
            if found.as_slice() != rows {
                return Ok(false);
            }
        }
    }
    Ok(true)
}

fn row(rank: u32, call: u32, rule: Rule, see: Option<(u32, u32)>, value: i128) -> Finding {
    Finding {
        rank,
        call,
        rule,
        part: 0,
        see: match see {
            Some((rank, call)) => Some(Place { rank, call }),
            None => None,
        },
        value,
    }
}

fn send(rank: u32, to: u32, tag: i32, count: u64) -> Step {
    does(rank, Act::Send { to, tag, count })
}

fn receive(rank: u32, from: u32, tag: i32, count: u64) -> Step {
    does(
        rank,
        Act::Receive {
            from,
            tag,
            count,
            old: INT,
        },
    )
}

fn barrier(rank: u32) -> Step {
    let kind = Kind::Barrier;
    does(rank, Act::Collective { kind, count: None })
}

fn local(rank: u32) -> Step {
    does(rank, Act::Local)
}

/// The same rows under both modes.
fn expect(
    rt: &impl Abort,
    alloc: Global,
    size: u32,
    run: &[Step],
    rows: &[Finding],
) -> Result<(), Fail> {
    let strict = gives(rt, alloc, size, run, true, rows)?;
    let buffered = gives(rt, alloc, size, run, false, rows)?;
    assert!(rt; strict);
    assert!(rt; buffered);
    Ok(())
}

#[test]
fn messages_too_long_and_of_another_type(rt: HostRuntime) -> Result<(), Fail> {
    let run = [
        local(0),
        send(0, 1, 0, 4),
        send(0, 1, 0, 8),
        send(0, 1, 0, 1),
        local(1),
        receive(1, 0, 0, 8),
        receive(1, 0, 0, 4),
        does(
            1,
            Act::Receive {
                from: 0,
                tag: 0,
                count: 4,
                old: BYTE,
            },
        ),
    ];
    let rows = [
        row(1, 2, Rule::M2, Some((0, 2)), 4),
        row(1, 3, Rule::M1, Some((0, 3)), 0),
    ];
    expect(&rt, rt.alloc(), 2, &run, &rows)
}

#[test]
fn wildcard_takes_the_first_send(rt: HostRuntime) -> Result<(), Fail> {
    let run = [
        local(0),
        send(0, 1, 5, 1),
        send(0, 1, 5, 2),
        local(1),
        receive(1, 0, 5, 1),
        receive(1, 0, 5, 1),
    ];
    let rows = [row(1, 2, Rule::M2, Some((0, 2)), 1)];
    expect(&rt, rt.alloc(), 2, &run, &rows)
}

fn split(rank: u32, color: i32, members: Ranks) -> Step {
    does(rank, Act::Split { color, members })
}

#[test]
fn members_of_a_split(rt: HostRuntime) -> Result<(), Fail> {
    let run = [
        local(0),
        split(0, 1, Ranks::Both),
        local(1),
        split(1, 1, Ranks::Turned),
        local(2),
        split(2, -1, Ranks::Nobody),
    ];
    let rows = [row(1, 1, Rule::C7, None, 0)];
    expect(&rt, rt.alloc(), 3, &run, &rows)
}

#[test]
fn kinds_of_a_wave(rt: HostRuntime) -> Result<(), Fail> {
    let kind = Kind::Bcast;
    let run = [
        local(0),
        does(0, Act::Collective { kind, count: None }),
        does(0, Act::Collective { kind, count: None }),
        local(1),
        barrier(1),
        barrier(1),
    ];
    let rows = [row(1, 1, Rule::C1, Some((0, 1)), 52)];
    expect(&rt, rt.alloc(), 2, &run, &rows)?;
    let waiting = [
        local(0),
        does(
            0,
            Act::Starts {
                kind: Kind::Ibarrier,
            },
        ),
        does(0, Act::WaitsFor { call: 1 }),
        local(1),
        barrier(1),
    ];
    expect(&rt, rt.alloc(), 2, &waiting, &rows)
}

#[test]
fn amounts_of_a_gather(rt: HostRuntime) -> Result<(), Fail> {
    let kind = Kind::Gather;
    let one = Some(1);
    let two = Some(2);
    let run = [
        local(0),
        does(0, Act::Collective { kind, count: one }),
        local(1),
        does(1, Act::Collective { kind, count: two }),
    ];
    let rows = [row(1, 1, Rule::C4, Some((0, 1)), 1)];
    expect(&rt, rt.alloc(), 2, &run, &rows)
}

/// Two ranks that send before they receive, one that waits for them, and one whose receive nobody answers.
#[test]
fn sends_that_wait_for_each_other(rt: HostRuntime) -> Result<(), Fail> {
    let run = [
        local(0),
        send(0, 1, 0, 1),
        receive(0, 1, 0, 1),
        send(0, 2, 0, 1),
        local(0),
        local(1),
        send(1, 0, 0, 1),
        receive(1, 0, 0, 1),
        local(1),
        local(2),
        receive(2, 0, 0, 1),
        local(2),
        local(3),
        receive(3, 0, 9, 1),
    ];
    let strict = [
        row(0, 1, Rule::W1, Some((1, 2)), 0),
        row(1, 1, Rule::W1, Some((0, 2)), 0),
        row(2, 1, Rule::W1, Some((0, 3)), 0),
        row(3, 1, Rule::M4, None, 0),
        row(3, 1, Rule::W1, Some((0, 5)), 0),
    ];
    let buffered = [
        row(3, 1, Rule::M4, None, 0),
        row(3, 1, Rule::W2, Some((0, 5)), 0),
    ];
    assert!(rt; gives(&rt, rt.alloc(), 4, &run, true, &strict)?);
    assert!(rt; gives(&rt, rt.alloc(), 4, &run, false, &buffered)?);
    Ok(())
}

#[test]
fn a_member_without_a_call(rt: HostRuntime) -> Result<(), Fail> {
    let run = [local(0), barrier(0), local(0), local(1), local(1)];
    let rows = [
        row(0, 1, Rule::C5, None, 1),
        row(0, 1, Rule::W2, Some((1, 2)), 0),
    ];
    expect(&rt, rt.alloc(), 2, &run, &rows)?;
    let waiting = [
        local(0),
        does(
            0,
            Act::Starts {
                kind: Kind::Ibarrier,
            },
        ),
        does(0, Act::WaitsFor { call: 1 }),
        local(0),
        local(1),
        local(1),
    ];
    let behind = [
        row(0, 1, Rule::C5, None, 1),
        row(0, 2, Rule::W2, Some((1, 2)), 0),
    ];
    expect(&rt, rt.alloc(), 2, &waiting, &behind)
}

#[test]
fn a_probe_of_any_sender(rt: HostRuntime) -> Result<(), Fail> {
    let run = [local(0), does(0, Act::Probe)];
    let rows = [row(0, 1, Rule::W2, None, 0)];
    expect(&rt, rt.alloc(), 1, &run, &rows)?;
    let nothing = [local(0), local(0), local(0)];
    expect(&rt, rt.alloc(), 1, &nothing, &[])
}

#[test]
fn two_receives_that_wait_for_each_other(rt: HostRuntime) -> Result<(), Fail> {
    let run = [local(0), receive(0, 1, 0, 1), local(1), receive(1, 0, 0, 1)];
    let rows = [
        row(0, 1, Rule::M4, None, 0),
        row(0, 1, Rule::W1, Some((1, 2)), 0),
        row(1, 1, Rule::M4, None, 0),
        row(1, 1, Rule::W1, Some((0, 2)), 0),
    ];
    expect(&rt, rt.alloc(), 2, &run, &rows)
}

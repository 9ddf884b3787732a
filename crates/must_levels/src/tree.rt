//! A node, its children in threads of their own, and all below them.

ghost use Rattle.std.specs.Prelude.{◌≡◌, ◌+◌, ◌^◌, ◌<◌, ◌≤◌, ◌⊎◌, [], ◌∷◌, ◌++◌, ℕ, Bool, List, map, length, OnOk};
ghost use Rattle.std.specs.Thread.{IsSync, IsSend};
ghost use Rattle.must_levels.specs.Running.{CanRun, CanRunAll, CanTake, HasTaken, Passed, Ran, RanAll, RanNode};

use crate::berth::Berth;
use crate::fault::RunFault;
use crate::leaf::run_leaf;
use crate::ports::make_ports;
use crate::reader::RankReader;
use crate::results::{as_child, join_results};
use crate::spot::{Spot, spot_at};
use crate::taking::{finish_node, take_some};
use crossbeam_utils::CachePadded;
use must_base::{Gate, NoMemory};
use must_entry::RankRange;
use must_inbox::{Inbox, Port, Taker};
use must_node::{Closed, Node};
use std::alloc::Global;
use std::sync::Wait;
use std::sync::atomic::{AtomicBool, Ordering};
use std::thread::{Threads, join_mut};

/// Runs one child of a node and all below it.
#[cycle(tree)]
fn run_child<S: Send, M: RankReader<S> + Send, G: Gate + Sync, R: Threads + Wait + Sync>(
    rt: &R,
    alloc: Global,
    size: u32,
    from: u32,
    level: u32,
    fan_in: u32,
    gate: &G,
    upper: &Inbox,
    parts: &mut [S],
    port: &mut Port,
) -> Result<Option<Closed>, RunFault>
    requires { CanRun M.ready size upper.now from parts.old level fan_in port.old }
    ensures { Ran (M.whole size) (M.failed size) M.since level from parts.old parts.new port.old port.new result }
{
    let spot = spot_at(size, fan_in, level, from);
    if level == 0 {
        return run_leaf::<S, M, G, R>(
            rt,
            alloc,
            size,
            from,
            spot,
            gate,
            upper,
            &mut parts[0],
            port,
        );
    }
    as_child(run_node::<S, M, G, R>(
        rt,
        alloc,
        size,
        false,
        spot,
        from,
        level - 1,
        fan_in,
        gate,
        upper,
        parts,
        port,
    ))
}

// The first child and the rest are each run by a function that takes all numbers, so that the two closures of `run_both`
// capture the same variables: the borrow checker covers them so alone.
#[cycle(tree)]
fn run_first<S: Send, M: RankReader<S> + Send, G: Gate + Sync, R: Threads + Wait + Sync>(
    rt: &R,
    alloc: Global,
    size: u32,
    from: u32,
    _next: u32,
    _width: u32,
    level: u32,
    fan_in: u32,
    gate: &G,
    inbox: &Inbox,
    mine: &mut [S],
    berth: &mut Berth<S>,
) -> Result<Option<Closed>, RunFault>
    requires { CanRun M.ready size inbox.now from mine.old level fan_in berth.old }
    ensures { Ran (M.whole size) (M.failed size) M.since level from mine.old mine.new berth.old berth.new result }
{
    run_child::<S, M, G, R>(
        rt,
        alloc,
        size,
        from,
        level,
        fan_in,
        gate,
        inbox,
        mine,
        &mut berth.port,
    )
}

#[cycle(tree)]
fn run_rest<S: Send, M: RankReader<S> + Send, G: Gate + Sync, R: Threads + Wait + Sync>(
    rt: &R,
    alloc: Global,
    size: u32,
    _from: u32,
    next: u32,
    width: u32,
    level: u32,
    fan_in: u32,
    gate: &G,
    inbox: &Inbox,
    rest: &mut [S],
    others: &mut [Berth<S>],
) -> Result<Option<Closed>, RunFault>
    requires { CanRunAll M.ready size inbox.now next rest.old width level fan_in others.old }
    ensures { RanAll (M.whole size) (M.failed size) M.since level next rest.old rest.new others.old others.new result }
{
    run_children::<S, M, G, R>(
        rt, alloc, size, next, width, level, fan_in, gate, inbox, rest, others,
    )
}

// Runs the children of a node, each with its port.
#[cycle(tree)]
fn run_children<S: Send, M: RankReader<S> + Send, G: Gate + Sync, R: Threads + Wait + Sync>(
    rt: &R,
    alloc: Global,
    size: u32,
    from: u32,
    width: u32,
    level: u32,
    fan_in: u32,
    gate: &G,
    inbox: &Inbox,
    parts: &mut [S],
    ports: &mut [Berth<S>],
) -> Result<Option<Closed>, RunFault>
    requires { CanRunAll M.ready size inbox.now from parts.old width level fan_in ports.old }
    ensures { RanAll (M.whole size) (M.failed size) M.since level from parts.old parts.new ports.old ports.new result }
{
    let Some((port, others)) = ports.split_first_mut() else {
        return Ok(None);
    };
    let count = (width as usize).min(parts.len());
    let (mine, rest) = parts.split_at_mut(count);
    run_both::<S, M, G, R>(
        rt,
        alloc,
        size,
        from,
        width,
        level,
        fan_in,
        gate,
        inbox,
        mine,
        port,
        from + count as u32,
        rest,
        others,
    )
}

// Runs the first child beside the other children.
#[cycle(tree)]
fn run_both<S: Send, M: RankReader<S> + Send, G: Gate + Sync, R: Threads + Wait + Sync>(
    rt: &R,
    alloc: Global,
    size: u32,
    from: u32,
    width: u32,
    level: u32,
    fan_in: u32,
    gate: &G,
    inbox: &Inbox,
    mine: &mut [S],
    port: &mut Berth<S>,
    next: u32,
    rest: &mut [S],
    others: &mut [Berth<S>],
) -> Result<Option<Closed>, RunFault>
    requires next { next ≡ from + length mine.old }
    requires mine { CanRun M.ready size inbox.now from mine.old level fan_in port.old }
    requires rest { CanRunAll M.ready size inbox.now next rest.old width level fan_in others.old }
    ensures { RanAll (M.whole size) (M.failed size) M.since level from (mine.old ++ rest.old) (mine.new ++ rest.new) (port.old ∷ others.old) (port.new ∷ others.new) result }
{
    let (first, second) = join_mut(
        rt,
        &mut || -> Result<Option<Closed>, RunFault>
            requires { IsSync R.row × IsSync G.row × IsSend S.row × CanRun M.ready size inbox.now from mine.now level fan_in port.now }
            ensures { Ran (M.whole size) (M.failed size) M.since level from mine.entry.now mine.exit.now port.entry.now port.exit.now result }
        {
            run_first::<S, M, G, R>(
                rt, alloc, size, from, next, width, level, fan_in, gate, inbox, mine, port,
            )
        },
        &mut || -> Result<Option<Closed>, RunFault>
            requires { IsSync R.row × IsSync G.row × IsSend S.row × CanRunAll M.ready size inbox.now next rest.now width level fan_in others.now }
            ensures { RanAll (M.whole size) (M.failed size) M.since level next rest.entry.now rest.exit.now others.entry.now others.exit.now result }
        {
            run_rest::<S, M, G, R>(
                rt, alloc, size, from, next, width, level, fan_in, gate, inbox, rest, others,
            )
        },
    );
    join_results(first, second)
}

// Runs the children, and says when they have ended.
#[cycle(tree)]
fn run_all<S: Send, M: RankReader<S> + Send, G: Gate + Sync, R: Threads + Wait + Sync>(
    rt: &R,
    alloc: Global,
    size: u32,
    from: u32,
    width: u32,
    level: u32,
    fan_in: u32,
    gate: &G,
    inbox: &Inbox,
    ended: &AtomicBool,
    parts: &mut [S],
    ports: &mut [Berth<S>],
) -> Result<Option<Closed>, RunFault>
    requires { CanRunAll M.ready size inbox.now from parts.old width level fan_in ports.old }
    ensures { RanAll (M.whole size) (M.failed size) M.since level from parts.old parts.new ports.old ports.new result }
{
    let ran = run_children::<S, M, G, R>(
        rt, alloc, size, from, width, level, fan_in, gate, inbox, parts, ports,
    );
    ended.store(true, Ordering::SeqCst);
    ran
}

// Runs the children beside the node that takes what they push.
#[cycle(tree)]
fn run_beside<S: Send, M: RankReader<S> + Send, G: Gate + Sync, R: Threads + Wait + Sync>(
    rt: &R,
    alloc: Global,
    size: u32,
    root: bool,
    spot: Spot,
    from: u32,
    width: u32,
    level: u32,
    fan_in: u32,
    gate: &G,
    upper: &Inbox,
    inbox: &Inbox,
    ended: &AtomicBool,
    parts: &mut [S],
    ports: &mut [Berth<S>],
    taker: &mut Taker,
    node: &mut Node,
    port: &mut Port,
) -> (Result<Option<Closed>, RunFault>, Result<(), NoMemory>)
    requires run { CanRunAll M.ready size inbox.now from parts.old width level fan_in ports.old }
    requires take { CanTake root inbox.now upper.now taker.old node.old port.old }
    ensures ran { RanAll (M.whole size) (M.failed size) M.since level from parts.old parts.new ports.old ports.new result.0 }
    ensures taken { HasTaken taker.old taker.new port.old port.new }
    ensures passed { OnOk result.1 (Passed root taker.new node.new port.new) }
{
    join_mut(
        rt,
        &mut || -> Result<Option<Closed>, RunFault>
            requires { IsSync R.row × IsSync G.row × IsSend S.row × CanRunAll M.ready size inbox.now from parts.now width level fan_in ports.now }
            ensures { RanAll (M.whole size) (M.failed size) M.since level from parts.entry.now parts.exit.now ports.entry.now ports.exit.now result }
        {
            run_all::<S, M, G, R>(
                rt, alloc, size, from, width, level, fan_in, gate, inbox, ended, parts, ports,
            )
        },
        &mut || -> Result<(), NoMemory>
            requires { CanTake root inbox.now upper.now taker.now node.now port.now }
            ensures { HasTaken taker.entry.now taker.exit.now port.entry.now port.exit.now × OnOk result (Passed root taker.exit.now node.exit.now port.exit.now) }
        { take_some(rt, root, spot, gate, upper, inbox, ended, taker, node, port) },
    )
}

/// Runs a node, which stands at this place, and whose children are of this level. Into the inbox above a root nothing is pushed.
#[cycle(tree)]
pub(crate) fn run_node<S: Send, M: RankReader<S> + Send, G: Gate + Sync, R: Threads + Wait + Sync>(
    rt: &R,
    alloc: Global,
    size: u32,
    root: bool,
    spot: Spot,
    from: u32,
    level: u32,
    fan_in: u32,
    gate: &G,
    upper: &Inbox,
    parts: &mut [S],
    port: &mut Port,
) -> Result<Closed, RunFault>
    requires { CanRun M.ready size upper.now from parts.old (level + 1) fan_in port.old }
    ensures { RanNode root (M.whole size) (M.failed size) M.since from parts.old parts.new port.old port.new result }
{
    let to = from + parts.len() as u32;
    let width = fan_in.pow(level);
    let (inbox, mut taker) = Inbox::open(alloc)?;
    let mut ports = make_ports(alloc, &inbox, &mut taker, from, to, width)?;
    let mut node = Node::new(alloc, RankRange { from, to }, root)?;
    let hint = CachePadded::new(AtomicBool::new(false));
    let ended: &AtomicBool = &hint;
    let (ran, taken) = run_beside::<S, M, G, R>(
        rt,
        alloc,
        size,
        root,
        spot,
        from,
        width,
        level,
        fan_in,
        gate,
        upper,
        &inbox,
        ended,
        parts,
        ports.as_mut_slice(),
        &mut taker,
        &mut node,
        port,
    );
    match ran {
        Err(fault) => Err(fault),
        Ok(below) => {
            taken?;
            finish_node(
                rt, root, spot, gate, upper, &inbox, taker, ports, node, port, below,
            )
        }
    }
}

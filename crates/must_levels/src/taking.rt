//! What a node does while its children run, and after.

ghost use Rattle.std.specs.Prelude.{◌≡◌, false, ℕ, [], ◌∷◌, ◌++◌, length, List, map, Some, IfOk, OnOk};
ghost use Rattle.must_entry.specs.declared.batch.Batch.{Batch};
ghost use Rattle.must_entry.specs.Lawful.{IsLawful};
ghost use Rattle.must_inbox.specs.Children.{IsOrderly, HasAll, batches_of};
ghost use Rattle.must_node.specs.Nodes.{StandsFor, all_up};
ghost use Rattle.must_levels.specs.Running.{CanPass, CanTake, HasTaken, Passed, Finished};
ghost use Rattle.must_levels.specs.Sending.{IsMoved, AreOfInbox, closing_of};
ghost use Rattle.must_levels.specs.Telling.{IsNoMemory};

use crate::berth::Berth;
use crate::fault::RunFault;
use crate::leaf::push_batch;
use crate::ports::join_ports;
use crate::results::add_node;
use crate::spot::Spot;
use must_base::{Gate, NoMemory};
use must_inbox::{Inbox, Port, Taker};
use must_node::{Closed, Node};
use std::sync::Wait;
use std::sync::atomic::{AtomicBool, Ordering};
use std::thread;

/// How many takes in a row may find nothing.
const IDLE_TAKES: u32 = 1_000_000;

/// Pushes all that the node has ready.
fn pass_on<G: Gate, R: Wait>(
    rt: &R,
    root: bool,
    spot: Spot,
    gate: &G,
    upper: &Inbox,
    node: &mut Node,
    port: &mut Port,
) -> Result<(), NoMemory>
    requires inbox { port.old.inbox ≡ upper.now }
    requires passes { CanPass root node.old port.old }
    ensures port { IsMoved port.old port.new }
    ensures all { (taken : List Batch) → StandsFor node.old port.old.range root taken port.old.sent → OnOk result (StandsFor node.new port.old.range root taken port.new.sent × (port.new.sent ≡ all_up root port.old.range taken)) }
{
    for _ in rt.forever() {
        match node.hand_up() {
            None => return Ok(()),
            Some(batch) => push_batch(rt, spot, gate, upper, port, batch)?,
        }
    }
    unreachable!()
}

/// Takes one batch, if there is one, and hands up what isn't inner.
fn take_one<G: Gate, R: Wait>(
    rt: &R,
    root: bool,
    spot: Spot,
    gate: &G,
    upper: &Inbox,
    inbox: &Inbox,
    taker: &mut Taker,
    node: &mut Node,
    port: &mut Port,
) -> Result<bool, NoMemory>
    requires take { CanTake root inbox.now upper.now taker.old node.old port.old }
    ensures taken { HasTaken taker.old taker.new port.old port.new }
    ensures passed { OnOk result (Passed root taker.new node.new port.new) }
    ensures orderly { IsOrderly taker.new.ranges taker.new.got }
    ensures all { IfOk result (λ found. found ≡ false → HasAll taker.new.joined taker.new.got) }
{
    match inbox.take(rt, taker) {
        Some((_, batch)) => {
            node.take(batch)?;
            pass_on(rt, root, spot, gate, upper, node, port)?;
            Ok(true)
        }
        None => Ok(false),
    }
}

/// Takes until the children have ended, or nothing came for long.
pub(crate) fn take_some<G: Gate, R: Wait>(
    rt: &R,
    root: bool,
    spot: Spot,
    gate: &G,
    upper: &Inbox,
    inbox: &Inbox,
    ended: &AtomicBool,
    taker: &mut Taker,
    node: &mut Node,
    port: &mut Port,
) -> Result<(), NoMemory>
    requires take { CanTake root inbox.now upper.now taker.old node.old port.old }
    ensures taken { HasTaken taker.old taker.new port.old port.new }
    ensures passed { OnOk result (Passed root taker.new node.new port.new) }
{
    let mut idle = 0;
    for _ in rt.forever() {
        if take_one(rt, root, spot, gate, upper, inbox, taker, node, port)? {
            idle = 0;
            continue;
        }
        if idle >= IDLE_TAKES || ended.load(Ordering::SeqCst) {
            break;
        }
        idle += 1;
        thread::yield_now();
    }
    Ok(())
}

/// Takes until nothing is found.
fn take_rest<G: Gate, R: Wait>(
    rt: &R,
    root: bool,
    spot: Spot,
    gate: &G,
    upper: &Inbox,
    inbox: &Inbox,
    taker: &mut Taker,
    node: &mut Node,
    port: &mut Port,
) -> Result<(), NoMemory>
    requires take { CanTake root inbox.now upper.now taker.old node.old port.old }
    ensures taken { HasTaken taker.old taker.new port.old port.new }
    ensures passed { OnOk result (Passed root taker.new node.new port.new) }
    ensures orderly { OnOk result (IsOrderly taker.new.ranges taker.new.got) }
    ensures all { OnOk result (HasAll taker.new.joined taker.new.got) }
{
    for _ in rt.forever() {
        if !take_one(rt, root, spot, gate, upper, inbox, taker, node, port)? {
            return Ok(());
        }
    }
    unreachable!()
}

/// Ends a node whose children have ended: joins their ports, takes the rest, and closes. `below` is what they closed with.
pub(crate) fn finish_node<S, G: Gate, R: Wait>(
    rt: &R,
    root: bool,
    spot: Spot,
    gate: &G,
    upper: &Inbox,
    inbox: &Inbox,
    taker: Taker,
    ports: Vec<Berth<S>>,
    node: Node,
    port: &mut Port,
    below: Option<Closed>,
) -> Result<Closed, RunFault>
    requires take { CanTake root inbox.now upper.now taker node port.old }
    requires ports { AreOfInbox inbox.now ports.items }
    ensures port { IsMoved port.old port.new }
    ensures finished { IfOk result (λ closed. Finished root taker.ranges (taker.joined ++ map closing_of ports.items) below port.new (Some closed)) }
    ensures err { IsNoMemory result }
{
    let mut taker = taker;
    let mut node = node;
    join_ports(inbox, &mut taker, ports);
    take_rest(
        rt, root, spot, gate, upper, inbox, &mut taker, &mut node, port,
    )?;
    add_node(below, node)
}

//! Children in threads of their own, and one taker.

ghost use Rattle.std.specs.Prelude.{◌≡◌, true, IfOk, OnOk};
ghost use Rattle.std.specs.List.{AllByRecursion};
ghost use Rattle.must_entry.specs.Lawful.{in_range};
ghost use Rattle.must_inbox.specs.Rows.{HasRows};

use crate::{Inbox, Port, batches_go_between_threads};
use must_base::NoMemory;
use must_entry::{Batch, Entry, ItemList, RankRange};
use must_find::{Finding, Rule};
use std::alloc::Global;
use std::sync::Wait;
use std::test::Fail;
use std::thread::join_mut;

const ZERO: RankRange = RankRange { from: 0, to: 1 };

const ONE: RankRange = RankRange { from: 1, to: 2 };

/// A batch of a rank, with a row at this call.
fn row(alloc: Global, rank: u32, call: u32) -> Result<Batch, NoMemory>
    ensures { IfOk result (λ b. HasRows rank b) }
{
    let mut entries = Vec::new(alloc);
    entries.push(Entry::Row {
        finding: Finding {
            rank,
            call,
            rule: Rule::A1,
            part: 0,
            see: None,
            value: 0,
        },
    })?;
    Ok(Batch {
        rank,
        entries: ItemList::from_vec(entries),
        last: false,
    })
}

/// A batch of a rank without entries. It takes no memory.
fn empty(alloc: Global, rank: u32) -> Batch
    ensures { HasRows rank result }
{
    Batch {
        rank,
        entries: ItemList::from_vec(Vec::new(alloc)),
        last: false,
    }
}

/// Pushes a batch of rows.
fn send<R: Wait>(
    rt: &R,
    inbox: &Inbox,
    port: &mut Port,
    rank: u32,
    batch: Batch,
) -> Result<(), NoMemory>
    requires inbox { port.old.inbox ≡ inbox.now }
    requires range { in_range port.old.range rank ≡ true }
    requires rows { AllByRecursion (HasRows rank) port.old.sent }
    requires batch { HasRows rank batch }
    ensures port { port.new ≡ record port.old { sent = port.new.sent } }
    ensures rows { AllByRecursion (HasRows rank) port.new.sent }
{
    inbox.push(rt, port, batch)
}

/// Pushes batches with a row each, of the calls 0, 1, 2 and so on.
fn send_rows<R: Wait>(
    rt: &R,
    alloc: Global,
    inbox: &Inbox,
    port: &mut Port,
    rank: u32,
    count: u32,
) -> Result<(), NoMemory>
    requires inbox { port.old.inbox ≡ inbox.now }
    requires range { in_range port.old.range rank ≡ true }
    requires rows { AllByRecursion (HasRows rank) port.old.sent }
    ensures port { port.new ≡ record port.old { sent = port.new.sent } }
{
    for call in 0..count {
        let batch = row(alloc, rank, call)?;
        send(rt, inbox, port, rank, batch)?;
    }
    Ok(())
}

/// The call of the one row of a batch.
fn call_of(batch: &Batch) -> Option<u32> {
    match batch.entries.items() {
        [Entry::Row { finding }] => Some(finding.call),
        _ => None,
    }
}

#[test]
fn five_batches(rt: HostRuntime) -> Result<(), Fail> {
    let alloc = rt.alloc();
    let (inbox, mut taker) = Inbox::open(alloc)?;
    let mut first = inbox.port(&mut taker, ZERO);
    let mut second = inbox.port(&mut taker, ONE);
    let (a, b) = join_mut(
        &rt,
        &mut || -> Result<(), NoMemory> { send_rows(&rt, alloc, &inbox, &mut first, 0, 3) },
        &mut || -> Result<(), NoMemory> { send_rows(&rt, alloc, &inbox, &mut second, 1, 2) },
    );
    a?;
    b?;
    inbox.join(&mut taker, first);
    inbox.join(&mut taker, second);
    let mut taken = [0u32; 2];
    'takes: for _ in 0..5 {
        let (child, batch) = inbox.take(&rt, &mut taker).ok_or("a batch")?;
        assert!(rt; child < 2);
        assert_eq!(rt; batch.rank, child);
        assert_eq!(rt; call_of(&batch), Some(taken[child as usize]));
        taken[child as usize] = taken[child as usize].saturating_add(1);
    }
    assert_eq!(rt; taken, [3, 2]);
    assert!(rt; inbox.take(&rt, &mut taker).is_none());
    Ok(())
}

#[test]
fn nothing_to_take(rt: HostRuntime) -> Result<(), Fail> {
    let (inbox, mut taker) = Inbox::open(rt.alloc())?;
    assert!(rt; inbox.take(&rt, &mut taker).is_none());
    let port = inbox.port(&mut taker, ZERO);
    inbox.join(&mut taker, port);
    assert!(rt; inbox.take(&rt, &mut taker).is_none());
    batches_go_between_threads();
    Ok(())
}

// The queue takes a block for each 31 batches. Where there is no memory for the next block, that batch isn't pushed, and all others
// come: with `rt try --test --fail-alloc 4` it is the 31st that fails.
#[test]
fn what_was_pushed_comes(rt: HostRuntime) -> Result<(), Fail> {
    let alloc = rt.alloc();
    let (inbox, mut taker) = Inbox::open(alloc)?;
    let mut port = inbox.port(&mut taker, ZERO);
    let mut pushed: u32 = 0;
    'pushes: for _ in 0..40 {
        if send(&rt, &inbox, &mut port, 0, empty(alloc, 0)).is_ok() {
            pushed = pushed.saturating_add(1);
        }
    }
    inbox.join(&mut taker, port);
    let mut taken: u32 = 0;
    'takes: for _ in 0..40 {
        if inbox.take(&rt, &mut taker).is_some() {
            taken = taken.saturating_add(1);
        }
    }
    assert!(rt; pushed >= 39);
    assert_eq!(rt; taken, pushed);
    assert!(rt; inbox.take(&rt, &mut taker).is_none());
    Ok(())
}

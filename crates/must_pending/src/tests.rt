//! Worked clashes, and many operations at once.

use crate::access::Access;
use crate::pending::Pending;
use must_base::NoMemory;
use must_span::Spans;
use must_type::{Construct, TypeNo, TypeTable};
use std::alloc::Global;
use std::process::Abort;
use std::test::Fail;

const INT: TypeNo = TypeNo { number: 7 };

const READS: Access = Access::Reads;

const WRITES: Access = Access::Writes;

/// The addresses of some ints.
fn ints(
    alloc: Global,
    rt: &impl Abort,
    table: &TypeTable,
    base: i128,
    count: u64,
) -> Result<Spans, NoMemory> {
    elements(alloc, rt, table, INT, base, count)
}

fn elements(
    alloc: Global,
    rt: &impl Abort,
    table: &TypeTable,
    no: TypeNo,
    base: i128,
    count: u64,
) -> Result<Spans, NoMemory> {
    assert!(rt; table.is_live(no));
    assert!(rt; count <= 1 << 48);
    assert!(rt; base.unsigned_abs() <= 1 << 96);
    Spans::of(alloc, table, no, count, base)
}

/// Holds an operation of weight 1.
fn start(
    rt: &impl Abort,
    pending: &mut Pending,
    call: u32,
    request: u32,
    access: Access,
    spans: Spans,
) -> Result<(), NoMemory> {
    assert!(rt; pending.weight() < u64::MAX);
    pending.start(call, request, access, spans, 1)
}

#[test]
fn send_from_a_pending_receive(rt: HostRuntime) -> Result<(), Fail> {
    let alloc = rt.alloc();
    let table = TypeTable::new(alloc, 0)?;
    let mut pending = Pending::new(alloc)?;
    assert_eq!(rt; pending.weight(), 0);
    start(
        &rt,
        &mut pending,
        1,
        64,
        WRITES,
        ints(alloc, &rt, &table, 4096, 2)?,
    )?;
    let sent = ints(alloc, &rt, &table, 4100, 2)?;
    assert_eq!(rt; pending.clash(&sent, READS), Some((1, 4100)));
    assert_eq!(rt; pending.clash(&sent, WRITES), Some((1, 4100)));
    let beside = ints(alloc, &rt, &table, 4104, 2)?;
    assert_eq!(rt; pending.clash(&beside, WRITES), None);
    assert_eq!(rt; pending.weight(), 1);
    pending.finish(65);
    assert_eq!(rt; pending.clash(&sent, READS), Some((1, 4100)));
    pending.finish(64);
    assert_eq!(rt; pending.clash(&sent, READS), None);
    assert_eq!(rt; pending.weight(), 0);
    Ok(())
}

#[test]
fn two_sends(rt: HostRuntime) -> Result<(), Fail> {
    let alloc = rt.alloc();
    let table = TypeTable::new(alloc, 0)?;
    let mut pending = Pending::new(alloc)?;
    start(
        &rt,
        &mut pending,
        1,
        64,
        READS,
        ints(alloc, &rt, &table, 4096, 2)?,
    )?;
    let sent = ints(alloc, &rt, &table, 4100, 2)?;
    assert_eq!(rt; pending.clash(&sent, READS), None);
    assert_eq!(rt; pending.clash(&sent, WRITES), Some((1, 4100)));
    Ok(())
}

#[test]
fn between_the_blocks_of_a_vector(rt: HostRuntime) -> Result<(), Fail> {
    let alloc = rt.alloc();
    let mut table = TypeTable::new(alloc, 10)?;
    let call = Construct::Vector {
        count: 2,
        block: 1,
        stride: 2,
        old: INT,
    };
    assert!(&rt; table.can_make(&call));
    let column = table.make(alloc, &call)?;
    let mut pending = Pending::new(alloc)?;
    let held = elements(alloc, &rt, &table, column, 4096, 1)?;
    start(&rt, &mut pending, 1, 64, WRITES, held)?;
    let between = ints(alloc, &rt, &table, 4100, 1)?;
    assert_eq!(rt; pending.clash(&between, WRITES), None);
    let second = ints(alloc, &rt, &table, 4104, 1)?;
    assert_eq!(rt; pending.clash(&second, WRITES), Some((1, 4104)));
    Ok(())
}

#[test]
fn first_call_and_least_address(rt: HostRuntime) -> Result<(), Fail> {
    let alloc = rt.alloc();
    let table = TypeTable::new(alloc, 0)?;
    let mut pending = Pending::new(alloc)?;
    // two operations of one call and of one request, the later at lower addresses
    start(
        &rt,
        &mut pending,
        3,
        64,
        WRITES,
        ints(alloc, &rt, &table, 200, 10)?,
    )?;
    start(
        &rt,
        &mut pending,
        3,
        64,
        WRITES,
        ints(alloc, &rt, &table, 100, 10)?,
    )?;
    start(
        &rt,
        &mut pending,
        5,
        65,
        WRITES,
        ints(alloc, &rt, &table, 0, 10)?,
    )?;
    start(
        &rt,
        &mut pending,
        2,
        66,
        READS,
        ints(alloc, &rt, &table, 160, 20)?,
    )?;
    let all = ints(alloc, &rt, &table, 0, 100)?;
    assert_eq!(rt; pending.clash(&all, READS), Some((3, 100)));
    assert_eq!(rt; pending.clash(&all, WRITES), Some((2, 160)));
    pending.finish(66);
    pending.finish(64);
    assert_eq!(rt; pending.weight(), 1);
    assert_eq!(rt; pending.clash(&all, READS), Some((5, 0)));
    let none = Spans::empty(alloc);
    assert_eq!(rt; pending.clash(&none, WRITES), None);
    Ok(())
}

#[test]
fn many_at_once(rt: HostRuntime) -> Result<(), Fail> {
    let alloc = rt.alloc();
    let table = TypeTable::new(alloc, 0)?;
    let mut pending = Pending::new(alloc)?;
    for k in 0..20000 {
        let spans = ints(alloc, &rt, &table, i128::from(k) * 16, 2)?;
        start(&rt, &mut pending, k, k, WRITES, spans)?;
    }
    for k in 0..20000 {
        let beside = ints(alloc, &rt, &table, i128::from(k) * 16 + 8, 2)?;
        assert_eq!(rt; pending.clash(&beside, READS), None);
    }
    for k in 0..20000 {
        let within = ints(alloc, &rt, &table, i128::from(k) * 16 + 4, 1)?;
        assert_eq!(rt;
            pending.clash(&within, READS),
            Some((k, i128::from(k) * 16 + 4))
        );
        pending.finish(k);
        assert_eq!(rt; pending.clash(&within, READS), None);
    }
    assert_eq!(rt; pending.weight(), 0);
    Ok(())
}

#[test]
fn many_in_no_order(rt: HostRuntime) -> Result<(), Fail> {
    let alloc = rt.alloc();
    let table = TypeTable::new(alloc, 0)?;
    let mut pending = Pending::new(alloc)?;
    for k in 0..4000 {
        let place = i128::from(k * 1709 % 4000);
        start(
            &rt,
            &mut pending,
            k,
            k,
            WRITES,
            ints(alloc, &rt, &table, place * 16, 2)?,
        )?;
    }
    for k in 0..4000 {
        let beside = ints(alloc, &rt, &table, i128::from(k) * 16 + 8, 2)?;
        assert_eq!(rt; pending.clash(&beside, READS), None);
    }
    Ok(())
}

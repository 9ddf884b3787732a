//! The bytes of worked types, and of small types against a plain program.

use crate::flat::mark;
use crate::spans::Spans;
use must_base::NoMemory;
use must_type::{
    Construct, Dim, DimList, DispList, HdispList, HindexItem, HindexList, IndexItem, IndexList,
    StructItem, StructList, TypeFault, TypeNo, TypeTable,
};
use std::alloc::Global;
use std::process::Abort;
use std::test::Fail;

type Called = Result<Construct, NoMemory>;

const CHAR: TypeNo = TypeNo { number: 1 };

const SHORT: TypeNo = TypeNo { number: 5 };

const INT: TypeNo = TypeNo { number: 7 };

const DOUBLE_INT: TypeNo = TypeNo { number: 27 };

const AMPLE: u64 = u64::MAX;

fn contiguous(count: i32, old: TypeNo) -> Called {
    Ok(Construct::Contiguous { count, old })
}

fn vector(count: i32, block: i32, stride: i32, old: TypeNo) -> Called {
    Ok(Construct::Vector {
        count,
        block,
        stride,
        old,
    })
}

fn hvector(count: i32, block: i32, stride: i64, old: TypeNo) -> Called {
    Ok(Construct::Hvector {
        count,
        block,
        stride,
        old,
    })
}

fn dup(old: TypeNo) -> Called {
    Ok(Construct::Dup { old })
}

fn resized(lb: i64, extent: i64, old: TypeNo) -> Called {
    Ok(Construct::Resized { lb, extent, old })
}

fn indexed(alloc: Global, blocks: &[(i32, i32)], old: TypeNo) -> Called {
    let mut items = Vec::new(alloc);
    for (block, disp) in blocks {
        items.push(IndexItem {
            block: *block,
            disp: *disp,
        })?;
    }
    Ok(Construct::Indexed {
        blocks: IndexList::from_vec(items),
        old,
    })
}

fn hindexed(alloc: Global, blocks: &[(i32, i64)], old: TypeNo) -> Called {
    let mut items = Vec::new(alloc);
    for (block, disp) in blocks {
        items.push(HindexItem {
            block: *block,
            disp: *disp,
        })?;
    }
    Ok(Construct::Hindexed {
        blocks: HindexList::from_vec(items),
        old,
    })
}

fn indexed_block(alloc: Global, block: i32, disps: &[i32], old: TypeNo) -> Called {
    Ok(Construct::IndexedBlock {
        block,
        disps: DispList::from_vec(Vec::from_slice(alloc, disps)?),
        old,
    })
}

fn hindexed_block(alloc: Global, block: i32, disps: &[i64], old: TypeNo) -> Called {
    Ok(Construct::HindexedBlock {
        block,
        disps: HdispList::from_vec(Vec::from_slice(alloc, disps)?),
        old,
    })
}

fn structure(alloc: Global, blocks: &[(i32, i64, TypeNo)]) -> Called {
    let mut items = Vec::new(alloc);
    for (block, disp, old) in blocks {
        items.push(StructItem {
            block: *block,
            disp: *disp,
            old: *old,
        })?;
    }
    Ok(Construct::Struct {
        blocks: StructList::from_vec(items),
    })
}

fn subarray(alloc: Global, order: u8, dims: &[(i32, i32, i32)], old: TypeNo) -> Called {
    let mut items = Vec::new(alloc);
    for (size, subsize, start) in dims {
        items.push(Dim {
            size: *size,
            subsize: *subsize,
            start: *start,
        })?;
    }
    Ok(Construct::Subarray {
        order,
        dims: DimList::from_vec(items),
        old,
    })
}

fn make(
    rt: &impl Abort,
    alloc: Global,
    table: &mut TypeTable,
    call: Called,
) -> Result<TypeNo, TypeFault> {
    let call = call?;
    assert!(rt; table.can_make(&call));
    table.make(alloc, &call)
}

fn spans(
    rt: &impl Abort,
    alloc: Global,
    table: &TypeTable,
    no: TypeNo,
    count: u64,
    base: i128,
) -> Result<Spans, NoMemory> {
    assert!(rt; table.is_live(no));
    assert!(rt; count <= 1 << 48);
    assert!(rt; base.unsigned_abs() <= 1 << 96);
    Spans::of(alloc, table, no, count, base)
}

fn expect_ranges(rt: &impl Abort, found: &Spans, want: &[(i128, i128)]) {
    assert_eq!(rt; found.ranges().len(), want.len());
    for (range, (low, high)) in found.ranges().iter().zip(want) {
        assert_eq!(rt; (range.low, range.high), (*low, *high));
    }
}

/// Makes the type, one element of which at 0 has these ranges.
fn expect(
    rt: &impl Abort,
    alloc: Global,
    table: &mut TypeTable,
    call: Called,
    want: &[(i128, i128)],
) -> Result<TypeNo, TypeFault> {
    let made = make(rt, alloc, table, call)?;
    expect_ranges(rt, &spans(rt, alloc, table, made, 1, 0)?, want);
    Ok(made)
}

#[test]
fn each_constructor(rt: HostRuntime) -> Result<(), Fail> {
    let alloc = rt.alloc();
    let mut table = TypeTable::new(alloc, AMPLE)?;
    let t = &mut table;
    expect(&rt, alloc, t, contiguous(3, INT), &[(0, 12)])?;
    let call = contiguous(2, DOUBLE_INT);
    expect(&rt, alloc, t, call, &[(0, 12), (16, 28)])?;
    expect(&rt, alloc, t, vector(2, 3, 4, INT), &[(0, 12), (16, 28)])?;
    let call = hvector(2, 1, -6, INT);
    expect(&rt, alloc, t, call, &[(-6, -2), (0, 4)])?;
    let call = indexed(alloc, &[(2, 3), (0, 100), (1, -1)], SHORT);
    expect(&rt, alloc, t, call, &[(-2, 0), (6, 10)])?;
    let call = hindexed(alloc, &[(1, 1), (1, 8)], CHAR);
    expect(&rt, alloc, t, call, &[(1, 2), (8, 9)])?;
    let call = indexed_block(alloc, 2, &[5, 0], INT);
    expect(&rt, alloc, t, call, &[(0, 8), (20, 28)])?;
    let call = hindexed_block(alloc, 1, &[-3, 10], INT);
    expect(&rt, alloc, t, call, &[(-3, 1), (10, 14)])?;
    let call = structure(alloc, &[(2, 4, INT), (1, 0, CHAR), (0, 50, INT)]);
    let mixed = expect(&rt, alloc, t, call, &[(0, 1), (4, 12)])?;
    expect(&rt, alloc, t, dup(mixed), &[(0, 1), (4, 12)])?;
    expect(&rt, alloc, t, resized(-4, 40, mixed), &[(0, 1), (4, 12)])?;
    Ok(())
}

#[test]
fn parts_of_arrays(rt: HostRuntime) -> Result<(), Fail> {
    let alloc = rt.alloc();
    let mut table = TypeTable::new(alloc, AMPLE)?;
    let t = &mut table;
    let dims = [(3, 2, 1), (4, 2, 1)];
    let call = subarray(alloc, 0, &dims, INT);
    expect(&rt, alloc, t, call, &[(20, 28), (36, 44)])?;
    let call = subarray(alloc, 1, &dims, INT);
    expect(&rt, alloc, t, call, &[(16, 24), (28, 36)])?;
    let whole = subarray(alloc, 0, &[(3, 3, 0), (4, 4, 0)], INT);
    expect(&rt, alloc, t, whole, &[(0, 48)])?;
    let back = make(&rt, alloc, t, resized(0, -4, INT))?;
    let call = subarray(alloc, 0, &[(5, 2, 1)], back);
    expect(&rt, alloc, t, call, &[(-8, 0)])?;
    Ok(())
}

#[test]
fn what_has_no_bytes(rt: HostRuntime) -> Result<(), Fail> {
    let alloc = rt.alloc();
    let mut table = TypeTable::new(alloc, AMPLE)?;
    let t = &mut table;
    expect(&rt, alloc, t, contiguous(0, INT), &[])?;
    expect(&rt, alloc, t, vector(3, 0, 7, INT), &[])?;
    expect(&rt, alloc, t, indexed(alloc, &[], INT), &[])?;
    expect(&rt, alloc, t, hindexed_block(alloc, 2, &[], INT), &[])?;
    let mut empty = expect(&rt, alloc, t, structure(alloc, &[]), &[])?;
    expect(&rt, alloc, t, resized(5, 7, empty), &[])?;
    // 2^250 empty blocks
    for _ in 0..250 {
        empty = make(
            &rt,
            alloc,
            t,
            structure(alloc, &[(1, 0, empty), (1, 0, empty)]),
        )?;
    }
    expect_ranges(&rt, &spans(&rt, alloc, t, empty, 1 << 48, 0)?, &[]);
    expect_ranges(&rt, &spans(&rt, alloc, t, INT, 0, 4096)?, &[]);
    Ok(())
}

#[test]
fn shared_bytes(rt: HostRuntime) -> Result<(), Fail> {
    let alloc = rt.alloc();
    let mut table = TypeTable::new(alloc, AMPLE)?;
    let twice = make(&rt, alloc, &mut table, vector(2, 1, 0, INT))?;
    let found = spans(&rt, alloc, &table, twice, 1, 4096)?;
    expect_ranges(&rt, &found, &[(4096, 4100)]);
    assert_eq!(rt; found.bytes(), 4);
    let apart = make(&rt, alloc, &mut table, vector(2, 1, 2, INT))?;
    let found = spans(&rt, alloc, &table, apart, 1, 4096)?;
    expect_ranges(&rt, &found, &[(4096, 4100), (4104, 4108)]);
    assert_eq!(rt; found.bytes(), 8);
    Ok(())
}

#[test]
fn far_away(rt: HostRuntime) -> Result<(), Fail> {
    let alloc = rt.alloc();
    let mut table = TypeTable::new(alloc, AMPLE)?;
    let high = 1 << 64;
    let found = spans(&rt, alloc, &table, INT, 1 << 48, high - 4)?;
    expect_ranges(&rt, &found, &[(high - 4, high - 4 + (1 << 50))]);
    assert_eq!(rt; found.bytes(), 1 << 50);
    let found = spans(&rt, alloc, &table, CHAR, 1, -(1 << 96))?;
    expect_ranges(&rt, &found, &[(-(1 << 96), -(1 << 96) + 1)]);
    let back = make(&rt, alloc, &mut table, resized(0, -4, INT))?;
    let found = spans(&rt, alloc, &table, back, 3, 0)?;
    expect_ranges(&rt, &found, &[(-8, 4)]);
    Ok(())
}

#[test]
fn sets_of_addresses(rt: HostRuntime) -> Result<(), Fail> {
    let alloc = rt.alloc();
    let mut table = TypeTable::new(alloc, AMPLE)?;
    let gaps = make(&rt, alloc, &mut table, vector(3, 1, 2, INT))?;
    let mut all = Spans::empty(alloc);
    assert_eq!(rt; all.bytes(), 0);
    let first = spans(&rt, alloc, &table, gaps, 1, 0)?;
    let second = spans(&rt, alloc, &table, gaps, 1, 6)?;
    assert_eq!(rt; first.first_shared(&second), Some(8));
    assert_eq!(rt; first.first_shared(&all), None);
    let between = spans(&rt, alloc, &table, gaps, 1, 4)?;
    assert_eq!(rt; first.first_shared(&between), None);
    all.join(alloc, &first)?;
    expect_ranges(&rt, &all, &[(0, 4), (8, 12), (16, 20)]);
    all.join(alloc, &second)?;
    expect_ranges(&rt, &all, &[(0, 4), (6, 12), (14, 20), (22, 26)]);
    all.join(alloc, &between)?;
    expect_ranges(&rt, &all, &[(0, 26)]);
    Ok(())
}

/// Each address of the spans.
fn listed(alloc: Global, found: &Spans) -> Result<Vec<i128>, NoMemory> {
    let mut all = Vec::new(alloc);
    for range in found.ranges() {
        let length = range.high.abs_diff(range.low);
        for k in 0..length.min(4096) as u64 {
            all.push(range.low.wrapping_add(i128::from(k)))?;
        }
    }
    Ok(all)
}

/// The addresses in order, each once.
fn each_once(alloc: Global, mut marked: Vec<i128>) -> Result<Vec<i128>, NoMemory> {
    marked.sort_by_key(|address| *address)?;
    let mut all: Vec<i128> = Vec::new(alloc);
    for address in marked.as_slice() {
        if all.last() != Some(address) {
            all.push(*address)?;
        }
    }
    Ok(all)
}

/// Two elements of the type have the addresses that the plain program lists, and as many as it lists exactly where it
/// lists none twice.
fn expect_flat(
    rt: &impl Abort,
    alloc: Global,
    table: &TypeTable,
    no: TypeNo,
) -> Result<(), NoMemory> {
    assert!(rt; table.is_live(no));
    let tree = table.tree(no);
    let mut marked = Vec::new(alloc);
    mark(alloc, tree, 4096, &mut marked)?;
    let second = 4096_i128.wrapping_add(tree.bounds().extent);
    mark(alloc, tree, second, &mut marked)?;
    let bytes = marked.len() as u128;
    let want = each_once(alloc, marked)?;
    let found = spans(rt, alloc, table, no, 2, 4096)?;
    assert_eq!(rt; found.bytes(), want.len() as u128);
    assert_eq!(rt; table.bounds(no).size.wrapping_mul(2) as u128, bytes);
    let addresses = listed(alloc, &found)?;
    assert_eq!(rt; addresses.as_slice(), want.as_slice());
    Ok(())
}

/// Makes the type and compares it with the plain program.
fn compare(
    rt: &impl Abort,
    alloc: Global,
    table: &mut TypeTable,
    call: Called,
) -> Result<(), TypeFault> {
    let made = make(rt, alloc, table, call)?;
    expect_flat(rt, alloc, table, made)?;
    Ok(())
}

/// Each constructor over the old type, against the plain program.
fn compare_all(
    rt: &impl Abort,
    alloc: Global,
    t: &mut TypeTable,
    old: TypeNo,
) -> Result<(), TypeFault> {
    compare(rt, alloc, t, contiguous(3, old))?;
    compare(rt, alloc, t, vector(3, 2, 4, old))?;
    compare(rt, alloc, t, vector(2, 3, -1, old))?;
    compare(rt, alloc, t, hvector(3, 2, 5, old))?;
    compare(rt, alloc, t, hvector(2, 2, -9, old))?;
    compare(rt, alloc, t, resized(-3, 11, old))?;
    compare(rt, alloc, t, dup(old))?;
    Ok(())
}

/// Each constructor with a list over the old type, against the plain program.
fn compare_lists(
    rt: &impl Abort,
    alloc: Global,
    t: &mut TypeTable,
    old: TypeNo,
) -> Result<(), TypeFault> {
    let blocks = [(2, 3), (0, 9), (1, -2), (2, 4)];
    compare(rt, alloc, t, indexed(alloc, &blocks, old))?;
    let blocks = [(1, 7), (2, -5), (0, 3)];
    compare(rt, alloc, t, hindexed(alloc, &blocks, old))?;
    compare(rt, alloc, t, indexed_block(alloc, 2, &[4, -3, 5], old))?;
    compare(rt, alloc, t, hindexed_block(alloc, 2, &[6, 0, -20], old))?;
    let blocks = [(2, 3, old), (0, 1, INT), (1, -8, CHAR), (1, 0, old)];
    compare(rt, alloc, t, structure(alloc, &blocks))?;
    let dims = [(2, 1, 1), (3, 2, 0), (4, 3, 1)];
    compare(rt, alloc, t, subarray(alloc, 0, &dims, old))?;
    compare(rt, alloc, t, subarray(alloc, 1, &dims, old))?;
    Ok(())
}

#[test]
fn against_a_plain_program(rt: HostRuntime) -> Result<(), Fail> {
    let alloc = rt.alloc();
    let mut table = TypeTable::new(alloc, AMPLE)?;
    let t = &mut table;
    let gaps = make(
        &rt,
        alloc,
        t,
        structure(alloc, &[(1, 0, INT), (1, 6, CHAR)]),
    )?;
    let back = make(&rt, alloc, t, resized(2, -5, gaps))?;
    let still = make(&rt, alloc, t, resized(0, 0, gaps))?;
    let rows = make(&rt, alloc, t, vector(2, 1, 2, gaps))?;
    for old in [INT, DOUBLE_INT, gaps, back, still, rows] {
        compare_all(&rt, alloc, t, old)?;
        compare_lists(&rt, alloc, t, old)?;
    }
    Ok(())
}

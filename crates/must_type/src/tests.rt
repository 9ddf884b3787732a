//! Types with known bounds, weights and limits.

use crate::construct::{Construct, StructItem, StructList, TypeNo};
use crate::fault::{Limit2, TypeFault};
use crate::table::TypeTable;
use crate::translation::{TypeHandles, construct_of};
use must_base::NoMemory;
use must_call::{
    Basic, Derive, Dim, DimList, DispList, HdispList, HindexItem, HindexList, IndexItem, IndexList,
    Items, StructBlock,
};
use std::alloc::Global;
use std::process::Abort;
use std::test::Fail;

type Called = Result<Construct, NoMemory>;

const CHAR: TypeNo = TypeNo { number: 1 };

const SHORT: TypeNo = TypeNo { number: 5 };

const INT: TypeNo = TypeNo { number: 7 };

const LONG: TypeNo = TypeNo { number: 9 };

const DOUBLE: TypeNo = TypeNo { number: 14 };

const FLOAT_INT: TypeNo = TypeNo { number: 26 };

const AMPLE: u64 = u64::MAX;

fn contiguous(count: i32, old: TypeNo) -> Called {
    Ok(Construct::Contiguous { count, old })
}

fn vector(count: i32, block: i32, stride: i32, old: TypeNo) -> Called {
    Ok(Construct::Vector {
        count,
        block,
        stride,
        old,
    })
}

fn hvector(count: i32, block: i32, stride: i64, old: TypeNo) -> Called {
    Ok(Construct::Hvector {
        count,
        block,
        stride,
        old,
    })
}

fn dup(old: TypeNo) -> Called {
    Ok(Construct::Dup { old })
}

fn resized(lb: i64, extent: i64, old: TypeNo) -> Called {
    Ok(Construct::Resized { lb, extent, old })
}

fn indexed(alloc: Global, blocks: &[(i32, i32)], old: TypeNo) -> Called {
    let mut items = Vec::new(alloc);
    for (block, disp) in blocks {
        items.push(IndexItem {
            block: *block,
            disp: *disp,
        })?;
    }
    Ok(Construct::Indexed {
        blocks: IndexList::from_vec(items),
        old,
    })
}

fn hindexed(alloc: Global, blocks: &[(i32, i64)], old: TypeNo) -> Called {
    let mut items = Vec::new(alloc);
    for (block, disp) in blocks {
        items.push(HindexItem {
            block: *block,
            disp: *disp,
        })?;
    }
    Ok(Construct::Hindexed {
        blocks: HindexList::from_vec(items),
        old,
    })
}

fn indexed_block(alloc: Global, block: i32, disps: &[i32], old: TypeNo) -> Called {
    Ok(Construct::IndexedBlock {
        block,
        disps: DispList::from_vec(Vec::from_slice(alloc, disps)?),
        old,
    })
}

fn hindexed_block(alloc: Global, block: i32, disps: &[i64], old: TypeNo) -> Called {
    Ok(Construct::HindexedBlock {
        block,
        disps: HdispList::from_vec(Vec::from_slice(alloc, disps)?),
        old,
    })
}

fn structure(alloc: Global, blocks: &[(i32, i64, TypeNo)]) -> Called {
    let mut items = Vec::new(alloc);
    for (block, disp, old) in blocks {
        items.push(StructItem {
            block: *block,
            disp: *disp,
            old: *old,
        })?;
    }
    Ok(Construct::Struct {
        blocks: StructList::from_vec(items),
    })
}

fn subarray(alloc: Global, order: u8, dims: &[(i32, i32, i32)], old: TypeNo) -> Called {
    let mut items = Vec::new(alloc);
    for (size, subsize, start) in dims {
        items.push(Dim {
            size: *size,
            subsize: *subsize,
            start: *start,
        })?;
    }
    Ok(Construct::Subarray {
        order,
        dims: DimList::from_vec(items),
        old,
    })
}

fn make(
    rt: &impl Abort,
    alloc: Global,
    table: &mut TypeTable,
    call: Called,
) -> Result<TypeNo, TypeFault> {
    let call = call?;
    assert!(rt; table.can_make(&call));
    table.make(alloc, &call)
}

fn expect_bounds(rt: &impl Abort, table: &TypeTable, no: TypeNo, want: (i128, i128, i128, i128)) {
    assert!(rt; table.is_live(no));
    let found = table.bounds(no);
    assert_eq!(rt; (found.size, found.lb, found.ub, found.extent), want);
}

fn expect_weight(rt: &impl Abort, table: &TypeTable, no: TypeNo, count: u64, want: u128) {
    assert!(rt; table.is_live(no));
    assert_eq!(rt; table.weight(no, count), want);
}

/// Makes the type, which has these bounds.
fn expect(
    rt: &impl Abort,
    alloc: Global,
    table: &mut TypeTable,
    call: Called,
    want: (i128, i128, i128, i128),
) -> Result<TypeNo, TypeFault> {
    let made = make(rt, alloc, table, call)?;
    expect_bounds(rt, table, made, want);
    Ok(made)
}

/// The call is refused for this limit, or for none.
fn expect_limit(
    rt: &impl Abort,
    alloc: Global,
    table: &mut TypeTable,
    call: Called,
    want: Option<Limit2>,
) -> Result<(), TypeFault> {
    let found = match make(rt, alloc, table, call) {
        Ok(_) => None,
        Err(TypeFault::TooWide { limit }) => Some(limit),
        Err(TypeFault::NoMemory) => return Err(TypeFault::NoMemory),
    };
    assert_eq!(rt; found, want);
    Ok(())
}

fn expect_refusal(rt: &impl Abort, table: &TypeTable, call: Called) -> Result<(), NoMemory> {
    let call = call?;
    assert!(rt; !table.can_make(&call));
    Ok(())
}

fn free(rt: &impl Abort, table: &mut TypeTable, no: TypeNo) {
    assert!(rt; table.is_derived(no));
    table.free(no);
}

#[test]
fn worked_examples(rt: HostRuntime) -> Result<(), Fail> {
    let alloc = rt.alloc();
    let mut table = TypeTable::new(alloc, AMPLE)?;
    let t = &mut table;
    let pair = structure(alloc, &[(1, 0, INT), (1, 4, CHAR)]);
    let pair = expect(&rt, alloc, t, pair, (5, 0, 8, 8))?;
    expect(&rt, alloc, t, contiguous(2, pair), (10, 0, 16, 16))?;
    let element = expect(&rt, alloc, t, resized(-4, 4, INT), (4, -4, 0, 4))?;
    expect(&rt, alloc, t, vector(3, 1, -2, element), (12, -20, 0, 20))?;
    expect(&rt, alloc, t, dup(element), (4, -4, 0, 4))?;
    Ok(())
}

#[test]
fn forms_of_blocks(rt: HostRuntime) -> Result<(), Fail> {
    let alloc = rt.alloc();
    let mut table = TypeTable::new(alloc, AMPLE)?;
    let t = &mut table;
    // 0 .. 12 and 16 .. 28
    expect(&rt, alloc, t, vector(2, 3, 4, INT), (24, 0, 28, 28))?;
    // 0 .. 8 and -6 .. 2, padded from 14 to 16 bytes
    expect(&rt, alloc, t, hvector(2, 1, -6, DOUBLE), (16, -6, 10, 16))?;
    // 6 .. 10 and -2 .. 0; the empty block adds nothing
    let call = indexed(alloc, &[(2, 3), (0, 100), (1, -1)], SHORT);
    expect(&rt, alloc, t, call, (6, -2, 10, 12))?;
    let call = hindexed(alloc, &[(1, 1), (1, 8)], CHAR);
    expect(&rt, alloc, t, call, (2, 1, 9, 8))?;
    let call = indexed_block(alloc, 2, &[0, 5], INT);
    expect(&rt, alloc, t, call, (16, 0, 28, 28))?;
    // -3 .. 1 and 10 .. 14, padded from 17 to 20 bytes
    let call = hindexed_block(alloc, 1, &[-3, 10], INT);
    expect(&rt, alloc, t, call, (8, -3, 17, 20))?;
    Ok(())
}

#[test]
fn empty_maps(rt: HostRuntime) -> Result<(), Fail> {
    let alloc = rt.alloc();
    let mut table = TypeTable::new(alloc, 0)?;
    let t = &mut table;
    expect(&rt, alloc, t, contiguous(0, INT), (0, 0, 0, 0))?;
    expect(&rt, alloc, t, vector(3, 0, 7, INT), (0, 0, 0, 0))?;
    expect(&rt, alloc, t, vector(0, 3, 7, INT), (0, 0, 0, 0))?;
    expect(&rt, alloc, t, structure(alloc, &[]), (0, 0, 0, 0))?;
    let call = structure(alloc, &[(0, 9, INT)]);
    let empty = expect(&rt, alloc, t, call, (0, 0, 0, 0))?;
    // a map of markers alone isn't empty
    let marks = expect(&rt, alloc, t, resized(5, 7, empty), (0, 5, 12, 7))?;
    expect(&rt, alloc, t, contiguous(2, marks), (0, 5, 19, 14))?;
    expect_weight(&rt, t, marks, 7, 0);
    Ok(())
}

#[test]
fn markers(rt: HostRuntime) -> Result<(), Fail> {
    let alloc = rt.alloc();
    let mut table = TypeTable::new(alloc, AMPLE)?;
    let t = &mut table;
    let back = expect(&rt, alloc, t, resized(3, -10, DOUBLE), (8, 3, -7, -10))?;
    // lower markers at 3, -7 and -17, upper ones at -7, -17 and -27
    expect(&rt, alloc, t, contiguous(3, back), (24, -17, -7, 10))?;
    // the old markers are gone
    expect(&rt, alloc, t, resized(0, 8, back), (8, 0, 8, 8))?;
    // where there is an upper marker there is no padding, and what ends behind it doesn't count
    let wide = expect(&rt, alloc, t, resized(0, 15, INT), (4, 0, 15, 15))?;
    let call = structure(alloc, &[(1, 0, wide), (1, 20, CHAR)]);
    expect(&rt, alloc, t, call, (5, 0, 15, 15))?;
    // an empty block adds no marker
    let call = structure(alloc, &[(0, 100, wide), (1, 2, SHORT)]);
    expect(&rt, alloc, t, call, (2, 2, 4, 2))?;
    Ok(())
}

/// The part in both orders: its size, its upper bound, its weight in C and that in Fortran.
fn expect_part(
    rt: &impl Abort,
    alloc: Global,
    dims: &[(i32, i32, i32)],
    old: TypeNo,
    want: (i128, i128, u128, u128),
) -> Result<(), TypeFault> {
    let (size, ub, in_c, in_fortran) = want;
    let mut table = TypeTable::new(alloc, AMPLE)?;
    let t = &mut table;
    let c = expect(
        rt,
        alloc,
        t,
        subarray(alloc, 0, dims, old),
        (size, 0, ub, ub),
    )?;
    expect_weight(rt, t, c, 1, in_c);
    let fortran = expect(
        rt,
        alloc,
        t,
        subarray(alloc, 1, dims, old),
        (size, 0, ub, ub),
    )?;
    expect_weight(rt, t, fortran, 1, in_fortran);
    Ok(())
}

#[test]
fn parts_of_arrays(rt: HostRuntime) -> Result<(), Fail> {
    let alloc = rt.alloc();
    let two = [(3, 3, 0), (4, 2, 1)];
    expect_part(&rt, alloc, &[(5, 2, 1)], INT, (8, 20, 1, 1))?;
    expect_part(&rt, alloc, &two, INT, (24, 48, 3, 2))?;
    expect_part(&rt, alloc, &two, FLOAT_INT, (48, 96, 12, 12))?;
    let three = [(2, 1, 1), (3, 2, 0), (5, 4, 1)];
    expect_part(&rt, alloc, &three, INT, (32, 120, 2, 8))?;
    let four = [(2, 2, 0), (2, 1, 1), (3, 3, 0), (4, 2, 2)];
    expect_part(&rt, alloc, &four, INT, (48, 192, 6, 6))?;
    let mut table = TypeTable::new(alloc, AMPLE)?;
    let back = make(&rt, alloc, &mut table, resized(0, -8, INT))?;
    let call = subarray(alloc, 0, &two, back);
    expect(&rt, alloc, &mut table, call, (24, 0, -96, -96))?;
    Ok(())
}

#[test]
fn predefined_types(rt: HostRuntime) -> Result<(), Fail> {
    let table = TypeTable::new(rt.alloc(), 0)?;
    let sizes: [i128; 25] = [
        1, 1, 1, 1, 2, 2, 4, 4, 8, 8, 8, 8, 4, 8, 16, 4, 1, 1, 2, 4, 8, 1, 2, 4, 8,
    ];
    for (number, size) in (1..26).zip(sizes) {
        let no = TypeNo { number };
        expect_bounds(&rt, &table, no, (size, 0, size, size));
        expect_weight(&rt, &table, no, u64::MAX, 1);
        assert!(rt; !table.is_derived(no));
    }
    let pairs: [(i128, i128, u128); 5] = [
        (8, 8, 6),
        (12, 16, 6),
        (12, 16, 6),
        (6, 8, 6),
        (8, 8, 1),
    ];
    for (number, (size, extent, three)) in (26..31).zip(pairs) {
        let no = TypeNo { number };
        expect_bounds(&rt, &table, no, (size, 0, extent, extent));
        expect_weight(&rt, &table, no, 3, three);
        expect_weight(&rt, &table, no, 0, 0);
    }
    assert!(rt; !table.is_live(TypeNo { number: 0 }));
    assert!(rt; !table.is_live(TypeNo { number: 31 }));
    Ok(())
}

/// One block that begins at `disp` is refused for this limit, or for none.
fn expect_far(
    rt: &impl Abort,
    alloc: Global,
    disp: i64,
    want: Option<Limit2>,
) -> Result<(), TypeFault> {
    let mut table = TypeTable::new(alloc, AMPLE)?;
    expect_limit(
        rt,
        alloc,
        &mut table,
        hindexed(alloc, &[(1, disp)], CHAR),
        want,
    )
}

#[test]
fn the_reach_of_displacements(rt: HostRuntime) -> Result<(), Fail> {
    let alloc = rt.alloc();
    let far: i64 = 1 << 62;
    let past = Some(Limit2::Reach);
    expect_far(&rt, alloc, -far, None)?;
    expect_far(&rt, alloc, -far - 1, past)?;
    expect_far(&rt, alloc, far - 1, None)?;
    expect_far(&rt, alloc, far, past)?;
    let mut table = TypeTable::new(alloc, AMPLE)?;
    let t = &mut table;
    // the padding alone reaches past the limit
    let call = structure(alloc, &[(1, far - 1, CHAR), (1, 0, SHORT)]);
    expect_limit(&rt, alloc, t, call, None)?;
    let call = structure(alloc, &[(1, far - 1, CHAR), (1, 1, SHORT)]);
    expect_limit(&rt, alloc, t, call, past)?;
    expect_limit(&rt, alloc, t, resized(far, 0, INT), None)?;
    expect_limit(&rt, alloc, t, resized(far + 1, -4, INT), past)?;
    expect_limit(&rt, alloc, t, resized(i64::MIN, i64::MIN, INT), past)?;
    Ok(())
}

#[test]
fn the_reach_of_sizes(rt: HostRuntime) -> Result<(), Fail> {
    let alloc = rt.alloc();
    let past = Some(Limit2::Reach);
    let most: i128 = 1 << 62;
    let mut table = TypeTable::new(alloc, AMPLE)?;
    let t = &mut table;
    let row = make(&rt, alloc, t, contiguous(i32::MAX, DOUBLE))?;
    expect_limit(&rt, alloc, t, contiguous(i32::MAX, row), past)?;
    expect_limit(
        &rt,
        alloc,
        t,
        vector(i32::MAX, i32::MAX, i32::MIN, row),
        past,
    )?;
    let ints = make(&rt, alloc, t, contiguous(1 << 30, INT))?;
    let all = expect(
        &rt,
        alloc,
        t,
        contiguous(1 << 30, ints),
        (most, 0, most, most),
    )?;
    let call = structure(alloc, &[(1, 0, all), (1, 0, CHAR)]);
    expect_limit(&rt, alloc, t, call, past)?;
    let array = [(i32::MAX, 1, 0), (i32::MAX, 1, i32::MAX - 1)];
    expect_limit(&rt, alloc, t, subarray(alloc, 0, &array, CHAR), None)?;
    expect_limit(&rt, alloc, t, subarray(alloc, 1, &array, SHORT), past)?;
    Ok(())
}

#[test]
fn the_depth_of_calls(rt: HostRuntime) -> Result<(), Fail> {
    let alloc = rt.alloc();
    let mut table = TypeTable::new(alloc, AMPLE)?;
    let mut deep = INT;
    for _ in 0..256 {
        deep = make(&rt, alloc, &mut table, dup(deep))?;
    }
    expect_limit(&rt, alloc, &mut table, dup(deep), Some(Limit2::Reach))?;
    Ok(())
}

#[test]
fn the_limit_of_weights(rt: HostRuntime) -> Result<(), Fail> {
    let alloc = rt.alloc();
    let heavy = Some(Limit2::Weight);
    let mut table = TypeTable::new(alloc, 10)?;
    let t = &mut table;
    expect_limit(&rt, alloc, t, vector(11, 1, 2, INT), heavy)?;
    let comb = make(&rt, alloc, t, vector(10, 1, 2, INT))?;
    expect_weight(&rt, t, comb, 0, 0);
    expect_weight(&rt, t, comb, 3, 30);
    expect_weight(&rt, t, comb, u64::MAX, 184_467_440_737_095_516_150);
    expect_limit(&rt, alloc, t, contiguous(4, INT), heavy)?;
    // a freed type gives its weight back
    free(&rt, t, comb);
    assert!(rt; !t.is_live(comb));
    // of both limits the weight comes first, and a refused type takes nothing of the limit
    let mut none = TypeTable::new(alloc, 0)?;
    let call = hindexed(alloc, &[(1, 1 << 62)], CHAR);
    expect_limit(&rt, alloc, &mut none, call, heavy)?;
    expect_limit(&rt, alloc, t, vector(10, 1, 2, INT), None)?;
    Ok(())
}

#[test]
fn the_weight_of_one_rank(rt: HostRuntime) -> Result<(), Fail> {
    let alloc = rt.alloc();
    let mut table = TypeTable::new(alloc, 1 << 26)?;
    let t = &mut table;
    expect_limit(
        &rt,
        alloc,
        t,
        vector(67_108_865, 1, 2, INT),
        Some(Limit2::Weight),
    )?;
    expect_limit(&rt, alloc, t, vector(67_108_864, 1, 2, INT), None)?;
    Ok(())
}

#[test]
fn trees_keep_their_old_types(rt: HostRuntime) -> Result<(), Fail> {
    let alloc = rt.alloc();
    let mut table = TypeTable::new(alloc, AMPLE)?;
    let comb = make(&rt, alloc, &mut table, vector(2, 1, 2, INT))?;
    let call = structure(alloc, &[(1, 0, comb), (2, 40, CHAR)]);
    let both = make(&rt, alloc, &mut table, call)?;
    free(&rt, &mut table, comb);
    expect_bounds(&rt, &table, both, (10, 0, 44, 44));
    assert!(rt; table.is_live(both));
    let tree = table.tree(both);
    assert!(rt; matches!(tree.made(), Some(Construct::Struct { .. })));
    assert!(rt; tree.basic().is_none());
    assert!(rt; tree.old(2).is_none());
    let first = tree.old(0).ok_or("no first old type")?;
    let second = tree.old(1).ok_or("no second old type")?;
    assert_eq!(rt; first.bounds().ub, 12);
    assert_eq!(rt; second.basic(), Some(Basic::Char));
    assert!(rt; second.made().is_none());
    assert!(rt; second.old(0).is_none());
    Ok(())
}

#[test]
fn calls_that_are_not_allowed(rt: HostRuntime) -> Result<(), Fail> {
    let alloc = rt.alloc();
    let table = TypeTable::new(alloc, AMPLE)?;
    let t = &table;
    expect_refusal(&rt, t, contiguous(-1, INT))?;
    expect_refusal(&rt, t, contiguous(1, TypeNo { number: 31 }))?;
    expect_refusal(&rt, t, vector(1, -1, 1, INT))?;
    expect_refusal(&rt, t, indexed(alloc, &[(1, 0), (-1, 0)], INT))?;
    expect_refusal(&rt, t, structure(alloc, &[(0, 0, TypeNo { number: 99 })]))?;
    expect_refusal(&rt, t, subarray(alloc, 0, &[], INT))?;
    expect_refusal(&rt, t, subarray(alloc, 2, &[(1, 1, 0)], INT))?;
    expect_refusal(&rt, t, subarray(alloc, 0, &[(3, 2, 2)], INT))?;
    Ok(())
}

#[test]
fn many_makes_and_frees(rt: HostRuntime) -> Result<(), Fail> {
    let alloc = rt.alloc();
    let mut table = TypeTable::new(alloc, 3)?;
    let mut last = TypeNo { number: 30 };
    for _ in 0..100_000 {
        let made = make(&rt, alloc, &mut table, vector(3, 1, 2, INT))?;
        assert_ne!(rt; made, last);
        free(&rt, &mut table, made);
        last = made;
    }
    assert_eq!(rt; last, TypeNo { number: 100_030 });
    Ok(())
}

/// A table of one handle.
#[derive(Drop)]
struct OneHandle {
    handle: u32,
    no: TypeNo,
}

impl TypeHandles for OneHandle {
    ghost use Rattle.std.specs.Prelude.{◌==◌, if◌then◌else◌, Some, None};

    ghost types = { λ one handle. if handle == one.handle then Some one.no else None };

    fn type_of(&self, handle: u32) -> Option<TypeNo> {
        if handle == self.handle {
            return Some(self.no);
        }
        None
    }
}

fn struct_call(alloc: Global, olds: &[u32]) -> Result<Derive, NoMemory> {
    let mut blocks = Vec::new(alloc);
    for old in olds {
        blocks.push(StructBlock {
            block: 3,
            disp: 16,
            old: *old,
        })?;
    }
    Ok(Derive::TypeStruct {
        blocks: Items::from_vec(blocks),
        made: Some(65),
    })
}

fn handles_of_64() -> OneHandle {
    OneHandle {
        handle: 64,
        no: DOUBLE,
    }
}

/// The call makes a type with these bounds of what the handle 64 stands for.
fn expect_made(
    rt: &impl Abort,
    alloc: Global,
    call: &Derive,
    want: (i128, i128, i128, i128),
) -> Result<(), Fail> {
    let mut table = TypeTable::new(alloc, AMPLE)?;
    let made = construct_of(alloc, &handles_of_64(), call)?.ok_or("no call")?;
    expect(rt, alloc, &mut table, Ok(made), want)?;
    Ok(())
}

/// The call makes no type.
fn expect_none(rt: &impl Abort, alloc: Global, call: &Derive) -> Result<(), Fail> {
    let made = construct_of(alloc, &handles_of_64(), call)?;
    assert!(rt; made.is_none());
    Ok(())
}

#[test]
fn recorded_structs(rt: HostRuntime) -> Result<(), Fail> {
    let alloc = rt.alloc();
    let call = struct_call(alloc, &[64, 64])?;
    expect_made(&rt, alloc, &call, (48, 16, 40, 24))?;
    // the second block's handle stands for no type
    let call = struct_call(alloc, &[64, 65])?;
    expect_none(&rt, alloc, &call)
}

#[test]
fn recorded_calls_with_one_old_type(rt: HostRuntime) -> Result<(), Fail> {
    let alloc = rt.alloc();
    let contiguous = Derive::TypeContiguous {
        count: 3,
        old: 64,
        made: None,
    };
    expect_made(&rt, alloc, &contiguous, (24, 0, 24, 24))?;
    let dup = Derive::TypeDup {
        old: 65,
        made: Some(66),
    };
    expect_none(&rt, alloc, &dup)?;
    let commit = Derive::TypeCommit { dtype: 64 };
    expect_none(&rt, alloc, &commit)
}

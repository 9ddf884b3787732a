//! Signatures of worked types, and of small structs against flat lists.

ghost use Rattle.std.specs.Prelude.{◌≡◌, ◌<◌};

use crate::fit::Fit;
use crate::sig::{Sig, compare, first_difference};
use crate::steps::Steps;
use must_base::NoMemory;
use must_type::{Construct, IndexItem, IndexList, StructItem, StructList, TypeNo, TypeTable};
use std::alloc::Global;
use std::marker::Brand;
use std::process::Abort;
use std::sync::ledger::{Blank, Ledger};
use std::test::Fail;

const CHAR: TypeNo = TypeNo { number: 1 };

const BYTE: TypeNo = TypeNo { number: 4 };

const INT: TypeNo = TypeNo { number: 7 };

fn compared<L: Ledger>(blank: Blank, send: &Sig, recv: &Sig) -> Fit
    requires name { blank.name ≡ L.name }
    requires parts { blank.parts ≡ L.parts }
    requires some { 0 < blank.parts }
{
    let mut steps = Steps::new(blank);
    compare::<L>(send, recv, &mut steps)
}

fn fit(send: &Sig, recv: &Sig) -> Fit {
    compared::<Brand>(Blank::new(1), send, recv)
}

fn differing<L: Ledger>(blank: Blank, a: &Sig, b: &Sig) -> Option<u128>
    requires name { blank.name ≡ L.name }
    requires parts { blank.parts ≡ L.parts }
    requires some { 0 < blank.parts }
{
    let mut steps = Steps::new(blank);
    first_difference::<L>(a, b, &mut steps)
}

fn difference(a: &Sig, b: &Sig) -> Option<u128> {
    differing::<Brand>(Blank::new(1), a, b)
}

fn expect_fit<A: Abort>(rt: &A, send: &Sig, recv: &Sig, want: Fit) {
    assert_eq!(rt; fit(send, recv), want);
}

fn make<A: Abort>(
    rt: &A,
    alloc: Global,
    table: &mut TypeTable,
    call: &Construct,
) -> Result<TypeNo, Fail> {
    assert!(rt; table.can_make(call));
    Ok(table.make(alloc, call)?)
}

fn sig<A: Abort>(
    rt: &A,
    alloc: Global,
    table: &TypeTable,
    no: TypeNo,
    count: u64,
) -> Result<Sig, NoMemory> {
    assert!(rt; table.is_live(no));
    Sig::of(alloc, table, no, count)
}

fn struct_of(alloc: Global, blocks: &[(i32, TypeNo)]) -> Result<Construct, NoMemory> {
    let mut items = Vec::new(alloc);
    for (block, old) in blocks {
        items.push(StructItem {
            block: *block,
            disp: 0,
            old: *old,
        })?;
    }
    Ok(Construct::Struct {
        blocks: StructList::from_vec(items),
    })
}

/// The signature of `count` elements of a struct of these blocks.
fn blocks<A: Abort>(
    rt: &A,
    alloc: Global,
    blocks: &[(i32, TypeNo)],
    count: u64,
) -> Result<Sig, Fail> {
    let mut table = TypeTable::new(alloc, 1000)?;
    let call = struct_of(alloc, blocks)?;
    let no = make(rt, alloc, &mut table, &call)?;
    Ok(sig(rt, alloc, &table, no, count)?)
}

/// The signature of `count` elements of 2^60 chars each.
fn pages<A: Abort>(rt: &A, alloc: Global, count: u64) -> Result<Sig, Fail> {
    let mut table = TypeTable::new(alloc, 1 << 21)?;
    let row = Construct::Contiguous {
        count: 1 << 30,
        old: CHAR,
    };
    let old = make(rt, alloc, &mut table, &row)?;
    let page = Construct::Vector {
        count: 1 << 20,
        block: 1 << 10,
        stride: 1 << 10,
        old,
    };
    let no = make(rt, alloc, &mut table, &page)?;
    Ok(sig(rt, alloc, &table, no, count)?)
}

#[test]
fn copies_of_a_pair(rt: HostRuntime) -> Result<(), Fail> {
    let alloc = rt.alloc();
    let sent = blocks(&rt, alloc, &[(1, INT), (1, CHAR)], 1 << 60)?;
    let more = blocks(&rt, alloc, &[(1, INT), (1, CHAR)], (1 << 60) + 1)?;
    expect_fit(&rt, &sent, &sent, Fit::Fits);
    expect_fit(&rt, &sent, &more, Fit::Fits);
    expect_fit(&rt, &more, &sent, Fit::TooLong { at: 1 << 61 });
    assert_eq!(rt; difference(&sent, &more), Some(1 << 61));
    assert_eq!(rt; sent.len(), 1 << 61);
    Ok(())
}

#[test]
fn another_type_in_the_second_place(rt: HostRuntime) -> Result<(), Fail> {
    let alloc = rt.alloc();
    let sent = blocks(&rt, alloc, &[(1, INT), (1, CHAR)], 1 << 60)?;
    let other = blocks(&rt, alloc, &[(1, INT), (1, BYTE)], 1 << 60)?;
    expect_fit(&rt, &sent, &other, Fit::Differs { at: 1 });
    Ok(())
}

#[test]
fn repeated_and_copied(rt: HostRuntime) -> Result<(), Fail> {
    let alloc = rt.alloc();
    let one = blocks(&rt, alloc, &[(1, INT), (1, CHAR)], 1)?;
    assert!(rt; one.len() < 1 << 62);
    let many = one.repeated(7)?;
    let copy = many.copy()?;
    assert_eq!(rt; many.len(), 14);
    assert_eq!(rt; difference(&many, &copy), None);
    Ok(())
}

#[test]
fn long_signatures(rt: HostRuntime) -> Result<(), Fail> {
    let alloc = rt.alloc();
    let long = pages(&rt, alloc, 1 << 63)?;
    let longer = pages(&rt, alloc, (1 << 63) + 1)?;
    assert_eq!(rt; long.len(), 1 << 123);
    expect_fit(&rt, &long, &longer, Fit::Fits);
    expect_fit(&rt, &longer, &long, Fit::TooLong { at: 1 << 123 });
    Ok(())
}

#[test]
fn a_unit_that_is_the_other_twice(rt: HostRuntime) -> Result<(), Fail> {
    let alloc = rt.alloc();
    let twos = blocks(&rt, alloc, &[(1, INT), (1, CHAR)], 6)?;
    let fours = blocks(&rt, alloc, &[(1, INT), (1, CHAR), (1, INT), (1, CHAR)], 3)?;
    assert_eq!(rt; difference(&twos, &fours), None);
    Ok(())
}

#[test]
fn a_seam_of_two_copies(rt: HostRuntime) -> Result<(), Fail> {
    let alloc = rt.alloc();
    // ICI ICI against IC IIC I
    let threes = blocks(&rt, alloc, &[(1, INT), (1, CHAR), (1, INT)], 2)?;
    let whole = blocks(
        &rt,
        alloc,
        &[(1, INT), (1, CHAR), (2, INT), (1, CHAR), (1, INT)],
        1,
    )?;
    assert_eq!(rt; difference(&threes, &whole), None);
    let twos = blocks(&rt, alloc, &[(1, INT), (1, CHAR)], 3)?;
    expect_fit(&rt, &twos, &threes, Fit::Differs { at: 3 });
    Ok(())
}

#[test]
fn empty_signatures(rt: HostRuntime) -> Result<(), Fail> {
    let alloc = rt.alloc();
    let empty = blocks(&rt, alloc, &[(0, INT), (0, CHAR)], u64::MAX)?;
    let nothing = blocks(&rt, alloc, &[(1, INT)], 0)?;
    assert_eq!(rt; empty.len(), 0);
    assert_eq!(rt; difference(&empty, &nothing), None);
    let some = blocks(&rt, alloc, &[(1, INT)], 2)?;
    expect_fit(&rt, &empty, &some, Fit::Fits);
    expect_fit(&rt, &some, &nothing, Fit::TooLong { at: 0 });
    Ok(())
}

/// Five elements of INT and CHAR, as three blocks of two, none and three elements.
fn indexed<A: Abort>(rt: &A, alloc: Global) -> Result<Sig, Fail> {
    let mut table = TypeTable::new(alloc, 1000)?;
    let pair = struct_of(alloc, &[(1, INT), (1, CHAR)])?;
    let old = make(rt, alloc, &mut table, &pair)?;
    let mut items = Vec::new(alloc);
    for (block, disp) in [(2, 0), (0, 5), (3, 9)] {
        items.push(IndexItem { block, disp })?;
    }
    let blocks = IndexList::from_vec(items);
    let no = make(rt, alloc, &mut table, &Construct::Indexed { blocks, old })?;
    Ok(sig(rt, alloc, &table, no, 1)?)
}

#[test]
fn blocks_of_one_old_type(rt: HostRuntime) -> Result<(), Fail> {
    let alloc = rt.alloc();
    let five = blocks(&rt, alloc, &[(1, INT), (1, CHAR)], 5)?;
    let same = indexed(&rt, alloc)?;
    assert_eq!(rt; difference(&same, &five), None);
    Ok(())
}

/// The types of a pattern: the bits say which are INT, and which are CHAR.
fn pattern(alloc: Global, bits: u32, length: u32) -> Result<Vec<(i32, TypeNo)>, NoMemory> {
    let mut types = Vec::new(alloc);
    for place in 0..length.min(8) {
        let old = if (bits >> place) & 1 == 1 { INT } else { CHAR };
        types.push((1, old))?;
    }
    Ok(types)
}

/// The pattern, so many times over.
fn flat(alloc: Global, bits: u32, length: u32, count: u64) -> Result<Vec<u32>, NoMemory> {
    let mut all = Vec::new(alloc);
    for _ in 0..count {
        for place in 0..length.min(8) {
            all.push((bits >> place) & 1)?;
        }
    }
    Ok(all)
}

fn flat_fit(sent: &[u32], received: &[u32]) -> Fit {
    for (at, (a, b)) in sent.iter().zip(received.iter()).enumerate() {
        if a != b {
            return Fit::Differs { at: at as u128 };
        }
    }
    if sent.len() <= received.len() {
        Fit::Fits
    } else {
        Fit::TooLong {
            at: received.len() as u128,
        }
    }
}

/// Two patterns, the one `count` times and the other three times over, are compared as their flat lists are.
fn expect_flat<A: Abort>(
    rt: &A,
    alloc: Global,
    sent: (u32, u32, u64),
    received: (u32, u32, u64),
) -> Result<(), Fail> {
    let left = pattern(alloc, sent.0, sent.1)?;
    let right = pattern(alloc, received.0, received.1)?;
    let a = blocks(rt, alloc, left.as_slice(), sent.2)?;
    let b = blocks(rt, alloc, right.as_slice(), received.2)?;
    let want = flat_fit(
        flat(alloc, sent.0, sent.1, sent.2)?.as_slice(),
        flat(alloc, received.0, received.1, received.2)?.as_slice(),
    );
    expect_fit(rt, &a, &b, want);
    Ok(())
}

#[test]
fn small_structs_against_flat_lists(rt: HostRuntime) -> Result<(), Fail> {
    let alloc = rt.alloc();
    for three in 0..8 {
        for two in 0..4 {
            for count in 0..4 {
                expect_flat(&rt, alloc, (three, 3, count), (two, 2, 3))?;
                expect_flat(&rt, alloc, (two, 2, count), (three, 3, 2))?;
            }
        }
    }
    Ok(())
}

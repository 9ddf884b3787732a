//! Calls of a rank that make and free types, with what their handles stand for.

use crate::Datatypes;
use must_base::NoMemory;
use must_call::{Body, Call, Derive, Frame, Items, StructBlock};
use must_type::{Bounds, Limit2, TypeFault};
use std::alloc::Global;
use std::process::Abort;
use std::test::Fail;

const INT: u32 = 7;

const DOUBLE: u32 = 14;

/// What the live types of a rank alone may weigh.
const MOST: u64 = 1 << 26;

/// A call in short, with its handles. It returned, unless the name says otherwise.
#[derive(Clone, Copy)]
enum Act {
    Init,
    /// The count, the old type and what is made.
    Contiguous(i32, u32, u32),
    ContiguousStuck(i32, u32),
    /// `count` blocks of one element, two extents apart.
    Vector(i32, u32, u32),
    /// One element of each of two types, the second four bytes behind the first.
    Pair(u32, u32, u32),
    Free(u32),
    FreeStuck(u32),
}

fn contiguous(count: i32, old: u32, made: Option<u32>) -> Body {
    Body::Derive(Derive::TypeContiguous { count, old, made })
}

fn pair(alloc: Global, first: u32, second: u32, made: u32) -> Result<Body, NoMemory> {
    let mut blocks = Vec::new(alloc);
    blocks.push(StructBlock {
        block: 1,
        disp: 0,
        old: first,
    })?;
    blocks.push(StructBlock {
        block: 1,
        disp: 4,
        old: second,
    })?;
    Ok(Body::Derive(Derive::TypeStruct {
        blocks: Items::from_vec(blocks),
        made: Some(made),
    }))
}

fn body(alloc: Global, act: Act) -> Result<Body, NoMemory> {
    Ok(match act {
        Act::Init => Body::Frame(Frame::Init),
        Act::Contiguous(count, old, made) => contiguous(count, old, Some(made)),
        Act::ContiguousStuck(count, old) => contiguous(count, old, None),
        Act::Vector(count, old, made) => Body::Derive(Derive::TypeVector {
            count,
            block: 1,
            stride: 2,
            old,
            made: Some(made),
        }),
        Act::Pair(first, second, made) => pair(alloc, first, second, made)?,
        Act::Free(dtype) | Act::FreeStuck(dtype) => Body::Derive(Derive::TypeFree { dtype }),
    })
}

fn call(alloc: Global, act: Act) -> Result<Call, NoMemory> {
    Ok(Call {
        returned: !matches!(act, Act::ContiguousStuck(..) | Act::FreeStuck(_)),
        body: body(alloc, act)?,
    })
}

/// The types after these calls, all of which are clear.
fn types(rt: &impl Abort, alloc: Global, acts: &[Act]) -> Result<Datatypes, NoMemory> {
    let mut types = Datatypes::new(alloc, MOST)?;
    for act in acts {
        let call = call(alloc, *act)?;
        match types.take(alloc, &call, true) {
            Ok(()) => {}
            Err(TypeFault::NoMemory) => return Err(NoMemory),
            Err(TypeFault::TooWide { .. }) => assert!(rt; false, "a limit is reached"),
        }
    }
    Ok(types)
}

/// The fault of a call behind these.
fn fault(
    rt: &impl Abort,
    alloc: Global,
    acts: &[Act],
    last: Act,
) -> Result<Option<TypeFault>, NoMemory> {
    let mut types = types(rt, alloc, acts)?;
    let call = call(alloc, last)?;
    Ok(types.take(alloc, &call, true).err())
}

fn bounds_of(types: &Datatypes, handle: u32) -> Option<Bounds> {
    let no = types.type_no(handle)?;
    if types.table().is_live(no) {
        Some(types.table().bounds(no))
    } else {
        None
    }
}

/// The size and the extent of what a handle stands for, where it is in the table.
fn expect_bounds(rt: &impl Abort, types: &Datatypes, handle: u32, want: Option<(i128, i128)>) {
    let found = match bounds_of(types, handle) {
        Some(bounds) => Some((bounds.size, bounds.extent)),
        None => None,
    };
    assert_eq!(rt; found, want, "{handle}");
}

#[test]
fn types_of_types(rt: HostRuntime) -> Result<(), Fail> {
    let alloc = rt.alloc();
    let types = types(
        &rt,
        alloc,
        &[
            Act::Init,
            Act::Contiguous(2, INT, 64),
            Act::Vector(3, 64, 65),
            Act::Pair(INT, 1, 66),
            Act::Pair(66, 64, 67),
        ],
    )?;
    expect_bounds(&rt, &types, 0, None);
    expect_bounds(&rt, &types, INT, Some((4, 4)));
    expect_bounds(&rt, &types, 30, Some((8, 8)));
    expect_bounds(&rt, &types, 31, None);
    expect_bounds(&rt, &types, 64, Some((8, 8)));
    // Three elements of 8 bytes, two extents apart.
    expect_bounds(&rt, &types, 65, Some((24, 40)));
    // An int and a byte behind it, padded to the int's alignment.
    expect_bounds(&rt, &types, 66, Some((5, 8)));
    expect_bounds(&rt, &types, 67, Some((13, 12)));
    expect_bounds(&rt, &types, 68, None);
    for (handle, sound) in [(0, false), (1, true), (30, true), (31, false), (67, true)] {
        assert_eq!(rt; types.is_sound(handle), sound, "{handle}");
    }
    Ok(())
}

#[test]
fn freed_types_and_types_of_unsound_ones(rt: HostRuntime) -> Result<(), Fail> {
    let alloc = rt.alloc();
    let mut types = types(
        &rt,
        alloc,
        &[
            Act::Contiguous(2, INT, 64),
            Act::Contiguous(3, 64, 65),
            Act::Free(64),
            Act::Free(64),
            Act::Free(INT),
            Act::FreeStuck(65),
        ],
    )?;
    // What was made of a freed type stays.
    expect_bounds(&rt, &types, 64, None);
    expect_bounds(&rt, &types, 65, Some((24, 24)));
    expect_bounds(&rt, &types, INT, Some((4, 4)));
    assert!(rt; types.is_sound(64));
    let unclear = call(alloc, Act::Contiguous(-1, INT, 66))?;
    types.take(alloc, &unclear, false)?;
    let of_unsound = call(alloc, Act::Contiguous(1, 66, 67))?;
    types.take(alloc, &of_unsound, true)?;
    let stuck = call(alloc, Act::ContiguousStuck(1, INT))?;
    types.take(alloc, &stuck, true)?;
    for handle in [66, 67, 68] {
        assert!(rt; !types.is_sound(handle));
        expect_bounds(&rt, &types, handle, None);
    }
    Ok(())
}

#[test]
fn weights_of_live_types(rt: HostRuntime) -> Result<(), Fail> {
    let alloc = rt.alloc();
    let half = Act::Vector(33_554_432, INT, 64);
    let other = Act::Vector(33_554_432, DOUBLE, 65);
    let weight = Some(TypeFault::TooWide {
        limit: Limit2::Weight,
    });
    // Each block of a vector with gaps weighs one: 2^26 is the greatest sum.
    assert_eq!(rt;
        fault(&rt, alloc, &[], Act::Vector(67_108_864, INT, 64))?,
        None
    );
    assert_eq!(rt;
        fault(&rt, alloc, &[], Act::Vector(67_108_865, INT, 64))?,
        weight
    );
    assert_eq!(rt; fault(&rt, alloc, &[half], other)?, None);
    assert_eq!(rt;
        fault(&rt, alloc, &[half, other], Act::Contiguous(1, INT, 66))?,
        weight
    );
    assert_eq!(rt;
        fault(
            &rt,
            alloc,
            &[half, other, Act::Free(64)],
            Act::Contiguous(1, INT, 66)
        )?,
        None
    );
    // A call that didn't return makes none.
    assert_eq!(rt;
        fault(&rt, alloc, &[half, other], Act::ContiguousStuck(1, INT))?,
        None
    );
    Ok(())
}

#[test]
fn reach_of_types(rt: HostRuntime) -> Result<(), Fail> {
    let alloc = rt.alloc();
    let reach = Some(TypeFault::TooWide {
        limit: Limit2::Reach,
    });
    let large = Act::Contiguous(2_147_483_647, DOUBLE, 64);
    assert_eq!(rt;
        fault(&rt, alloc, &[large], Act::Contiguous(2_147_483_647, 64, 65))?,
        reach
    );
    assert_eq!(rt;
        fault(&rt, alloc, &[large], Act::Contiguous(268_435_456, 64, 65))?,
        None
    );
    // A type of 256 others, one of the other, and one more.
    let mut deep = types(&rt, alloc, &[Act::Contiguous(1, INT, 64)])?;
    for handle in 64..319 {
        let next = call(alloc, Act::Contiguous(1, handle, handle + 1))?;
        deep.take(alloc, &next, true)?;
    }
    let last = call(alloc, Act::Contiguous(1, 319, 320))?;
    assert_eq!(rt; deep.take(alloc, &last, true).err(), reach);
    Ok(())
}

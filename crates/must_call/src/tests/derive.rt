//! Calls on datatypes, number by number.

use super::{expect, struct_block, vec_of};
use crate::{
    Body, Class, Derive, Dim, DimList, DispList, HdispList, HindexItem, HindexList, IndexItem,
    IndexList, Kind, StructBlock, StructBlockList,
};
use std::test::Fail;

#[test]
fn struct_types(rt: HostRuntime) -> Result<(), Fail> {
    let alloc = rt.alloc();
    let none: [StructBlock; 0] = [];
    let one = [struct_block(2, i64::MIN, 7)];
    let three = [
        struct_block(1, 0, 7),
        struct_block(i32::MIN, i64::MAX, 64),
        struct_block(3, 16, 1),
    ];
    for (blocks, numbers, handles) in [
        (none.as_slice(), [0, 65].as_slice(), [].as_slice()),
        (
            &one,
            &[1, 2, -9_223_372_036_854_775_808, 7, 65],
            &[(Class::Datatype, 7)],
        ),
        (
            &three,
            &[
                3,
                1,
                0,
                7,
                -2_147_483_648,
                9_223_372_036_854_775_807,
                64,
                3,
                16,
                1,
                65,
            ],
            &[
                (Class::Datatype, 7),
                (Class::Datatype, 64),
                (Class::Datatype, 1),
            ],
        ),
    ] {
        let type_struct = Derive::TypeStruct {
            blocks: StructBlockList::from_vec(vec_of(alloc, blocks)?),
            made: Some(65),
        };
        expect(
            &rt,
            Body::Derive(type_struct),
            Kind::TypeStruct,
            numbers,
            handles,
        );
    }
    Ok(())
}

#[test]
fn other_types(rt: HostRuntime) -> Result<(), Fail> {
    let alloc = rt.alloc();
    let handles = [(Class::Datatype, 14)];
    let dims = [
        Dim {
            size: 4,
            subsize: 2,
            start: 1,
        },
        Dim {
            size: 5,
            subsize: 3,
            start: 0,
        },
    ];
    let subarray = Derive::TypeSubarray {
        order: 1,
        dims: DimList::from_vec(vec_of(alloc, &dims)?),
        old: 14,
        made: Some(65),
    };
    let numbers = [1, 2, 4, 2, 1, 5, 3, 0, 14, 65];
    expect(
        &rt,
        Body::Derive(subarray),
        Kind::TypeSubarray,
        &numbers,
        &handles,
    );
    let indexed = Derive::TypeIndexed {
        blocks: IndexList::from_vec(vec_of(alloc, &[IndexItem { block: 1, disp: -3 }])?),
        old: 14,
        made: None,
    };
    expect(
        &rt,
        Body::Derive(indexed),
        Kind::TypeIndexed,
        &[1, 1, -3, 14],
        &handles,
    );
    let hindexed = Derive::TypeHindexed {
        blocks: HindexList::from_vec(vec_of(alloc, &[HindexItem { block: 2, disp: -8 }])?),
        old: 14,
        made: Some(66),
    };
    expect(
        &rt,
        Body::Derive(hindexed),
        Kind::TypeHindexed,
        &[1, 2, -8, 14, 66],
        &handles,
    );
    let same_length = Derive::TypeHindexedBlock {
        block: 6,
        disps: HdispList::from_vec(vec_of(alloc, &[i64::MAX, 0])?),
        old: 14,
        made: Some(66),
    };
    let numbers = [6, 2, 9_223_372_036_854_775_807, 0, 14, 66];
    expect(
        &rt,
        Body::Derive(same_length),
        Kind::TypeHindexedBlock,
        &numbers,
        &handles,
    );
    let resized = Derive::TypeResized {
        lb: i64::MIN,
        extent: i64::MAX,
        old: 14,
        made: Some(64),
    };
    let numbers = [
        -9_223_372_036_854_775_808,
        9_223_372_036_854_775_807,
        14,
        64,
    ];
    expect(
        &rt,
        Body::Derive(resized),
        Kind::TypeResized,
        &numbers,
        &handles,
    );
    Ok(())
}

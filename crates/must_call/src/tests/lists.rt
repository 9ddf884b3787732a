//! Lists give their items back.

use super::{amount, status, struct_block, vec_of};
use crate::{
    Amount, AmountList, Completion, CompletionList, Dim, DimList, HandleList, HdispList,
    HindexItem, HindexList, IndexItem, IndexList, IntList, MemberList, StatusList, StructBlockList,
};
use std::test::Fail;

#[test]
fn lists_give_their_items_back(rt: HostRuntime) -> Result<(), Fail> {
    let alloc = rt.alloc();
    let list = HandleList::from_vec(vec_of(alloc, &[64, u32::MAX])?);
    assert_eq!(rt; list.items(), [64, u32::MAX].as_slice());
    assert_eq!(rt; list.into_vec().as_slice(), [64, u32::MAX].as_slice());
    let list = MemberList::from_vec(vec_of(alloc, &[1u32, 0])?);
    assert_eq!(rt; list.items(), [1, 0].as_slice());
    assert_eq!(rt; list.into_vec().as_slice(), [1, 0].as_slice());
    let list = IntList::from_vec(vec_of(alloc, &[i32::MIN])?);
    assert_eq!(rt; list.items(), [i32::MIN].as_slice());
    assert_eq!(rt; list.into_vec().as_slice(), [i32::MIN].as_slice());
    let list = HdispList::from_vec(vec_of(alloc, &[i64::MIN])?);
    assert_eq!(rt; list.items(), [i64::MIN].as_slice());
    assert_eq!(rt; list.into_vec().as_slice(), [i64::MIN].as_slice());
    let blocks = [IndexItem { block: 1, disp: -1 }];
    let list = IndexList::from_vec(vec_of(alloc, &blocks)?);
    assert_eq!(rt; list.items(), blocks.as_slice());
    assert_eq!(rt; list.into_vec().as_slice(), blocks.as_slice());
    let blocks = [HindexItem { block: 1, disp: -1 }];
    let list = HindexList::from_vec(vec_of(alloc, &blocks)?);
    assert_eq!(rt; list.items(), blocks.as_slice());
    assert_eq!(rt; list.into_vec().as_slice(), blocks.as_slice());
    Ok(())
}

#[test]
fn lists_of_records_give_their_items_back(rt: HostRuntime) -> Result<(), Fail> {
    let alloc = rt.alloc();
    let blocks = [struct_block(1, 2, 3)];
    let list = StructBlockList::from_vec(vec_of(alloc, &blocks)?);
    assert_eq!(rt; list.items(), blocks.as_slice());
    assert_eq!(rt; list.into_vec().as_slice(), blocks.as_slice());
    let dims = [Dim {
        size: 1,
        subsize: 1,
        start: 0,
    }];
    let list = DimList::from_vec(vec_of(alloc, &dims)?);
    assert_eq!(rt; list.items(), dims.as_slice());
    assert_eq!(rt; list.into_vec().as_slice(), dims.as_slice());
    let amounts = [amount(1, 2)];
    let list = AmountList::from_vec(vec_of(alloc, &amounts)?);
    assert_eq!(rt; list.items(), amounts.as_slice());
    assert_eq!(rt; list.into_vec().as_slice(), amounts.as_slice());
    let statuses = [status(1, 2, true)];
    let list = StatusList::from_vec(vec_of(alloc, &statuses)?);
    assert_eq!(rt; list.items(), statuses.as_slice());
    assert_eq!(rt; list.into_vec().as_slice(), statuses.as_slice());
    let completions = [Completion {
        index: 1,
        status: statuses[0],
    }];
    let list = CompletionList::from_vec(vec_of(alloc, &completions)?);
    assert_eq!(rt; list.items(), completions.as_slice());
    assert_eq!(rt; list.into_vec().as_slice(), completions.as_slice());
    Ok(())
}

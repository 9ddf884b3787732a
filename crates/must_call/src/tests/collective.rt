//! Collective calls, number by number.

use super::{amount, expect, vec_of};
use crate::{Amount, AmountList, Body, Class, Collective, IntList, Kind};
use std::test::Fail;

#[test]
fn collectives(rt: HostRuntime) -> Result<(), Fail> {
    let alloc = rt.alloc();
    let reduce = Collective::Reduce {
        in_place: false,
        sbuf: 16,
        rbuf: u64::MAX,
        count: 4,
        dtype: 7,
        op: 3,
        root: 2,
        comm: 1,
    };
    let handles = [
        (Class::Datatype, 7),
        (Class::Operation, 3),
        (Class::Comm, 1),
    ];
    let numbers = [0, 16, 18_446_744_073_709_551_615, 4, 7, 3, 2, 1];
    expect(
        &rt,
        Body::Collective(reduce),
        Kind::Reduce,
        &numbers,
        &handles,
    );

    let gatherv = Collective::Gatherv {
        in_place: true,
        sbuf: 16,
        scount: 5,
        stype: 7,
        rbuf: 32,
        rblocks: AmountList::from_vec(vec_of(alloc, &[amount(1, 0), amount(3, -2)])?),
        rtype: 64,
        root: 0,
        comm: 2,
    };
    let handles = [
        (Class::Datatype, 7),
        (Class::Datatype, 64),
        (Class::Comm, 2),
    ];
    let numbers = [1, 16, 5, 7, 32, 2, 1, 0, 3, -2, 64, 0, 2];
    expect(
        &rt,
        Body::Collective(gatherv),
        Kind::Gatherv,
        &numbers,
        &handles,
    );
    Ok(())
}

//! Nonblocking collective calls, number by number.

use super::expect;
use crate::{Body, Class, Kind, Started};

#[test]
fn without_a_reduction(rt: HostRuntime) {
    let barrier = Started::Ibarrier {
        comm: 2,
        request: Some(64),
    };
    expect(
        &rt,
        Body::Started(barrier),
        Kind::Ibarrier,
        &[2, 64],
        &[(Class::Comm, 2)],
    );
    let bcast = Started::Ibcast {
        buf: 16,
        count: 1,
        dtype: 7,
        root: 3,
        comm: 1,
        request: None,
    };
    let handles = [(Class::Datatype, 7), (Class::Comm, 1)];
    expect(
        &rt,
        Body::Started(bcast),
        Kind::Ibcast,
        &[16, 1, 7, 3, 1],
        &handles,
    );
    let handles = [(Class::Datatype, 7), (Class::Datatype, 1), (Class::Comm, 1)];
    let gather = Started::Igather {
        in_place: true,
        sbuf: 16,
        scount: 2,
        stype: 7,
        rbuf: 32,
        rcount: 8,
        rtype: 1,
        root: 0,
        comm: 1,
        request: Some(65),
    };
    let numbers = [1, 16, 2, 7, 32, 8, 1, 0, 1, 65];
    expect(
        &rt,
        Body::Started(gather),
        Kind::Igather,
        &numbers,
        &handles,
    );
}

#[test]
fn all_to_all(rt: HostRuntime) {
    let handles = [(Class::Datatype, 7), (Class::Datatype, 1), (Class::Comm, 1)];
    let allgather = Started::Iallgather {
        in_place: false,
        sbuf: 16,
        scount: 2,
        stype: 7,
        rbuf: 32,
        rcount: 8,
        rtype: 1,
        comm: 1,
        request: Some(66),
    };
    let numbers = [0, 16, 2, 7, 32, 8, 1, 1, 66];
    expect(
        &rt,
        Body::Started(allgather),
        Kind::Iallgather,
        &numbers,
        &handles,
    );
    let alltoall = Started::Ialltoall {
        in_place: false,
        sbuf: 16,
        scount: 2,
        stype: 7,
        rbuf: 32,
        rcount: 8,
        rtype: 1,
        comm: 1,
        request: Some(67),
    };
    let numbers = [0, 16, 2, 7, 32, 8, 1, 1, 67];
    expect(
        &rt,
        Body::Started(alltoall),
        Kind::Ialltoall,
        &numbers,
        &handles,
    );
}

#[test]
fn reductions(rt: HostRuntime) {
    let handles = [
        (Class::Datatype, 7),
        (Class::Operation, 3),
        (Class::Comm, 1),
    ];
    let reduce = Started::Ireduce {
        in_place: false,
        sbuf: 16,
        rbuf: 32,
        count: 4,
        dtype: 7,
        op: 3,
        root: 5,
        comm: 1,
        request: Some(68),
    };
    let numbers = [0, 16, 32, 4, 7, 3, 5, 1, 68];
    expect(
        &rt,
        Body::Started(reduce),
        Kind::Ireduce,
        &numbers,
        &handles,
    );
    let allreduce = Started::Iallreduce {
        in_place: true,
        sbuf: 16,
        rbuf: 32,
        count: 4,
        dtype: 7,
        op: 3,
        comm: 1,
        request: None,
    };
    let numbers = [1, 16, 32, 4, 7, 3, 1];
    expect(
        &rt,
        Body::Started(allreduce),
        Kind::Iallreduce,
        &numbers,
        &handles,
    );
}

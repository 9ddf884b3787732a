//! Persistent requests, number by number.

use super::{expect, vec_of};
use crate::{Body, Class, HandleList, Kind, Persist};
use std::test::Fail;

#[test]
fn persistent_requests(rt: HostRuntime) -> Result<(), Fail> {
    let alloc = rt.alloc();
    let handles = [(Class::Datatype, 7), (Class::Comm, 1)];
    let send = Persist::SendInit {
        buf: 4096,
        count: 3,
        dtype: 7,
        dest: -1,
        tag: 5,
        comm: 1,
        request: Some(64),
    };
    expect(
        &rt,
        Body::Persist(send),
        Kind::SendInit,
        &[4096, 3, 7, -1, 5, 1, 64],
        &handles,
    );
    let send = Persist::SsendInit {
        buf: 4096,
        count: 3,
        dtype: 7,
        dest: 2,
        tag: 5,
        comm: 1,
        request: None,
    };
    expect(
        &rt,
        Body::Persist(send),
        Kind::SsendInit,
        &[4096, 3, 7, 2, 5, 1],
        &handles,
    );
    let receive = Persist::RecvInit {
        buf: 8,
        count: 9,
        dtype: 7,
        source: -2,
        tag: -1,
        comm: 1,
        request: Some(65),
    };
    expect(
        &rt,
        Body::Persist(receive),
        Kind::RecvInit,
        &[8, 9, 7, -2, -1, 1, 65],
        &handles,
    );
    let start = Persist::Start { request: 65 };
    expect(
        &rt,
        Body::Persist(start),
        Kind::Start,
        &[65],
        &[(Class::Request, 65)],
    );
    let requests = HandleList::from_vec(vec_of(alloc, &[65, 64])?);
    let handles = [(Class::Request, 65), (Class::Request, 64)];
    expect(
        &rt,
        Body::Persist(Persist::Startall { requests }),
        Kind::Startall,
        &[2, 65, 64],
        &handles,
    );
    Ok(())
}

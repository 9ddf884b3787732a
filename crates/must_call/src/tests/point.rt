//! Messages and probes, number by number.

use super::{expect, status};
use crate::{Argument, Body, Class, Finish, Frame, Given, Handle, Kind, Point, Status3};

#[test]
fn calls_without_fields(rt: HostRuntime) {
    expect(&rt, Body::Frame(Frame::Init), Kind::Init, &[], &[]);
    expect(&rt, Body::Frame(Frame::Finalize), Kind::Finalize, &[], &[]);
}

#[test]
fn messages(rt: HostRuntime) {
    let send = Point::Send {
        buf: u64::MAX,
        count: i32::MIN,
        dtype: u32::MAX,
        dest: -1,
        tag: i32::MAX,
        comm: 1,
    };
    let numbers = [
        18_446_744_073_709_551_615,
        -2_147_483_648,
        4_294_967_295,
        -1,
        2_147_483_647,
        1,
    ];
    let handles = [(Class::Datatype, u32::MAX), (Class::Comm, 1)];
    expect(&rt, Body::Point(send), Kind::Send, &numbers, &handles);

    let sendrecv = |status| Point::Sendrecv {
        sbuf: 4096,
        scount: 2,
        stype: 7,
        dest: 1,
        stag: 5,
        rbuf: 8192,
        rcount: 3,
        rtype: 14,
        source: -2,
        rtag: -1,
        comm: 64,
        status,
    };
    let handles = [
        (Class::Datatype, 7),
        (Class::Datatype, 14),
        (Class::Comm, 64),
    ];
    let numbers = [4096, 2, 7, 1, 5, 8192, 3, 14, -2, -1, 64, 0, 9, 1];
    let returned = Body::Point(sendrecv(Some(status(0, 9, true))));
    expect(&rt, returned, Kind::Sendrecv, &numbers, &handles);
    let stuck = Body::Point(sendrecv(None));
    expect(&rt, stuck, Kind::Sendrecv, &numbers[..11], &handles);

    let isend = Point::Isend {
        buf: 0,
        count: 1,
        dtype: 7,
        dest: 2,
        tag: 3,
        comm: 1,
        request: Some(64),
    };
    let handles = [(Class::Datatype, 7), (Class::Comm, 1)];
    expect(
        &rt,
        Body::Point(isend),
        Kind::Isend,
        &[0, 1, 7, 2, 3, 1, 64],
        &handles,
    );
}

#[test]
fn probes(rt: HostRuntime) {
    let found = Some(Some(status(3, 4, false)));
    for (status, numbers) in [
        (None, [-2, 7, 1].as_slice()),
        (Some(None), [-2, 7, 1, 0].as_slice()),
        (found, [-2, 7, 1, 1, 3, 4, 0].as_slice()),
    ] {
        let iprobe = Point::Iprobe {
            source: -2,
            tag: 7,
            comm: 1,
            status,
        };
        expect(
            &rt,
            Body::Point(iprobe),
            Kind::Iprobe,
            numbers,
            &[(Class::Comm, 1)],
        );
    }
}

#[test]
fn fields_and_outputs(rt: HostRuntime) {
    let body = Body::Finish(Finish::Wait {
        request: 64,
        status: Some(status(0, 1, false)),
    });
    assert_eq!(rt; body.kind(), Kind::Wait);
    let inputs = body.inputs();
    assert_eq!(rt; inputs.len(), 1);
    assert!(rt; matches!(inputs.first(), Some(Argument::Handle(Handle::Request, 64))));
    assert!(rt;
        matches!(
            body.given(),
            Some(Given::Status(Status3 {
                source: 0,
                tag: 1,
                ..
            }))
        )
    );
    let stuck = Body::Finish(Finish::Cancel { request: 64 });
    assert_eq!(rt; stuck.inputs().len(), 1);
    assert!(rt; stuck.given().is_none());
}

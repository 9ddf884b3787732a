//! Calls on operations, groups and communicators, number by number.

use super::{expect, vec_of};
use crate::{Body, Call, Class, Finish, IntList, Kind, MadeComm, MemberList, Object};
use std::test::Fail;

#[test]
fn communicators_and_groups(rt: HostRuntime) -> Result<(), Fail> {
    let alloc = rt.alloc();
    let handles = [(Class::Comm, 1)];
    for (made, members, numbers) in [
        (
            64,
            [2, 0, 1].as_slice(),
            [1, -1, 2_147_483_647, 64, 3, 2, 0, 1].as_slice(),
        ),
        (0, &[], &[1, -1, 2_147_483_647, 0, 0]),
    ] {
        let members = MemberList::from_vec(vec_of(alloc, members)?);
        let split = Object::CommSplit {
            comm: 1,
            color: -1,
            key: i32::MAX,
            made: Some(MadeComm { made, members }),
        };
        expect(&rt, Body::Object(split), Kind::CommSplit, numbers, &handles);
    }
    let stuck = Object::CommSplit {
        comm: 1,
        color: 0,
        key: 5,
        made: None,
    };
    expect(
        &rt,
        Body::Object(stuck),
        Kind::CommSplit,
        &[1, 0, 5],
        &handles,
    );
    let create = Object::CommCreate {
        comm: 1,
        group: 64,
        made: None,
    };
    let handles = [(Class::Comm, 1), (Class::Group, 64)];
    expect(
        &rt,
        Body::Object(create),
        Kind::CommCreate,
        &[1, 64],
        &handles,
    );
    let incl = Object::GroupIncl {
        group: 64,
        ranks: IntList::from_vec(vec_of(alloc, &[1, -1])?),
        made: Some(65),
    };
    expect(
        &rt,
        Body::Object(incl),
        Kind::GroupIncl,
        &[64, 2, 1, -1, 65],
        &handles[1..],
    );
    let op = Object::OpCreate {
        commute: true,
        made: Some(64),
    };
    expect(&rt, Body::Object(op), Kind::OpCreate, &[1, 64], &[]);
    Ok(())
}

/// A call that returned, or not.
fn made_by(returned: bool, body: Body) -> Option<(Class, u32)> {
    Call { returned, body }.made()
}

#[test]
fn what_was_made(rt: HostRuntime) -> Result<(), Fail> {
    let alloc = rt.alloc();
    let op = Object::OpCreate {
        commute: true,
        made: Some(64),
    };
    assert_eq!(rt;
        made_by(true, Body::Object(op)),
        Some((Class::Operation, 64))
    );
    let stuck = Object::CommGroup {
        comm: 1,
        made: None,
    };
    assert_eq!(rt; made_by(false, Body::Object(stuck)), None);
    assert_eq!(rt;
        made_by(true, Body::Object(Object::GroupFree { group: 64 })),
        None
    );
    let split = Object::CommSplit {
        comm: 1,
        color: -1,
        key: 0,
        made: Some(MadeComm {
            made: 0,
            members: MemberList::from_vec(Vec::new(alloc)),
        }),
    };
    let call = Call {
        returned: true,
        body: Body::Object(split),
    };
    assert_eq!(rt; call.made(), Some((Class::Comm, 0)));
    assert!(rt; matches!(call.made_comm(), Some(comm) if comm.members.items().is_empty()));
    let wait = Finish::Wait {
        request: 64,
        status: None,
    };
    let call = Call {
        returned: false,
        body: Body::Finish(wait),
    };
    assert!(rt; call.made().is_none() && call.made_comm().is_none());
    Ok(())
}

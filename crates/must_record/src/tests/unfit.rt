//! Calls that no record has, and their neighbours that one has.

use crate::fits;
use must_call::{
    Body, Call, Choice, Completion, CompletionList, Derive, DimList, Finish, Frame, HandleList,
    MadeComm, MemberList, Object, Point, Status3, StatusList,
};
use std::alloc::Global;
use std::test::Fail;

fn fit(returned: bool, body: Body) -> bool {
    fits(&Call { returned, body })
}

const STATUS: Status3 = Status3 {
    source: 3,
    tag: -1,
    cancelled: true,
};

/// So many requests.
fn requests(alloc: Global, count: u32) -> Result<HandleList, Fail> {
    let mut requests = Vec::new(alloc);
    for request in 0..count {
        requests.push(request)?;
    }
    Ok(HandleList::from_vec(requests))
}

/// So many statuses.
fn statuses(alloc: Global, count: u32) -> Result<StatusList, Fail> {
    let mut statuses = Vec::new(alloc);
    for _ in 0..count {
        statuses.push(STATUS)?;
    }
    Ok(StatusList::from_vec(statuses))
}

/// Completions with these indices.
fn completions(alloc: Global, indices: &[u32]) -> Result<CompletionList, Fail> {
    let mut completions = Vec::new(alloc);
    for index in indices {
        completions.push(Completion {
            index: *index,
            status: STATUS,
        })?;
    }
    Ok(CompletionList::from_vec(completions))
}

#[test]
fn calls_without_outputs(rt: HostRuntime) {
    for returned in [true, false] {
        assert!(rt; fit(returned, Body::Frame(Frame::Init)));
        assert!(rt; fit(returned, Body::Finish(Finish::Cancel { request: 64 })));
    }
}

#[test]
fn outputs_of_one_number(rt: HostRuntime) {
    for returned in [true, false] {
        let with = Object::OpCreate {
            commute: true,
            made: Some(u32::MAX),
        };
        assert_eq!(rt; fit(returned, Body::Object(with)), returned);
        let without = Object::OpCreate {
            commute: true,
            made: None,
        };
        assert_eq!(rt; fit(returned, Body::Object(without)), !returned);
    }
}

#[test]
fn made_communicators(rt: HostRuntime) -> Result<(), Fail> {
    let alloc = rt.alloc();
    for returned in [true, false] {
        let with = Object::CommDup {
            comm: 1,
            made: Some(MadeComm {
                made: 64,
                members: MemberList::from_vec(requests(alloc, 3)?.into_vec()),
            }),
        };
        assert_eq!(rt; fit(returned, Body::Object(with)), returned);
        let without = Object::CommDup {
            comm: 1,
            made: None,
        };
        assert_eq!(rt; fit(returned, Body::Object(without)), !returned);
    }
    Ok(())
}

#[test]
fn outputs_of_a_status(rt: HostRuntime) {
    for returned in [true, false] {
        for (status, stands) in [(Some(STATUS), true), (None, false)] {
            let wait = Finish::Wait {
                request: 64,
                status,
            };
            assert_eq!(rt; fit(returned, Body::Finish(wait)), returned == stands);
        }
        for (status, stands) in [
            (Some(Some(STATUS)), true),
            (Some(None), true),
            (None, false),
        ] {
            let iprobe = Point::Iprobe {
                source: -2,
                tag: 7,
                comm: 1,
                status,
            };
            assert_eq!(rt; fit(returned, Body::Point(iprobe)), returned == stands);
        }
    }
}

#[test]
fn statuses_of_all(rt: HostRuntime) -> Result<(), Fail> {
    let alloc = rt.alloc();
    for returned in [true, false] {
        for (count, found) in [(0, false), (1, false), (2, true), (3, false)] {
            let waitall = Finish::Waitall {
                requests: requests(alloc, 2)?,
                statuses: Some(statuses(alloc, count)?),
            };
            let fit_waitall = fit(returned, Body::Finish(waitall));
            assert_eq!(rt; fit_waitall, returned && found, "{count} statuses");
            let testall = Finish::Testall {
                requests: requests(alloc, 2)?,
                statuses: Some(Some(statuses(alloc, count)?)),
            };
            let fit_testall = fit(returned, Body::Finish(testall));
            assert_eq!(rt; fit_testall, returned && found, "{count} statuses");
        }
        let flag_0 = Finish::Testall {
            requests: requests(alloc, 2)?,
            statuses: Some(None),
        };
        assert_eq!(rt; fit(returned, Body::Finish(flag_0)), returned);
        let waitall = Finish::Waitall {
            requests: requests(alloc, 2)?,
            statuses: None,
        };
        assert_eq!(rt; fit(returned, Body::Finish(waitall)), !returned);
        let testall = Finish::Testall {
            requests: requests(alloc, 2)?,
            statuses: None,
        };
        assert_eq!(rt; fit(returned, Body::Finish(testall)), !returned);
    }
    Ok(())
}

#[test]
fn indices_of_one(rt: HostRuntime) -> Result<(), Fail> {
    let alloc = rt.alloc();
    for returned in [true, false] {
        for (index, found) in [
            (i32::MIN, false),
            (-2, false),
            (-1, true),
            (0, true),
            (2, true),
            (3, false),
            (i32::MAX, false),
        ] {
            let choice = Choice {
                index,
                status: STATUS,
            };
            let waitany = Finish::Waitany {
                requests: requests(alloc, 3)?,
                choice: Some(choice),
            };
            let fit_waitany = fit(returned, Body::Finish(waitany));
            assert_eq!(rt; fit_waitany, returned && found, "index {index}");
            let testany = Finish::Testany {
                requests: requests(alloc, 3)?,
                choice: Some(Some(choice)),
            };
            let fit_testany = fit(returned, Body::Finish(testany));
            assert_eq!(rt; fit_testany, returned && found, "index {index}");
        }
        let flag_0 = Finish::Testany {
            requests: requests(alloc, 3)?,
            choice: Some(None),
        };
        assert_eq!(rt; fit(returned, Body::Finish(flag_0)), returned);
        let waitany = Finish::Waitany {
            requests: requests(alloc, 3)?,
            choice: None,
        };
        assert_eq!(rt; fit(returned, Body::Finish(waitany)), !returned);
        let testany = Finish::Testany {
            requests: requests(alloc, 3)?,
            choice: None,
        };
        assert_eq!(rt; fit(returned, Body::Finish(testany)), !returned);
    }
    Ok(())
}

#[test]
fn indices_of_some(rt: HostRuntime) -> Result<(), Fail> {
    let alloc = rt.alloc();
    for returned in [true, false] {
        for (indices, found) in [
            ([].as_slice(), true),
            ([2].as_slice(), true),
            ([3].as_slice(), false),
            ([u32::MAX].as_slice(), false),
            ([0, 2].as_slice(), true),
            ([0, 1, 2].as_slice(), true),
            ([1, 1].as_slice(), false),
            ([2, 0].as_slice(), false),
            ([0, 2, 1].as_slice(), false),
        ] {
            let waitsome = Finish::Waitsome {
                requests: requests(alloc, 3)?,
                completions: Some(Some(completions(alloc, indices)?)),
            };
            let fit_waitsome = fit(returned, Body::Finish(waitsome));
            assert_eq!(rt; fit_waitsome, returned && found, "{indices:?}");
        }
        let undefined = Finish::Testsome {
            requests: requests(alloc, 3)?,
            completions: Some(None),
        };
        assert_eq!(rt; fit(returned, Body::Finish(undefined)), returned);
        let without = Finish::Testsome {
            requests: requests(alloc, 3)?,
            completions: None,
        };
        assert_eq!(rt; fit(returned, Body::Finish(without)), !returned);
    }
    Ok(())
}

#[test]
fn orders(rt: HostRuntime) {
    let alloc = rt.alloc();
    for order in 0..=255u8 {
        let subarray = Derive::TypeSubarray {
            order,
            dims: DimList::from_vec(Vec::new(alloc)),
            old: 7,
            made: Some(64),
        };
        assert_eq!(rt; fit(true, Body::Derive(subarray)), order < 2, "{order}");
    }
}

#[test]
fn long_lists(rt: HostRuntime) -> Result<(), Fail> {
    let alloc = rt.alloc();
    for (count, found) in [(262_143, true), (262_144, false)] {
        let waitall = Finish::Waitall {
            requests: requests(alloc, count)?,
            statuses: None,
        };
        assert_eq!(rt; fit(false, Body::Finish(waitall)), found, "{count}");
    }
    // 4 bytes and 13 for each request
    for (count, found) in [(80_659, true), (80_660, false)] {
        let waitall = Finish::Waitall {
            requests: requests(alloc, count)?,
            statuses: Some(statuses(alloc, count)?),
        };
        assert_eq!(rt; fit(true, Body::Finish(waitall)), found, "{count}");
    }
    Ok(())
}

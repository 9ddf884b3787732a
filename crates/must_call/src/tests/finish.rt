//! Completions, number by number.

use super::{expect, status, vec_of};
use crate::{
    Body, Choice, Class, Completion, CompletionList, Finish, HandleList, Kind, Status3, StatusList,
};
use std::test::Fail;

#[test]
fn completions_of_all(rt: HostRuntime) -> Result<(), Fail> {
    let alloc = rt.alloc();
    let no_status: [Status3; 0] = [];
    let one = [status(2, 3, false)];
    let three = [
        status(-2, -1, false),
        status(0, 5, true),
        status(1, 6, false),
    ];
    for (requests, statuses, numbers, handles) in [
        (
            [].as_slice(),
            no_status.as_slice(),
            [0].as_slice(),
            [].as_slice(),
        ),
        (&[65], &one, &[1, 65, 2, 3, 0], &[(Class::Request, 65)]),
        (
            &[65, 0, 67],
            &three,
            &[3, 65, 0, 67, -2, -1, 0, 0, 5, 1, 1, 6, 0],
            &[
                (Class::Request, 65),
                (Class::Request, 0),
                (Class::Request, 67),
            ],
        ),
    ] {
        let waitall = Finish::Waitall {
            requests: HandleList::from_vec(vec_of(alloc, requests)?),
            statuses: Some(StatusList::from_vec(vec_of(alloc, statuses)?)),
        };
        expect(&rt, Body::Finish(waitall), Kind::Waitall, numbers, handles);
        let stuck = Finish::Waitall {
            requests: HandleList::from_vec(vec_of(alloc, requests)?),
            statuses: None,
        };
        let inputs = &numbers[..numbers.len().min(requests.len() + 1)];
        expect(&rt, Body::Finish(stuck), Kind::Waitall, inputs, handles);
    }
    Ok(())
}

#[test]
fn completions_of_some(rt: HostRuntime) -> Result<(), Fail> {
    let alloc = rt.alloc();
    let two = [
        Completion {
            index: 0,
            status: status(4, 5, false),
        },
        Completion {
            index: 2,
            status: status(6, 7, true),
        },
    ];
    let handles = [
        (Class::Request, 65),
        (Class::Request, 66),
        (Class::Request, u32::MAX),
    ];
    let numbers = [3, 65, 66, 4_294_967_295, 2, 0, 4, 5, 0, 2, 6, 7, 1];
    let returned = Finish::Testsome {
        requests: HandleList::from_vec(vec_of(alloc, &[65, 66, u32::MAX])?),
        completions: Some(Some(CompletionList::from_vec(vec_of(alloc, &two)?))),
    };
    expect(
        &rt,
        Body::Finish(returned),
        Kind::Testsome,
        &numbers,
        &handles,
    );
    let none = Finish::Testsome {
        requests: HandleList::from_vec(vec_of(alloc, &[65])?),
        completions: Some(None),
    };
    expect(
        &rt,
        Body::Finish(none),
        Kind::Testsome,
        &[1, 65, -1],
        &handles[..1],
    );
    let stuck = Finish::Waitsome {
        requests: HandleList::from_vec(vec_of(alloc, &[65])?),
        completions: None,
    };
    expect(
        &rt,
        Body::Finish(stuck),
        Kind::Waitsome,
        &[1, 65],
        &handles[..1],
    );
    Ok(())
}

#[test]
fn flagged_completions(rt: HostRuntime) -> Result<(), Fail> {
    let alloc = rt.alloc();
    let handles = [(Class::Request, 65)];
    let done = Finish::Testall {
        requests: HandleList::from_vec(vec_of(alloc, &[65])?),
        statuses: Some(Some(StatusList::from_vec(vec_of(alloc, &[status(2, 3, false)])?))),
    };
    expect(
        &rt,
        Body::Finish(done),
        Kind::Testall,
        &[1, 65, 1, 2, 3, 0],
        &handles,
    );
    let waiting = Finish::Testall {
        requests: HandleList::from_vec(vec_of(alloc, &[65])?),
        statuses: Some(None),
    };
    expect(
        &rt,
        Body::Finish(waiting),
        Kind::Testall,
        &[1, 65, 0],
        &handles,
    );
    let choice = Choice {
        index: -1,
        status: status(-2, -1, false),
    };
    let any = Finish::Testany {
        requests: HandleList::from_vec(vec_of(alloc, &[65])?),
        choice: Some(Some(choice)),
    };
    expect(
        &rt,
        Body::Finish(any),
        Kind::Testany,
        &[1, 65, 1, -1, -2, -1, 0],
        &handles,
    );
    let no_choice = Finish::Testany {
        requests: HandleList::from_vec(vec_of(alloc, &[65])?),
        choice: Some(None),
    };
    expect(
        &rt,
        Body::Finish(no_choice),
        Kind::Testany,
        &[1, 65, 0],
        &handles,
    );
    let waited = Finish::Waitany {
        requests: HandleList::from_vec(vec_of(alloc, &[65])?),
        choice: Some(choice),
    };
    expect(
        &rt,
        Body::Finish(waited),
        Kind::Waitany,
        &[1, 65, -1, -2, -1, 0],
        &handles,
    );
    Ok(())
}

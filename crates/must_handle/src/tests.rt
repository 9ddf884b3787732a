//! Runs of a few calls, with the lives that the standard gives their handles.

use crate::Lives;
use must_base::NoMemory;
use must_call::{
    Body, Call, Choice, Class, Completion, CompletionList, Derive, Finish, HandleList, Items, Life,
    MadeComm, Object, Persist, Point, Status3, StatusList,
};
use std::alloc::Global;
use std::process::Abort;
use std::test::Fail;

const STATUS: Status3 = Status3 {
    source: 0,
    tag: 0,
    cancelled: false,
};

/// A call in short. It returned, unless the name says otherwise.
#[derive(Clone, Copy)]
enum Act<'a> {
    /// Makes a type.
    Contiguous(u32),
    /// Makes the second type as a copy of the first.
    Dup(u32, u32),
    Commit(u32),
    CommitStuck(u32),
    TypeFree(u32),
    OpCreate(u32),
    OpFree(u32),
    CommGroup(u32),
    GroupFree(u32),
    CommDup(u32),
    CommFree(u32),
    Isend(u32),
    RecvInit(u32),
    Start(u32),
    Startall(&'a [u32]),
    RequestFree(u32),
    Wait(u32),
    WaitStuck(u32),
    /// The flag is 0.
    TestNone(u32),
    Waitall(&'a [u32]),
    /// The flag is 0.
    TestallNone(&'a [u32]),
    /// The index.
    Waitany(&'a [u32], i32),
    /// The flag is 1, and the index.
    Testany(&'a [u32], i32),
    /// The one index.
    Waitsome(&'a [u32], u32),
    /// The outcount is -1.
    TestsomeNone(&'a [u32]),
}

fn requests(alloc: Global, numbers: &[u32]) -> Result<HandleList, NoMemory> {
    let mut list = Vec::new(alloc);
    list.extend_from_slice(numbers)?;
    Ok(Items::from_vec(list))
}

fn no_statuses(alloc: Global) -> StatusList {
    Items::from_vec(Vec::new(alloc))
}

fn one_completion(alloc: Global, index: u32) -> Result<CompletionList, NoMemory> {
    let mut list = Vec::new(alloc);
    list.push(Completion {
        index,
        status: STATUS,
    })?;
    Ok(Items::from_vec(list))
}

fn choice(index: i32) -> Choice {
    Choice {
        index,
        status: STATUS,
    }
}

fn comm_made(alloc: Global, made: u32) -> MadeComm {
    MadeComm {
        made,
        members: Items::from_vec(Vec::new(alloc)),
    }
}

fn isend(request: u32) -> Point {
    Point::Isend {
        buf: 4096,
        count: 1,
        dtype: 7,
        dest: 0,
        tag: 0,
        comm: 1,
        request: Some(request),
    }
}

fn recv_init(request: u32) -> Persist {
    Persist::RecvInit {
        buf: 4096,
        count: 1,
        dtype: 7,
        source: 0,
        tag: 0,
        comm: 1,
        request: Some(request),
    }
}

fn wait_of(alloc: Global, act: Act<'_>) -> Result<Finish, NoMemory> {
    match act {
        Act::Wait(request) => Ok(Finish::Wait {
            request,
            status: Some(STATUS),
        }),
        Act::Waitall(list) => Ok(Finish::Waitall {
            requests: requests(alloc, list)?,
            statuses: Some(no_statuses(alloc)),
        }),
        Act::Waitany(list, index) => Ok(Finish::Waitany {
            requests: requests(alloc, list)?,
            choice: Some(choice(index)),
        }),
        Act::Waitsome(list, index) => Ok(Finish::Waitsome {
            requests: requests(alloc, list)?,
            completions: Some(Some(one_completion(alloc, index)?)),
        }),
        _ => Ok(Finish::Wait {
            request: 0,
            status: None,
        }),
    }
}

fn test_of(alloc: Global, act: Act<'_>) -> Result<Finish, NoMemory> {
    match act {
        Act::TestNone(request) => Ok(Finish::Test {
            request,
            status: Some(None),
        }),
        Act::TestallNone(list) => Ok(Finish::Testall {
            requests: requests(alloc, list)?,
            statuses: Some(None),
        }),
        Act::Testany(list, index) => Ok(Finish::Testany {
            requests: requests(alloc, list)?,
            choice: Some(Some(choice(index))),
        }),
        Act::TestsomeNone(list) => Ok(Finish::Testsome {
            requests: requests(alloc, list)?,
            completions: Some(None),
        }),
        _ => wait_of(alloc, act),
    }
}

fn request_of(alloc: Global, act: Act<'_>) -> Result<Body, NoMemory> {
    match act {
        Act::Isend(request) => Ok(Body::Point(isend(request))),
        Act::RecvInit(request) => Ok(Body::Persist(recv_init(request))),
        Act::Start(request) => Ok(Body::Persist(Persist::Start { request })),
        Act::Startall(list) => Ok(Body::Persist(Persist::Startall {
            requests: requests(alloc, list)?,
        })),
        Act::RequestFree(request) => Ok(Body::Finish(Finish::RequestFree { request })),
        Act::WaitStuck(request) => Ok(Body::Finish(Finish::Wait {
            request,
            status: None,
        })),
        _ => Ok(Body::Finish(test_of(alloc, act)?)),
    }
}

fn body_of(alloc: Global, act: Act<'_>) -> Result<Body, NoMemory> {
    match act {
        Act::Contiguous(made) => Ok(Body::Derive(Derive::TypeContiguous {
            count: 2,
            old: 7,
            made: Some(made),
        })),
        Act::Dup(old, made) => Ok(Body::Derive(Derive::TypeDup {
            old,
            made: Some(made),
        })),
        Act::Commit(dtype) | Act::CommitStuck(dtype) => {
            Ok(Body::Derive(Derive::TypeCommit { dtype }))
        }
        Act::TypeFree(dtype) => Ok(Body::Derive(Derive::TypeFree { dtype })),
        Act::OpCreate(made) => Ok(Body::Object(Object::OpCreate {
            commute: true,
            made: Some(made),
        })),
        Act::OpFree(op) => Ok(Body::Object(Object::OpFree { op })),
        Act::CommGroup(made) => Ok(Body::Object(Object::CommGroup {
            comm: 1,
            made: Some(made),
        })),
        Act::GroupFree(group) => Ok(Body::Object(Object::GroupFree { group })),
        Act::CommDup(made) => Ok(Body::Object(Object::CommDup {
            comm: 1,
            made: Some(comm_made(alloc, made)),
        })),
        Act::CommFree(comm) => Ok(Body::Object(Object::CommFree { comm })),
        _ => request_of(alloc, act),
    }
}

fn is_stuck(act: Act<'_>) -> bool {
    matches!(act, Act::CommitStuck(_) | Act::WaitStuck(_))
}

/// The lives after these calls.
fn run(rt: &impl Abort, alloc: Global, acts: &[Act<'_>], clear: bool) -> Result<Lives, NoMemory> {
    let mut lives = Lives::new(alloc)?;
    for (k, act) in acts.iter().enumerate() {
        assert!(rt; k < 100);
        let call = Call {
            returned: !is_stuck(*act),
            body: body_of(alloc, *act)?,
        };
        assert!(rt; lives.is_next(&call), "call {k}");
        lives.apply(k as u32, &call, clear)?;
    }
    Ok(lives)
}

fn expect_lives(rt: &impl Abort, lives: &Lives, cases: &[(Class, u32, Life)]) {
    for (class, number, life) in cases {
        assert_eq!(rt; lives.state(*class, *number), *life, "{class:?} {number}");
    }
}

fn expect_starts(rt: &impl Abort, lives: &Lives, cases: &[(u32, bool, Option<u32>)]) {
    for (number, persistent, start) in cases {
        assert_eq!(rt;
            lives.is_persistent(*number),
            *persistent,
            "request {number}"
        );
        assert_eq!(rt; lives.start_of(*number), *start, "request {number}");
    }
}

fn expect_committed(rt: &impl Abort, lives: &Lives, cases: &[(u32, bool)]) {
    for (number, committed) in cases {
        assert_eq!(rt; lives.committed(*number), *committed, "type {number}");
    }
}

fn expect_open(rt: &impl Abort, lives: &Lives, class: Class, cases: &[Option<(u32, u32)>]) {
    for (i, open) in cases.iter().enumerate() {
        assert!(rt; i < 100);
        assert_eq!(rt; lives.open_at_end(class, i as u32), *open, "place {i}");
    }
}

const FREES: [Act<'static>; 10] = [
    Act::TypeFree(65),
    Act::OpCreate(64),
    Act::Contiguous(65),
    Act::CommGroup(66),
    Act::CommDup(67),
    Act::TypeFree(64),
    Act::OpFree(64),
    Act::GroupFree(66),
    Act::CommFree(67),
    Act::TypeFree(7),
];

const FREED: [(Class, u32, Life); 13] = [
    (Class::Operation, 64, Life::Freed { made: 1, freed: 6 }),
    (Class::Datatype, 64, Life::Never),
    (Class::Datatype, 65, Life::Live { made: 2 }),
    (Class::Group, 66, Life::Freed { made: 3, freed: 7 }),
    (Class::Comm, 67, Life::Freed { made: 4, freed: 8 }),
    (Class::Comm, 68, Life::Never),
    (Class::Comm, 2, Life::Predefined),
    (Class::Comm, 3, Life::Never),
    (Class::Group, 1, Life::Predefined),
    (Class::Datatype, 7, Life::Predefined),
    (Class::Datatype, 31, Life::Never),
    (Class::Operation, 12, Life::Predefined),
    (Class::Request, 0, Life::Never),
];

/// A free counts in the class of its handle alone, and behind the call that made it.
#[test]
fn frees_by_class(rt: HostRuntime) -> Result<(), Fail> {
    let lives = run(&rt, rt.alloc(), &FREES, true)?;
    expect_lives(&rt, &lives, &FREED);
    Ok(())
}

/// A communicator 0 and a group 1 are no handles that were made.
#[test]
fn nothing_made(rt: HostRuntime) -> Result<(), Fail> {
    let acts = [Act::CommDup(0), Act::CommGroup(1), Act::Contiguous(64)];
    let lives = run(&rt, rt.alloc(), &acts, true)?;
    assert_eq!(&rt; lives.made(), 1);
    expect_open(&rt, &lives, Class::Datatype, &[Some((64, 2)), None]);
    expect_open(&rt, &lives, Class::Comm, &[None]);
    Ok(())
}

const COMPLETIONS: [Act<'static>; 14] = [
    Act::Isend(64),
    Act::Isend(65),
    Act::Isend(66),
    Act::Isend(67),
    Act::Isend(68),
    Act::Wait(64),
    Act::TestNone(65),
    Act::Waitany(&[65, 66], 1),
    Act::Testany(&[65, 67], -1),
    Act::TestallNone(&[65, 67]),
    Act::Waitsome(&[65, 67], 1),
    Act::TestsomeNone(&[65, 68]),
    Act::Waitall(&[67, 0, 68]),
    Act::WaitStuck(65),
];

const COMPLETED: [(Class, u32, Life); 5] = [
    (Class::Request, 64, Life::Freed { made: 0, freed: 5 }),
    (Class::Request, 65, Life::Live { made: 1 }),
    (Class::Request, 66, Life::Freed { made: 2, freed: 7 }),
    (Class::Request, 67, Life::Freed { made: 3, freed: 10 }),
    (Class::Request, 68, Life::Freed { made: 4, freed: 12 }),
];

/// By index and by flag; a call that didn't return completes nothing.
#[test]
fn completions(rt: HostRuntime) -> Result<(), Fail> {
    let lives = run(&rt, rt.alloc(), &COMPLETIONS, true)?;
    expect_lives(&rt, &lives, &COMPLETED);
    expect_open(&rt, &lives, Class::Request, &[Some((65, 1)), None]);
    expect_starts(&rt, &lives, &[(64, false, None), (65, false, Some(1))]);
    Ok(())
}

const COMMITS: [Act<'static>; 7] = [
    Act::Contiguous(64),
    Act::Dup(64, 65),
    Act::Commit(64),
    Act::Dup(64, 66),
    Act::TypeFree(64),
    Act::Dup(64, 67),
    Act::CommitStuck(65),
];

/// A copy of a committed type is committed, also where that was freed; a commit that didn't return does nothing.
#[test]
fn commits(rt: HostRuntime) -> Result<(), Fail> {
    let lives = run(&rt, rt.alloc(), &COMMITS, true)?;
    expect_committed(
        &rt,
        &lives,
        &[
            (7, true),
            (31, false),
            (64, true),
            (65, false),
            (66, true),
            (67, true),
        ],
    );
    Ok(())
}

const STARTS: [Act<'static>; 8] = [
    Act::RecvInit(64),
    Act::RecvInit(65),
    Act::Isend(66),
    Act::Start(64),
    Act::Start(64),
    Act::Wait(64),
    Act::Startall(&[64, 64, 65]),
    Act::RequestFree(65),
];

/// A persistent request stays when it is completed, and its start is the first since then.
#[test]
fn persistent_requests(rt: HostRuntime) -> Result<(), Fail> {
    let lives = run(&rt, rt.alloc(), &STARTS[..5], true)?;
    expect_starts(
        &rt,
        &lives,
        &[(64, true, Some(3)), (65, true, None), (66, false, Some(2))],
    );
    let lives = run(&rt, rt.alloc(), &STARTS[..6], true)?;
    expect_starts(&rt, &lives, &[(64, true, None)]);
    let lives = run(&rt, rt.alloc(), &STARTS, true)?;
    expect_starts(&rt, &lives, &[(64, true, Some(6)), (65, false, None)]);
    let unclear = run(&rt, rt.alloc(), &STARTS, false)?;
    expect_starts(&rt, &unclear, &[(64, true, None)]);
    Ok(())
}

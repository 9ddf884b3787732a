//! Small runs of one rank, with the rows that docs/RULES.md gives them.

use crate::{Batch, Entry, RankWalk, WalkFault};
use must_base::NoMemory;
use must_call::{
    Body, Call, Collective, Derive, Finish, Frame, IntList, MadeComm, MemberList, Object, Persist,
    Place, Point, Status3,
};
use must_find::{Finding, Rule};
use must_format::Limit;
use std::alloc::Global;
use std::process::Abort;
use std::test::Fail;

/// A call in short. It returned, unless the name says otherwise.
#[derive(Clone, Copy)]
enum Act {
    Init,
    InitStuck,
    Finalize,
    /// The count and the destination.
    Send(i32, i32),
    /// On this communicator, to this destination.
    SendOn(u32, i32),
    /// Of this type.
    SendType(u32),
    /// Makes a type of `MPI_INT`.
    Contiguous(u32),
    /// Makes a type of this one.
    ContiguousOf(u32, u32),
    /// Makes a type of so many blocks of an `MPI_INT`, with gaps.
    Vector(i32, u32),
    Commit(u32),
    FreeType(u32),
    /// By this operation, of this type.
    Allreduce(u32, u32),
    /// To rank 0.
    Reduce(u32, u32),
    Isend(u32),
    RecvInit(u32),
    Start(u32),
    Wait(u32),
    /// Makes a communicator of this one, with both ranks.
    Dup(u32, u32),
    /// Makes a communicator of rank 0 alone, with this color.
    Split(i32, u32),
    FreeComm(u32),
    /// Makes the group of a communicator.
    GroupOf(u32, u32),
    /// Makes a group of this one, without the member at a position.
    Exclude(u32, i32, u32),
    /// Creates a communicator of the world with a group; rank 0 gets none.
    Create(u32),
}

fn isend(request: u32) -> Point {
    Point::Isend {
        buf: 4096,
        count: 1,
        dtype: 7,
        dest: 0,
        tag: 0,
        comm: 1,
        request: Some(request),
    }
}

fn recv_init(request: u32) -> Persist {
    Persist::RecvInit {
        buf: 4096,
        count: 1,
        dtype: 7,
        source: 0,
        tag: 0,
        comm: 1,
        request: Some(request),
    }
}

fn send(count: i32, dtype: u32, dest: i32, comm: u32) -> Point {
    Point::Send {
        buf: 4096,
        count,
        dtype,
        dest,
        tag: 0,
        comm,
    }
}

fn wait(request: u32) -> Finish {
    Finish::Wait {
        request,
        status: Some(Status3 {
            source: 0,
            tag: 0,
            cancelled: false,
        }),
    }
}

fn contiguous(old: u32, made: u32) -> Derive {
    Derive::TypeContiguous {
        count: 2,
        old,
        made: Some(made),
    }
}

fn vector(count: i32, made: u32) -> Derive {
    Derive::TypeVector {
        count,
        block: 1,
        stride: 2,
        old: 7,
        made: Some(made),
    }
}

fn allreduce(op: u32, dtype: u32) -> Collective {
    Collective::Allreduce {
        in_place: false,
        sbuf: 4096,
        rbuf: 8192,
        count: 1,
        dtype,
        op,
        comm: 1,
    }
}

fn reduce(op: u32, dtype: u32) -> Collective {
    Collective::Reduce {
        in_place: false,
        sbuf: 4096,
        rbuf: 8192,
        count: 1,
        dtype,
        op,
        root: 0,
        comm: 1,
    }
}

fn made_comm(alloc: Global, made: u32, members: &[u32]) -> Result<Option<MadeComm>, NoMemory> {
    let members = MemberList::from_vec(members.to_vec(alloc)?);
    Ok(Some(MadeComm { made, members }))
}

fn object_of(alloc: Global, act: Act) -> Result<Object, NoMemory> {
    Ok(match act {
        Act::Dup(comm, made) => Object::CommDup {
            comm,
            made: made_comm(alloc, made, &[0, 1])?,
        },
        Act::Split(color, made) => Object::CommSplit {
            comm: 1,
            color,
            key: 0,
            made: made_comm(alloc, made, &[0])?,
        },
        Act::GroupOf(comm, made) => Object::CommGroup {
            comm,
            made: Some(made),
        },
        Act::Exclude(group, rank, made) => Object::GroupExcl {
            group,
            ranks: IntList::from_vec([rank].to_vec(alloc)?),
            made: Some(made),
        },
        Act::Create(group) => Object::CommCreate {
            comm: 1,
            group,
            made: made_comm(alloc, 0, &[])?,
        },
        Act::FreeComm(comm) => Object::CommFree { comm },
        _ => Object::OpFree { op: 0 },
    })
}

fn body_of(alloc: Global, act: Act) -> Result<Body, NoMemory> {
    Ok(match act {
        Act::Init | Act::InitStuck => Body::Frame(Frame::Init),
        Act::Finalize => Body::Frame(Frame::Finalize),
        Act::Send(count, dest) => Body::Point(send(count, 7, dest, 1)),
        Act::SendOn(comm, dest) => Body::Point(send(1, 7, dest, comm)),
        Act::SendType(dtype) => Body::Point(send(1, dtype, 1, 1)),
        Act::Contiguous(made) => Body::Derive(contiguous(7, made)),
        Act::ContiguousOf(old, made) => Body::Derive(contiguous(old, made)),
        Act::Vector(count, made) => Body::Derive(vector(count, made)),
        Act::Allreduce(op, dtype) => Body::Collective(allreduce(op, dtype)),
        Act::Reduce(op, dtype) => Body::Collective(reduce(op, dtype)),
        Act::Commit(dtype) => Body::Derive(Derive::TypeCommit { dtype }),
        Act::FreeType(dtype) => Body::Derive(Derive::TypeFree { dtype }),
        Act::Isend(request) => Body::Point(isend(request)),
        Act::RecvInit(request) => Body::Persist(recv_init(request)),
        Act::Start(request) => Body::Persist(Persist::Start { request }),
        Act::Wait(request) => Body::Finish(wait(request)),
        _ => Body::Object(object_of(alloc, act)?),
    })
}

/// The rows of a batch, behind others.
fn take_rows(rows: &mut Vec<Finding>, batch: &Batch) -> Result<(), NoMemory> {
    for entry in batch.entries.items() {
        if let Entry::Row { finding } = entry {
            rows.push(*finding)?;
        }
    }
    Ok(())
}

/// The batch of the next call of rank 0.
fn step(rt: &impl Abort, walk: &mut RankWalk, call: &Call) -> Result<Batch, NoMemory> {
    assert!(rt; walk.may_step(call));
    match walk.step(call) {
        Ok(batch) => Ok(batch),
        Err(_) => Err(NoMemory),
    }
}

/// The rows of the calls of rank 0 of two.
fn rows_of(rt: &impl Abort, alloc: Global, acts: &[Act]) -> Result<Vec<Finding>, NoMemory> {
    let mut walk = RankWalk::new(alloc, 0, 2, 32767)?;
    let mut rows = Vec::new(alloc);
    for act in acts {
        let call = Call {
            returned: !matches!(act, Act::InitStuck),
            body: body_of(alloc, *act)?,
        };
        let batch = step(rt, &mut walk, &call)?;
        assert!(rt; !batch.last && batch.rank == 0);
        take_rows(&mut rows, &batch)?;
    }
    let batch = walk.finish()?;
    assert!(rt; batch.last && batch.rank == 0);
    take_rows(&mut rows, &batch)?;
    Ok(rows)
}

/// A row: its call, rule and part, the call of rank 0 that it sees, and its value.
type Row = (u32, Rule, u32, Option<u32>, i128);

fn finding(row: &Row) -> Finding {
    let (call, rule, part, see, value) = *row;
    let see = match see {
        None => None,
        Some(call) => Some(Place { rank: 0, call }),
    };
    Finding {
        rank: 0,
        call,
        rule,
        part,
        see,
        value,
    }
}

fn expect(rt: &impl Abort, alloc: Global, acts: &[Act], rows: &[Row]) -> Result<(), NoMemory> {
    let found = rows_of(rt, alloc, acts)?;
    assert_eq!(rt; found.len(), rows.len());
    for (i, row) in rows.iter().enumerate() {
        assert_eq!(rt; found.get(i).copied(), Some(finding(row)), "row {i}");
    }
    Ok(())
}

const FRAMES: [Act; 2] = [Act::Init, Act::Finalize];

const LATE: [Act; 3] = [Act::Send(1, 1), Act::Init, Act::Init];

const LATE_ROWS: [Row; 3] = [
    (0, Rule::I1, 0, None, 0),
    (2, Rule::I1, 0, Some(1), 0),
    (3, Rule::I3, 0, None, 0),
];

const BEHIND: [Act; 4] = [Act::Init, Act::Finalize, Act::Send(-1, 9), Act::Finalize];

const BEHIND_ROWS: [Row; 4] = [
    (2, Rule::I2, 0, Some(1), 0),
    (2, Rule::A1, 0, None, -1),
    (2, Rule::A2, 0, None, 9),
    (3, Rule::I2, 0, Some(1), 0),
];

/// Init comes first and once, and Finalize last; a rank that is stuck misses no Finalize.
#[test]
fn frames(rt: HostRuntime) -> Result<(), Fail> {
    let alloc = rt.alloc();
    expect(&rt, alloc, &FRAMES, &[])?;
    expect(&rt, alloc, &[], &[(0, Rule::I3, 0, None, 0)])?;
    expect(&rt, alloc, &[Act::InitStuck], &[])?;
    expect(&rt, alloc, &LATE, &LATE_ROWS)?;
    expect(&rt, alloc, &BEHIND, &BEHIND_ROWS)?;
    Ok(())
}

const OPEN: [Act; 10] = [
    Act::Init,
    Act::Isend(64),
    Act::Contiguous(65),
    Act::RecvInit(66),
    Act::Contiguous(67),
    Act::Wait(64),
    Act::Start(66),
    Act::Wait(66),
    Act::Finalize,
    Act::Finalize,
];

const OPEN_ROWS: [Row; 4] = [
    (8, Rule::L1, 0, Some(2), 65),
    (8, Rule::L1, 1, Some(4), 67),
    (8, Rule::L5, 0, Some(3), 66),
    (9, Rule::I2, 0, Some(8), 0),
];

/// Handles that are open at the first Finalize, by class and number; a persistent request stays open when it is completed.
#[test]
fn leaks(rt: HostRuntime) -> Result<(), Fail> {
    expect(&rt, rt.alloc(), &OPEN, &OPEN_ROWS)?;
    Ok(())
}

const COMMS: [Act; 10] = [
    Act::Init,
    Act::Dup(1, 64),
    Act::SendOn(64, 1),
    Act::SendOn(64, 2),
    Act::FreeComm(64),
    Act::SendOn(64, 1),
    Act::Dup(64, 65),
    Act::SendOn(65, 9),
    Act::SendOn(70, 0),
    Act::Finalize,
];

const COMM_ROWS: [Row; 5] = [
    (3, Rule::A2, 0, None, 2),
    (5, Rule::H2, 1, Some(4), 64),
    (6, Rule::H2, 0, Some(4), 64),
    (8, Rule::H1, 1, None, 70),
    (9, Rule::L2, 0, Some(6), 65),
];

const PARTS: [Act; 6] = [
    Act::Init,
    Act::Split(3, 64),
    Act::SendOn(64, 0),
    Act::SendOn(64, 1),
    Act::FreeComm(64),
    Act::Finalize,
];

/// Peers by the members of a communicator, freed ones, and one that was made of a freed one: no rule looks at its peers.
#[test]
fn communicators(rt: HostRuntime) -> Result<(), Fail> {
    let alloc = rt.alloc();
    expect(&rt, alloc, &COMMS, &COMM_ROWS)?;
    expect(&rt, alloc, &PARTS, &[(3, Rule::A2, 0, None, 1)])?;
    Ok(())
}

const GROUPS: [Act; 7] = [
    Act::Init,
    Act::GroupOf(1, 64),
    Act::Exclude(64, 0, 65),
    Act::Exclude(65, 1, 66),
    Act::Exclude(66, 5, 67),
    Act::Create(65),
    Act::Finalize,
];

const GROUP_ROWS: [Row; 5] = [
    (3, Rule::A6, 0, None, 0),
    (6, Rule::L3, 0, Some(1), 64),
    (6, Rule::L3, 1, Some(2), 65),
    (6, Rule::L3, 2, Some(3), 66),
    (6, Rule::L3, 3, Some(4), 67),
];

/// Rank lists by the members of a group; a group that an unclear call made isn't sound, and no rule looks at ranks in it.
#[test]
fn groups(rt: HostRuntime) -> Result<(), Fail> {
    expect(&rt, rt.alloc(), &GROUPS, &GROUP_ROWS)?;
    Ok(())
}

const TYPES: [Act; 11] = [
    Act::Init,
    Act::Contiguous(64),
    Act::SendType(64),
    Act::Commit(64),
    Act::SendType(64),
    Act::FreeType(64),
    Act::SendType(64),
    Act::ContiguousOf(64, 65),
    Act::Commit(65),
    Act::SendType(65),
    Act::Finalize,
];

const TYPE_ROWS: [Row; 4] = [
    (2, Rule::H4, 0, Some(1), 64),
    (6, Rule::H2, 0, Some(5), 64),
    (7, Rule::H2, 0, Some(5), 64),
    (10, Rule::L1, 0, Some(7), 65),
];

/// Types that aren't committed yet, and freed ones.
#[test]
fn types(rt: HostRuntime) -> Result<(), Fail> {
    expect(&rt, rt.alloc(), &TYPES, &TYPE_ROWS)?;
    Ok(())
}

const REDUCTIONS: [Act; 18] = [
    Act::Init,
    Act::Contiguous(64),
    Act::Commit(64),
    Act::Allreduce(3, 64),
    Act::Allreduce(3, 7),
    Act::Allreduce(1, 13),
    Act::Allreduce(5, 13),
    Act::Allreduce(5, 17),
    Act::Allreduce(6, 4),
    Act::Allreduce(6, 17),
    Act::Allreduce(11, 26),
    Act::Allreduce(11, 7),
    Act::Allreduce(12, 30),
    Act::Allreduce(1, 30),
    Act::Allreduce(3, 1),
    Act::Reduce(3, 4),
    Act::FreeType(64),
    Act::Finalize,
];

const REDUCTION_ROWS: [Row; 7] = [
    (3, Rule::C6, 0, None, 3),
    (6, Rule::C6, 0, None, 5),
    (9, Rule::C6, 0, None, 6),
    (11, Rule::C6, 0, None, 11),
    (13, Rule::C6, 0, None, 1),
    (14, Rule::C6, 0, None, 3),
    (15, Rule::C6, 0, None, 3),
];

/// Operations that MPI names take no derived type, and not all basic ones.
#[test]
fn reductions(rt: HostRuntime) -> Result<(), Fail> {
    expect(&rt, rt.alloc(), &REDUCTIONS, &REDUCTION_ROWS)?;
    Ok(())
}

/// What the first call of a rank is refused by, in a run of so many.
fn refused(alloc: Global, size: u32, act: Act) -> Result<Option<WalkFault>, NoMemory> {
    let mut walk = RankWalk::new(alloc, 0, size, 32767)?;
    let call = Call {
        returned: true,
        body: body_of(alloc, act)?,
    };
    if !walk.may_step(&call) {
        return Ok(None);
    }
    Ok(walk.step(&call).err())
}

fn expect_weight(rt: &impl Abort, alloc: Global, size: u32, most: i32) -> Result<(), NoMemory> {
    let fault = WalkFault::TooWide {
        call: 0,
        limit: Limit::TypeWeight,
    };
    assert_eq!(rt; refused(alloc, size, Act::Vector(most, 64))?, None);
    let more = most.saturating_add(1);
    assert_eq!(rt; refused(alloc, size, Act::Vector(more, 64))?, Some(fault));
    Ok(())
}

/// The weight of the live types is 2^26 at the most, shared by the ranks.
#[test]
fn weights(rt: HostRuntime) -> Result<(), Fail> {
    let alloc = rt.alloc();
    expect_weight(&rt, alloc, 1, 67_108_864)?;
    expect_weight(&rt, alloc, 2, 33_554_432)?;
    expect_weight(&rt, alloc, 3, 22_369_621)?;
    expect_weight(&rt, alloc, 1024, 65_536)?;
    Ok(())
}

/// How many of some duplicates, each made of the one before, a walk takes.
fn taken(alloc: Global, count: u8) -> Result<(u8, Option<WalkFault>), NoMemory> {
    let mut walk = RankWalk::new(alloc, 0, 2, 32767)?;
    let mut parent = 1;
    for i in 0..count {
        let made = 64 + u32::from(i);
        let call = Call {
            returned: true,
            body: body_of(alloc, Act::Dup(parent, made))?,
        };
        if !walk.may_step(&call) {
            return Ok((i, None));
        }
        if let Err(fault) = walk.step(&call) {
            return Ok((i, Some(fault)));
        }
        parent = made;
    }
    Ok((count, None))
}

/// A path has 32 steps at the most; the call that would make the 33rd is named.
#[test]
fn paths(rt: HostRuntime) -> Result<(), Fail> {
    let alloc = rt.alloc();
    let fault = WalkFault::TooWide {
        call: 32,
        limit: Limit::Path,
    };
    assert_eq!(&rt; taken(alloc, 32)?, (32, None));
    assert_eq!(&rt; taken(alloc, 40)?, (32, Some(fault)));
    Ok(())
}

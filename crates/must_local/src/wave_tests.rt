//! What collective calls give to their waves.

use crate::{Entry, RankWalk};
use must_base::NoMemory;
use must_call::{
    Amount, AmountList, Body, Call, Collective, Derive, Frame, IntList, Kind, MadeComm, MemberList,
    Object, Started,
};
use must_coll::{ColorKey, Oper, WaveItem};
use must_group::Group;
use must_sig::Sig;
use std::alloc::Global;
use std::process::Abort;
use std::test::Fail;

const WORLD: u32 = 1;

const INT: u32 = 7;

const SUM: u32 = 3;

/// A call of rank 0 of two, in short. It returned, unless the name says otherwise.
#[derive(Clone, Copy)]
enum Act {
    Init,
    /// The count and the root.
    Bcast(i32, i32),
    /// Of this type.
    BcastType(u32),
    /// In place or not, what is sent, what is received, and the root.
    Gather(bool, i32, i32, i32),
    Igather(i32, i32, i32),
    /// In place or not, two counts that are sent, and three that are received.
    Alltoallv(bool, [i32; 2], [i32; 3]),
    /// One count for each member, by this operation.
    ReduceScatter([i32; 2], u32),
    Exscan(i32),
    Barrier(u32),
    /// An operation that commutes or doesn't.
    OpCreate(bool, u32),
    /// A type of so many integers.
    Contiguous(i32, u32),
    Commit(u32),
    Dup(u32, u32),
    /// Color and key, and what is made with rank 0 alone.
    Split(i32, i32, u32),
    /// With color -1.
    SplitOut,
    FreeComm(u32),
    GroupOf(u32, u32),
    Create(u32, u32),
    /// A `Dup` that doesn't return.
    DupStuck,
}

fn amounts(alloc: Global, counts: &[i32]) -> Result<AmountList, NoMemory> {
    let mut items = Vec::new(alloc);
    for count in counts {
        items.push(Amount {
            count: *count,
            disp: 0,
        })?;
    }
    Ok(AmountList::from_vec(items))
}

fn made(alloc: Global, made: u32, members: &[u32]) -> Result<Option<MadeComm>, NoMemory> {
    Ok(Some(MadeComm {
        made,
        members: MemberList::from_vec(members.to_vec(alloc)?),
    }))
}

fn counted(alloc: Global, act: Act) -> Result<Body, NoMemory> {
    Ok(Body::Collective(match act {
        Act::Alltoallv(in_place, sends, recvs) => Collective::Alltoallv {
            in_place,
            sbuf: 4096,
            sblocks: amounts(alloc, &sends)?,
            stype: INT,
            rbuf: 8192,
            rblocks: amounts(alloc, &recvs)?,
            rtype: INT,
            comm: WORLD,
        },
        Act::ReduceScatter(counts, op) => Collective::ReduceScatter {
            in_place: false,
            sbuf: 4096,
            rbuf: 8192,
            counts: IntList::from_vec(counts.to_vec(alloc)?),
            dtype: INT,
            op,
            comm: WORLD,
        },
        _ => Collective::Barrier { comm: WORLD },
    }))
}

fn plain(act: Act) -> Option<Collective> {
    Some(match act {
        Act::Bcast(count, root) => Collective::Bcast {
            buf: 4096,
            count,
            dtype: INT,
            root,
            comm: WORLD,
        },
        Act::BcastType(dtype) => Collective::Bcast {
            buf: 4096,
            count: 1,
            dtype,
            root: 0,
            comm: WORLD,
        },
        Act::Gather(in_place, scount, rcount, root) => Collective::Gather {
            in_place,
            sbuf: 4096,
            scount,
            stype: INT,
            rbuf: 8192,
            rcount,
            rtype: INT,
            root,
            comm: WORLD,
        },
        Act::Exscan(count) => Collective::Exscan {
            in_place: false,
            sbuf: 4096,
            rbuf: 8192,
            count,
            dtype: INT,
            op: SUM,
            comm: WORLD,
        },
        Act::Barrier(comm) => Collective::Barrier { comm },
        _ => return None,
    })
}

fn object(alloc: Global, act: Act) -> Result<Object, NoMemory> {
    Ok(match act {
        Act::OpCreate(commute, op) => Object::OpCreate {
            commute,
            made: Some(op),
        },
        Act::Dup(comm, new) => Object::CommDup {
            comm,
            made: made(alloc, new, &[0, 1])?,
        },
        Act::DupStuck => Object::CommDup {
            comm: WORLD,
            made: None,
        },
        Act::Split(color, key, new) => Object::CommSplit {
            comm: WORLD,
            color,
            key,
            made: made(alloc, new, &[0])?,
        },
        Act::SplitOut => Object::CommSplit {
            comm: WORLD,
            color: -1,
            key: 0,
            made: made(alloc, 0, &[])?,
        },
        Act::GroupOf(comm, group) => Object::CommGroup {
            comm,
            made: Some(group),
        },
        Act::Create(group, new) => Object::CommCreate {
            comm: WORLD,
            group,
            made: made(alloc, new, &[0, 1])?,
        },
        Act::FreeComm(comm) => Object::CommFree { comm },
        _ => Object::OpFree { op: 0 },
    })
}

fn body(alloc: Global, act: Act) -> Result<Body, NoMemory> {
    if let Some(call) = plain(act) {
        return Ok(Body::Collective(call));
    }
    Ok(match act {
        Act::Init => Body::Frame(Frame::Init),
        Act::Igather(scount, rcount, root) => Body::Started(Started::Igather {
            in_place: false,
            sbuf: 4096,
            scount,
            stype: INT,
            rbuf: 8192,
            rcount,
            rtype: INT,
            root,
            comm: WORLD,
            request: Some(64),
        }),
        Act::Contiguous(count, new) => Body::Derive(Derive::TypeContiguous {
            count,
            old: INT,
            made: Some(new),
        }),
        Act::Commit(dtype) => Body::Derive(Derive::TypeCommit { dtype }),
        Act::Alltoallv(..) | Act::ReduceScatter(..) => counted(alloc, act)?,
        _ => Body::Object(object(alloc, act)?),
    })
}

/// What the last of some calls gives to its wave, if anything. Only it may not return.
fn item_of(rt: &impl Abort, alloc: Global, acts: &[Act]) -> Result<Option<WaveItem>, NoMemory> {
    let mut walk = RankWalk::new(alloc, 0, 2, 32767)?;
    let mut item = None;
    for act in acts {
        let call = Call {
            returned: !matches!(act, Act::DupStuck),
            body: body(alloc, *act)?,
        };
        assert!(rt; walk.may_step(&call));
        let Ok(batch) = walk.step(&call) else {
            return Err(NoMemory);
        };
        item = None;
        for entry in batch.entries.into_vec() {
            if let Entry::Wave { item: wave } = entry {
                item = Some(wave);
            }
        }
    }
    Ok(item)
}

/// What a wave is given: the number of the call on its communicator, the kind, whether it counts, in place, and the root.
type Told = (u32, Kind, bool, bool, i32);

fn lens(rt: &impl Abort, sigs: &[Sig], want: &[u128]) {
    assert_eq!(rt; sigs.len(), want.len());
    for (i, sig) in sigs.iter().enumerate() {
        assert_eq!(rt; Some(sig.len()), want.get(i).copied(), "signature {i}");
    }
}

/// The last of some calls gives this, with signatures that are so long.
fn expect(
    rt: &impl Abort,
    alloc: Global,
    acts: &[Act],
    told: Told,
    sends: &[u128],
    recvs: &[u128],
) -> Result<(), NoMemory> {
    match item_of(rt, alloc, acts)? {
        None => assert!(rt; false, "no item"),
        Some(item) => {
            assert_eq!(rt;
                (item.place.rank, item.place.call as usize + 1),
                (0, acts.len())
            );
            assert_eq!(rt; item.number, told.0);
            assert_eq!(rt; item.kind, told.1);
            assert_eq!(rt;
                (item.counts, item.in_place, item.root),
                (told.2, told.3, told.4)
            );
            lens(rt, item.sends.items(), sends);
            lens(rt, item.recvs.items(), recvs);
        }
    }
    Ok(())
}

/// What is sent and received, where it is significant.
#[test]
fn amounts_by_kind(rt: HostRuntime) -> Result<(), Fail> {
    let alloc = rt.alloc();
    expect(
        &rt,
        alloc,
        &[Act::Bcast(3, 1)],
        (0, Kind::Bcast, true, false, 1),
        &[3],
        &[],
    )?;
    expect(
        &rt,
        alloc,
        &[Act::Gather(false, 1, 2, 0)],
        (0, Kind::Gather, true, false, 0),
        &[1],
        &[2],
    )?;
    expect(
        &rt,
        alloc,
        &[Act::Gather(true, 1, 2, 0)],
        (0, Kind::Gather, true, true, 0),
        &[],
        &[2],
    )?;
    expect(
        &rt,
        alloc,
        &[Act::Gather(true, 1, -2, 1)],
        (0, Kind::Gather, true, true, 1),
        &[1],
        &[],
    )?;
    expect(
        &rt,
        alloc,
        &[Act::Igather(4, 5, 1)],
        (0, Kind::Igather, true, false, 1),
        &[4],
        &[],
    )?;
    expect(
        &rt,
        alloc,
        &[Act::Exscan(2)],
        (0, Kind::Exscan, true, false, 0),
        &[2],
        &[],
    )?;
    Ok(())
}

/// Entries for members, where there are more than members too.
#[test]
fn amounts_by_member(rt: HostRuntime) -> Result<(), Fail> {
    let alloc = rt.alloc();
    let all = Act::Alltoallv(false, [1, 2], [3, 4, -5]);
    expect(
        &rt,
        alloc,
        &[all],
        (0, Kind::Alltoallv, true, false, 0),
        &[1, 2],
        &[3, 4],
    )?;
    let there = Act::Alltoallv(true, [1, 2], [3, 4, 5]);
    expect(
        &rt,
        alloc,
        &[there],
        (0, Kind::Alltoallv, true, true, 0),
        &[],
        &[3, 4],
    )?;
    let reduced = Act::ReduceScatter([2, 0], SUM);
    expect(
        &rt,
        alloc,
        &[reduced],
        (0, Kind::ReduceScatter, true, false, 0),
        &[2, 0],
        &[],
    )?;
    Ok(())
}

/// Calls that aren't clear, and types that aren't sound.
#[test]
fn calls_without_duties(rt: HostRuntime) -> Result<(), Fail> {
    let alloc = rt.alloc();
    expect(
        &rt,
        alloc,
        &[Act::Bcast(-1, 0)],
        (0, Kind::Bcast, false, false, 0),
        &[],
        &[],
    )?;
    expect(
        &rt,
        alloc,
        &[Act::Bcast(1, 2)],
        (0, Kind::Bcast, false, false, 2),
        &[],
        &[],
    )?;
    let sound = [Act::Contiguous(2, 64), Act::Commit(64), Act::BcastType(64)];
    expect(
        &rt,
        alloc,
        &sound,
        (0, Kind::Bcast, true, false, 0),
        &[2],
        &[],
    )?;
    let unsound = [Act::Contiguous(-2, 64), Act::Commit(64), Act::BcastType(64)];
    expect(
        &rt,
        alloc,
        &unsound,
        (0, Kind::Bcast, false, false, 0),
        &[],
        &[],
    )?;
    Ok(())
}

/// Each communicator numbers its own calls, whether they are clear or not; what is freed or no communicator has none.
#[test]
fn numbers_on_a_communicator(rt: HostRuntime) -> Result<(), Fail> {
    let alloc = rt.alloc();
    let calls = [
        Act::Init,
        Act::Bcast(-1, 0),
        Act::Dup(WORLD, 64),
        Act::Barrier(64),
        Act::Barrier(WORLD),
        Act::Barrier(64),
    ];
    expect(
        &rt,
        alloc,
        &calls,
        (1, Kind::Barrier, true, false, 0),
        &[],
        &[],
    )?;
    let freed = [Act::Dup(WORLD, 64), Act::FreeComm(64)];
    expect(
        &rt,
        alloc,
        &freed,
        (0, Kind::CommFree, true, false, 0),
        &[],
        &[],
    )?;
    let behind = [Act::Dup(WORLD, 64), Act::FreeComm(64), Act::Barrier(64)];
    assert!(&rt; item_of(&rt, alloc, &behind)?.is_none());
    assert!(&rt; item_of(&rt, alloc, &[Act::Barrier(99)])?.is_none());
    assert!(&rt; item_of(&rt, alloc, &[Act::Init])?.is_none());
    Ok(())
}

fn operation(rt: &impl Abort, alloc: Global, acts: &[Act]) -> Result<Option<Oper>, NoMemory> {
    match item_of(rt, alloc, acts)? {
        Some(item) => Ok(item.operation),
        None => Ok(None),
    }
}

/// Whether a created operation commutes.
#[test]
fn operations(rt: HostRuntime) -> Result<(), Fail> {
    let alloc = rt.alloc();
    let named = Oper {
        number: SUM,
        commute: None,
    };
    let calls = [Act::ReduceScatter([1, 1], SUM)];
    assert_eq!(&rt; operation(&rt, alloc, &calls)?, Some(named));
    let created = Oper {
        number: 65,
        commute: Some(false),
    };
    let calls = [
        Act::OpCreate(true, 64),
        Act::OpCreate(false, 65),
        Act::ReduceScatter([1, 1], 65),
    ];
    assert_eq!(&rt; operation(&rt, alloc, &calls)?, Some(created));
    Ok(())
}

/// How many members a group has, where it is there.
fn size(group: Option<Group>) -> Option<usize> {
    match group {
        Some(group) => Some(group.ranks().len()),
        None => None,
    }
}

fn expect_made(
    rt: &impl Abort,
    alloc: Global,
    acts: &[Act],
    split: Option<ColorKey>,
    group: Option<usize>,
    members: Option<usize>,
) -> Result<(), NoMemory> {
    match item_of(rt, alloc, acts)? {
        None => assert!(rt; false, "no item"),
        Some(item) => {
            assert_eq!(rt; item.split, split);
            assert_eq!(rt; size(item.group), group);
            assert_eq!(rt; size(item.members), members);
        }
    }
    Ok(())
}

/// What is given for a new communicator, and its recorded members.
#[test]
fn communicators(rt: HostRuntime) -> Result<(), Fail> {
    let alloc = rt.alloc();
    let parted = ColorKey { color: 4, key: -2 };
    let out = ColorKey { color: -1, key: 0 };
    expect_made(&rt, alloc, &[Act::Dup(WORLD, 64)], None, None, Some(2))?;
    expect_made(&rt, alloc, &[Act::DupStuck], None, None, None)?;
    expect_made(
        &rt,
        alloc,
        &[Act::Split(4, -2, 64)],
        Some(parted),
        None,
        Some(1),
    )?;
    expect_made(&rt, alloc, &[Act::SplitOut], Some(out), None, Some(0))?;
    let create = [Act::GroupOf(WORLD, 64), Act::Create(64, 65)];
    expect_made(&rt, alloc, &create, None, Some(2), Some(2))?;
    Ok(())
}

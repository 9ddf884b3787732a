//! Worked runs. The streams are read back, and are those that docs/DRILL.md says.

mod streams;

use crate::numbers::next_state;
use crate::{accepted_run, complete_run, drill, streams_in_order};
use must_base::MemSource;
use must_call::{
    Body, Call, Collective, Derive, Finish, Frame, Object, Point, Status3, StructBlock,
};
use must_codec::{Expect, StreamReader};
use std::alloc::Global;
use std::process::Abort;
use std::test::Fail;
use streams::{ALONE, SECOND};

/// The stream of a rank.
fn stream_of(
    rt: &impl Abort,
    alloc: Global,
    ranks: u32,
    rounds: u32,
    number: u64,
    rank: u32,
) -> Result<Vec<u8>, Fail> {
    assert!(rt; 1 <= ranks && ranks <= 1024 && rounds <= 1000);
    let set = drill(alloc, ranks, rounds, number).ok().ok_or("no memory")?;
    let streams = set.into_list();
    assert_eq!(rt; streams.len(), ranks as usize);
    let mut bytes = Vec::new(alloc);
    match streams.get(rank as usize) {
        None => Err("no such rank".into()),
        Some(stream) => {
            bytes.extend_from_slice(stream)?;
            Ok(bytes)
        }
    }
}

/// The calls of a rank, read back from its stream.
fn calls_of(
    rt: &impl Abort,
    alloc: Global,
    ranks: u32,
    rounds: u32,
    number: u64,
    rank: u32,
) -> Result<Vec<Call>, Fail> {
    assert!(rt; 1 <= ranks && ranks <= 1024 && rank < ranks);
    let bytes = stream_of(rt, alloc, ranks, rounds, number, rank)?;
    let mut src = MemSource::new(bytes, 4096, Vec::new(alloc));
    let expect = Expect { rank, size: ranks };
    let mut reader = StreamReader::new(alloc, expect).ok().ok_or("no memory")?;
    let mut calls = Vec::new(alloc);
    for _ in 0..10_000 {
        match reader.next(alloc, &mut src).ok().ok_or("a fault")? {
            None => return Ok(calls),
            Some(call) => calls.push(call).ok().ok_or("no memory")?,
        }
    }
    Err("no end".into())
}

#[test]
fn streams_byte_by_byte(rt: HostRuntime) -> Result<(), Fail> {
    let alloc = rt.alloc();
    let alone = stream_of(&rt, alloc, 1, 0, 0, 0)?;
    assert_eq!(rt; alone.as_slice(), ALONE);
    let second = stream_of(&rt, alloc, 2, 1, 7, 1)?;
    assert_eq!(rt; second.as_slice(), SECOND);
    Ok(())
}

#[test]
fn numbers_of_calls(rt: HostRuntime) -> Result<(), Fail> {
    let alloc = rt.alloc();
    for (ranks, rounds, number, calls) in [(1, 0, 0, 7), (2, 1, 7, 13), (4, 5, 7, 37)] {
        for rank in 0..ranks {
            let found = calls_of(&rt, alloc, ranks, rounds, number, rank)?;
            assert_eq!(rt; found.len(), calls);
        }
    }
    Ok(())
}

/// By hand, for the number 7: 7 * 6364136223846793005 is 44548953566927551035, and with 1442695040888963407 it is
/// 45991648607816514442. Two times 2^64 less, it is 9098160460397411210. That is 1059165278 times 2^33 and a rest, and
/// 1059165278 is 66197829 times 16 and 14: the count is 15.
///
/// For the number 3: 3 * 6364136223846793005 is 19092408671540379015, and with 1442695040888963407 it is
/// 20535103712429342422. Once 2^64 less, it is 2088359638719790806. That is 243117059 times 2^33 and a rest, and 243117059
/// is 15194816 times 16 and 3: the count is 4.
#[test]
fn first_states(rt: HostRuntime) {
    assert_eq!(rt; next_state(7), 9_098_160_460_397_411_210);
    assert_eq!(rt; next_state(3), 2_088_359_638_719_790_806);
}

/// The counts of a round: what is received from the left and from the right, and sent to the left and to the right.
fn counts_at(calls: &[Call], at: usize) -> Option<[i32; 4]> {
    let first = match calls.get(at)?.body {
        Body::Point(Point::Irecv { count, .. }) => count,
        _ => return None,
    };
    let second = match calls.get(at.checked_add(1)?)?.body {
        Body::Point(Point::Irecv { count, .. }) => count,
        _ => return None,
    };
    let third = match calls.get(at.checked_add(2)?)?.body {
        Body::Point(Point::Isend { count, .. }) => count,
        _ => return None,
    };
    let fourth = match calls.get(at.checked_add(3)?)?.body {
        Body::Point(Point::Isend { count, .. }) => count,
        _ => return None,
    };
    Some([first, second, third, fourth])
}

/// Rank 0 alone sends one item too many, in the round whose number has the last digit of the run's.
#[test]
fn counts_of_rounds(rt: HostRuntime) -> Result<(), Fail> {
    let alloc = rt.alloc();
    let calls = calls_of(&rt, alloc, 4, 5, 7, 0)?;
    assert_eq!(rt; counts_at(&calls, 4), Some([15, 15, 15, 15]));
    let calls = calls_of(&rt, alloc, 4, 4, 3, 0)?;
    assert_eq!(rt; counts_at(&calls, 4), Some([4, 4, 4, 4]));
    assert_eq!(rt; counts_at(&calls, 22), Some([11, 11, 11, 12]));
    let calls = calls_of(&rt, alloc, 4, 4, 3, 1)?;
    assert_eq!(rt; counts_at(&calls, 22), Some([11, 11, 11, 11]));
    Ok(())
}

fn is_receive(call: &Call, from: i32, with: i32, made: u32) -> bool {
    match call.body {
        Body::Point(
            Point::Irecv {
                dtype: 65,
                source,
                tag,
                comm: 1,
                request: Some(request),
                ..
            },
        ) => source == from && tag == with && request == made,
        _ => false,
    }
}

fn is_send(call: &Call, to: i32, with: i32, made: u32) -> bool {
    match call.body {
        Body::Point(
            Point::Isend {
                dtype: 65,
                dest,
                tag,
                comm: 1,
                request: Some(request),
                ..
            },
        ) => dest == to && tag == with && request == made,
        _ => false,
    }
}

/// The last round of rank 0 of four, whose left neighbour is 3 and whose right one is 1.
#[test]
fn calls_of_a_round(rt: HostRuntime) -> Result<(), Fail> {
    let alloc = rt.alloc();
    let calls = calls_of(&rt, alloc, 4, 5, 7, 0)?;
    let (_, last) = calls
        .as_slice()
        .split_at_checked(28)
        .ok_or("too few calls")?;
    let [first, second, third, fourth, wait, sum, ..] = last else {
        return Err("too few calls".into());
    };
    assert!(rt; is_receive(first, 3, 1, 82));
    assert!(rt; is_receive(second, 1, 2, 83));
    assert!(rt; is_send(third, 3, 2, 84));
    assert!(rt; is_send(fourth, 1, 1, 85));
    let Body::Finish(
        Finish::Waitall {
            requests,
            statuses: Some(statuses),
        },
    ) = &wait.body
    else {
        return Err("another call".into());
    };
    assert_eq!(rt; requests.items(), [82, 83, 84, 85].as_slice());
    let status = |source, tag| Status3 {
        source,
        tag,
        cancelled: false,
    };
    assert_eq!(rt;
        statuses.items(),
        [status(3, 1), status(1, 2), status(-2, -1), status(-2, -1)].as_slice()
    );
    assert!(rt;
        matches!(
            sum.body,
            Body::Collective(Collective::Allreduce {
                in_place: false,
                sbuf: 327_680,
                rbuf: 393_216,
                count: 10,
                dtype: 7,
                op: 3,
                comm: 64
            })
        )
    );
    Ok(())
}

/// What stands before and behind the rounds of rank 1 of four: its communicator has the ranks 1 and 3.
#[test]
fn calls_around_the_rounds(rt: HostRuntime) -> Result<(), Fail> {
    let alloc = rt.alloc();
    let calls = calls_of(&rt, alloc, 4, 0, 7, 1)?;
    let [init, split, pair, commit, type_free, comm_free, finalize] = calls.as_slice() else {
        return Err("another number of calls".into());
    };
    assert!(rt; matches!(init.body, Body::Frame(Frame::Init)));
    let Body::Object(
        Object::CommSplit {
            comm: 1,
            color: 1,
            key: 0,
            made: Some(half),
        },
    ) = &split.body
    else {
        return Err("another call".into());
    };
    assert_eq!(rt; (half.made, half.members.items()), (64, [1, 3].as_slice()));
    let Body::Derive(
        Derive::TypeStruct {
            blocks,
            made: Some(65),
        },
    ) = &pair.body
    else {
        return Err("another call".into());
    };
    let block = |disp, old| StructBlock {
        block: 1,
        disp,
        old,
    };
    assert_eq!(rt; blocks.items(), [block(0, 7), block(4, 1)].as_slice());
    assert!(rt; matches!(commit.body, Body::Derive(Derive::TypeCommit { dtype: 65 })));
    assert!(rt; matches!(type_free.body, Body::Derive(Derive::TypeFree { dtype: 65 })));
    assert!(rt; matches!(comm_free.body, Body::Object(Object::CommFree { comm: 64 })));
    assert!(rt; matches!(finalize.body, Body::Frame(Frame::Finalize)));
    Ok(())
}

/// The greatest number wraps, as each state does.
#[test]
fn laws_and_the_greatest_number(rt: HostRuntime) -> Result<(), Fail> {
    let alloc = rt.alloc();
    let calls = calls_of(&rt, alloc, 1, 1, u64::MAX, 0)?;
    assert_eq!(rt; calls.len(), 13);
    accepted_run();
    complete_run();
    streams_in_order();
    Ok(())
}

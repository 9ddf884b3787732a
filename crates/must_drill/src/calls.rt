//! The calls of a run.

ghost use Rattle.std.specs.Prelude.{◌≡◌, ◌+◌, ◌<◌, ◌^◌, ◌∷◌, ◌++◌, [], if◌then◌else◌, OnOk, IfOk};
ghost use Rattle.must_drill.specs.Calls.{mates_of, blocks as blocks_of, split as split_of, pair as pair_of, done as done_of, receive as receive_of, send as send_of, status as status_of, requests_from as requests_of, statuses as statuses_of, wait as wait_of, sum as sum_of};

use crate::handles::{CHAR, HALF, INT, PAIR, SUM};
use must_base::NoMemory;
use must_call::{
    ANY_SOURCE, ANY_TAG, Body, COMM_WORLD, Call, Collective, Derive, Finish, HandleList, MadeComm,
    MemberList, Object, Point, Status3, StatusList, StructBlock, StructBlockList,
};
use std::alloc::Global;

/// The call, which returned.
pub(crate) fn done(body: Body) -> Call
    ensures { result ≡ done_of body }
{
    Call {
        returned: true,
        body,
    }
}

fn push_where(mates: &mut Vec<u32>, wanted: bool, mate: u32) -> Result<(), NoMemory>
    ensures { OnOk result (mates.new.items ≡ mates.old.items ++ (if wanted then mate ∷ [] else [])) }
{
    if wanted {
        mates.push(mate)?;
    }
    Ok(())
}

/// The ranks of the rank's parity, rising.
fn mates(alloc: Global, ranks: u32, rank: u32) -> Result<Vec<u32>, NoMemory>
    ensures { IfOk result (λ v. v.items ≡ mates_of ranks rank) }
{
    let mut mates = Vec::new(alloc);
    for mate in 0..ranks {
        push_where(&mut mates, mate % 2 == rank % 2, mate)?;
    }
    Ok(mates)
}

/// The split of the world by parity.
pub(crate) fn split(alloc: Global, ranks: u32, rank: u32) -> Result<Call, NoMemory>
    ensures { IfOk result (λ call. call ≡ split_of ranks rank) }
{
    let members = MemberList::from_vec(mates(alloc, ranks, rank)?);
    Ok(done(Body::Object(Object::CommSplit {
        comm: COMM_WORLD,
        color: (rank % 2) as i32,
        key: 0,
        made: Some(MadeComm {
            made: HALF,
            members,
        }),
    })))
}

fn blocks(alloc: Global) -> Result<Vec<StructBlock>, NoMemory>
    ensures { IfOk result (λ v. v.items ≡ blocks_of) }
{
    let mut blocks = Vec::new(alloc);
    blocks.push(StructBlock {
        block: 1,
        disp: 0,
        old: INT,
    })?;
    blocks.push(StructBlock {
        block: 1,
        disp: 4,
        old: CHAR,
    })?;
    Ok(blocks)
}

/// The type of an int and a char behind it.
pub(crate) fn pair(alloc: Global) -> Result<Call, NoMemory>
    ensures { IfOk result (λ call. call ≡ pair_of) }
{
    let blocks = StructBlockList::from_vec(blocks(alloc)?);
    Ok(done(Body::Derive(Derive::TypeStruct {
        blocks,
        made: Some(PAIR),
    })))
}

pub(crate) fn receive(buf: u64, count: u16, source: u16, tag: u16, request: u32) -> Call
    ensures { result ≡ receive_of buf count source tag request }
{
    done(Body::Point(Point::Irecv {
        buf,
        count: i32::from(count),
        dtype: PAIR,
        source: i32::from(source),
        tag: i32::from(tag),
        comm: COMM_WORLD,
        request: Some(request),
    }))
}

pub(crate) fn send(buf: u64, count: u16, dest: u16, tag: u16, request: u32) -> Call
    ensures { result ≡ send_of buf count dest tag request }
{
    done(Body::Point(Point::Isend {
        buf,
        count: i32::from(count),
        dtype: PAIR,
        dest: i32::from(dest),
        tag: i32::from(tag),
        comm: COMM_WORLD,
        request: Some(request),
    }))
}

fn status(source: u16, tag: u16) -> Status3
    ensures { result ≡ status_of source tag }
{
    Status3 {
        source: i32::from(source),
        tag: i32::from(tag),
        cancelled: false,
    }
}

fn requests(alloc: Global, first: u32) -> Result<Vec<u32>, NoMemory>
    requires { first + 3 < 2 ^ 32 }
    ensures { IfOk result (λ v. v.items ≡ requests_of first) }
{
    let mut requests = Vec::new(alloc);
    requests.extend_from_slice(&[first, first + 1, first + 2, first + 3])?;
    Ok(requests)
}

fn statuses(alloc: Global, left: u16, right: u16) -> Result<Vec<Status3>, NoMemory>
    ensures { IfOk result (λ v. v.items ≡ statuses_of left right) }
{
    let empty = Status3 {
        source: ANY_SOURCE,
        tag: ANY_TAG,
        cancelled: false,
    };
    let mut statuses = Vec::new(alloc);
    statuses.extend_from_slice(&[status(left, 1), status(right, 2), empty, empty])?;
    Ok(statuses)
}

/// The wait for the four requests of a round.
pub(crate) fn wait(alloc: Global, first: u32, left: u16, right: u16) -> Result<Call, NoMemory>
    requires { first + 3 < 2 ^ 32 }
    ensures { IfOk result (λ call. call ≡ wait_of first left right) }
{
    let requests = HandleList::from_vec(requests(alloc, first)?);
    let statuses = StatusList::from_vec(statuses(alloc, left, right)?);
    Ok(done(Body::Finish(Finish::Waitall {
        requests,
        statuses: Some(statuses),
    })))
}

pub(crate) fn sum(count: u16) -> Call
    ensures { result ≡ sum_of count }
{
    done(Body::Collective(Collective::Allreduce {
        in_place: false,
        sbuf: 327_680,
        rbuf: 393_216,
        count: i32::from(count),
        dtype: INT,
        op: SUM,
        comm: HALF,
    }))
}

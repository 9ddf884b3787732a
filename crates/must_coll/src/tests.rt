//! Worked waves, and the same calls in other orders.

use crate::{ColorKey, Oper, SigList, WaveFact, WaveItem, Waves, waves_settle};
use must_base::NoMemory;
use must_call::{Kind, Place};
use must_find::{Finding, Findings, Rule};
use must_group::{CommName, Group};
use must_sig::Sig;
use must_type::{TypeNo, TypeTable};
use std::alloc::Global;
use std::process::Abort;
use std::test::Fail;

const CHAR: TypeNo = TypeNo { number: 1 };

const INT: TypeNo = TypeNo { number: 7 };

/// Some lists of ranks.
#[derive(Clone, Copy)]
enum Ranks {
    Nobody,
    Zero,
    One,
    Both,
    Turned,
    Three,
    Mixed,
}

fn group_of(alloc: Global, ranks: Ranks) -> Result<Group, NoMemory> {
    match ranks {
        Ranks::Nobody => Group::of(alloc, &[]),
        Ranks::Zero => Group::of(alloc, &[0]),
        Ranks::One => Group::of(alloc, &[1]),
        Ranks::Both => Group::of(alloc, &[0, 1]),
        Ranks::Turned => Group::of(alloc, &[1, 0]),
        Ranks::Three => Group::of(alloc, &[0, 1, 2]),
        Ranks::Mixed => Group::of(alloc, &[2, 0, 1]),
    }
}

fn maybe_group(alloc: Global, ranks: Option<Ranks>) -> Result<Option<Group>, NoMemory> {
    match ranks {
        None => Ok(None),
        Some(ranks) => Ok(Some(group_of(alloc, ranks)?)),
    }
}

/// A call in short. A signature is told by how many integers it has.
#[derive(Clone, Copy)]
struct Short<'a> {
    rank: u32,
    kind: Kind,
    counts: bool,
    in_place: bool,
    root: i32,
    operation: Option<Oper>,
    sends: &'a [u64],
    recvs: &'a [u64],
    split: Option<ColorKey>,
    group: Option<Ranks>,
    members: Option<Ranks>,
}

/// A call with these amounts, which counts.
fn call<'a>(rank: u32, kind: Kind, sends: &'a [u64], recvs: &'a [u64]) -> Short<'a> {
    Short {
        rank,
        kind,
        counts: true,
        in_place: false,
        root: 0,
        operation: None,
        sends,
        recvs,
        split: None,
        group: None,
        members: None,
    }
}

fn ints(rt: &impl Abort, alloc: Global, counts: &[u64]) -> Result<SigList, NoMemory> {
    let table = TypeTable::new(alloc, 1000)?;
    let mut items = Vec::new(alloc);
    for count in counts {
        assert!(rt; table.is_live(INT));
        items.push(Sig::of(alloc, &table, INT, *count)?)?;
    }
    Ok(SigList::from_vec(items))
}

fn item_of(
    rt: &impl Abort,
    alloc: Global,
    members: Ranks,
    number: u32,
    short: &Short<'_>,
) -> Result<WaveItem, NoMemory> {
    Ok(WaveItem {
        place: Place {
            rank: short.rank,
            call: number.saturating_add(1),
        },
        comm: 1,
        name: CommName::start(alloc, 0, group_of(alloc, members)?)?,
        number,
        kind: short.kind,
        counts: short.counts,
        in_place: short.in_place,
        root: short.root,
        operation: short.operation,
        sends: ints(rt, alloc, short.sends)?,
        recvs: ints(rt, alloc, short.recvs)?,
        split: short.split,
        group: maybe_group(alloc, short.group)?,
        members: maybe_group(alloc, short.members)?,
    })
}

/// How many of some calls are of a rank.
fn count_of(calls: &[Short<'_>], rank: u32) -> u32 {
    let mut count: u32 = 0;
    for call in calls {
        if call.rank == rank {
            count = count.saturating_add(1);
        }
    }
    count
}

/// The findings of some calls in this order, on one communicator of these members.
fn findings_of(
    rt: &impl Abort,
    alloc: Global,
    members: Ranks,
    calls: &[Short<'_>],
) -> Result<Findings, NoMemory> {
    let mut waves = Waves::new(alloc)?;
    let mut out = Findings::new(alloc);
    for (i, short) in calls.iter().enumerate() {
        let (before, _) = calls.split_at(i);
        let item = item_of(rt, alloc, members, count_of(before, short.rank), short)?;
        waves.put(item, &mut out)?;
    }
    waves.close(&mut out)?;
    Ok(out)
}

/// A finding of part 0 or 1: the rank, the call, the rule, the part, the call seen, the value.
fn finding(
    rank: u32,
    call: u32,
    rule: Rule,
    part: u32,
    see: Option<(u32, u32)>,
    value: i128,
) -> Finding {
    Finding {
        rank,
        call,
        rule,
        part,
        see: match see {
            None => None,
            Some((rank, call)) => Some(Place { rank, call }),
        },
        value,
    }
}

fn expect_findings(
    rt: &impl Abort,
    alloc: Global,
    members: Ranks,
    calls: &[Short<'_>],
    want: &[Finding],
) -> Result<(), Fail> {
    let out = findings_of(rt, alloc, members, calls)?;
    assert_eq!(rt; out.len(), want.len());
    for (i, finding) in want.iter().enumerate() {
        assert_eq!(rt; out.get(i).copied(), Some(*finding));
    }
    Ok(())
}

#[test]
fn kinds_of_the_first_wave_alone(rt: HostRuntime) -> Result<(), Fail> {
    let alloc = rt.alloc();
    let calls = [
        call(0, Kind::Bcast, &[1], &[]),
        call(0, Kind::Bcast, &[1], &[]),
        call(1, Kind::Barrier, &[], &[]),
        call(1, Kind::Barrier, &[], &[]),
    ];
    let want = [finding(1, 1, Rule::C1, 0, Some((0, 1)), 52)];
    expect_findings(&rt, alloc, Ranks::Both, &calls, &want)
}

#[test]
fn blocking_and_nonblocking_differ(rt: HostRuntime) -> Result<(), Fail> {
    let alloc = rt.alloc();
    let calls = [
        call(0, Kind::Ibarrier, &[], &[]),
        call(1, Kind::Barrier, &[], &[]),
    ];
    let want = [finding(1, 1, Rule::C1, 0, Some((0, 1)), 52)];
    expect_findings(&rt, alloc, Ranks::Both, &calls, &want)
}

#[test]
fn a_member_without_a_call(rt: HostRuntime) -> Result<(), Fail> {
    let alloc = rt.alloc();
    let calls = [call(0, Kind::Barrier, &[], &[])];
    let want = [finding(0, 1, Rule::C5, 0, None, 1)];
    expect_findings(&rt, alloc, Ranks::Both, &calls, &want)?;
    let waiting = [call(0, Kind::Ibarrier, &[], &[])];
    expect_findings(&rt, alloc, Ranks::Both, &waiting, &want)?;
    let last = [call(1, Kind::Barrier, &[], &[])];
    let first_lacks = [finding(1, 1, Rule::C5, 0, None, 2)];
    expect_findings(&rt, alloc, Ranks::Mixed, &last, &first_lacks)
}

#[test]
fn nothing_behind_a_gap(rt: HostRuntime) -> Result<(), Fail> {
    let alloc = rt.alloc();
    let calls = [
        call(0, Kind::Barrier, &[], &[]),
        call(0, Kind::Bcast, &[1], &[]),
        call(1, Kind::Barrier, &[], &[]),
    ];
    let want = [finding(0, 2, Rule::C5, 0, None, 1)];
    expect_findings(&rt, alloc, Ranks::Both, &calls, &want)
}

#[test]
fn a_whole_wave_in_member_order(rt: HostRuntime) -> Result<(), Fail> {
    let alloc = rt.alloc();
    let mut waves = Waves::new(alloc)?;
    let mut out = Findings::new(alloc);
    for rank in 0..2 {
        let item = item_of(
            &rt,
            alloc,
            Ranks::Mixed,
            0,
            &call(rank, Kind::Barrier, &[], &[]),
        )?;
        assert!(rt; waves.put(item, &mut out)?.is_none());
    }
    let last = item_of(
        &rt,
        alloc,
        Ranks::Mixed,
        0,
        &call(2, Kind::Barrier, &[], &[]),
    )?;
    match waves.put(last, &mut out)? {
        None => assert!(rt; false),
        Some(fact) => {
            assert_eq!(rt; fact.items().len(), 3);
            assert_eq!(rt;
                fact.items().first().copied(),
                Some(Place { rank: 2, call: 1 })
            );
            let places = WaveFact::from_vec(fact.into_vec());
            assert_eq!(rt;
                places.items().last().copied(),
                Some(Place { rank: 1, call: 1 })
            );
        }
    }
    waves.close(&mut out)?;
    assert_eq!(rt; out.len(), 0);
    Ok(())
}

/// A call on the communicator that a handle number of its rank names.
#[derive(Clone, Copy)]
struct OnHandle {
    rank: u32,
    comm: u32,
    members: Ranks,
    number: u32,
    kind: Kind,
}

fn on_handle(rank: u32, comm: u32, members: Ranks, number: u32, kind: Kind) -> OnHandle {
    OnHandle {
        rank,
        comm,
        members,
        number,
        kind,
    }
}

/// Puts the calls in, which stand at call 1, 2 and so on; how many waves become whole.
fn put_on_handles(
    rt: &impl Abort,
    alloc: Global,
    calls: &[OnHandle],
    out: &mut Findings,
) -> Result<u32, NoMemory> {
    let mut waves = Waves::new(alloc)?;
    let mut whole: u32 = 0;
    let mut stands: u32 = 0;
    for on in calls {
        let short = call(on.rank, on.kind, &[], &[]);
        let mut item = item_of(rt, alloc, on.members, on.number, &short)?;
        stands = stands.saturating_add(1);
        item.comm = on.comm;
        item.place.call = stands;
        if waves.put(item, out)?.is_some() {
            whole = whole.saturating_add(1);
        }
    }
    waves.close(out)?;
    Ok(whole)
}

#[test]
fn handles_name_communicators_at_their_rank(rt: HostRuntime) -> Result<(), Fail> {
    let alloc = rt.alloc();
    let calls = [
        on_handle(0, 1, Ranks::Both, 0, Kind::Barrier),
        on_handle(1, 1, Ranks::Turned, 0, Kind::Ibarrier),
        on_handle(1, 2, Ranks::Both, 0, Kind::Ibarrier),
        on_handle(0, 2, Ranks::Turned, 0, Kind::Ibarrier),
        on_handle(0, 9, Ranks::Zero, 0, Kind::Barrier),
        on_handle(1, 1, Ranks::Turned, 1, Kind::Barrier),
    ];
    let mut out = Findings::new(alloc);
    let whole = put_on_handles(&rt, alloc, &calls, &mut out)?;
    assert_eq!(rt; whole, 3);
    assert_eq!(rt; out.len(), 2);
    let want = [
        finding(1, 3, Rule::C1, 0, Some((0, 1)), 73),
        finding(1, 6, Rule::C5, 0, None, 0),
    ];
    for (i, finding) in want.iter().enumerate() {
        assert_eq!(rt; out.get(i).copied(), Some(*finding));
    }
    Ok(())
}

#[test]
fn amounts_of_a_gather(rt: HostRuntime) -> Result<(), Fail> {
    let alloc = rt.alloc();
    let calls = [
        call(0, Kind::Gather, &[1], &[1]),
        call(1, Kind::Gather, &[2], &[]),
    ];
    let want = [finding(1, 1, Rule::C4, 0, Some((0, 1)), 1)];
    expect_findings(&rt, alloc, Ranks::Both, &calls, &want)?;
    let mut root = call(0, Kind::Gather, &[], &[2]);
    root.in_place = true;
    let in_place = [root, call(1, Kind::Gather, &[2], &[])];
    expect_findings(&rt, alloc, Ranks::Both, &in_place, &[])
}

#[test]
fn amounts_by_member(rt: HostRuntime) -> Result<(), Fail> {
    let alloc = rt.alloc();
    let calls = [
        call(0, Kind::Allgatherv, &[1], &[1, 1]),
        call(1, Kind::Allgatherv, &[1], &[1, 1]),
    ];
    expect_findings(&rt, alloc, Ranks::Both, &calls, &[])?;
    let scattered = [
        call(0, Kind::Scatterv, &[1, 2], &[1]),
        call(1, Kind::Scatterv, &[], &[3]),
    ];
    let want = [finding(1, 1, Rule::C4, 1, Some((0, 1)), 2)];
    expect_findings(&rt, alloc, Ranks::Both, &scattered, &want)?;
    let exchanged = [
        call(0, Kind::Alltoallv, &[1, 2], &[1, 3]),
        call(1, Kind::Alltoallv, &[3, 4], &[5, 4]),
    ];
    let want = [finding(1, 1, Rule::C4, 1, Some((0, 1)), 2)];
    expect_findings(&rt, alloc, Ranks::Both, &exchanged, &want)
}

#[test]
fn amounts_by_member_in_place(rt: HostRuntime) -> Result<(), Fail> {
    let alloc = rt.alloc();
    let mut first = call(0, Kind::Allgatherv, &[], &[1, 2]);
    first.in_place = true;
    let one_kept = [first, call(1, Kind::Allgatherv, &[2], &[3, 2])];
    let want = [finding(1, 1, Rule::C4, 1, Some((0, 1)), 1)];
    expect_findings(&rt, alloc, Ranks::Both, &one_kept, &want)?;
    let mut second = call(1, Kind::Allgatherv, &[], &[1, 2]);
    second.in_place = true;
    expect_findings(&rt, alloc, Ranks::Both, &[first, second], &[])?;
    second.recvs = &[1, 5];
    let want = [finding(0, 1, Rule::C4, 1, Some((1, 1)), 2)];
    expect_findings(&rt, alloc, Ranks::Both, &[first, second], &want)
}

#[test]
fn each_with_each(rt: HostRuntime) -> Result<(), Fail> {
    let alloc = rt.alloc();
    let same = [
        call(0, Kind::Allgather, &[4], &[4]),
        call(1, Kind::Allgather, &[4], &[4]),
        call(2, Kind::Allgather, &[4], &[4]),
    ];
    expect_findings(&rt, alloc, Ranks::Three, &same, &[])?;
    let more = [
        call(0, Kind::Iallgather, &[4], &[4]),
        call(1, Kind::Iallgather, &[4], &[4]),
        call(2, Kind::Iallgather, &[5], &[5]),
    ];
    let want = [
        finding(0, 1, Rule::C4, 1, Some((2, 1)), 4),
        finding(1, 1, Rule::C4, 1, Some((2, 1)), 4),
        finding(2, 1, Rule::C4, 1, Some((0, 1)), 4),
    ];
    expect_findings(&rt, alloc, Ranks::Three, &more, &want)?;
    let mut kept = call(1, Kind::Alltoall, &[], &[4]);
    kept.in_place = true;
    let in_place = [call(0, Kind::Alltoall, &[4], &[4]), kept];
    expect_findings(&rt, alloc, Ranks::Both, &in_place, &[])
}

fn operation(number: u32, commute: Option<bool>) -> Option<Oper> {
    Some(Oper { number, commute })
}

#[test]
fn roots_and_operations(rt: HostRuntime) -> Result<(), Fail> {
    let alloc = rt.alloc();
    let mut other_root = call(1, Kind::Reduce, &[2], &[]);
    other_root.root = 1;
    let roots = [call(0, Kind::Reduce, &[1], &[]), other_root];
    let want = [finding(1, 1, Rule::C2, 0, Some((0, 1)), 1)];
    expect_findings(&rt, alloc, Ranks::Both, &roots, &want)?;
    let mut first = call(0, Kind::Allreduce, &[1], &[]);
    first.operation = operation(3, None);
    let mut second = call(1, Kind::Allreduce, &[2], &[]);
    second.operation = operation(64, Some(true));
    let want = [
        finding(1, 1, Rule::C3, 0, Some((0, 1)), 64),
        finding(1, 1, Rule::C4, 0, Some((0, 1)), 1),
    ];
    expect_findings(&rt, alloc, Ranks::Both, &[first, second], &want)?;
    first.operation = operation(70, Some(true));
    second.sends = &[1];
    expect_findings(&rt, alloc, Ranks::Both, &[first, second], &[])?;
    second.operation = operation(64, Some(false));
    let want = [finding(1, 1, Rule::C3, 0, Some((0, 1)), 64)];
    expect_findings(&rt, alloc, Ranks::Both, &[first, second], &want)
}

/// The signature of one element of a type.
fn one_of(rt: &impl Abort, alloc: Global, no: TypeNo) -> Result<SigList, NoMemory> {
    let table = TypeTable::new(alloc, 1000)?;
    let mut items = Vec::new(alloc);
    assert!(rt; table.is_live(no));
    items.push(Sig::of(alloc, &table, no, 1)?)?;
    Ok(SigList::from_vec(items))
}

/// Puts calls of `MPI_Reduce` with `MPI_SUM` in, each of one element of its type; how many waves become whole.
fn put_sums(
    rt: &impl Abort,
    alloc: Global,
    members: Ranks,
    types: &[TypeNo],
    out: &mut Findings,
) -> Result<u32, NoMemory> {
    let mut waves = Waves::new(alloc)?;
    let mut whole: u32 = 0;
    let mut rank: u32 = 0;
    for no in types {
        let mut short = call(rank, Kind::Reduce, &[], &[]);
        short.operation = operation(3, None);
        let mut item = item_of(rt, alloc, members, 0, &short)?;
        item.sends = one_of(rt, alloc, *no)?;
        if waves.put(item, out)?.is_some() {
            whole = whole.saturating_add(1);
        }
        rank = rank.saturating_add(1);
    }
    waves.close(out)?;
    Ok(whole)
}

/// That an operation isn't on a type is a matter of the call alone (docs/RULES.md, C6): its wave has no row.
#[test]
fn an_operation_not_on_its_type(rt: HostRuntime) -> Result<(), Fail> {
    let alloc = rt.alloc();
    let mut alone = Findings::new(alloc);
    let whole = put_sums(&rt, alloc, Ranks::Zero, &[CHAR], &mut alone)?;
    assert_eq!(rt; whole, 1);
    assert_eq!(rt; alone.len(), 0);
    let mut apart = Findings::new(alloc);
    let whole = put_sums(&rt, alloc, Ranks::Both, &[CHAR, INT], &mut apart)?;
    assert_eq!(rt; whole, 1);
    assert_eq!(rt; apart.len(), 1);
    let want = finding(1, 1, Rule::C4, 0, Some((0, 1)), 0);
    assert_eq!(rt; apart.get(0).copied(), Some(want));
    Ok(())
}

#[test]
fn calls_that_do_not_count(rt: HostRuntime) -> Result<(), Fail> {
    let alloc = rt.alloc();
    let mut root = call(0, Kind::Bcast, &[], &[]);
    root.counts = false;
    let no_root = [
        root,
        call(1, Kind::Bcast, &[2], &[]),
        call(2, Kind::Bcast, &[3], &[]),
    ];
    expect_findings(&rt, alloc, Ranks::Three, &no_root, &[])?;
    let mut first = call(0, Kind::Allreduce, &[], &[]);
    first.counts = false;
    let later = [
        first,
        call(1, Kind::Allreduce, &[2], &[]),
        call(2, Kind::Allreduce, &[3], &[]),
    ];
    let want = [finding(2, 1, Rule::C4, 0, Some((1, 1)), 2)];
    expect_findings(&rt, alloc, Ranks::Three, &later, &want)
}

#[test]
fn entries_of_a_reduction(rt: HostRuntime) -> Result<(), Fail> {
    let alloc = rt.alloc();
    let calls = [
        call(0, Kind::ReduceScatter, &[1, 2, 3], &[]),
        call(1, Kind::ReduceScatter, &[1, 4, 5], &[]),
        call(2, Kind::ReduceScatter, &[1, 2], &[]),
    ];
    let want = [finding(1, 1, Rule::C4, 0, Some((0, 1)), 1)];
    expect_findings(&rt, alloc, Ranks::Three, &calls, &want)
}

fn split(rank: u32, color: i32, key: i32, members: Ranks) -> Short<'static> {
    let mut short = call(rank, Kind::CommSplit, &[], &[]);
    short.split = Some(ColorKey { color, key });
    short.members = Some(members);
    short
}

#[test]
fn members_of_a_split(rt: HostRuntime) -> Result<(), Fail> {
    let alloc = rt.alloc();
    let ties = [
        split(0, 1, 0, Ranks::Both),
        split(1, 1, 0, Ranks::Turned),
        split(2, -1, 0, Ranks::Nobody),
    ];
    let want = [finding(1, 1, Rule::C7, 0, None, 0)];
    expect_findings(&rt, alloc, Ranks::Three, &ties, &want)?;
    let keys = [
        split(0, 7, 5, Ranks::Turned),
        split(1, 7, -5, Ranks::Turned),
        split(2, -1, 0, Ranks::Zero),
    ];
    let want = [finding(2, 1, Rule::C7, 0, None, 0)];
    expect_findings(&rt, alloc, Ranks::Three, &keys, &want)?;
    let mut unclear = split(1, 1, 0, Ranks::Turned);
    unclear.counts = false;
    let some_count = [
        split(0, 1, 0, Ranks::Both),
        unclear,
        split(2, -1, 0, Ranks::Nobody),
    ];
    expect_findings(&rt, alloc, Ranks::Three, &some_count, &[])?;
    let mut no_return = split(1, 1, 0, Ranks::Nobody);
    no_return.members = None;
    let unreturned = [
        split(0, 1, 0, Ranks::Zero),
        no_return,
        split(2, -1, 0, Ranks::Nobody),
    ];
    let want = [finding(0, 1, Rule::C7, 0, None, 1)];
    expect_findings(&rt, alloc, Ranks::Three, &unreturned, &want)
}

fn create(rank: u32, group: Ranks, members: Ranks) -> Short<'static> {
    let mut short = call(rank, Kind::CommCreate, &[], &[]);
    short.group = Some(group);
    short.members = Some(members);
    short
}

#[test]
fn groups_that_disagree(rt: HostRuntime) -> Result<(), Fail> {
    let alloc = rt.alloc();
    let apart = [
        create(0, Ranks::Zero, Ranks::Zero),
        create(1, Ranks::One, Ranks::One),
        create(2, Ranks::Zero, Ranks::Nobody),
    ];
    expect_findings(&rt, alloc, Ranks::Three, &apart, &[])?;
    let turned = [
        create(0, Ranks::Both, Ranks::Both),
        create(1, Ranks::Turned, Ranks::Turned),
        create(2, Ranks::Both, Ranks::Nobody),
    ];
    let want = [
        finding(0, 1, Rule::C8, 0, Some((1, 1)), 1),
        finding(1, 1, Rule::C8, 0, Some((0, 1)), 0),
        finding(2, 1, Rule::C8, 0, Some((1, 1)), 1),
    ];
    expect_findings(&rt, alloc, Ranks::Three, &turned, &want)
}

#[test]
fn members_of_a_duplicate(rt: HostRuntime) -> Result<(), Fail> {
    let alloc = rt.alloc();
    let mut first = call(0, Kind::CommDup, &[], &[]);
    first.members = Some(Ranks::Mixed);
    let mut second = call(1, Kind::CommDup, &[], &[]);
    second.members = Some(Ranks::Three);
    let mut third = call(2, Kind::CommDup, &[], &[]);
    third.members = Some(Ranks::Mixed);
    let want = [finding(1, 1, Rule::C7, 0, None, 0)];
    expect_findings(&rt, alloc, Ranks::Mixed, &[first, second, third], &want)
}

/// The calls of three ranks, which each make five, merged in an order that the seed tells.
fn merged<'a>(alloc: Global, calls: &[Short<'a>], seed: u64) -> Result<Vec<Short<'a>>, NoMemory> {
    let mut merged = Vec::new(alloc);
    let mut next: [usize; 3] = [0; 3];
    let mut state = seed;
    for _ in 0..64 {
        state = state
            .wrapping_mul(6_364_136_223_846_793_005)
            .wrapping_add(1_442_695_040_888_963_407);
        let rank = ((state >> 33) % 3) as usize;
        let at = next[rank];
        if at < 5 {
            match calls.get(rank * 5 + at) {
                None => {}
                Some(call) => merged.push(*call)?,
            }
            next[rank] = at + 1;
        }
    }
    Ok(merged)
}

#[test]
fn any_order_gives_the_same(rt: HostRuntime) -> Result<(), Fail> {
    waves_settle();
    let alloc = rt.alloc();
    let calls = [
        call(0, Kind::Barrier, &[], &[]),
        call(0, Kind::Allgather, &[1], &[1]),
        call(0, Kind::Bcast, &[2], &[]),
        split(0, 1, 0, Ranks::Both),
        call(0, Kind::Barrier, &[], &[]),
        call(1, Kind::Barrier, &[], &[]),
        call(1, Kind::Allgather, &[2], &[1]),
        call(1, Kind::Bcast, &[1], &[]),
        split(1, 1, 0, Ranks::Turned),
        call(1, Kind::Bcast, &[1], &[]),
        call(2, Kind::Barrier, &[], &[]),
        call(2, Kind::Allgather, &[1], &[1]),
        call(2, Kind::Bcast, &[2], &[]),
        split(2, -1, 0, Ranks::Nobody),
        call(2, Kind::Barrier, &[], &[]),
    ];
    let want = [
        finding(0, 2, Rule::C4, 1, Some((1, 2)), 1),
        finding(1, 2, Rule::C4, 1, Some((1, 2)), 1),
        finding(1, 3, Rule::C4, 0, Some((0, 3)), 1),
        finding(1, 4, Rule::C7, 0, None, 0),
        finding(1, 5, Rule::C1, 0, Some((0, 5)), 53),
        finding(2, 2, Rule::C4, 1, Some((1, 2)), 1),
    ];
    for seed in 0..50 {
        let order = merged(alloc, &calls, seed)?;
        assert_eq!(rt; order.len(), 15);
        expect_findings(&rt, alloc, Ranks::Three, &order, &want)?;
    }
    Ok(())
}

//! Collective calls of two ranks: what docs/WAVES.md says of them.

use super::{BARRIER, CLEAN, found, two_ranks};
use std::test::Fail;

/// A record of Bcast(4096, count, INT, root, world), returned.
fn bcast(count: u8, root: u8) -> [u8; 30] {
    [
        53, 0, 0, 0, 0, 24, // kind, flags, length
        0, 0, 0, 0, 0, 0, 16, 0, // buf
        0, 0, 0, count, // count
        0, 0, 0, 7, // type
        0, 0, 0, root, // root
        0, 0, 0, 1, // comm
    ]
}

#[test]
fn waves_that_agree(rt: HostRuntime) -> Result<(), Fail> {
    let alloc = rt.alloc();
    let calls: [&[u8]; 2] = [&BARRIER, &bcast(1, 0)];
    two_ranks(&rt, alloc, "check a b", &calls, &calls, &CLEAN)
}

#[test]
fn other_kinds(rt: HostRuntime) -> Result<(), Fail> {
    let want = found(
        "rank 1 call 1 part 0: error C1 collective kinds differ, see 0:1, value 52\nviolations 1\n",
    );
    two_ranks(
        &rt,
        rt.alloc(),
        "check a b",
        &[&bcast(1, 0)],
        &[&BARRIER],
        &want,
    )
}

#[test]
fn other_roots(rt: HostRuntime) -> Result<(), Fail> {
    let want = found(
        "rank 1 call 1 part 0: error C2 roots differ, see 0:1, value 1\nviolations 1\n",
    );
    two_ranks(
        &rt,
        rt.alloc(),
        "check a b",
        &[&bcast(1, 0)],
        &[&bcast(1, 1)],
        &want,
    )
}

#[test]
fn other_amounts(rt: HostRuntime) -> Result<(), Fail> {
    let want = found(
        "rank 1 call 1 part 0: error C4 collective amounts differ, see 0:1, value 1\nviolations 1\n",
    );
    two_ranks(
        &rt,
        rt.alloc(),
        "check a b",
        &[&bcast(1, 0)],
        &[&bcast(2, 0)],
        &want,
    )
}

#[test]
fn a_member_without_a_call(rt: HostRuntime) -> Result<(), Fail> {
    let want = found(
        "rank 0 call 1 part 0: error C5 member missing, see -, value 1\nrank 0 call 1 part 0: error W2 blocked outside the core, see 1:2, value 0\nviolations 2\n",
    );
    two_ranks(&rt, rt.alloc(), "check a b", &[&BARRIER], &[], &want)
}

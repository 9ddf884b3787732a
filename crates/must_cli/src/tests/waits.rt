//! Ranks that wait for each other, and wildcards that nothing completes: what docs/WAITING.md and docs/MESSAGES.md say of them.

use super::{CLEAN, found, send, two_ranks};
use std::test::Fail;

/// A record of Recv(8192, 1, INT, source, tag 0, world; source, 0), returned.
fn recv_from(source: u8) -> [u8; 43] {
    [
        7, 0, 0, 0, 0, 37, // kind, flags, length
        0, 0, 0, 0, 0, 0, 32, 0, // buf
        0, 0, 0, 1, // count
        0, 0, 0, 7, // type
        0, 0, 0, source, // source
        0, 0, 0, 0, // tag
        0, 0, 0, 1, // comm
        0, 0, 0, source, 0, 0, 0, 0, 0, // status
    ]
}

/// Irecv(8192, 1, INT, any source, tag 0, world; request 64), returned.
const IRECV_ANY: [u8; 38] = [
    15, 0, 0, 0, 0, 32, // kind, flags, length
    0, 0, 0, 0, 0, 0, 32, 0, // buf
    0, 0, 0, 1, // count
    0, 0, 0, 7, // type
    255, 255, 255, 254, // source
    0, 0, 0, 0, // tag
    0, 0, 0, 1, // comm
    0, 0, 0, 64, // request
];

/// Both ranks send first: they wait for each other, unless sends are buffered.
#[test]
fn both_send_first(rt: HostRuntime) -> Result<(), Fail> {
    let alloc = rt.alloc();
    let want = found(
        "rank 0 call 1 part 0: error W1 blocked in the deadlock core, see 1:2, value 0\nrank 1 call 1 part 0: error W1 blocked in the deadlock core, see 0:2, value 0\nviolations 2\n",
    );
    let first: [&[u8]; 2] = [&send(1, 1), &recv_from(1)];
    let second: [&[u8]; 2] = [&send(1, 0), &recv_from(0)];
    two_ranks(&rt, alloc, "check a b", &first, &second, &want)?;
    two_ranks(
        &rt,
        alloc,
        "check --sends strict a b",
        &first,
        &second,
        &want,
    )?;
    two_ranks(
        &rt,
        alloc,
        "check --sends buffered a b",
        &first,
        &second,
        &CLEAN,
    )
}

/// Both ranks receive first: no buffer helps.
#[test]
fn both_receive_first(rt: HostRuntime) -> Result<(), Fail> {
    let alloc = rt.alloc();
    let want = found(
        "rank 0 call 1 part 0: error W1 blocked in the deadlock core, see 1:2, value 0\nrank 1 call 1 part 0: error W1 blocked in the deadlock core, see 0:2, value 0\nviolations 2\n",
    );
    let first: [&[u8]; 2] = [&recv_from(1), &send(1, 1)];
    let second: [&[u8]; 2] = [&recv_from(0), &send(1, 0)];
    two_ranks(&rt, alloc, "check a b", &first, &second, &want)?;
    two_ranks(
        &rt,
        alloc,
        "check --sends buffered a b",
        &first,
        &second,
        &want,
    )
}

/// A wildcard that nothing completes takes no message, so the send waits for what never comes.
#[test]
fn an_open_wildcard(rt: HostRuntime) -> Result<(), Fail> {
    let alloc = rt.alloc();
    let want = found(
        "rank 0 call 1 part 0: warning N1 open wildcard, see -, value 0\nrank 0 call 2 part 0: warning L5 request open, see 0:1, value 64\nrank 1 call 1 part 0: error M3 send never received, see -, value 0\nrank 1 call 1 part 0: error W2 blocked outside the core, see 0:3, value 0\nviolations 4\n",
    );
    two_ranks(
        &rt,
        alloc,
        "check a b",
        &[&IRECV_ANY],
        &[&send(1, 0)],
        &want,
    )
}

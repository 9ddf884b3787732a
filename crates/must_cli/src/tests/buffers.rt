//! Buffers of calls beside those of operations under way: what docs/RULES.md says of them.

use super::{Answer, found, one_rank};
use std::test::Fail;

/// Irecv(4096, 2, INT, 0, tag 0, world; request 64), returned.
const IRECV_TWO: [u8; 38] = [
    15, 0, 0, 0, 0, 32, // kind, flags, length
    0, 0, 0, 0, 0, 0, 16, 0, // buf
    0, 0, 0, 2, // count
    0, 0, 0, 7, // type
    0, 0, 0, 0, // source
    0, 0, 0, 0, // tag
    0, 0, 0, 1, // comm
    0, 0, 0, 64, // request
];

/// Isend(4100, 2, INT, 0, tag 0, world; request 65), returned.
const ISEND_TWO: [u8; 38] = [
    11, 0, 0, 0, 0, 32, // kind, flags, length
    0, 0, 0, 0, 0, 0, 16, 4, // buf
    0, 0, 0, 2, // count
    0, 0, 0, 7, // type
    0, 0, 0, 0, // dest
    0, 0, 0, 0, // tag
    0, 0, 0, 1, // comm
    0, 0, 0, 65, // request
];

/// Waitall(requests 64 and 65; (0, 0) and an empty status), returned.
const WAITALL: [u8; 36] = [
    17, 0, 0, 0, 0, 30, // kind, flags, length
    0, 0, 0, 2, // number of requests
    0, 0, 0, 64, 0, 0, 0, 65, // requests
    0, 0, 0, 0, 0, 0, 0, 0, 0, // status
    255, 255, 255, 254, 255, 255, 255, 255, 0, // status
];

/// TypeVector(2, 1, 0, INT; type 64), returned.
const TYPE_VECTOR: [u8; 26] = [
    27, 0, 0, 0, 0, 20, // kind, flags, length
    0, 0, 0, 2, 0, 0, 0, 1, 0, 0, 0, 0, // count, block, stride
    0, 0, 0, 7, // old
    0, 0, 0, 64, // made
];

/// TypeCommit(64), returned.
const TYPE_COMMIT: [u8; 10] = [37, 0, 0, 0, 0, 4, 0, 0, 0, 64];

/// TypeFree(64), returned.
const TYPE_FREE: [u8; 10] = [38, 0, 0, 0, 0, 4, 0, 0, 0, 64];

/// Bsend(8192, 2, INT, 0, tag 0, world), returned.
const BSEND: [u8; 34] = [
    5, 0, 0, 0, 0, 28, // kind, flags, length
    0, 0, 0, 0, 0, 0, 32, 0, // buf
    0, 0, 0, 2, // count
    0, 0, 0, 7, // type
    0, 0, 0, 0, // dest
    0, 0, 0, 0, // tag
    0, 0, 0, 1, // comm
];

/// Recv(4096, 1, type 64, 0, tag 0, world; 0, 0), returned.
const RECV_VECTOR: [u8; 43] = [
    7, 0, 0, 0, 0, 37, // kind, flags, length
    0, 0, 0, 0, 0, 0, 16, 0, // buf
    0, 0, 0, 1, // count
    0, 0, 0, 64, // type
    0, 0, 0, 0, // source
    0, 0, 0, 0, // tag
    0, 0, 0, 1, // comm
    0, 0, 0, 0, 0, 0, 0, 0, 0, // status
];

#[test]
fn buffer_of_a_pending_operation(rt: HostRuntime) -> Result<(), Fail> {
    let want: Answer = found(
        "rank 0 call 2 part 0: error T3 buffer of a pending operation, see 0:1, value 4100\nviolations 1\n",
    );
    one_rank(&rt, rt.alloc(), &[&IRECV_TWO, &ISEND_TWO, &WAITALL], &want)
}

#[test]
fn type_that_overlaps_itself(rt: HostRuntime) -> Result<(), Fail> {
    let want: Answer = found(
        "rank 0 call 4 part 0: error T1 receive type overlaps itself, see -, value 0\nviolations 1\n",
    );
    let records: [&[u8]; 5] = [&TYPE_VECTOR, &TYPE_COMMIT, &BSEND, &RECV_VECTOR, &TYPE_FREE];
    one_rank(&rt, rt.alloc(), &records, &want)
}

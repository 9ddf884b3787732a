//! Streams byte by byte, with the answers of docs/FORMAT.md.

mod cases;

use crate::{
    Cause, Expect, Limit, StreamFault, StreamReader, complete_streams, known_kinds, one_reading,
    one_spelling, refused_streams,
};
use cases::{
    ACCEPTED, COMM_SPLIT, Case, END_0, END_2, END_4, END_8, FINALIZE, HEADER, HEADERS, INIT, ISEND,
    MADE, PAYLOADS, RECORDS, RECV, REDUCE, SEND, TESTSOME, TYPE_STRUCT, WAITALL,
};
use must_base::MemSource;
use must_call::{Body, Call, Frame, Point, Status3};
use std::alloc::Global;
use std::process::Abort;
use std::test::Fail;

/// The calls of a stream, and the answer behind them, which comes again.
fn read_all(
    rt: &impl Abort,
    alloc: Global,
    expect: Expect,
    bytes: Vec<u8>,
    chunk: usize,
) -> Result<(u32, Option<StreamFault>), Fail> {
    assert!(rt; chunk > 0 && 0 < expect.size && expect.size <= 1024 && expect.rank < expect.size);
    let mut src = MemSource::new(bytes, chunk, Vec::new(alloc));
    let mut reader = StreamReader::new(alloc, expect).ok().ok_or("no memory")?;
    for calls in 0..10_000 {
        match reader.next(alloc, &mut src) {
            Ok(Some(_)) => {}
            Ok(None) => {
                assert!(rt; matches!(reader.next(alloc, &mut src), Ok(None)));
                return Ok((calls, None));
            }
            Err(fault) => {
                let again = reader.next(alloc, &mut src).err();
                assert_eq!(rt; again, Some(fault));
                return Ok((calls, Some(fault)));
            }
        }
    }
    Err("no end".into())
}

/// Each stream of a table gives its calls and its answer, in whatever pieces it is read.
fn check_cases(rt: &impl Abort, alloc: Global, cases: &[Case]) -> Result<(), Fail> {
    for case in cases {
        for chunk in [1, 2, 5, 4096] {
            let mut bytes = Vec::new(alloc);
            for part in case.parts {
                bytes.extend_from_slice(part)?;
            }
            let refused = case
                .refused
                .map(|(at, cause)| StreamFault::Malformed { at, cause });
            let expect = Expect { rank: 0, size: 1 };
            let found = read_all(rt, alloc, expect, bytes, chunk)?;
            assert_eq!(rt; found, (case.calls, refused), "{} by {chunk}", case.name);
        }
    }
    Ok(())
}

#[test]
fn accepted_streams(rt: HostRuntime) -> Result<(), Fail> {
    check_cases(&rt, rt.alloc(), ACCEPTED)
}

#[test]
fn refused_headers(rt: HostRuntime) -> Result<(), Fail> {
    check_cases(&rt, rt.alloc(), HEADERS)
}

#[test]
fn refused_records(rt: HostRuntime) -> Result<(), Fail> {
    check_cases(&rt, rt.alloc(), RECORDS)
}

#[test]
fn refused_payloads(rt: HostRuntime) -> Result<(), Fail> {
    check_cases(&rt, rt.alloc(), PAYLOADS)
}

#[test]
fn refused_handles_and_members(rt: HostRuntime) -> Result<(), Fail> {
    check_cases(&rt, rt.alloc(), MADE)
}

/// The header of version 1 with this rank and size.
fn header_of(alloc: Global, rank: u32, size: u32) -> Result<Vec<u8>, Fail> {
    let mut bytes = Vec::new(alloc);
    bytes.extend_from_slice(&HEADER[..5])?;
    bytes.extend_from_slice(&rank.to_be_bytes())?;
    bytes.extend_from_slice(&size.to_be_bytes())?;
    bytes.extend_from_slice(&HEADER[13..])?;
    Ok(bytes)
}

/// Without a rank and a size that are expected, a size that no run has comes before a rank that is not in it.
#[test]
fn headers_of_any_rank(rt: HostRuntime) -> Result<(), Fail> {
    let alloc = rt.alloc();
    let size = Some((9, Cause::WrongSize));
    let rank = Some((5, Cause::WrongRank));
    for (r, n, refused) in [
        (5, 0, size),
        (2000, 1025, size),
        (5, 1025, size),
        (5, 5, rank),
        (1023, 1024, None),
        (0, 1, None),
    ] {
        let mut bytes = header_of(alloc, r, n)?;
        bytes.extend_from_slice(END_0)?;
        let mut src = MemSource::new(bytes, 9, Vec::new(alloc));
        let mut reader = StreamReader::any(alloc).ok().ok_or("no memory")?;
        let fault = refused.map(|(at, cause)| StreamFault::Malformed { at, cause });
        assert_eq!(rt; reader.next(alloc, &mut src).err(), fault, "{r} of {n}");
        assert_eq!(rt;
            reader.header().map(|h| (h.rank, h.size)),
            match refused {
                Some(_) => None,
                None => Some((r, n))
            }
        );
    }
    Ok(())
}

/// What was taken shows the refusal: the read behind it does not happen, and so does not fail.
#[test]
fn a_refusal_before_a_read_that_would_fail(rt: HostRuntime) -> Result<(), Fail> {
    let alloc = rt.alloc();
    for (record, at, cause) in [
        (&[80][..], 17, Cause::Kind),
        (&[1, 2], 17, Cause::Flags),
        (&[1, 0, 0, 0, 0, 1, 0], 17, Cause::Length),
        (&[0, 0, 0, 0, 0, 4, 0, 0, 0, 1], 17, Cause::EndCount),
        (&[0, 0, 0, 0, 0, 4, 0, 0, 0, 0, 0], 27, Cause::AfterEnd),
    ] {
        let mut bytes = Vec::new(alloc);
        bytes.extend_from_slice(HEADER)?;
        bytes.extend_from_slice(record)?;
        let mut fail = Vec::new(alloc);
        fail.push(2)?;
        let mut src = MemSource::new(bytes, 17, fail);
        let mut reader = StreamReader::any(alloc).ok().ok_or("no memory")?;
        let found = reader.next(alloc, &mut src).err();
        assert_eq!(rt; found, Some(StreamFault::Malformed { at, cause }));
    }
    Ok(())
}

/// The calls, and the answer behind them, with a read that fails.
fn read_failing(
    alloc: Global,
    parts: &[&[u8]],
    failing: u64,
) -> Result<(u32, Option<StreamFault>), Fail> {
    let mut bytes = Vec::new(alloc);
    for part in parts {
        bytes.extend_from_slice(part)?;
    }
    let mut fail = Vec::new(alloc);
    fail.push(failing)?;
    let mut src = MemSource::new(bytes, 5, fail);
    let expect = Expect { rank: 0, size: 1 };
    let mut reader = StreamReader::new(alloc, expect).ok().ok_or("no memory")?;
    for calls in 0..10 {
        match reader.next(alloc, &mut src) {
            Ok(Some(_)) => {}
            Ok(None) => return Ok((calls, None)),
            Err(fault) => return Ok((calls, Some(fault))),
        }
    }
    Err("no end".into())
}

/// A read that fails before the place of the refusal is answered, and one behind it doesn't happen.
fn check_failing(rt: &impl Abort, alloc: Global, cases: &[Case]) -> Result<(), Fail> {
    for case in cases {
        let Some((at, cause)) = case.refused else {
            return Err("no refusal".into());
        };
        let read = Some(StreamFault::Read);
        let refused = (case.calls, Some(StreamFault::Malformed { at, cause }));
        // The read of the byte at the offset fails, and then each one behind it.
        let before = read_failing(alloc, case.parts, at / 5)?;
        assert_eq!(rt; before.1, read, "{}", case.name);
        let mut answered = 0;
        for step in 1..14 {
            let found = read_failing(alloc, case.parts, (at / 5).saturating_add(step))?;
            if found.1 == read {
                assert_eq!(rt; answered, 0, "{}", case.name);
            } else {
                assert_eq!(rt; found, refused, "{}", case.name);
                answered = 1;
            }
        }
        assert_eq!(rt; answered, 1, "{}", case.name);
    }
    Ok(())
}

#[test]
fn failing_reads_of_refused_streams(rt: HostRuntime) -> Result<(), Fail> {
    let alloc = rt.alloc();
    for cases in [HEADERS, RECORDS, PAYLOADS, MADE] {
        check_failing(&rt, alloc, cases)?;
    }
    Ok(())
}

/// So many calls, and then the end record.
fn many_calls(alloc: Global, n: u32) -> Result<Vec<u8>, Fail> {
    let mut bytes = Vec::new(alloc);
    bytes.extend_from_slice(&HEADER[..9])?;
    bytes.extend_from_slice(&1024u32.to_be_bytes())?;
    bytes.extend_from_slice(&HEADER[13..])?;
    for _ in 0..n {
        bytes.extend_from_slice(INIT)?;
    }
    bytes.extend_from_slice(&END_0[..6])?;
    bytes.extend_from_slice(&n.to_be_bytes())?;
    Ok(bytes)
}

/// A record of the greatest length behind one call, in a stream of so many bytes.
fn many_bytes(alloc: Global, n: usize) -> Result<Vec<u8>, Fail> {
    let mut bytes = many_calls(alloc, 1)?;
    bytes.truncate(23);
    bytes.extend_from_slice(&[1, 0, 0, 16, 0, 0])?;
    for _ in bytes.len()..n {
        bytes.push(0)?;
    }
    Ok(bytes)
}

#[test]
fn limits_of_a_stream_among_1024(rt: HostRuntime) -> Result<(), Fail> {
    let alloc = rt.alloc();
    let expect = Expect {
        rank: 0,
        size: 1024,
    };
    let calls = Some(StreamFault::Bound {
        at: 49_169,
        limit: Limit::Calls,
    });
    for (n, found) in [(8_191, None), (8_192, None), (8_193, calls)] {
        let bytes = many_calls(alloc, n)?;
        assert_eq!(rt;
            read_all(&rt, alloc, expect, bytes, 4096)?,
            (n.min(8_192), found)
        );
    }
    let cut = Some(StreamFault::Malformed {
        at: 23,
        cause: Cause::Truncated,
    });
    let past = Some(StreamFault::Bound {
        at: 23,
        limit: Limit::Bytes,
    });
    for (n, found) in [
        (524_287, cut),
        (524_288, cut),
        (524_289, past),
        (524_300, past),
    ] {
        let bytes = many_bytes(alloc, n)?;
        assert_eq!(rt; read_all(&rt, alloc, expect, bytes, 4096)?, (1, found));
    }
    Ok(())
}

fn next_call(alloc: Global, reader: &mut StreamReader, src: &mut MemSource) -> Result<Call, Fail> {
    let next = reader.next(alloc, src).ok().ok_or("a fault")?;
    Ok(next.ok_or("no call")?)
}

fn is_send(call: &Call) -> bool {
    matches!(
        call.body,
        Body::Point(Point::Send {
            buf: 4096,
            count: -1,
            dtype: 7,
            dest: 0,
            tag: 0,
            comm: 1
        })
    )
}

#[test]
fn calls_with_their_offsets(rt: HostRuntime) -> Result<(), Fail> {
    let alloc = rt.alloc();
    let mut bytes = Vec::new(alloc);
    for part in [HEADER, INIT, SEND, RECV, END_4] {
        bytes.extend_from_slice(part)?;
    }
    let mut src = MemSource::new(bytes, 5, Vec::new(alloc));
    let expect = Expect { rank: 0, size: 1 };
    let mut reader = StreamReader::new(alloc, expect).ok().ok_or("no memory")?;
    assert_eq!(rt; (reader.at(), reader.tag_ub()), (0, None));
    let init = next_call(alloc, &mut reader, &mut src)?;
    assert!(rt; matches!(init.body, Body::Frame(Frame::Init)));
    assert_eq!(rt; (reader.at(), reader.tag_ub()), (17, Some(32_767)));
    let send = next_call(alloc, &mut reader, &mut src)?;
    assert!(rt; is_send(&send));
    assert_eq!(rt; reader.at(), 23);
    let recv = next_call(alloc, &mut reader, &mut src)?;
    assert_eq!(rt; recv.kind().number(), 7);
    let Body::Point(
        Point::Recv {
            source: -2,
            tag: -1,
            status,
            ..
        },
    ) = recv.body
    else {
        return Err("another call".into());
    };
    assert_eq!(rt;
        status,
        Some(Status3 {
            source: 0,
            tag: 9,
            cancelled: true
        })
    );
    assert_eq!(rt; reader.at(), 57);
    let end = reader.next(alloc, &mut src).err();
    assert_eq!(rt;
        end,
        Some(StreamFault::Malformed {
            at: 100,
            cause: Cause::EndCount
        })
    );
    assert_eq!(rt; (reader.at(), reader.tag_ub()), (57, Some(32_767)));
    Ok(())
}

/// The numbers of the kinds and the offsets of the records.
const KINDS_AT: [(u8, u64); 8] = [
    (1, 17),
    (11, 23),
    (17, 61),
    (49, 97),
    (33, 127),
    (23, 173),
    (62, 225),
    (2, 268),
];

#[test]
fn calls_of_each_family(rt: HostRuntime) -> Result<(), Fail> {
    let alloc = rt.alloc();
    let mut bytes = Vec::new(alloc);
    for part in [
        HEADER,
        INIT,
        ISEND,
        WAITALL,
        COMM_SPLIT,
        TYPE_STRUCT,
        TESTSOME,
        REDUCE,
        FINALIZE,
        END_8,
    ] {
        bytes.extend_from_slice(part)?;
    }
    let mut src = MemSource::new(bytes, 7, Vec::new(alloc));
    let expect = Expect { rank: 0, size: 1 };
    let mut reader = StreamReader::new(alloc, expect).ok().ok_or("no memory")?;
    for (kind, at) in KINDS_AT {
        let call = next_call(alloc, &mut reader, &mut src)?;
        assert!(rt; call.returned);
        assert_eq!(rt; (call.kind().number(), reader.at()), (kind, at));
    }
    assert!(rt; matches!(reader.next(alloc, &mut src), Ok(None)));
    Ok(())
}

/// Where the records of the stream of each family begin, and how many calls are before.
const CUTS: [(u32, usize); 9] = [
    (0, 17),
    (1, 23),
    (2, 61),
    (3, 97),
    (4, 127),
    (5, 173),
    (6, 225),
    (7, 268),
    (8, 274),
];

/// The last record that begins within so many bytes, or the header.
fn cut_at(taken: usize) -> (u32, Option<StreamFault>) {
    let mut calls = 0;
    let mut at = 0;
    for (before, start) in CUTS {
        if start <= taken {
            calls = before;
            at = start as u64;
        }
    }
    let cause = Cause::Truncated;
    (calls, Some(StreamFault::Malformed { at, cause }))
}

/// Each proper front of a stream is cut at the record that it ends in, or that is due there.
#[test]
fn fronts_of_a_stream(rt: HostRuntime) -> Result<(), Fail> {
    let alloc = rt.alloc();
    let mut bytes = Vec::new(alloc);
    for part in [
        HEADER,
        INIT,
        ISEND,
        WAITALL,
        COMM_SPLIT,
        TYPE_STRUCT,
        TESTSOME,
        REDUCE,
        FINALIZE,
        END_8,
    ] {
        bytes.extend_from_slice(part)?;
    }
    assert_eq!(rt; bytes.len(), 284);
    for taken in 0..bytes.len() {
        let mut front = Vec::new(alloc);
        front.extend_from_slice(&bytes[..taken])?;
        let expect = Expect { rank: 0, size: 1 };
        let found = read_all(&rt, alloc, expect, front, 4096)?;
        assert_eq!(rt; found, cut_at(taken));
    }
    Ok(())
}

#[test]
fn a_failed_read_stays(rt: HostRuntime) -> Result<(), Fail> {
    let alloc = rt.alloc();
    for (failing, tag_ub) in [(0, None), (1, None), (2, Some(32_767))] {
        let mut bytes = Vec::new(alloc);
        bytes.extend_from_slice(HEADER)?;
        let mut fail = Vec::new(alloc);
        fail.push(failing)?;
        let mut src = MemSource::new(bytes, 10, fail);
        let expect = Expect { rank: 0, size: 1 };
        let mut reader = StreamReader::new(alloc, expect).ok().ok_or("no memory")?;
        assert_eq!(rt; reader.next(alloc, &mut src).err(), Some(StreamFault::Read));
        assert_eq!(rt; reader.next(alloc, &mut src).err(), Some(StreamFault::Read));
        assert_eq!(rt; (reader.at(), reader.tag_ub()), (0, tag_ub));
    }
    Ok(())
}

#[test]
fn names(rt: HostRuntime) {
    let causes = [
        (Cause::Magic, "Magic"),
        (Cause::HandleNumber, "HandleNumber"),
        (Cause::Truncated, "Truncated"),
    ];
    for (cause, name) in causes {
        assert_eq!(rt; cause.name(), name);
    }
    assert_eq!(rt; Limit::PendingWeight.name(), "PendingWeight");
    one_spelling();
    known_kinds();
    one_reading();
    complete_streams();
    refused_streams();
}

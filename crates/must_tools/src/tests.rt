//! Worked dumps, of sources in memory into sinks in memory.

ghost use Rattle.std.specs.Prelude.{◌<◌};

use crate::{DumpFault, dump};
use must_base::{MemSink, MemSource};
use must_format::{Cause, Limit, StreamFault};
use std::alloc::Global;
use std::process::Abort;
use std::test::Fail;

/// The header of version 1 of rank 0 of one.
const HEADER: &[u8] = &[
    0x4d, 0x54, 0x52, 0x43, 1, 0, 0, 0, 0, 0, 0, 0, 1, 0, 0, 0x7f, 0xff,
];

/// The header of version 2 of rank 3 of 1024, with the greatest tag that there may be.
const LAST_TAG: &[u8] = &[
    0x4d, 0x54, 0x52, 0x43, 2, 0, 0, 0, 3, 0, 0, 4, 0, 0x7f, 0xff, 0xff, 0xff,
];

/// The header of version 1 of rank 0 of 1024.
const WIDE: &[u8] = &[
    0x4d, 0x54, 0x52, 0x43, 1, 0, 0, 0, 0, 0, 0, 4, 0, 0, 0, 0x7f, 0xff,
];

const INIT: &[u8] = &[1, 0, 0, 0, 0, 0];

/// Send(2^64 - 1, -1, type 7, to 0, tag -2147483648, communicator 1), which didn't return.
const STUCK_SEND: &[u8] = &[
    3, 1, 0, 0, 0, 28, 255, 255, 255, 255, 255, 255, 255, 255, 255, 255, 255, 255, 0, 0, 0, 7, 0,
    0, 0, 0, 128, 0, 0, 0, 0, 0, 0, 1,
];

/// Recv(4096, 1, type 7, from any, any tag, communicator 1), cancelled, of source 0 and tag 9.
const RECV: &[u8] = &[
    7, 0, 0, 0, 0, 37, 0, 0, 0, 0, 0, 0, 16, 0, 0, 0, 0, 1, 0, 0, 0, 7, 255, 255, 255, 254, 255,
    255, 255, 255, 0, 0, 0, 1, 0, 0, 0, 0, 0, 0, 0, 9, 1,
];

/// TypeIndexed of the blocks (1, 0) and (2, -3) of type 7, which makes 64.
const TYPE_INDEXED: &[u8] = &[
    29, 0, 0, 0, 0, 28, 0, 0, 0, 2, 0, 0, 0, 1, 0, 0, 0, 0, 0, 0, 0, 2, 255, 255, 255, 253, 0, 0,
    0, 7, 0, 0, 0, 64,
];

/// Testsome of no requests, with an outcount of -1.
const TESTSOME: &[u8] = &[23, 0, 0, 0, 0, 8, 0, 0, 0, 0, 255, 255, 255, 255];

/// Iprobe of source 0, tag 0 and communicator 1, which found nothing.
const IPROBE: &[u8] = &[10, 0, 0, 0, 0, 13, 0, 0, 0, 0, 0, 0, 0, 0, 0, 0, 0, 1, 0];

/// The bytes of a stream of these records.
fn stream(alloc: Global, parts: &[&[u8]], calls: u32) -> Result<Vec<u8>, Fail> {
    let mut bytes = Vec::new(alloc);
    for part in parts {
        bytes.extend_from_slice(part)?;
    }
    bytes.extend_from_slice(&[0, 0, 0, 0, 0, 4])?;
    bytes.extend_from_slice(&calls.to_be_bytes())?;
    Ok(bytes)
}

/// The answer of a dump, and what was put.
fn dumped(
    rt: &impl Abort,
    alloc: Global,
    bytes: Vec<u8>,
    chunk: usize,
    reads: &[u64],
    puts: &[u64],
) -> Result<(Option<DumpFault>, MemSink), Fail> {
    assert!(rt; chunk > 0);
    let mut src = MemSource::new(bytes, chunk, reads.to_vec(alloc)?);
    let mut out = MemSink::new(alloc, puts.to_vec(alloc)?);
    out.reserve(1_000_000)?;
    let fault = dump(alloc, &mut src, &mut out).err();
    Ok((fault, out))
}

#[test]
fn each_shape_of_a_line(rt: HostRuntime) -> Result<(), Fail> {
    let alloc = rt.alloc();
    for chunk in [1, 2, 5, 4096] {
        let parts = [
            HEADER,
            INIT,
            RECV,
            TYPE_INDEXED,
            TESTSOME,
            IPROBE,
            STUCK_SEND,
        ];
        let bytes = stream(alloc, &parts, 6)?;
        let (fault, out) = dumped(&rt, alloc, bytes, chunk, &[], &[])?;
        assert_eq!(rt; fault, None);
        assert_eq!(rt;
            out.bytes(),
            b"stream 1 0 1 32767\n\
              0 Init\n\
              1 Recv 4096 1 7 -2 -1 1 0 9 1\n\
              2 TypeIndexed 2 1 0 2 -3 7 64\n\
              3 Testsome 0 -1\n\
              4 Iprobe 0 0 1 0\n\
              5 Send! 18446744073709551615 -1 7 0 -2147483648 1\n\
              end 6\n"
                .as_slice()
        );
    }
    Ok(())
}

/// A stream of any rank of any run, here with no call.
#[test]
fn any_rank_and_size(rt: HostRuntime) -> Result<(), Fail> {
    let alloc = rt.alloc();
    let (fault, out) = dumped(&rt, alloc, stream(alloc, &[LAST_TAG], 0)?, 9, &[], &[])?;
    assert_eq!(rt; fault, None);
    assert_eq!(rt;
        out.bytes(),
        b"stream 2 3 1024 2147483647\nend 0\n".as_slice()
    );
    Ok(())
}

/// Nothing is put of a stream that isn't complete, not even of its calls before the bad place.
#[test]
fn a_refused_stream(rt: HostRuntime) -> Result<(), Fail> {
    let alloc = rt.alloc();
    let bytes = stream(alloc, &[HEADER, INIT], 2)?;
    let (fault, out) = dumped(&rt, alloc, bytes, 7, &[], &[])?;
    let refused = StreamFault::Malformed {
        at: 23,
        cause: Cause::EndCount,
    };
    assert_eq!(rt; fault, Some(DumpFault::Stream(refused)));
    assert!(rt; out.bytes().is_empty());
    Ok(())
}

/// The five reads of a stream of 33 bytes in pieces of 10: two of the header, two of the records, one that finds the end. One
/// that fails, whichever it is, leaves the sink alone.
#[test]
fn failing_reads(rt: HostRuntime) -> Result<(), Fail> {
    let alloc = rt.alloc();
    for read in [0u64, 1, 2, 3, 4, 5] {
        let bytes = stream(alloc, &[HEADER, INIT], 1)?;
        let (fault, out) = dumped(&rt, alloc, bytes, 10, &[read], &[])?;
        let failed = if read < 5 {
            Some(DumpFault::Stream(StreamFault::Read))
        } else {
            None
        };
        assert_eq!(rt; fault, failed, "{read}");
        assert_eq!(rt; out.bytes().is_empty(), read < 5, "{read}");
    }
    Ok(())
}

#[test]
fn failing_put(rt: HostRuntime) -> Result<(), Fail> {
    let alloc = rt.alloc();
    let (fault, out) = dumped(
        &rt,
        alloc,
        stream(alloc, &[HEADER, INIT], 1)?,
        10,
        &[],
        &[0],
    )?;
    assert_eq!(rt; fault, Some(DumpFault::Write));
    assert!(rt; b"stream 1 0 1 32767\n0 Init\nend 1\n".starts_with(out.bytes()));
    Ok(())
}

/// A stream of a run of 1024 ranks has at most 8192 calls.
#[test]
fn as_many_calls_as_there_may_be(rt: HostRuntime) -> Result<(), Fail> {
    let alloc = rt.alloc();
    for (calls, fault) in [
        (8192u32, None),
        (
            8193,
            Some(StreamFault::Bound {
                at: 49_169,
                limit: Limit::Calls,
            }),
        ),
    ] {
        let mut bytes = Vec::from_slice(alloc, WIDE)?;
        for _ in 0..calls {
            bytes.extend_from_slice(INIT)?;
        }
        bytes.extend_from_slice(&[0, 0, 0, 0, 0, 4])?;
        bytes.extend_from_slice(&calls.to_be_bytes())?;
        let (found, out) = dumped(&rt, alloc, bytes, 4096, &[], &[])?;
        assert_eq!(rt; found, fault.map(DumpFault::Stream));
        let length = if calls == 8192 { 80_841 } else { 0 };
        assert_eq!(rt; out.bytes().len(), length);
        assert_eq!(rt;
            out.bytes().ends_with(b"\n8191 Init\nend 8192\n"),
            calls == 8192
        );
    }
    Ok(())
}

/// A stream of a run of 1024 ranks, of an `Iprobe` and a `GroupIncl` of so many ranks, with these last bytes.
fn long_stream(alloc: Global, ranks: u32, last: &[u8]) -> Result<Vec<u8>, Fail> {
    let mut bytes = Vec::from_slice(alloc, WIDE)?;
    bytes.extend_from_slice(IPROBE)?;
    bytes.extend_from_slice(&[42, 0])?;
    bytes.extend_from_slice(&(12 + 4 * u64::from(ranks)).to_be_bytes()[4..])?;
    bytes.extend_from_slice(&[0, 0, 0, 1])?;
    bytes.extend_from_slice(&ranks.to_be_bytes())?;
    for _ in 0..ranks {
        bytes.extend_from_slice(&[0, 0, 0, 0])?;
    }
    bytes.extend_from_slice(&[0, 0, 0, 64])?;
    bytes.extend_from_slice(last)?;
    Ok(bytes)
}

const END_2: &[u8] = &[0, 0, 0, 0, 0, 4, 0, 0, 0, 2];

/// Such a stream has at most 2^19 bytes.
#[test]
fn as_many_bytes_as_there_may_be(rt: HostRuntime) -> Result<(), Fail> {
    let alloc = rt.alloc();
    let bytes = long_stream(alloc, 131_056, END_2)?;
    assert_eq!(rt; bytes.len(), 524_288);
    let (fault, out) = dumped(&rt, alloc, bytes, 4096, &[], &[])?;
    assert_eq!(rt; fault, None);
    assert_eq!(rt; out.bytes().len(), 262_181);
    assert!(rt;
        out.bytes().starts_with(
            b"stream 1 0 1024 32767\n0 Iprobe 0 0 1 0\n1 GroupIncl 1 131056 0 0 "
        )
    );
    assert!(rt; out.bytes().ends_with(b" 0 64\nend 2\n"));
    Ok(())
}

/// One that has a rank more in its list, and goes on past the limit or ends there.
#[test]
fn more_bytes_than_there_may_be(rt: HostRuntime) -> Result<(), Fail> {
    let alloc = rt.alloc();
    let at = 524_282;
    let bytes = long_stream(alloc, 131_057, END_2)?;
    let (fault, out) = dumped(&rt, alloc, bytes, 4096, &[], &[])?;
    let limit = Limit::Bytes;
    assert_eq!(rt;
        fault,
        Some(DumpFault::Stream(StreamFault::Bound { at, limit }))
    );
    assert!(rt; out.bytes().is_empty());
    let bytes = long_stream(alloc, 131_057, &[0, 0, 0, 0, 0, 4])?;
    let (fault, out) = dumped(&rt, alloc, bytes, 4096, &[], &[])?;
    let cause = Cause::Truncated;
    assert_eq!(rt;
        fault,
        Some(DumpFault::Stream(StreamFault::Malformed { at, cause }))
    );
    assert!(rt; out.bytes().is_empty());
    Ok(())
}

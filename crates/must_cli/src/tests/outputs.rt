//! Reports as CSV, and texts of streams.

use super::{
    Answer, by_bytes, found, header, malformed, one_file, outside, runs, send, sink, stream, whole,
    words_of,
};
use crate::run::serial_command;
use crate::status::Status;
use must_base::MemTrace;
use std::test::Fail;

const NAMES: &str = "rank,call,part,severity,rule,see_rank,see_call,value\n";

#[test]
fn reports_as_csv(rt: HostRuntime) -> Result<(), Fail> {
    let alloc = rt.alloc();
    let bytes = stream(alloc, 0, 1, &[&send(1, 1), &send(1, -1)])?;
    let want = found("rank,call,part,severity,rule,see_rank,see_call,value\n0,1,0,error,A2,,,1\n");
    let files = one_file(alloc, &whole("a", &bytes))?;
    runs(&rt, alloc, "check --csv a", files, &want)?;
    let bytes = stream(alloc, 0, 1, &[])?;
    let want = Answer {
        status: Status::Clean,
        out: NAMES,
        err: "",
    };
    let files = one_file(alloc, &whole("a", &bytes))?;
    runs(&rt, alloc, "check --csv a", files, &want)?;
    let cut = &bytes[..bytes.len().saturating_sub(1)];
    let want = malformed("rank 0 malformed at 29: Truncated\n");
    let files = one_file(alloc, &whole("a", cut))?;
    runs(&rt, alloc, "check --csv a", files, &want)
}

#[test]
fn texts_of_streams(rt: HostRuntime) -> Result<(), Fail> {
    let alloc = rt.alloc();
    let bytes = stream(alloc, 0, 1, &[])?;
    let want = Answer {
        status: Status::Clean,
        out: "stream 1 0 1 32767\n0 Init\n1 Finalize\nend 2\n",
        err: "",
    };
    let files = one_file(alloc, &whole("a", &bytes))?;
    runs(&rt, alloc, "dump a", files, &want)?;
    // Any rank of any run.
    let bytes = stream(alloc, 2, 3, &[&send(-1, 7)])?;
    let want = Answer {
        status: Status::Clean,
        out: "stream 1 2 3 32767\n0 Init\n1 Send 4096 -1 7 7 0 1\n2 Finalize\nend 3\n",
        err: "",
    };
    let files = one_file(alloc, &whole("a", &bytes))?;
    runs(&rt, alloc, "dump a", files, &want)
}

#[test]
fn streams_without_text(rt: HostRuntime) -> Result<(), Fail> {
    let alloc = rt.alloc();
    let bytes = stream(alloc, 0, 1, &[])?;
    let cut = &bytes[..bytes.len().saturating_sub(1)];
    let files = one_file(alloc, &whole("a", cut))?;
    let want = malformed("stream malformed at 29: Truncated\n");
    runs(&rt, alloc, "dump a", files, &want)?;
    let files = one_file(alloc, &whole("a", &bytes))?;
    runs(
        &rt,
        alloc,
        "dump b",
        files,
        &outside("stream read failed\n"),
    )?;
    let wide = header(alloc, 0, 1025)?;
    let files = one_file(alloc, &whole("a", &wide))?;
    let want = malformed("stream malformed at 9: WrongSize\n");
    runs(&rt, alloc, "dump a", files, &want)
}

#[test]
fn each_read_of_a_dump_fails(rt: HostRuntime) -> Result<(), Fail> {
    let alloc = rt.alloc();
    let bytes = stream(alloc, 0, 1, &[])?;
    let words = words_of(alloc, "dump a")?;
    for read in 0..41u64 {
        let fail = [read];
        let mut trace = MemTrace::new(alloc, one_file(alloc, &by_bytes("a", &bytes, &fail))?);
        let mut out = sink(alloc, &[])?;
        let mut err = sink(alloc, &[])?;
        let status = serial_command(alloc, &words, &mut trace, &mut out, &mut err);
        // Read 39 is the one that finds the end.
        if read < 40 {
            assert_eq!(rt; status, Status::Outside, "read {read}");
            assert_eq!(rt; out.bytes(), "".as_bytes());
            assert_eq!(rt; err.bytes(), "stream read failed\n".as_bytes());
        } else {
            assert_eq!(rt; status, Status::Clean);
        }
    }
    Ok(())
}

#[test]
fn first_put_fails(rt: HostRuntime) -> Result<(), Fail> {
    let alloc = rt.alloc();
    let bytes = stream(alloc, 0, 1, &[])?;
    for line in ["check a", "check --csv a", "dump a"] {
        let words = words_of(alloc, line)?;
        let mut trace = MemTrace::new(alloc, one_file(alloc, &whole("a", &bytes))?);
        let mut out = sink(alloc, &[0])?;
        let mut err = sink(alloc, &[])?;
        let status = serial_command(alloc, &words, &mut trace, &mut out, &mut err);
        assert_eq!(rt; status, Status::Outside, "{line}");
        assert_eq!(rt; err.bytes(), "write failed\n".as_bytes(), "{line}");
    }
    Ok(())
}

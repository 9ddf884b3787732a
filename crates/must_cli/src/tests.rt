//! Worked rows of the program, over files and sinks in memory.

ghost use Rattle.std.specs.Prelude.{◌<◌, All, OnOk, IfOk};

mod buffers;
mod outputs;
mod settings;
mod waits;
mod waves;

use crate::run::{run, serial_command};
use crate::status::Status;
use must_base::{MemFile, MemSink, MemTrace, NameText, OpenGate};
use std::alloc::Global;
use std::process::Abort;
use std::test::Fail;

const INIT: [u8; 6] = [1, 0, 0, 0, 0, 0];

const FINALIZE: [u8; 6] = [2, 0, 0, 0, 0, 0];

/// A record of Send(4096, count, INT, dest, tag 0, world), returned.
fn send(count: i32, dest: i32) -> [u8; 34] {
    let c = count.to_be_bytes();
    let d = dest.to_be_bytes();
    [
        3, 0, 0, 0, 0, 28, // kind, flags, length
        0, 0, 0, 0, 0, 0, 16, 0, // buf
        c[0], c[1], c[2], c[3], // count
        0, 0, 0, 7, // type
        d[0], d[1], d[2], d[3], // dest
        0, 0, 0, 0, // tag
        0, 0, 0, 1, // comm
    ]
}

/// A record of Recv(8192, count, INT, source, tag 0, comm; 0, 0), returned.
fn recv(count: i32, source: i32, comm: u8) -> [u8; 43] {
    let c = count.to_be_bytes();
    let s = source.to_be_bytes();
    [
        7, 0, 0, 0, 0, 37, // kind, flags, length
        0, 0, 0, 0, 0, 0, 32, 0, // buf
        c[0], c[1], c[2], c[3], // count
        0, 0, 0, 7, // type
        s[0], s[1], s[2], s[3], // source
        0, 0, 0, 0, // tag
        0, 0, 0, comm, // comm
        0, 0, 0, 0, 0, 0, 0, 0, 0, // status
    ]
}

/// Ssend(4096, -1, INT, 5, tag 0, world), returned.
const SSEND: [u8; 34] = [
    4, 0, 0, 0, 0, 28, // kind, flags, length
    0, 0, 0, 0, 0, 0, 16, 0, // buf
    255, 255, 255, 255, // count
    0, 0, 0, 7, // type
    0, 0, 0, 5, // dest
    0, 0, 0, 0, // tag
    0, 0, 0, 1, // comm
];

/// Irecv(8192, -1, INT, 5, tag 0, world; request 64), returned.
const IRECV: [u8; 38] = [
    15, 0, 0, 0, 0, 32, // kind, flags, length
    0, 0, 0, 0, 0, 0, 32, 0, // buf
    255, 255, 255, 255, // count
    0, 0, 0, 7, // type
    0, 0, 0, 5, // source
    0, 0, 0, 0, // tag
    0, 0, 0, 1, // comm
    0, 0, 0, 64, // request
];

/// Wait(request 64; 0, 0), returned.
const WAIT: [u8; 19] = [
    16, 0, 0, 0, 0, 13, // kind, flags, length
    0, 0, 0, 64, // request
    0, 0, 0, 0, 0, 0, 0, 0, 0, // status
];

/// A record of Waitany(request 64; index, 0, 0), returned.
fn waitany(index: i32) -> [u8; 27] {
    let i = index.to_be_bytes();
    [
        18, 0, 0, 0, 0, 21, // kind, flags, length
        0, 0, 0, 1, // number of requests
        0, 0, 0, 64, // request
        i[0], i[1], i[2], i[3], // index
        0, 0, 0, 0, 0, 0, 0, 0, 0, // status
    ]
}

/// TypeContiguous(-1, INT; type 65), returned.
const TYPE_CONTIGUOUS: [u8; 18] = [
    26, 0, 0, 0, 0, 12, // kind, flags, length
    255, 255, 255, 255, // count
    0, 0, 0, 7, // old
    0, 0, 0, 65, // made
];

/// CommDup(world; communicator 66 of rank 0), returned.
const COMM_DUP: [u8; 22] = [
    48, 0, 0, 0, 0, 16, // kind, flags, length
    0, 0, 0, 1, // comm
    0, 0, 0, 66, // made
    0, 0, 0, 1, // number of members
    0, 0, 0, 0, // member
];

/// Barrier(world), returned.
const BARRIER: [u8; 10] = [
    52, 0, 0, 0, 0, 4, // kind, flags, length
    0, 0, 0, 1, // comm
];

/// Reduce(not in place, 4096, 8192, -1, INT, SUM, root 5, world), returned.
const REDUCE: [u8; 43] = [
    62, 0, 0, 0, 0, 37, // kind, flags, length
    0, // in_place
    0, 0, 0, 0, 0, 0, 16, 0, // sbuf
    0, 0, 0, 0, 0, 0, 32, 0, // rbuf
    255, 255, 255, 255, // count
    0, 0, 0, 7, // type
    0, 0, 0, 3, // op
    0, 0, 0, 5, // root
    0, 0, 0, 1, // comm
];

/// The header of a rank's stream, with tags up to 32767.
fn header(alloc: Global, rank: u32, size: u32) -> Result<Vec<u8>, Fail> {
    let mut bytes = Vec::from_slice(alloc, b"MTRC\x01")?;
    bytes.extend_from_slice(&rank.to_be_bytes())?;
    bytes.extend_from_slice(&size.to_be_bytes())?;
    bytes.extend_from_slice(&[0, 0, 0x7f, 0xff])?;
    Ok(bytes)
}

/// The front of a rank's stream: the header, and Init.
fn front(alloc: Global, rank: u32, size: u32) -> Result<Vec<u8>, Fail> {
    let mut bytes = header(alloc, rank, size)?;
    bytes.extend_from_slice(&INIT)?;
    Ok(bytes)
}

/// Adds the end record, behind so many calls.
fn end(bytes: &mut Vec<u8>, calls: u32) -> Result<(), Fail> {
    bytes.extend_from_slice(&[0, 0, 0, 0, 0, 4])?;
    bytes.extend_from_slice(&calls.to_be_bytes())?;
    Ok(())
}

/// Adds Finalize and the end record, behind so many calls.
fn finish(bytes: &mut Vec<u8>, calls: u32) -> Result<(), Fail> {
    bytes.extend_from_slice(&FINALIZE)?;
    end(bytes, calls.saturating_add(1))
}

/// The stream of a rank: Init, these records, Finalize and the end record.
fn stream(alloc: Global, rank: u32, size: u32, records: &[&[u8]]) -> Result<Vec<u8>, Fail> {
    let mut bytes = front(alloc, rank, size)?;
    for record in records {
        bytes.extend_from_slice(record)?;
    }
    finish(&mut bytes, u32::try_from(records.len())?.saturating_add(1))?;
    Ok(bytes)
}

fn name(alloc: Global, text: &str) -> Result<NameText, Fail> {
    Ok(NameText::new(alloc, text)?)
}

/// A file to add: its name, its bytes, how many it gives a read, and the reads that fail.
#[derive(Drop)]
struct Given<'a> {
    name: &'a str,
    bytes: &'a [u8],
    chunk: usize,
    fail: &'a [u64],
}

/// The files of a trace.
fn add_file(alloc: Global, files: &mut Vec<MemFile>, given: &Given) -> Result<(), Fail>
    requires { All (λ f. 0 < f.chunk) files.old.items }
    ensures { OnOk result (All (λ f. 0 < f.chunk) files.new.items) }
{
    let file = MemFile {
        name: name(alloc, given.name)?,
        bytes: given.bytes.to_vec(alloc)?,
        chunk: given.chunk.max(1),
        fail: given.fail.to_vec(alloc)?,
    };
    files.push(file)?;
    Ok(())
}

fn one_file(alloc: Global, given: &Given) -> Result<Vec<MemFile>, Fail>
    ensures { IfOk result (λ files. All (λ f. 0 < f.chunk) files.items) }
{
    let mut files = Vec::new(alloc);
    add_file(alloc, &mut files, given)?;
    Ok(files)
}

fn three_files(
    alloc: Global,
    first: &Given,
    second: &Given,
    third: &Given,
) -> Result<Vec<MemFile>, Fail>
    ensures { IfOk result (λ files. All (λ f. 0 < f.chunk) files.items) }
{
    let mut files = one_file(alloc, first)?;
    add_file(alloc, &mut files, second)?;
    add_file(alloc, &mut files, third)?;
    Ok(files)
}

/// The words, parted by blanks.
fn words_of(alloc: Global, text: &str) -> Result<Vec<NameText>, Fail> {
    let mut words = Vec::new(alloc);
    for word in text.split(' ') {
        if !word.is_empty() {
            words.push(name(alloc, word)?)?;
        }
    }
    Ok(words)
}

fn sink(alloc: Global, fail: &[u64]) -> Result<MemSink, Fail> {
    let mut sink = MemSink::new(alloc, fail.to_vec(alloc)?);
    sink.reserve(1000)?;
    Ok(sink)
}

/// What a run of the program is to answer.
#[derive(Drop)]
struct Answer<'a> {
    status: Status,
    out: &'a str,
    err: &'a str,
}

/// Runs these words over these files, and compares the status and what was put.
fn runs(
    rt: &impl Abort,
    alloc: Global,
    words: &str,
    files: Vec<MemFile>,
    want: &Answer,
) -> Result<(), Fail>
    requires { All (λ f. 0 < f.chunk) files.items }
{
    let words = words_of(alloc, words)?;
    let mut trace = MemTrace::new(alloc, files);
    let mut out = sink(alloc, &[])?;
    let mut err = sink(alloc, &[])?;
    let status = run(
        &(),
        alloc,
        &words,
        &mut trace,
        &mut out,
        &mut err,
        &OpenGate,
    );
    assert_eq!(rt; status, want.status, "{}", want.out);
    assert_eq!(rt; out.bytes(), want.out.as_bytes());
    assert_eq!(rt; err.bytes(), want.err.as_bytes());
    Ok(())
}

fn whole<'a>(name: &'a str, bytes: &'a [u8]) -> Given<'a> {
    Given {
        name,
        bytes,
        chunk: 3,
        fail: &[],
    }
}

fn failing<'a>(name: &'a str, bytes: &'a [u8], fail: &'a [u64]) -> Given<'a> {
    Given {
        name,
        bytes,
        chunk: 3,
        fail,
    }
}

fn by_bytes<'a>(name: &'a str, bytes: &'a [u8], fail: &'a [u64]) -> Given<'a> {
    Given {
        name,
        bytes,
        chunk: 1,
        fail,
    }
}

const CLEAN: Answer<'static> = Answer {
    status: Status::Clean,
    out: "violations 0\n",
    err: "",
};

/// Checks the one stream with these records between Init and Finalize.
fn one_rank(rt: &impl Abort, alloc: Global, records: &[&[u8]], want: &Answer) -> Result<(), Fail> {
    let bytes = stream(alloc, 0, 1, records)?;
    runs(
        rt,
        alloc,
        "check a",
        one_file(alloc, &whole("a", &bytes))?,
        want,
    )
}

/// Checks the streams `a` and `b` of two ranks, with these records between Init and Finalize.
fn two_ranks(
    rt: &impl Abort,
    alloc: Global,
    words: &str,
    first: &[&[u8]],
    second: &[&[u8]],
    want: &Answer,
) -> Result<(), Fail> {
    let a = stream(alloc, 0, 2, first)?;
    let b = stream(alloc, 1, 2, second)?;
    let mut files = one_file(alloc, &whole("a", &a))?;
    add_file(alloc, &mut files, &whole("b", &b))?;
    runs(rt, alloc, words, files, want)
}

fn found(out: &str) -> Answer<'_> {
    Answer {
        status: Status::Found,
        out,
        err: "",
    }
}

fn malformed(err: &str) -> Answer<'_> {
    Answer {
        status: Status::Malformed,
        out: "",
        err,
    }
}

fn outside(err: &str) -> Answer<'_> {
    Answer {
        status: Status::Outside,
        out: "",
        err,
    }
}

#[test]
fn reports_of_one_rank(rt: HostRuntime) -> Result<(), Fail> {
    let alloc = rt.alloc();
    one_rank(&rt, alloc, &[], &CLEAN)?;
    one_rank(
        &rt,
        alloc,
        &[&send(-1, 0)],
        &found("rank 0 call 1 part 0: error A1 negative count, see -, value -1\nviolations 1\n"),
    )?;
    one_rank(
        &rt,
        alloc,
        &[&send(1, 1), &send(1, -1)],
        &found("rank 0 call 1 part 0: error A2 peer out of range, see -, value 1\nviolations 1\n"),
    )?;
    // A send has no wildcard; a receive has, and its communicator 2 has one member. Nobody sends, so the rank waits for itself.
    one_rank(
        &rt,
        alloc,
        &[
            &send(1, -2),
            &recv(1, -2, 1),
            &recv(-5, 1, 2),
            &recv(1, 0, 2),
        ],
        &found(
            "rank 0 call 1 part 0: error A2 peer out of range, see -, value -2\nrank 0 call 2 part 0: error M4 receive never matched, see -, value 0\nrank 0 call 2 part 0: error W1 blocked in the deadlock core, see 0:6, value 0\nrank 0 call 3 part 0: error A1 negative count, see -, value -5\nrank 0 call 3 part 0: error A2 peer out of range, see -, value 1\nrank 0 call 4 part 0: error M4 receive never matched, see -, value 0\nviolations 6\n",
        ),
    )
}

/// Checks the one stream with these records and no others.
fn bare_rank(rt: &impl Abort, alloc: Global, records: &[&[u8]], want: &Answer) -> Result<(), Fail> {
    let mut bytes = header(alloc, 0, 1)?;
    for record in records {
        bytes.extend_from_slice(record)?;
    }
    end(&mut bytes, u32::try_from(records.len())?)?;
    runs(
        rt,
        alloc,
        "check a",
        one_file(alloc, &whole("a", &bytes))?,
        want,
    )
}

#[test]
fn init_and_finalize(rt: HostRuntime) -> Result<(), Fail> {
    let alloc = rt.alloc();
    bare_rank(
        &rt,
        alloc,
        &[],
        &found("rank 0 call 0 part 0: error I3 no Finalize, see -, value 0\nviolations 1\n"),
    )?;
    bare_rank(
        &rt,
        alloc,
        &[&FINALIZE, &BARRIER],
        &found(
            "rank 0 call 0 part 0: error I1 call before Init or second Init, see -, value 0\nrank 0 call 1 part 0: error I1 call before Init or second Init, see -, value 0\nrank 0 call 1 part 0: error I2 call after Finalize, see 0:0, value 0\nviolations 3\n",
        ),
    )?;
    bare_rank(
        &rt,
        alloc,
        &[&INIT, &INIT, &BARRIER],
        &found(
            "rank 0 call 1 part 0: error I1 call before Init or second Init, see 0:0, value 0\nrank 0 call 3 part 0: error I3 no Finalize, see -, value 0\nviolations 2\n",
        ),
    )
}

#[test]
fn wrong_arguments_of_several_kinds(rt: HostRuntime) -> Result<(), Fail> {
    let alloc = rt.alloc();
    // A root that is out of range leaves the communicator and the root alone significant.
    one_rank(
        &rt,
        alloc,
        &[
            &SSEND,
            &IRECV,
            &WAIT,
            &TYPE_CONTIGUOUS,
            &COMM_DUP,
            &BARRIER,
            &REDUCE,
        ],
        &found(
            "rank 0 call 1 part 0: error A1 negative count, see -, value -1\nrank 0 call 1 part 0: error A2 peer out of range, see -, value 5\nrank 0 call 2 part 0: error A1 negative count, see -, value -1\nrank 0 call 2 part 0: error A2 peer out of range, see -, value 5\nrank 0 call 4 part 0: error A1 negative count, see -, value -1\nrank 0 call 7 part 0: error A4 root out of range, see -, value 5\nrank 0 call 8 part 0: warning L1 type not freed, see 0:4, value 65\nrank 0 call 8 part 0: warning L2 communicator not freed, see 0:5, value 66\nviolations 8\n",
        ),
    )?;
    one_rank(
        &rt,
        alloc,
        &[&IRECV],
        &found(
            "rank 0 call 1 part 0: error A1 negative count, see -, value -1\nrank 0 call 1 part 0: error A2 peer out of range, see -, value 5\nrank 0 call 2 part 0: warning L5 request open, see 0:1, value 64\nviolations 3\n",
        ),
    )?;
    // An index is below the number of requests.
    one_rank(
        &rt,
        alloc,
        &[&IRECV, &waitany(0)],
        &found(
            "rank 0 call 1 part 0: error A1 negative count, see -, value -1\nrank 0 call 1 part 0: error A2 peer out of range, see -, value 5\nviolations 2\n",
        ),
    )?;
    one_rank(
        &rt,
        alloc,
        &[&IRECV, &waitany(1)],
        &malformed("rank 0 malformed at 61: Field\n"),
    )
}

#[test]
fn refused_words_and_streams(rt: HostRuntime) -> Result<(), Fail> {
    let alloc = rt.alloc();
    let usage = Answer {
        status: Status::Usage,
        out: "",
        err: "usage: must_cli check|dump|drill\n",
    };
    let empty = stream(alloc, 0, 1, &[])?;
    for words in [
        "",
        "check",
        "chek a",
        "check --fan-in=8 a",
        "check a --serial",
        "check -",
    ] {
        runs(
            &rt,
            alloc,
            words,
            one_file(alloc, &whole("a", &empty))?,
            &usage,
        )?;
    }
    let cut = &empty[..empty.len().saturating_sub(1)];
    let mut longer = empty.clone()?;
    longer.push(0)?;
    let none = one_file(alloc, &whole("a", &[]))?;
    runs(
        &rt,
        alloc,
        "check a",
        none,
        &malformed("rank 0 malformed at 0: Truncated\n"),
    )?;
    let without_last = one_file(alloc, &whole("a", cut))?;
    runs(
        &rt,
        alloc,
        "check a",
        without_last,
        &malformed("rank 0 malformed at 29: Truncated\n"),
    )?;
    let one_more = one_file(alloc, &whole("a", &longer))?;
    runs(
        &rt,
        alloc,
        "check a",
        one_more,
        &malformed("rank 0 malformed at 39: AfterEnd\n"),
    )?;
    let of_one = one_file(alloc, &whole("a", &empty))?;
    runs(
        &rt,
        alloc,
        "check a a",
        of_one,
        &malformed("rank 0 malformed at 9: WrongSize\n"),
    )?;
    let other = one_file(alloc, &whole("a", &empty))?;
    runs(
        &rt,
        alloc,
        "check b",
        other,
        &outside("rank 0 read failed\n"),
    )
}

#[test]
fn runs_of_many_ranks(rt: HostRuntime) -> Result<(), Fail> {
    let alloc = rt.alloc();
    let a = stream(alloc, 0, 3, &[&send(1, 2)])?;
    let b = stream(alloc, 1, 3, &[&send(1, 3)])?;
    let c = stream(alloc, 2, 3, &[])?;
    let cut = &b[..b.len().saturating_sub(1)];
    let files = three_files(alloc, &whole("a", &a), &whole("b", &b), &whole("c", &c))?;
    let line =
        "rank 0 call 1 part 0: error M3 send never received, see -, value 0\nrank 0 call 1 part 0: error W2 blocked outside the core, see 2:2, value 0\nrank 1 call 1 part 0: error A2 peer out of range, see -, value 3\nviolations 3\n";
    runs(&rt, alloc, "check a b c", files, &found(line))?;
    // The lowest rank that isn't complete is refused, also where a higher one fails or isn't there.
    let refused = malformed("rank 1 malformed at 63: Truncated\n");
    let files = three_files(
        alloc,
        &whole("a", &a),
        &whole("b", cut),
        &failing("c", &c, &[0]),
    )?;
    runs(&rt, alloc, "check a b c", files, &refused)?;
    let files = three_files(alloc, &whole("a", &a), &whole("b", cut), &whole("c", &c))?;
    runs(&rt, alloc, "check a b d", files, &refused)?;
    let files = three_files(
        alloc,
        &failing("a", &a, &[2]),
        &whole("b", cut),
        &whole("c", &c),
    )?;
    runs(
        &rt,
        alloc,
        "check a b c",
        files,
        &outside("rank 0 read failed\n"),
    )?;
    let files = three_files(alloc, &whole("a", &a), &whole("b", &b), &whole("c", &c))?;
    runs(
        &rt,
        alloc,
        "check b a c",
        files,
        &malformed("rank 0 malformed at 5: WrongRank\n"),
    )
}

#[test]
fn each_read_fails(rt: HostRuntime) -> Result<(), Fail> {
    let alloc = rt.alloc();
    let bytes = stream(alloc, 0, 1, &[])?;
    let words = words_of(alloc, "check a")?;
    for read in 0..41u64 {
        let fail = [read];
        let mut trace = MemTrace::new(alloc, one_file(alloc, &by_bytes("a", &bytes, &fail))?);
        let mut out = sink(alloc, &[])?;
        let mut err = sink(alloc, &[])?;
        let status = serial_command(alloc, &words, &mut trace, &mut out, &mut err);
        // Read 39 is the one that finds the end.
        if read < 40 {
            assert_eq!(rt; status, Status::Outside, "read {read}");
            assert_eq!(rt; out.bytes(), "".as_bytes());
            assert_eq!(rt; err.bytes(), "rank 0 read failed\n".as_bytes());
        } else {
            assert_eq!(rt; status, Status::Clean);
        }
    }
    Ok(())
}

#[test]
fn each_put_fails(rt: HostRuntime) -> Result<(), Fail> {
    let alloc = rt.alloc();
    let words = words_of(alloc, "check a")?;
    let bytes = stream(alloc, 0, 1, &[&send(1, 1), &send(1, -1)])?;
    let text: &[u8] =
        b"rank 0 call 1 part 0: error A2 peer out of range, see -, value 1\nviolations 1\n";
    for put in 0..3u64 {
        let mut trace = MemTrace::new(alloc, one_file(alloc, &whole("a", &bytes))?);
        let mut out = sink(alloc, &[put])?;
        let mut err = sink(alloc, &[])?;
        let status = serial_command(alloc, &words, &mut trace, &mut out, &mut err);
        assert!(rt; text.starts_with(out.bytes()), "put {put}");
        if status == Status::Outside {
            assert_eq!(rt; err.bytes(), "write failed\n".as_bytes());
        } else {
            assert_eq!(rt; status, Status::Found);
            assert!(rt; put > 0);
        }
    }
    // A line on the error stream that is cut leaves the status.
    let line: &[u8] = b"rank 0 malformed at 97: Truncated\n";
    let cut = &bytes[..bytes.len().saturating_sub(1)];
    for put in 0..9u64 {
        let mut trace = MemTrace::new(alloc, one_file(alloc, &whole("a", cut))?);
        let mut out = sink(alloc, &[])?;
        let mut err = sink(alloc, &[put])?;
        let status = serial_command(alloc, &words, &mut trace, &mut out, &mut err);
        assert_eq!(rt; status, Status::Malformed, "put {put}");
        assert_eq!(rt; out.bytes(), "".as_bytes());
        assert!(rt; line.starts_with(err.bytes()), "put {put}");
    }
    Ok(())
}

/// A sink with this much room.
fn wide_sink(alloc: Global, room: usize) -> Result<MemSink, Fail> {
    let mut sink = MemSink::new(alloc, Vec::new(alloc));
    sink.reserve(room)?;
    Ok(sink)
}

#[test]
fn many_findings(rt: HostRuntime) -> Result<(), Fail> {
    let alloc = rt.alloc();
    let mut bytes = front(alloc, 0, 1)?;
    for _ in 0..100_000u32 {
        bytes.extend_from_slice(&send(-1, 0))?;
    }
    finish(&mut bytes, 100_001)?;
    let words = words_of(alloc, "check a")?;
    let given = Given {
        name: "a",
        bytes: &bytes,
        chunk: 4096,
        fail: &[],
    };
    let mut trace = MemTrace::new(alloc, one_file(alloc, &given)?);
    let mut out = wide_sink(alloc, 10_000_000)?;
    let mut err = sink(alloc, &[])?;
    let status = serial_command(alloc, &words, &mut trace, &mut out, &mut err);
    assert_eq!(rt; status, Status::Found);
    let last =
        b"rank 0 call 100000 part 0: error A1 negative count, see -, value -1\nviolations 100000\n";
    assert!(rt; out.bytes().ends_with(last));
    let lines = out.bytes().iter().filter(|byte| **byte == b'\n').count();
    assert_eq!(rt; lines, 100_001);
    Ok(())
}

/// The files `f0`, `f1` and so on of a run of so many ranks, each with a send to the rank that isn't there.
fn add_ranks(
    alloc: Global,
    files: &mut Vec<MemFile>,
    words: &mut Vec<NameText>,
    size: u32,
) -> Result<(), Fail>
    requires { All (λ f. 0 < f.chunk) files.old.items }
    ensures { OnOk result (All (λ f. 0 < f.chunk) files.new.items) }
{
    for rank in 0..size {
        let text = format!(in alloc; "f{rank}")?;
        let mut bytes = front(alloc, rank, size)?;
        bytes.extend_from_slice(&send(1, i32::try_from(size)?))?;
        finish(&mut bytes, 2)?;
        add_file(alloc, files, &whole(text.as_str(), &bytes))?;
        words.push(name(alloc, text.as_str())?)?;
    }
    Ok(())
}

#[test]
fn many_ranks(rt: HostRuntime) -> Result<(), Fail> {
    let alloc = rt.alloc();
    let mut files = Vec::new(alloc);
    let mut words = words_of(alloc, "check")?;
    add_ranks(alloc, &mut files, &mut words, 1024)?;
    let mut trace = MemTrace::new(alloc, files);
    let mut out = wide_sink(alloc, 100_000)?;
    let mut err = sink(alloc, &[])?;
    let status = serial_command(alloc, &words, &mut trace, &mut out, &mut err);
    assert_eq!(rt; status, Status::Found);
    let last =
        b"rank 1023 call 1 part 0: error A2 peer out of range, see -, value 1024\nviolations 1024\n";
    assert!(rt; out.bytes().ends_with(last));
    // One file more is refused.
    words.push(name(alloc, "f0")?)?;
    let mut out = sink(alloc, &[])?;
    let status = serial_command(alloc, &words, &mut trace, &mut out, &mut err);
    assert_eq!(rt; status, Status::Usage);
    Ok(())
}

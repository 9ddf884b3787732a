//! Checks with a rules file.

ghost use Rattle.std.specs.Prelude.{◌<◌, All, IfOk};

use super::{
    Answer, CLEAN, Given, add_file, by_bytes, found, malformed, one_file, outside, runs, send,
    sink, stream, whole, words_of,
};
use crate::run::serial_command;
use crate::status::Status;
use must_base::{MemFile, MemTrace};
use std::alloc::Global;
use std::process::Abort;
use std::test::Fail;

/// A stream, and the rules file.
fn two_files(alloc: Global, first: &Given, second: &Given) -> Result<Vec<MemFile>, Fail>
    ensures { IfOk result (λ files. All (λ f. 0 < f.chunk) files.items) }
{
    let mut files = one_file(alloc, first)?;
    add_file(alloc, &mut files, second)?;
    Ok(files)
}

/// Runs the words over the stream `a` and the rules file `r.toml`.
fn with_rules(
    rt: &impl Abort,
    alloc: Global,
    words: &str,
    bytes: &[u8],
    rules: &str,
    want: &Answer,
) -> Result<(), Fail> {
    let files = two_files(
        alloc,
        &whole("a", bytes),
        &whole("r.toml", rules.as_bytes()),
    )?;
    runs(rt, alloc, words, files, want)
}

const REFUSED: Answer<'static> = Answer {
    status: Status::Settings,
    out: "",
    err: "rules file refused\n",
};

#[test]
fn severities(rt: HostRuntime) -> Result<(), Fail> {
    let alloc = rt.alloc();
    let words = "check --rules r.toml a";
    let bytes = stream(alloc, 0, 1, &[&send(1, 1), &send(1, -1)])?;
    with_rules(&rt, alloc, words, &bytes, "[rules]\nA2 = \"off\"\n", &CLEAN)?;
    let warning = found(
        "rank 0 call 1 part 0: warning A2 peer out of range, see -, value 1\nviolations 1\n",
    );
    with_rules(
        &rt,
        alloc,
        words,
        &bytes,
        "rules = { A2 = \"warning\" }",
        &warning,
    )?;
    let error = found(
        "rank 0 call 1 part 0: error A2 peer out of range, see -, value 1\nviolations 1\n",
    );
    with_rules(&rt, alloc, words, &bytes, "sends = \"buffered\"\n", &error)?;
    let csv = Answer {
        status: Status::Clean,
        out: "rank,call,part,severity,rule,see_rank,see_call,value\n",
        err: "",
    };
    with_rules(
        &rt,
        alloc,
        "check --sends strict --csv --rules r.toml --serial --fan-in 2 a",
        &bytes,
        "[rules]\nA2 = \"off\"\n",
        &csv,
    )
}

#[test]
fn refused_rules_files(rt: HostRuntime) -> Result<(), Fail> {
    let alloc = rt.alloc();
    let words = "check --rules r.toml a";
    let bytes = stream(alloc, 0, 1, &[])?;
    let cut = &bytes[..bytes.len().saturating_sub(1)];
    with_rules(&rt, alloc, words, &bytes, "sends = \"maybe\"\n", &REFUSED)?;
    // The rules file comes first.
    with_rules(&rt, alloc, words, cut, "sends = \"maybe\"\n", &REFUSED)?;
    with_rules(
        &rt,
        alloc,
        words,
        cut,
        "",
        &malformed("rank 0 malformed at 29: Truncated\n"),
    )?;
    with_rules(
        &rt,
        alloc,
        "check --rules s.toml a",
        cut,
        "",
        &outside("rules file read failed\n"),
    )
}

#[test]
fn each_read_of_the_rules_file_fails(rt: HostRuntime) -> Result<(), Fail> {
    let alloc = rt.alloc();
    let bytes = stream(alloc, 0, 1, &[])?;
    let words = words_of(alloc, "check --rules r.toml a")?;
    // Read 9 is the one that finds the end.
    for read in 0..11u64 {
        let fail = [read];
        let files = two_files(
            alloc,
            &whole("a", &bytes),
            &by_bytes("r.toml", b"[rules]\n#", &fail),
        )?;
        let mut trace = MemTrace::new(alloc, files);
        let mut out = sink(alloc, &[])?;
        let mut err = sink(alloc, &[])?;
        let status = serial_command(alloc, &words, &mut trace, &mut out, &mut err);
        if read < 10 {
            assert_eq!(rt; status, Status::Outside, "read {read}");
            assert_eq!(rt; out.bytes(), "".as_bytes());
            assert_eq!(rt; err.bytes(), "rules file read failed\n".as_bytes());
        } else {
            assert_eq!(rt; status, Status::Clean);
        }
    }
    Ok(())
}

//! Sources, sinks and traces over memory, and a trace of real files.

use super::*;
use std::alloc::Global;
use std::process::Abort;
use std::test::Fail;

/// Reads once into four bytes, and compares what came; none stands for a failure.
pub(crate) fn reads<S: Source>(rt: &impl Abort, source: &mut S, want: Option<&[u8]>) {
    let mut buf = [0; 4];
    match (source.read(&mut buf), want) {
        (Ok(count), Some(bytes)) => assert_eq!(rt; &buf[..count], bytes),
        (Err(Failed), None) => {}
        _ => assert!(rt; false, "another answer"),
    }
}

#[test]
fn sources_in_memory(rt: HostRuntime) -> Result<(), Fail> {
    let alloc = rt.alloc();
    let bytes = b"abcde".to_vec(alloc)?;
    let mut source = MemSource::new(bytes, 2, [1].to_vec(alloc)?);
    reads(&rt, &mut source, Some(b"ab"));
    reads(&rt, &mut source, None);
    reads(&rt, &mut source, Some(b"cd"));
    reads(&rt, &mut source, Some(b"e"));
    reads(&rt, &mut source, Some(b""));
    reads(&rt, &mut source, Some(b""));
    let mut sure = SureSource::new(b"abcde".to_vec(alloc)?);
    reads(&rt, &mut sure, Some(b"abcd"));
    reads(&rt, &mut sure, Some(b"e"));
    reads(&rt, &mut sure, Some(b""));
    let mut missing = MemSource::missing(alloc);
    reads(&rt, &mut missing, None);
    Ok(())
}

#[test]
fn sinks_in_memory(rt: HostRuntime) -> Result<(), Fail> {
    let alloc = rt.alloc();
    let mut sink = MemSink::new(alloc, [1].to_vec(alloc)?);
    assert_eq!(rt; sink.put(b"a"), Err(Failed), "no room yet");
    sink.reserve(3)?;
    assert_eq!(rt; sink.put(b"a"), Err(Failed), "put 1 fails");
    assert_eq!(rt; sink.put(b"ab"), Ok(()));
    assert_eq!(rt; sink.put(b"cd"), Err(Failed), "no more room");
    assert_eq!(rt; sink.put(b"c"), Ok(()));
    assert_eq!(rt; sink.bytes(), "abc".as_bytes());
    Ok(())
}

fn named(alloc: Global, text: &str) -> Result<NameText, Fail> {
    Ok(NameText::new(alloc, text)?)
}

#[test]
fn traces_in_memory(rt: HostRuntime) -> Result<(), Fail> {
    let alloc = rt.alloc();
    let mut files = Vec::new(alloc);
    files.push(MemFile {
        name: named(alloc, "a")?,
        bytes: b"xy".to_vec(alloc)?,
        chunk: 1,
        fail: Vec::new(alloc),
    })?;
    let mut trace = MemTrace::new(alloc, files);
    let mut names = Vec::new(alloc);
    names.push(named(alloc, "b")?)?;
    names.push(named(alloc, "a")?)?;
    trace.bind(alloc, &names)?;
    let parts = trace.parts();
    assert_eq!(rt; parts.len(), 2);
    reads(&rt, &mut parts[0], None);
    reads(&rt, &mut parts[1], Some(b"x"));
    // A new bind makes new parts.
    trace.bind(alloc, &names)?;
    let parts = trace.parts();
    assert_eq!(rt; parts.len(), 2);
    reads(&rt, &mut parts[1], Some(b"x"));
    reads(&rt, &mut parts[1], Some(b"y"));
    reads(&rt, &mut parts[1], Some(b""));
    Ok(())
}

#[test]
fn a_trace_of_real_files(rt: HostRuntime) -> Result<(), Fail> {
    let alloc = rt.alloc();
    std::fs::write(&rt, "must_base_trace.bin", b"abcdefg")?;
    let mut names = Vec::new(alloc);
    names.push(named(alloc, "must_base_trace.bin")?)?;
    names.push(named(alloc, "must_base_trace.bin")?)?;
    let mut trace = FileTrace::new(alloc, rt.clone()?);
    trace.bind(alloc, &names)?;
    let parts = trace.parts();
    assert_eq!(rt; parts.len(), 2);
    // The parts read the same file, each for itself.
    reads(&rt, &mut parts[0], Some(b"abcd"));
    reads(&rt, &mut parts[1], Some(b"abcd"));
    reads(&rt, &mut parts[1], Some(b"efg"));
    reads(&rt, &mut parts[0], Some(b"efg"));
    std::fs::remove_file(&rt, "must_base_trace.bin")?;
    Ok(())
}

#[test]
fn an_open_gate(rt: HostRuntime) {
    OpenGate.at_batch(&rt, 0, 1, 2);
}

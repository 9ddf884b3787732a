//! The adapters over real files, a pipe and a full device. What no clause says of them: that the bytes of a file come whole
//! and in order, and that a put is seen at once.

use super::{FileSource, Opening, StreamSink};
use crate::name::NameText;
use crate::outside::{Failed, Sink, Source};
use crate::tests::reads;
use std::alloc::Global;
use std::fs;
use std::io::{self, BufWriter, Write};
use std::os::fd::AsRawFd;
use std::process::Abort;
use std::test::Fail;

fn source(rt: HostRuntime, path: &str) -> Result<FileSource<HostRuntime>, Fail> {
    let name = NameText::new(rt.alloc(), path)?;
    Ok(FileSource {
        rt,
        name,
        state: Opening::Unopened,
        faults: 0,
    })
}

/// Bytes whose stretches differ.
fn long_bytes(alloc: Global, count: u32) -> Result<Vec<u8>, Fail> {
    let mut bytes = Vec::new(alloc);
    for i in 0..count {
        bytes.push((i % 251) as u8 ^ (i / 251 % 256) as u8)?;
    }
    Ok(bytes)
}

/// Reads a source to its end, 4096 bytes at most at a time; nothing where a read failed.
fn read_all<S: Source>(alloc: Global, source: &mut S) -> Result<Vec<u8>, Fail> {
    let mut buf = [0u8; 4096];
    let mut bytes = Vec::new(alloc);
    for _ in 0..100u32 {
        let count = source.read(&mut buf).unwrap_or(0);
        if count == 0 {
            break;
        }
        bytes.extend_from_slice(&buf[..count])?;
    }
    Ok(bytes)
}

/// Three puts, and five reads: of 4096 bytes, of fewer, and the end.
#[test]
fn a_long_file(rt: HostRuntime) -> Result<(), Fail> {
    let bytes = long_bytes(rt.alloc(), 15_000)?;
    let mut sink = StreamSink::new(fs::create(&rt, "must_base_long.bin")?);
    for piece in bytes.chunks(7_000) {
        assert_eq!(rt; sink.put(piece), Ok(()));
    }
    let mut source = source(rt.clone()?, "must_base_long.bin")?;
    let came = read_all(rt.alloc(), &mut source)?;
    assert!(rt; came == bytes);
    fs::remove_file(&rt, "must_base_long.bin")?;
    Ok(())
}

fn write_and_read(
    rt: &impl Abort,
    writer: &mut impl Write,
    bytes: &[u8],
    source: &mut impl Source,
) -> Result<(), Fail> {
    writer.write_all(bytes)?;
    reads(rt, source, Some(bytes));
    Ok(())
}

/// A read from a pipe gives what is there, which is less than it asks. That isn't the end.
#[test]
fn a_short_read(rt: HostRuntime) -> Result<(), Fail> {
    let (reader, mut writer) = io::pipe(&rt)?;
    let path = format!(in rt.alloc(); "/proc/self/fd/{}", reader.as_raw_fd())?;
    let mut source = source(rt.clone()?, path.as_str())?;
    write_and_read(&rt, &mut writer, b"ab", &mut source)?;
    write_and_read(&rt, &mut writer, b"c", &mut source)?;
    write_and_read(&rt, &mut writer, b"defg", &mut source)?;
    drop(writer);
    reads(&rt, &mut source, Some(b""));
    reads(&rt, &mut source, Some(b""));
    Ok(())
}

/// Another reader of the file sees what was put while the sink, over a writer that holds bytes back, is still there.
#[test]
fn a_put_is_seen(rt: HostRuntime) -> Result<(), Fail> {
    let file = fs::create(&rt, "must_base_seen.bin")?;
    let mut sink = StreamSink::new(BufWriter::new(rt.alloc(), file)?);
    assert_eq!(rt; sink.put(b"abc"), Ok(()));
    let seen = fs::read(&rt, "must_base_seen.bin")?;
    assert_eq!(rt; seen.as_slice(), b"abc".as_slice());
    assert_eq!(rt; sink.put(b"de"), Ok(()));
    let seen = fs::read(&rt, "must_base_seen.bin")?;
    assert_eq!(rt; seen.as_slice(), b"abcde".as_slice());
    fs::remove_file(&rt, "must_base_seen.bin")?;
    Ok(())
}

#[test]
fn a_put_that_fails(rt: HostRuntime) -> Result<(), Fail> {
    let mut sink = StreamSink::new(fs::create(&rt, "/dev/full")?);
    assert_eq!(rt; sink.put(b"abc"), Err(Failed));
    assert_eq!(rt; sink.faults, 1);
    Ok(())
}

/// A name that isn't there can't be opened, and a folder can't be read. Both stay failed, and each read is counted.
#[test]
fn reads_that_fail(rt: HostRuntime) -> Result<(), Fail> {
    let mut folder = source(rt.clone()?, ".")?;
    reads(&rt, &mut folder, None);
    reads(&rt, &mut folder, None);
    assert_eq!(rt; folder.faults, 2);
    let mut late = source(rt.clone()?, "must_base_late.bin")?;
    reads(&rt, &mut late, None);
    fs::write(&rt, "must_base_late.bin", b"abc")?;
    reads(&rt, &mut late, None);
    assert_eq!(rt; late.faults, 2);
    fs::remove_file(&rt, "must_base_late.bin")?;
    Ok(())
}

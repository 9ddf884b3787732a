//! Records byte by byte, with the answers of docs/FORMAT.md.

mod collective;
mod derive;
mod fields;
mod finish;
mod lengths;
mod object;
mod persist;
mod point;
mod started;
mod unfit;

use crate::{Step, fits, known_kinds, one_spelling, read_record, write_record};
use must_call::Call;
use must_format::Cause;
use std::alloc::Global;
use std::process::Abort;
use std::test::Fail;

const INIT: &[u8] = &[1, 0, 0, 0, 0, 0];

/// A record in hexadecimal digits, the name of its kind, and the numbers of its payload with a space between each two.
pub struct Case {
    pub name: &'static str,
    pub record: &'static str,
    pub numbers: &'static str,
}

/// A record in hexadecimal digits, and why it is refused; none where it is a record.
pub struct Judged {
    pub name: &'static str,
    pub record: &'static str,
    pub fault: Option<Cause>,
}

fn digit_of(letter: u8) -> Option<u8> {
    match letter {
        b'0'..=b'9' => Some(letter - b'0'),
        b'a'..=b'f' => Some(letter - b'a' + 10),
        _ => None,
    }
}

/// The bytes that the digits of a text say; spaces say nothing.
fn bytes_of(alloc: Global, text: &str) -> Result<Vec<u8>, Fail> {
    let mut bytes = Vec::new(alloc);
    let mut high = None;
    for letter in text.bytes() {
        if let Some(digit) = digit_of(letter) {
            match high {
                None => high = Some(digit << 4),
                Some(part) => {
                    bytes.push(part | digit)?;
                    high = None;
                }
            }
        }
    }
    Ok(bytes)
}

/// Whether a record of so many bytes stands at the front, in version 2, which knows all kinds.
fn is_whole(bytes: &[u8], record: usize) -> bool {
    matches!(read_record(2, bytes), Step::Whole { len, .. } if len as usize == record)
}

/// Whether more is wanted where there are so many bytes alone.
fn is_cut(record: &[u8], len: usize) -> bool {
    matches!(read_record(2, &record[..record.len().min(len)]), Step::More)
}

/// The call whose record stands at the front.
fn call_of(alloc: Global, bytes: &[u8]) -> Result<Call, Fail> {
    let Step::Whole { call, .. } = read_record(2, bytes) else {
        return Err("no record".into());
    };
    let call = call.to_call(alloc).ok().ok_or("no memory")?;
    Ok(call)
}

/// Appends the record of a call.
fn append(alloc: Global, out: &mut Vec<u8>, call: &Call) -> Result<(), Fail> {
    if !fits(call) {
        return Err("a call that doesn't fit".into());
    }
    write_record(alloc, out, call).ok().ok_or("no memory")?;
    Ok(())
}

/// The numbers of a call that has less than 64, with a space between each two.
fn numbers_of(alloc: Global, call: &Call) -> Result<String, Fail> {
    let mut numbers = String::new(alloc);
    for i in 0..64 {
        if let Some(number) = call.number(i) {
            if i > 0 {
                numbers.push(' ')?;
            }
            write!(numbers, "{number}")?;
        }
    }
    Ok(numbers)
}

/// The call has the kind and the numbers of its record.
fn is_call_of(
    rt: &impl Abort,
    alloc: Global,
    call: &Call,
    case: &Case,
    record: &[u8],
) -> Result<(), Fail> {
    assert!(rt; record.len() >= 6, "{}", case.record);
    assert_eq!(rt; call.kind().number(), record[0], "{}", case.record);
    assert_eq!(rt; call.kind().name(), case.name, "{}", case.record);
    assert_eq!(rt; call.returned, record[1] == 0, "{}", case.record);
    let numbers = numbers_of(alloc, call)?;
    assert_eq!(rt; numbers.as_str(), case.numbers, "{}", case.record);
    Ok(())
}

/// The call is written as its record, behind what stands there.
fn is_written(
    rt: &impl Abort,
    alloc: Global,
    call: &Call,
    case: &Case,
    record: &[u8],
) -> Result<(), Fail> {
    let mut written = Vec::new(alloc);
    written.extend_from_slice(&[7, 0, 9])?;
    append(alloc, &mut written, call)?;
    let (front, behind) = written.split_at(written.len().min(3));
    assert_eq!(rt; front, [7, 0, 9].as_slice());
    assert_eq!(rt; behind, record, "{}", case.record);
    Ok(())
}

/// The record is read whole with these bytes behind it, and written again.
fn is_read(
    rt: &impl Abort,
    alloc: Global,
    case: &Case,
    record: &[u8],
    behind: &[u8],
) -> Result<(), Fail> {
    let mut bytes = Vec::new(alloc);
    bytes.extend_from_slice(record)?;
    bytes.extend_from_slice(behind)?;
    assert!(rt; is_whole(&bytes, record.len()), "{}", case.record);
    let call = call_of(alloc, &bytes)?;
    is_call_of(rt, alloc, &call, case, record)?;
    is_written(rt, alloc, &call, case, record)
}

/// Version 1 knows the record where its kind is one of the first 67, no version past 2 knows it, and more is wanted where
/// a byte of it is missing.
fn is_refused(rt: &impl Abort, case: &Case, record: &[u8]) {
    for version in [0, 3, 255] {
        assert!(rt; matches!(read_record(version, record), Step::Bad(Cause::Kind)));
    }
    let later = matches!(record.first(), Some(68..));
    assert_eq!(rt;
        matches!(read_record(1, record), Step::Bad(Cause::Kind)),
        later,
        "{}",
        case.record
    );
    assert_eq!(rt;
        matches!(read_record(1, record), Step::Whole { .. }),
        !later,
        "{}",
        case.record
    );
    for len in 0..record.len() {
        assert!(rt; is_cut(record, len), "{len} bytes of {}", case.record);
    }
}

/// Each record is read and written, and they are of the kinds from this number to the other in order.
fn are_read(
    rt: &impl Abort,
    alloc: Global,
    cases: &[Case],
    first: u8,
    last: u8,
) -> Result<(), Fail> {
    let mut number = first;
    for case in cases {
        let record = bytes_of(alloc, case.record)?;
        let found = record.first().copied().unwrap_or(0);
        assert!(rt;
            found == number || found == number.wrapping_add(1),
            "{}",
            case.record
        );
        number = found;
        is_read(rt, alloc, case, &record, &[])?;
        is_read(rt, alloc, case, &record, &[0])?;
        is_read(rt, alloc, case, &record, INIT)?;
        is_refused(rt, case, &record);
    }
    assert_eq!(rt; number, last);
    Ok(())
}

#[test]
fn point_to_point_calls(rt: HostRuntime) -> Result<(), Fail> {
    are_read(&rt, rt.alloc(), point::POINT, 1, 15)
}

#[test]
fn calls_that_finish_requests(rt: HostRuntime) -> Result<(), Fail> {
    are_read(&rt, rt.alloc(), finish::FINISH, 16, 25)
}

#[test]
fn calls_on_datatypes(rt: HostRuntime) -> Result<(), Fail> {
    are_read(&rt, rt.alloc(), derive::DERIVE, 26, 38)
}

#[test]
fn calls_on_other_objects(rt: HostRuntime) -> Result<(), Fail> {
    are_read(&rt, rt.alloc(), object::OBJECT, 39, 51)
}

#[test]
fn collective_calls(rt: HostRuntime) -> Result<(), Fail> {
    are_read(&rt, rt.alloc(), collective::COLLECTIVE, 52, 67)
}

#[test]
fn calls_on_persistent_requests(rt: HostRuntime) -> Result<(), Fail> {
    are_read(&rt, rt.alloc(), persist::PERSIST, 68, 72)
}

#[test]
fn nonblocking_collective_calls(rt: HostRuntime) -> Result<(), Fail> {
    are_read(&rt, rt.alloc(), started::STARTED, 73, 79)
}

/// The length of the record that the bytes are, or why they are refused; neither where they are no record of a call.
fn outcome_of(bytes: &[u8]) -> (u32, Option<Cause>) {
    match read_record(1, bytes) {
        Step::Whole { len, .. } => (len, None),
        Step::Bad(cause) => (0, Some(cause)),
        Step::More | Step::End { .. } => (0, None),
    }
}

fn are_judged(rt: &impl Abort, alloc: Global, cases: &[Judged]) -> Result<(), Fail> {
    for case in cases {
        let record = bytes_of(alloc, case.record)?;
        let (len, fault) = outcome_of(&record);
        assert_eq!(rt; fault, case.fault, "{}", case.name);
        let is_whole = len as usize == record.len();
        assert_eq!(rt; is_whole, case.fault.is_none(), "{}", case.name);
    }
    Ok(())
}

#[test]
fn bits_and_orders(rt: HostRuntime) -> Result<(), Fail> {
    are_judged(&rt, rt.alloc(), fields::BITS)
}

#[test]
fn indices_of_one(rt: HostRuntime) -> Result<(), Fail> {
    are_judged(&rt, rt.alloc(), fields::CHOICES)
}

#[test]
fn indices_of_some(rt: HostRuntime) -> Result<(), Fail> {
    are_judged(&rt, rt.alloc(), fields::COMPLETIONS)
}

#[test]
fn lengths_and_kinds(rt: HostRuntime) -> Result<(), Fail> {
    are_judged(&rt, rt.alloc(), lengths::LENGTHS)
}

#[test]
fn end_records(rt: HostRuntime) -> Result<(), Fail> {
    let alloc = rt.alloc();
    for (record, calls) in [
        ("00 00 00000004 00000000", 0),
        ("00 00 00000004 00000002 05", 2),
        ("00 00 00000004 ffffffff", u32::MAX),
    ] {
        let bytes = bytes_of(alloc, record)?;
        for version in [1, 2] {
            let Step::End { calls: found, len } = read_record(version, &bytes) else {
                return Err("no end record".into());
            };
            assert_eq!(rt; (found, len), (calls, 10), "{record}");
        }
    }
    Ok(())
}

/// The record of a Waitall of so many requests that didn't return.
fn waitall_of(alloc: Global, requests: u32) -> Result<Vec<u8>, Fail> {
    let mut record = Vec::new(alloc);
    record.extend_from_slice(&[17, 1])?;
    record.extend_from_slice(&requests.wrapping_mul(4).wrapping_add(4).to_be_bytes())?;
    record.extend_from_slice(&requests.to_be_bytes())?;
    for request in 0..requests {
        record.extend_from_slice(&request.to_be_bytes())?;
    }
    Ok(record)
}

#[test]
fn longest_payload(rt: HostRuntime) -> Result<(), Fail> {
    let alloc = rt.alloc();
    let record = waitall_of(alloc, 262_143)?;
    assert_eq!(rt; record.len(), 6 + 1_048_576);
    assert!(rt; is_whole(&record, 6 + 1_048_576));
    let call = call_of(alloc, &record)?;
    assert_eq!(rt; call.number(0), Some(262_143));
    assert_eq!(rt; call.number(262_143), Some(262_142));
    assert_eq!(rt; call.number(262_144), None);
    let mut written = Vec::new(alloc);
    append(alloc, &mut written, &call)?;
    assert!(rt; written.as_slice() == record.as_slice());
    Ok(())
}

#[test]
fn payloads_around_the_longest(rt: HostRuntime) -> Result<(), Fail> {
    let alloc = rt.alloc();
    let record = waitall_of(alloc, 262_143)?;
    assert!(rt; is_cut(&record, 6));
    assert!(rt; is_cut(&record, 1_048_581));
    let longer = waitall_of(alloc, 262_144)?;
    assert!(rt; matches!(read_record(1, &longer), Step::Bad(Cause::Length)));
    assert!(rt; is_cut(&longer, 5));
    Ok(())
}

#[test]
fn laws(_rt: HostRuntime) {
    one_spelling();
    known_kinds();
}

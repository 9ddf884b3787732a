//! Payloads of two kinds; must_record tries each kind.

ghost use Rattle.must_format.specs.Spelling.{IsSpellable};

use crate::{fits, inputs_of, judge_end, judge_payload, output_of, put_payload, read_payload};
use must_base::NoMemory;
use must_call::{Body, Call, Collective, Field, Handle, Item, Kind, Output, Point};
use must_format::Cause;
use std::alloc::Global;
use std::process::Abort;
use std::test::Fail;

/// A communicator, a group, and a communicator that was made of two members.
const PAYLOAD: &[u8] = &[
    0, 0, 0, 1, 0, 0, 0, 65, 0, 0, 0, 66, 0, 0, 0, 2, 0, 0, 0, 3, 0, 0, 0, 0,
];

#[test]
fn tables(rt: HostRuntime) {
    assert!(rt; inputs_of(Kind::Init).is_empty());
    assert!(rt; output_of(Kind::Init).is_none());
    assert!(rt;
        matches!(
            inputs_of(Kind::CommCreate),
            [Field::Handle(Handle::Comm), Field::Handle(Handle::Group)]
        )
    );
    assert!(rt; matches!(output_of(Kind::CommCreate), Some(Output::MadeComm)));
    assert!(rt; matches!(inputs_of(Kind::Testsome), [Field::Items(Item::Request)]));
    assert!(rt; matches!(output_of(Kind::Testsome), Some(Output::Completions)));
}

/// The call with this payload that makes a communicator of a group.
fn comm_create(alloc: Global, returned: bool, payload: &[u8]) -> Result<Call, Fail> {
    let body = read_payload(alloc, Kind::CommCreate, returned, payload)
        .ok()
        .ok_or("no memory")?;
    Ok(Call { returned, body })
}

/// Appends the payload of a call that fits.
fn append(out: &mut Vec<u8>, call: &Call) -> Result<(), NoMemory>
    requires { IsSpellable call.now }
{
    put_payload(out, &call.body)
}

/// A byte 9 and the payload of a call.
fn payload_of(alloc: Global, call: &Call) -> Result<Vec<u8>, Fail> {
    if !fits(call) {
        return Err("a call that doesn't fit".into());
    }
    let mut out = Vec::new(alloc);
    out.push(9)?;
    append(&mut out, call).ok().ok_or("no memory")?;
    Ok(out)
}

/// The payload is that of a call with these numbers.
fn is_payload(
    rt: &impl Abort,
    alloc: Global,
    returned: bool,
    payload: &[u8],
    numbers: &[i128],
) -> Result<(), Fail> {
    let call = comm_create(alloc, returned, payload)?;
    for i in 0..8u32 {
        let number = numbers.get(i as usize).copied();
        assert_eq!(rt; call.number(i), number, "number {i}");
    }
    let out = payload_of(alloc, &call)?;
    let (front, behind) = out.split_at(out.len().min(1));
    assert_eq!(rt; front, [9].as_slice());
    assert_eq!(rt; behind, payload);
    Ok(())
}

#[test]
fn payloads(rt: HostRuntime) -> Result<(), Fail> {
    let alloc = rt.alloc();
    is_payload(&rt, alloc, true, PAYLOAD, &[1, 65, 66, 2, 3, 0])?;
    is_payload(&rt, alloc, false, &PAYLOAD[..8], &[1, 65])
}

/// The payload is good, and behind its fields stand these outputs; or this is its first fault.
fn is_judged(
    rt: &impl Abort,
    kind: Kind,
    returned: bool,
    payload: &[u8],
    wanted: Result<&[u8], Cause>,
) {
    let judged = judge_payload(kind, returned, payload);
    assert_eq!(rt; judged.ok(), wanted.ok());
    assert_eq!(rt; judged.err(), wanted.err());
}

#[test]
fn judged_payloads(rt: HostRuntime) {
    let (fields, outputs) = PAYLOAD.split_at(8);
    is_judged(&rt, Kind::CommCreate, true, PAYLOAD, Ok(outputs));
    is_judged(&rt, Kind::CommCreate, false, fields, Ok(&[]));
    is_judged(&rt, Kind::CommCreate, true, fields, Err(Cause::Length));
    is_judged(&rt, Kind::CommCreate, false, PAYLOAD, Err(Cause::Length));
    is_judged(
        &rt,
        Kind::OpCreate,
        true,
        &[2, 0, 0, 0, 64],
        Err(Cause::Field),
    );
    assert_eq!(rt; judge_end(&[0, 0, 0, 7]).err(), None);
    assert_eq!(rt; judge_end(&[0, 0, 0]).err(), Some(Cause::Length));
    assert_eq!(rt; judge_end(&[0, 0, 0, 7, 0]).err(), Some(Cause::Length));
}

#[test]
fn missing_bytes(rt: HostRuntime) -> Result<(), Fail> {
    let alloc = rt.alloc();
    let body = read_payload(alloc, Kind::Bcast, true, &[0x80])
        .ok()
        .ok_or("no memory")?;
    assert!(rt;
        matches!(
            body,
            Body::Collective(Collective::Bcast {
                buf: 0x8000_0000_0000_0000,
                count: 0,
                dtype: 0,
                root: 0,
                comm: 0,
            },)
        )
    );
    let body = read_payload(alloc, Kind::Irecv, false, &[])
        .ok()
        .ok_or("no memory")?;
    assert!(rt; matches!(body, Body::Point(Point::Irecv { request: None, .. })));
    let body = read_payload(alloc, Kind::Irecv, true, &[])
        .ok()
        .ok_or("no memory")?;
    assert!(rt;
        matches!(
            body,
            Body::Point(Point::Irecv {
                request: Some(0),
                ..
            })
        )
    );
    Ok(())
}

//! Runs of two ranks, with the rows that docs/RULES.md gives them.

ghost use Rattle.std.specs.Prelude.{◌≡◌, IfOk};

use crate::{RunFault, analyse_serial};
use must_base::MemSource;
use must_call::Place;
use must_find::{Finding, Rule, RuleSet};
use must_format::{Cause, StreamFault};
use must_plan::{Plan, Sends};
use std::alloc::Global;
use std::test::Fail;

/// Rank 0 of 2: Init, TypeContiguous(2, INT; type 64), Finalize.
const LEAK: [u8; 57] = [
    77, 84, 82, 67, 1, 0, 0, 0, 0, 0, 0, 0, 2, 0, 0, 0x7f, 0xff, // header
    1, 0, 0, 0, 0, 0, // Init
    26, 0, 0, 0, 0, 12, 0, 0, 0, 2, 0, 0, 0, 7, 0, 0, 0, 64, // TypeContiguous
    2, 0, 0, 0, 0, 0, // Finalize
    0, 0, 0, 0, 0, 4, 0, 0, 0, 3, // end
];

/// Rank 1 of 2: Init alone.
const NO_FINALIZE: [u8; 33] = [
    77, 84, 82, 67, 1, 0, 0, 0, 1, 0, 0, 0, 2, 0, 0, 0x7f, 0xff, // header
    1, 0, 0, 0, 0, 0, // Init
    0, 0, 0, 0, 0, 4, 0, 0, 0, 1, // end
];

fn source(alloc: Global, bytes: &[u8]) -> Result<MemSource, Fail>
    ensures { IfOk result (λ source. source.faults ≡ 0) }
{
    Ok(MemSource::new(bytes.to_vec(alloc)?, 3, Vec::new(alloc)))
}

fn plan(sends: Sends) -> Plan {
    Plan {
        fan_in: 2,
        sends,
        rules: RuleSet::usual(),
    }
}

/// A rank of 2: Init, Send(4096, 4, INT, to the other, tag 0), Recv(8192, 4, INT, from the other, tag 0), Finalize.
fn sends_first(alloc: Global, rank: u8, other: u8) -> Result<Vec<u8>, Fail> {
    let bytes = [
        77, 84, 82, 67, 1, 0, 0, 0, rank, 0, 0, 0, 2, 0, 0, 0x7f, 0xff, // header
        1, 0, 0, 0, 0, 0, // Init
        3, 0, 0, 0, 0, 28, 0, 0, 0, 0, 0, 0, 16, 0, 0, 0, 0, 4, 0, 0, 0, 7, 0, 0, 0, other, 0, 0,
        0, 0, 0, 0, 0, 1, // Send
        7, 0, 0, 0, 0, 37, 0, 0, 0, 0, 0, 0, 32, 0, 0, 0, 0, 4, 0, 0, 0, 7, 0, 0, 0, other, 0, 0,
        0, 0, 0, 0, 0, 1, 0, 0, 0, other, 0, 0, 0, 0, 0, // Recv
        2, 0, 0, 0, 0, 0, // Finalize
        0, 0, 0, 0, 0, 4, 0, 0, 0, 4, // end
    ];
    Ok(bytes.to_vec(alloc)?)
}

/// A type that is open at Finalize, and a Finalize that isn't there.
#[test]
fn a_leak_and_no_finalize(rt: HostRuntime) -> Result<(), Fail> {
    let alloc = rt.alloc();
    let mut parts = [source(alloc, &LEAK)?, source(alloc, &NO_FINALIZE)?];
    match analyse_serial(alloc, &mut parts, &plan(Sends::Strict)) {
        Err(_) => assert!(&rt; false),
        Ok(findings) => {
            assert_eq!(&rt; findings.len(), 2);
            let leak = Finding {
                rank: 0,
                call: 2,
                rule: Rule::L1,
                part: 0,
                see: Some(Place { rank: 0, call: 1 }),
                value: 64,
            };
            let missing = Finding {
                rank: 1,
                call: 1,
                rule: Rule::I3,
                part: 0,
                see: None,
                value: 0,
            };
            assert_eq!(&rt; findings.get(0).copied(), Some(leak));
            assert_eq!(&rt; findings.get(1).copied(), Some(missing));
        }
    }
    Ok(())
}

/// The lowest stream that isn't complete stops the run.
#[test]
fn a_refused_stream(rt: HostRuntime) -> Result<(), Fail> {
    let alloc = rt.alloc();
    let mut parts = [source(alloc, &LEAK)?, source(alloc, &[])?];
    let fault = StreamFault::Malformed {
        at: 0,
        cause: Cause::Truncated,
    };
    match analyse_serial(alloc, &mut parts, &plan(Sends::Strict)) {
        Ok(_) => assert!(&rt; false),
        Err(e) => assert_eq!(&rt; e, RunFault::Stream { rank: 1, fault }),
    }
    Ok(())
}

/// Both ranks send first: under strict sends they wait for each other's receives, which stand behind; buffered sends go on.
#[test]
fn both_send_first(rt: HostRuntime) -> Result<(), Fail> {
    let alloc = rt.alloc();
    for (sends, count) in [(Sends::Strict, 2), (Sends::Buffered, 0)] {
        let mut parts = [
            source(alloc, &sends_first(alloc, 0, 1)?)?,
            source(alloc, &sends_first(alloc, 1, 0)?)?,
        ];
        match analyse_serial(alloc, &mut parts, &plan(sends)) {
            Err(_) => assert!(&rt; false),
            Ok(findings) => {
                assert_eq!(&rt; findings.len(), count);
                for (rank, found) in findings.as_slice().iter().enumerate() {
                    let blocked = Finding {
                        rank: u32::try_from(rank)?,
                        call: 1,
                        rule: Rule::W1,
                        part: 0,
                        see: Some(Place {
                            rank: if rank == 0 { 1 } else { 0 },
                            call: 2,
                        }),
                        value: 0,
                    };
                    assert_eq!(&rt; *found, blocked);
                }
            }
        }
    }
    Ok(())
}

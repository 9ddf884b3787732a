//! Worked reports, and their CSV read back.

use super::*;
use csv::{Reader, StringRecord};
use must_base::MemSink;
use must_call::Place;
use must_find::{Finding, Findings, Rule, RuleSet, Severity};
use std::alloc::Global;
use std::process::Abort;
use std::test::Fail;

const HEADER: &str = "rank,call,part,severity,rule,see_rank,see_call,value\n";

fn sink(alloc: Global, fail: &[u64]) -> Result<MemSink, Fail> {
    let mut sink = MemSink::new(alloc, fail.to_vec(alloc)?);
    sink.reserve(1000)?;
    Ok(sink)
}

fn all_of(alloc: Global, items: &[Finding]) -> Result<Findings, Fail> {
    let mut findings = Findings::new(alloc);
    for item in items {
        findings.add(*item)?;
    }
    Ok(findings)
}

/// A negative count at the second call of the first rank.
const NEGATIVE: Finding = Finding {
    rank: 0,
    call: 1,
    rule: Rule::A1,
    part: 0,
    see: None,
    value: -1,
};

/// A communicator that is left open.
const NOT_FREED: Finding = Finding {
    rank: 0,
    call: 2,
    rule: Rule::L2,
    part: 0,
    see: Some(Place { rank: 0, call: 1 }),
    value: 64,
};

/// A rank that waits for another.
const BLOCKED: Finding = Finding {
    rank: 1023,
    call: 4_294_967_295,
    rule: Rule::W1,
    part: 0,
    see: Some(Place {
        rank: 12,
        call: 8_388_607,
    }),
    value: 0,
};

/// A peer that isn't there.
const PEER: Finding = Finding {
    rank: 0,
    call: 1,
    rule: Rule::A2,
    part: 1,
    see: None,
    value: 170_141_183_460_469_231_731_687_303_715_884_105_727,
};

/// A finding of the rule that is off.
const RACE: Finding = Finding {
    rank: 3,
    call: 7,
    rule: Rule::X1,
    part: 2,
    see: Some(Place { rank: 1, call: 0 }),
    value: 5,
};

/// Writes both reports of some findings, and compares what was put.
fn reports(
    rt: &impl Abort,
    alloc: Global,
    rules: &RuleSet,
    given: &[Finding],
    text: &str,
    rows: &str,
) -> Result<(), Fail> {
    let findings = all_of(alloc, given)?;
    let mut out = sink(alloc, &[])?;
    assert_eq!(rt; write_text(alloc, &findings, rules, &mut out), Ok(()));
    assert_eq!(rt; out.bytes(), text.as_bytes());
    let mut out = sink(alloc, &[])?;
    assert_eq!(rt; write_csv(alloc, &findings, rules, &mut out), Ok(()));
    assert!(rt; out.bytes().starts_with(HEADER.as_bytes()), "{rows}");
    let (_, behind) = out.bytes().split_at(HEADER.len());
    assert_eq!(rt; behind, rows.as_bytes());
    let lines = rows.bytes().filter(|byte| *byte == b'\n').count();
    assert_eq!(rt; count_shown(&findings, rules), lines);
    Ok(())
}

#[test]
fn worked_reports(rt: HostRuntime) -> Result<(), Fail> {
    let alloc = rt.alloc();
    let usual = RuleSet::usual();
    reports(&rt, alloc, &usual, &[], "violations 0\n", "")?;
    reports(
        &rt,
        alloc,
        &usual,
        &[NEGATIVE],
        "rank 0 call 1 part 0: error A1 negative count, see -, value -1\nviolations 1\n",
        "0,1,0,error,A1,,,-1\n",
    )?;
    reports(
        &rt,
        alloc,
        &usual,
        &[NOT_FREED],
        "rank 0 call 2 part 0: warning L2 communicator not freed, see 0:1, value 64\nviolations 1\n",
        "0,2,0,warning,L2,0,1,64\n",
    )?;
    reports(
        &rt,
        alloc,
        &usual,
        &[BLOCKED, PEER],
        "rank 0 call 1 part 1: error A2 peer out of range, see -, value 170141183460469231731687303715884105727\n\
         rank 1023 call 4294967295 part 0: error W1 blocked in the deadlock core, see 12:8388607, value 0\n\
         violations 2\n",
        "0,1,1,error,A2,,,170141183460469231731687303715884105727\n\
         1023,4294967295,0,error,W1,12,8388607,0\n",
    )?;
    Ok(())
}

#[test]
fn rules_that_are_off(rt: HostRuntime) -> Result<(), Fail> {
    let alloc = rt.alloc();
    let mut rules = RuleSet::usual();
    let given = [NEGATIVE, NOT_FREED, RACE];
    reports(&rt, alloc, &rules, &[RACE], "violations 0\n", "")?;
    rules.set(Rule::A1, Severity::Off);
    reports(
        &rt,
        alloc,
        &rules,
        &given,
        "rank 0 call 2 part 0: warning L2 communicator not freed, see 0:1, value 64\nviolations 1\n",
        "0,2,0,warning,L2,0,1,64\n",
    )?;
    rules.set(Rule::L2, Severity::Error);
    rules.set(Rule::X1, Severity::Warning);
    reports(
        &rt,
        alloc,
        &rules,
        &given,
        "rank 0 call 2 part 0: error L2 communicator not freed, see 0:1, value 64\n\
         rank 3 call 7 part 2: warning X1 wildcard race, see 1:0, value 5\n\
         violations 2\n",
        "0,2,0,error,L2,0,1,64\n3,7,2,warning,X1,1,0,5\n",
    )?;
    Ok(())
}

#[test]
fn each_put_fails(rt: HostRuntime) -> Result<(), Fail> {
    let alloc = rt.alloc();
    let rules = RuleSet::usual();
    let findings = all_of(alloc, &[NEGATIVE, NOT_FREED])?;
    let mut text = sink(alloc, &[])?;
    write_text(alloc, &findings, &rules, &mut text)?;
    let mut rows = sink(alloc, &[])?;
    write_csv(alloc, &findings, &rules, &mut rows)?;
    for put in 0..3u64 {
        // A report is one put.
        let want = if put == 0 {
            Err(OutFault::Write)
        } else {
            Ok(())
        };
        let mut out = sink(alloc, &[put])?;
        assert_eq!(rt; write_text(alloc, &findings, &rules, &mut out), want);
        assert!(rt; text.bytes().starts_with(out.bytes()), "put {put}");
        let mut out = sink(alloc, &[put])?;
        assert_eq!(rt; write_csv(alloc, &findings, &rules, &mut out), want);
        assert!(rt; rows.bytes().starts_with(out.bytes()), "put {put}");
    }
    let mut full = MemSink::new(alloc, Vec::new(alloc));
    assert_eq!(rt;
        write_text(alloc, &findings, &rules, &mut full),
        Err(OutFault::Write)
    );
    assert_eq!(rt;
        write_csv(alloc, &findings, &rules, &mut full),
        Err(OutFault::Write)
    );
    Ok(())
}

fn number(row: &StringRecord, field: usize) -> Option<u32> {
    row.get(field)?.parse().ok()
}

/// The finding of a row, where it is one.
fn finding_of(row: &StringRecord) -> Option<Finding> {
    let see = match (row.get(5)?, row.get(6)?) {
        ("", "") => None,
        _ => Some(Place {
            rank: number(row, 5)?,
            call: number(row, 6)?,
        }),
    };
    Some(Finding {
        rank: number(row, 0)?,
        call: number(row, 1)?,
        rule: Rule::from_code(row.get(4)?)?,
        part: number(row, 2)?,
        see,
        value: row.get(7)?.parse().ok()?,
    })
}

#[test]
fn rows_read_back(rt: HostRuntime) -> Result<(), Fail> {
    let alloc = rt.alloc();
    let findings = all_of(alloc, &[NEGATIVE, NOT_FREED, BLOCKED, PEER])?;
    let mut out = sink(alloc, &[])?;
    write_csv(alloc, &findings, &RuleSet::usual(), &mut out)?;
    let mut reader = Reader::from_reader(alloc, out.bytes());
    let mut row = StringRecord::new(alloc);
    for finding in findings.as_slice() {
        assert!(rt; reader.read_record(&mut row)?);
        assert_eq!(rt; finding_of(&row), Some(*finding));
    }
    assert!(rt; !reader.read_record(&mut row)?);
    Ok(())
}

#[test]
fn many_findings(rt: HostRuntime) -> Result<(), Fail> {
    let alloc = rt.alloc();
    let mut findings = Findings::new(alloc);
    for call in 0..100_000u32 {
        findings.add(Finding { call, ..NEGATIVE })?;
    }
    let rules = RuleSet::usual();
    let mut out = MemSink::new(alloc, Vec::new(alloc));
    out.reserve(10_000_000)?;
    write_text(alloc, &findings, &rules, &mut out)?;
    let last =
        b"rank 0 call 99999 part 0: error A1 negative count, see -, value -1\nviolations 100000\n";
    assert!(rt; out.bytes().ends_with(last));
    let mut out = MemSink::new(alloc, Vec::new(alloc));
    out.reserve(10_000_000)?;
    write_csv(alloc, &findings, &rules, &mut out)?;
    assert!(rt; out.bytes().ends_with(b"\n0,99999,0,error,A1,,,-1\n"));
    let lines = out.bytes().iter().filter(|byte| **byte == b'\n').count();
    assert_eq!(rt; lines, 100_001);
    Ok(())
}

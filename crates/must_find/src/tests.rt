//! The table of rules, and findings in order.

use super::*;
use must_call::Place;
use std::alloc::Global;
use std::cmp::Ordering;
use std::process::Abort;
use std::test::Fail;

fn finding(rank: u32, call: u32, rule: Rule, part: u32) -> Finding {
    Finding {
        rank,
        call,
        rule,
        part,
        see: None,
        value: 0,
    }
}

#[test]
fn table_of_rules(rt: HostRuntime) {
    for (place, code, text) in [
        (0, "I1", "call before Init or second Init"),
        (2, "I3", "no Finalize"),
        (3, "A1", "negative count"),
        (4, "A2", "peer out of range"),
        (9, "A7", "color invalid"),
        (10, "H1", "handle unknown"),
        (14, "H5", "active request started"),
        (17, "T3", "buffer of a pending operation"),
        (18, "S1", "status contradicts arguments"),
        (22, "M4", "receive never matched"),
        (23, "N1", "open wildcard"),
        (31, "C8", "create groups disagree"),
        (33, "W2", "blocked outside the core"),
        (38, "L5", "request open"),
        (39, "X1", "wildcard race"),
    ] {
        let rule = Rule::from_place(place);
        assert_eq!(rt; rule, Rule::from_code(code));
        match rule {
            None => assert!(rt; false, "{place}"),
            Some(rule) => {
                assert_eq!(rt; rule.place(), place);
                assert_eq!(rt; rule.code(), code);
                assert_eq!(rt; rule.text(), text);
            }
        }
    }
    assert_eq!(rt; Rule::from_place(40), None);
    for code in ["", "A", "A8", "a1", "A1 "] {
        assert_eq!(rt; Rule::from_code(code), None, "{code}");
    }
}

#[test]
fn usual_severities(rt: HostRuntime) {
    let rules = RuleSet::usual();
    for place in 0..40u8 {
        if let Some(rule) = Rule::from_place(place) {
            let want = match rule.code() {
                "N1" | "L1" | "L2" | "L3" | "L4" | "L5" => Severity::Warning,
                "X1" => Severity::Off,
                _ => Severity::Error,
            };
            assert_eq!(rt; rules.get(rule), want, "{}", rule.code());
        }
    }
}

#[test]
fn one_severity(rt: HostRuntime) {
    let mut rules = RuleSet::usual();
    rules.set(Rule::X1, Severity::Warning);
    rules.set(Rule::A1, Severity::Off);
    for (rule, want) in [
        (Rule::X1, Severity::Warning),
        (Rule::L5, Severity::Warning),
        (Rule::A1, Severity::Off),
        (Rule::A2, Severity::Error),
        (Rule::I3, Severity::Error),
    ] {
        assert_eq!(rt; rules.get(rule), want, "{}", rule.code());
    }
}

fn has(rt: &impl Abort, findings: &Findings, want: &[Finding]) {
    assert_eq!(rt; findings.len(), want.len());
    assert_eq!(rt; findings.as_slice(), want);
    assert_eq!(rt; findings.get(0), want.first());
    assert_eq!(rt; findings.get(want.len()), None);
}

#[test]
fn findings_in_order(rt: HostRuntime) -> Result<(), Fail> {
    let sees = Finding {
        see: Some(Place { rank: 0, call: 1 }),
        ..finding(1, 1, Rule::A1, 0)
    };
    let order = [
        finding(0, 9, Rule::X1, 3),
        finding(1, 1, Rule::I1, 1),
        finding(1, 1, Rule::A1, 0),
        sees,
        finding(1, 1, Rule::A1, 1),
        finding(1, 2, Rule::I1, 0),
    ];
    let mut findings = Findings::new(rt.alloc());
    has(&rt, &findings, &[]);
    for at in [2usize, 0, 5, 3, 2, 4, 1, 5, 0] {
        if let Some(item) = order.get(at) {
            findings.add(*item)?;
        }
    }
    has(&rt, &findings, &order);
    assert_eq!(rt; order[2].cmp(&order[3]), Ordering::Less);
    assert_eq!(rt; order[3].cmp(&order[3]), Ordering::Equal);
    assert_eq!(rt; order[4].cmp(&order[3]), Ordering::Greater);
    Ok(())
}

fn all_of(alloc: Global, items: &[Finding]) -> Result<Findings, Fail> {
    let mut findings = Findings::new(alloc);
    for item in items {
        findings.add(*item)?;
    }
    Ok(findings)
}

#[test]
fn findings_merged(rt: HostRuntime) -> Result<(), Fail> {
    let first = finding(0, 9, Rule::X1, 3);
    let second = finding(1, 1, Rule::I1, 1);
    let third = finding(1, 1, Rule::A1, 0);
    let fourth = finding(1, 2, Rule::I1, 0);
    let odd = all_of(rt.alloc(), &[first, third])?;
    let even = all_of(rt.alloc(), &[second, third, fourth])?;
    let mut both = Findings::new(rt.alloc());
    both.merge(&odd)?;
    has(&rt, &both, &[first, third]);
    both.merge(&even)?;
    has(&rt, &both, &[first, second, third, fourth]);
    both.merge(&odd)?;
    has(&rt, &both, &[first, second, third, fourth]);
    order_law();
    Ok(())
}

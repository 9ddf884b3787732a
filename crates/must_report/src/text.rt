//! The report as text.

ghost use Rattle.std.specs.Prelude.{◌≡◌, ◌++◌, ◌∷◌, [], OnOk, IfOk, string_bytes};
ghost use Rattle.std.specs.List.{flat_map};
ghost use Rattle.must_find.specs.Report.{see_text, severity_text, head_text, rule_text, value_text, total_text, line_of, shown, report_of};

use crate::shown::{count_lines, is_shown};
use must_base::NoMemory;
use must_call::Place;
use must_find::{Finding, RuleSet, Severity};
use std::alloc::Global;
use std::fmt::Write;

fn push_see(out: &mut String, see: Option<Place>) -> Result<(), NoMemory>
    ensures { OnOk result (string_bytes out.new ≡ string_bytes out.old ++ see_text see) }
{
    match see {
        None => out.push_str("-")?,
        Some(s) => write!(out, "{}:{}", s.rank, s.call)?,
    }
    Ok(())
}

#[tactic(auto, unfolding(must_find::specs::Report::head_text))]
fn push_head(out: &mut String, f: &Finding) -> Result<(), NoMemory>
    ensures { OnOk result (string_bytes out.new ≡ string_bytes out.old ++ head_text f.now) }
{
    write!(out, "rank {} call {} part {}: ", f.rank, f.call, f.part)?;
    Ok(())
}

pub fn severity_name(severity: Severity) -> &'static str
    ensures { result.now ≡ severity_text severity }
{
    match severity {
        Severity::Error => "error",
        Severity::Warning => "warning",
        Severity::Off => "off",
    }
}

#[tactic(auto, unfolding(must_find::specs::Report::rule_text))]
fn push_rule(out: &mut String, rules: &RuleSet, f: &Finding) -> Result<(), NoMemory>
    ensures { OnOk result (string_bytes out.new ≡ string_bytes out.old ++ rule_text rules.now f.now) }
{
    let severity = severity_name(rules.get(f.rule));
    write!(
        out,
        "{} {} {}, see ",
        severity,
        f.rule.code(),
        f.rule.text()
    )?;
    Ok(())
}

#[tactic(auto, unfolding(must_find::specs::Report::value_text))]
fn push_value(out: &mut String, f: &Finding) -> Result<(), NoMemory>
    ensures { OnOk result (string_bytes out.new ≡ string_bytes out.old ++ value_text f.now) }
{
    write!(out, ", value {}\n", f.value)?;
    Ok(())
}

#[tactic(auto, unfolding(must_find::specs::Report::line_of))]
fn push_line(out: &mut String, rules: &RuleSet, f: &Finding) -> Result<(), NoMemory>
    ensures { OnOk result (string_bytes out.new ≡ string_bytes out.old ++ line_of rules.now f.now) }
{
    push_head(out, f)?;
    push_rule(out, rules, f)?;
    push_see(out, f.see)?;
    push_value(out, f)?;
    Ok(())
}

#[tactic(auto, unfolding(must_find::specs::Report::total_text))]
fn push_total(out: &mut String, n: usize) -> Result<(), NoMemory>
    ensures { OnOk result (string_bytes out.new ≡ string_bytes out.old ++ total_text n) }
{
    write!(out, "violations {}\n", n)?;
    Ok(())
}

/// The line of a finding that is shown.
fn push_shown(out: &mut String, rules: &RuleSet, f: &Finding) -> Result<(), NoMemory>
    ensures { OnOk result (string_bytes out.new
        ≡ string_bytes out.old ++ flat_map (line_of rules.now) (shown rules.now (f.now ∷ []))) }
{
    if !is_shown(rules, f) {
        return Ok(());
    }
    push_line(out, rules, f)
}

/// The whole report of some findings, in time and memory in proportion to their number.
pub fn report_text(alloc: Global, rules: &RuleSet, findings: &[Finding]) -> Result<String, NoMemory>
    ensures { IfOk result (λ text. string_bytes text ≡ report_of rules.now findings.now) }
{
    let mut text = String::new(alloc);
    for f in findings {
        push_shown(&mut text, rules, f)?;
    }
    push_total(&mut text, count_lines(rules, findings))?;
    Ok(text)
}

//! Which findings a report shows.

ghost use Rattle.std.specs.Prelude.{◌≡◌, ◌≤◌, ◌∷◌, [], length};
ghost use Rattle.must_find.specs.RuleSet.{severity_in};
ghost use Rattle.must_find.specs.Report.{is_on, shown};

use must_find::{Finding, Findings, RuleSet, Severity};

/// Whether the severity of a finding's rule isn't off.
pub fn is_shown(rules: &RuleSet, f: &Finding) -> bool
    ensures { result ≡ is_on (severity_in rules.now f.now.rule) }
{
    match rules.get(f.rule) {
        Severity::Error | Severity::Warning => true,
        Severity::Off => false,
    }
}

/// How many lines a finding has.
fn lines_of(rules: &RuleSet, f: &Finding) -> usize
    ensures lines { result ≡ length (shown rules.now (f.now ∷ [])) }
    ensures few { result ≤ 1 }
{
    if is_shown(rules, f) {
        return 1;
    }
    0
}

/// How many lines these findings have.
pub fn count_lines(rules: &RuleSet, findings: &[Finding]) -> usize
    ensures { result ≡ length (shown rules.now findings.now) }
{
    let mut lines = 0;
    for f in findings {
        lines += lines_of(rules, f);
    }
    lines
}

/// How many of the findings a report shows: those whose severity isn't off (docs/RULES.md, "Reports").
pub fn count_shown(findings: &Findings, rules: &RuleSet) -> usize
    ensures { result ≡ length (shown rules.now findings.now) }
{
    count_lines(rules, findings.as_slice())
}

//! The severity of each rule.

ghost use Rattle.std.specs.Prelude.{◌≡◌, ◌≢◌};
ghost use Rattle.must_find.specs.declared.rule.Rule.{Rule};
ghost use Rattle.must_find.specs.Rules.{usual_severities};
ghost use Rattle.must_find.specs.RuleSet.{severity_in};

use crate::rule::Rule;
use crate::severity::Severity;
use std::marker::Model;

/// A severity for each rule. Contracts see the list of severities in the order of the table of rules.
#[derive(Drop)]
pub struct RuleSet {
    severities: [Severity; 40],
}

impl Model for RuleSet {
    ghost use Rattle.std.specs.Prelude.{List};
    ghost use Rattle.must_find.specs.declared.severity.Severity.{Severity};

    ghost Value = { List Severity };

    ghost view = { λ s. s.severities };
}

impl RuleSet {
    /// The severities of docs/RULES.md.
    pub fn usual() -> RuleSet
        ensures { result ≡ usual_severities }
    {
        let mut severities = [Severity::Error; 40];
        severities[usize::from(Rule::N1.place())] = Severity::Warning;
        severities[usize::from(Rule::L1.place())] = Severity::Warning;
        severities[usize::from(Rule::L2.place())] = Severity::Warning;
        severities[usize::from(Rule::L3.place())] = Severity::Warning;
        severities[usize::from(Rule::L4.place())] = Severity::Warning;
        severities[usize::from(Rule::L5.place())] = Severity::Warning;
        severities[usize::from(Rule::X1.place())] = Severity::Off;
        RuleSet { severities }
    }

    /// The severity of a rule.
    pub fn get(&self, rule: Rule) -> Severity
        ensures { result ≡ severity_in self.now rule }
    {
        match self.severities.get(usize::from(rule.place())) {
            Some(severity) => *severity,
            None => Severity::Off,
        }
    }

    /// Gives a rule this severity, and leaves those of the others.
    pub fn set(&mut self, rule: Rule, severity: Severity)
        ensures this { severity_in self.new rule ≡ severity }
        ensures others { (other : Rule) → other ≢ rule → severity_in self.new other ≡ severity_in self.old other }
    {
        self.severities[usize::from(rule.place())] = severity;
    }
}

//! The parts of a check: those of its streams, and behind them that of its rules file.

ghost use Rattle.std.specs.Prelude.{◌≡◌, ◌≤◌, ◌<◌, Some, None, length, take, drop, map, unwrap_or};
ghost use Rattle.std.specs.List.{AllByRecursion};
ghost use Rattle.must_format.specs.declared.limits.TheConstants.{MOST_RANKS};
ghost use Rattle.must_tree.specs.Told.{AreTied};
ghost use Rattle.must_tree.specs.Reading.{Analyses, mode_of};
ghost use Rattle.must_cli.specs.Settled.{rules_read, rules_of, AreSettings, AreTiedRules, sends_by};
ghost use Rattle.must_cli.specs.Parts.{ReadsRules, ReadsCheck, TiedCheck};

use crate::bind::source_law;
use must_base::Source;
use must_find::{Findings, RuleSet};
use must_plan::{Plan, Sends};
use must_settings::{RulesFault, Settings, settings_of};
use must_tree::{RunFault, analyse_serial};
use must_words::OptionWords;
use std::alloc::Global;

/// The findings of a run, and the severities to report them with.
#[derive(Drop)]
pub struct Analysed {
    pub findings: Findings,
    pub rules: RuleSet,
}

/// Why a check has no findings.
#[derive(Clone, Copy, Debug, PartialEq, Eq)]
pub enum CheckFault {
    /// The rules file gives no settings.
    Rules(RulesFault),
    /// A stream stops the run, or memory was short.
    Run(RunFault),
}

/// Reads the rules file from its part, which wasn't read yet.
fn read_part<S: Source>(alloc: Global, part: &mut S) -> Result<Settings, RulesFault>
    requires fresh { S.faults part.old ≡ 0 }
    ensures reads { ReadsRules (Some (rules_read (S.left part.old) (S.shows part.new))) result }
    ensures tied { AreTiedRules (Some (rules_read (S.left part.old) (S.shows part.new))) }
{
    source_law::<S>();
    settings_of(alloc, part)
}

/// Reads the rules file from the part behind so many others, none of which was read yet.
fn read_rules<S: Source>(
    alloc: Global,
    parts: &mut [S],
    count: usize,
) -> Result<Settings, RulesFault>
    requires within { count < length parts.old }
    requires fresh { AllByRecursion (λ part. S.faults part ≡ 0) parts.old }
    ensures length { length parts.new ≡ length parts.old }
    ensures front { take count parts.new ≡ take count parts.old }
    ensures reads { ReadsRules (rules_of (map S.left (drop count parts.old)) (map S.shows (drop count parts.new))) result }
    ensures tied { AreTiedRules (rules_of (map S.left (drop count parts.old)) (map S.shows (drop count parts.new))) }
{
    read_part(alloc, &mut parts[count])
}

/// The settings where there is no rules file.
fn usual_settings() -> Settings
    ensures { AreSettings None result }
{
    Settings {
        sends: None,
        rules: RuleSet::usual(),
    }
}

/// The settings of a check: those of the rules file, where a part stands behind those of the streams, and else the usual ones.
fn read_settings<S: Source>(
    alloc: Global,
    parts: &mut [S],
    count: usize,
) -> Result<Settings, RulesFault>
    requires within { count ≤ length parts.old }
    requires fresh { AllByRecursion (λ part. S.faults part ≡ 0) parts.old }
    ensures length { length parts.new ≡ length parts.old }
    ensures front { take count parts.new ≡ take count parts.old }
    ensures reads { ReadsRules (rules_of (map S.left (drop count parts.old)) (map S.shows (drop count parts.new))) result }
    ensures tied { AreTiedRules (rules_of (map S.left (drop count parts.old)) (map S.shows (drop count parts.new))) }
{
    if count < parts.len() {
        read_rules(alloc, parts, count)
    } else {
        Ok(usual_settings())
    }
}

/// Analyses the run whose streams are the first parts, and leaves the others.
fn analyse_front<S: Source>(
    alloc: Global,
    parts: &mut [S],
    count: usize,
    plan: &Plan,
) -> Result<Findings, RunFault>
    requires few { (1 ≤ count) × (count ≤ MOST_RANKS) }
    requires within { count ≤ length parts.old }
    requires fresh { AllByRecursion (λ part. S.faults part ≡ 0) (take count parts.old) }
    ensures behind { drop count parts.new ≡ drop count parts.old }
    ensures analyses { Analyses (mode_of plan.now.sends) (map S.left (take count parts.old)) (map S.shows (take count parts.new)) result }
    ensures tied { AreTied (map S.left (take count parts.old)) (map S.shows (take count parts.new)) }
{
    analyse_serial(alloc, &mut parts[..count], plan)
}

/// How standard sends are taken: as the words say, or else as the rules file says, or else they wait for their receives.
fn sends_taken(words: Option<Sends>, file: Option<Sends>) -> Sends
    ensures { result ≡ sends_by words file }
{
    match words {
        Some(sends) => sends,
        None => match file {
            Some(sends) => sends,
            None => Sends::Strict,
        },
    }
}

/// The plan of a check.
fn plan_of(options: &OptionWords, settings: &Settings) -> Plan
    ensures sends { result.sends ≡ sends_by options.now.sends settings.now.sends }
    ensures fan_in { result.fan_in ≡ unwrap_or options.now.fan_in 8 }
{
    let fan_in = match options.fan_in {
        Some(fan_in) => fan_in,
        None => 8,
    };
    Plan {
        fan_in,
        sends: sends_taken(options.sends, settings.sends),
        rules: RuleSet::usual(),
    }
}

/// Reads the rules file, where a part stands behind those of the streams, and then the streams.
pub fn read_parts<S: Source>(
    alloc: Global,
    options: &OptionWords,
    parts: &mut [S],
    count: usize,
) -> Result<Analysed, CheckFault>
    requires few { (1 ≤ count) × (count ≤ MOST_RANKS) }
    requires within { count ≤ length parts.old }
    requires fresh { AllByRecursion (λ part. S.faults part ≡ 0) parts.old }
    ensures reads { ReadsCheck count options.now.sends (map S.left parts.old) (map S.shows parts.new) result }
    ensures tied { TiedCheck count (map S.left parts.old) (map S.shows parts.new) }
{
    match read_settings(alloc, parts, count) {
        Err(fault) => Err(CheckFault::Rules(fault)),
        Ok(settings) => {
            let plan = plan_of(options, &settings);
            match analyse_front(alloc, parts, count, &plan) {
                Ok(findings) => Ok(Analysed {
                    findings,
                    rules: settings.rules,
                }),
                Err(fault) => Err(CheckFault::Run(fault)),
            }
        }
    }
}

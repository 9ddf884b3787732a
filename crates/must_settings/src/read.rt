//! Reading a rules file.

ghost use Rattle.std.specs.Prelude.{◌≡◌, Some, None, Err, IfOk, codes, option_map, option_and_then};
ghost use Rattle.must_find.specs.declared.rule.Rule.{Rule};
ghost use Rattle.must_find.specs.RuleSet.{severity_in};
ghost use Rattle.toml.specs.Data.{as_table, get_member};
ghost use Rattle.toml.specs.View.{view, table_view};
ghost use Rattle.must_settings.specs.declared.fault.SettingsFault.TheVariants.{Refused};
ghost use Rattle.must_settings.specs.RulesFile.{document, is_rule, are_rules, is_setting, are_settings, given, severity_by, sends_by, rules_by, rules_file, Sets};

use crate::fault::SettingsFault;
use crate::settings::Settings;
use crate::values::{rule_of, sends_of, severity_of};
use must_find::{Rule, RuleSet};
use must_plan::Sends;
use std::alloc::Global;
use toml::{Table, Value};

/// How many bytes a rules file may have.
pub const MOST_SETTINGS_BYTES: usize = 65_536;

/// Whether a member of the table of rules names a rule and a severity.
fn names_rule(code: &str, value: &Value) -> bool
    ensures { result ≡ is_rule code.now (view value.now) }
{
    rule_of(code).is_some() && severity_of(value).is_some()
}

fn names_rules(table: &Table) -> bool
    ensures { result ≡ are_rules (table_view table.now) }
{
    for (code, value) in table.iter() {
        if !names_rule(code.as_str(), value) {
            return false;
        }
    }
    true
}

/// Whether a member of a rules file is one that it may have.
fn is_member(key: &str, value: &Value) -> bool
    ensures { result ≡ is_setting key.now (view value.now) }
{
    match key {
        "sends" => sends_of(value).is_some(),
        "rules" => match value.as_table() {
            Some(table) => names_rules(table),
            None => false,
        },
        _ => false,
    }
}

fn are_members(table: &Table) -> bool
    ensures { result ≡ are_settings (table_view table.now) }
{
    for (key, value) in table.iter() {
        if !is_member(key.as_str(), value) {
            return false;
        }
    }
    true
}

/// Gives the rule with this code the severity with this name, where there are such.
fn set_rule(rules: &mut RuleSet, code: &str, value: &Value)
    ensures { (rule : Rule) → severity_in rules.new rule ≡ given rule (severity_in rules.old rule) code.now (view value.now) }
{
    if let Some(rule) = Rule::from_code(code) {
        if let Some(severity) = severity_of(value) {
            rules.set(rule, severity);
        }
    }
}

/// Sets the severities that a table of rules names.
fn set_rules(rules: &mut RuleSet, table: &Table)
    ensures { (rule : Rule) → severity_in rules.new rule ≡ severity_by rule (severity_in rules.old rule) (table_view table.now) }
{
    for (code, value) in table.iter() {
        set_rule(rules, code.as_str(), value);
    }
}

/// The table of rules of a rules file, where it has one.
fn rules_table(table: &Table) -> Option<&Table>
    ensures { option_map (λ t. table_view t.now) result ≡ option_and_then as_table (get_member (codes "rules") (table_view table.now)) }
{
    match table.get("rules") {
        Some(value) => value.as_table(),
        None => None,
    }
}

/// The severities that a rules file sets, and else the usual ones.
fn rules_in(table: &Table) -> RuleSet
    ensures { (rule : Rule) → severity_in result rule ≡ rules_by (table_view table.now) rule }
{
    let mut rules = RuleSet::usual();
    match rules_table(table) {
        Some(named) => {
            set_rules(&mut rules, named);
            rules
        }
        None => rules,
    }
}

/// How a rules file takes standard sends.
fn sends_in(table: &Table) -> Option<Sends>
    ensures { result ≡ sends_by (table_view table.now) }
{
    match table.get("sends") {
        Some(value) => sends_of(value),
        None => None,
    }
}

/// The table of a TOML document.
fn read_document(alloc: Global, bytes: &[u8]) -> Result<Table, SettingsFault>
    ensures table { IfOk result (λ table. document bytes.now ≡ Some (table_view table)) }
    ensures refused { result ≡ Err Refused → document bytes.now ≡ None }
{
    match toml::table_from_slice(alloc, bytes) {
        Ok(table) => Ok(table),
        Err(fault) if fault.is_memory() => Err(SettingsFault::NoMemory),
        Err(_) => Err(SettingsFault::Refused),
    }
}

/// The settings of a rules file with these bytes.
///
/// # Errors
///
/// `Refused` comes exactly where the file has more than 65,536 bytes, isn't a TOML document, or has a key, a code of a rule or
/// a value that isn't known; a file that is too long isn't parsed. `NoMemory` comes where there was no memory.
pub fn read_settings(alloc: Global, bytes: &[u8]) -> Result<Settings, SettingsFault>
    ensures accepted { IfOk result (Sets bytes.now) }
    ensures refused { result ≡ Err Refused → rules_file bytes.now ≡ None }
{
    if bytes.len() > MOST_SETTINGS_BYTES {
        return Err(SettingsFault::Refused);
    }
    let table = read_document(alloc, bytes)?;
    if !are_members(&table) {
        return Err(SettingsFault::Refused);
    }
    Ok(Settings {
        sends: sends_in(&table),
        rules: rules_in(&table),
    })
}

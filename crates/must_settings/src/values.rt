//! What the keys and values of a rules file mean.

ghost use Rattle.std.specs.Prelude.{◌≡◌};
ghost use Rattle.toml.specs.View.{view};
ghost use Rattle.must_settings.specs.RulesFile.{severity_named, sends_by_name, sends_named as sends_in_text, rule_named};

use must_find::{Rule, Severity};
use must_plan::Sends;
use toml::Value;

/// The severity with this name.
pub fn severity_of(value: &Value) -> Option<Severity>
    ensures { result ≡ severity_named (view value.now) }
{
    match value.as_str()? {
        "error" => Some(Severity::Error),
        "warning" => Some(Severity::Warning),
        "off" => Some(Severity::Off),
        _ => None,
    }
}

/// How standard sends are taken, by this name: `strict` or `buffered`.
pub fn sends_named(name: &str) -> Option<Sends>
    ensures { result ≡ sends_by_name name.now }
{
    match name {
        "strict" => Some(Sends::Strict),
        "buffered" => Some(Sends::Buffered),
        _ => None,
    }
}

/// How standard sends are taken, by a text with this name.
pub fn sends_of(value: &Value) -> Option<Sends>
    ensures { result ≡ sends_in_text (view value.now) }
{
    match value.as_str() {
        Some(name) => sends_named(name),
        None => None,
    }
}

/// The rule with this code, where a rules file may name it.
pub fn rule_of(code: &str) -> Option<Rule>
    ensures { result ≡ rule_named code.now }
{
    let rule = Rule::from_code(code)?;
    // X1 has no findings yet.
    if rule.place() == Rule::X1.place() {
        None
    } else {
        Some(rule)
    }
}

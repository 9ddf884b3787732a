//! Rules, severities, findings, and findings gathered in order.
//!
//! `Findings::add` makes one comparison where a finding comes behind all that are there, as a walk over a run gives
//! them; elsewhere it finds the place in logarithmic time and moves what stands behind. `Findings::merge` is linear in both
//! lists, and takes memory for a list of both. The other calls take constant time, but for `Rule::from_code`, which goes through the table of rules.
#![tactic(auto)]

mod finding;
mod findings;
mod laws;
mod rule;
mod rule_set;
mod severity;

pub use finding::Finding;
pub use findings::Findings;
pub use laws::order_law;
pub use rule::Rule;
pub use rule_set::RuleSet;
pub use severity::Severity;

#[cfg(test)]
mod tests;

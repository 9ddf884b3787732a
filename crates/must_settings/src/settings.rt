//! Settings.

use must_find::RuleSet;
use must_plan::Sends;

/// What a rules file sets.
#[derive(Drop)]
pub struct Settings {
    /// How standard sends are taken, where the file says so.
    pub sends: Option<Sends>,
    /// The severity of each rule: what the file says, and else the usual one.
    pub rules: RuleSet,
}

//! The settings of a check, which a rules file gives in TOML (docs/RULES.md, "The rules file").
//!
//! A rules file is short, at most 65,536 bytes, and is read whole. Time and memory are those of the crate `toml`, and one look-up
//! in the table of rules for each rule that the file names.
#![tactic(auto)]

mod fault;
mod file;
mod read;
mod settings;
#[cfg(test)]
mod tests;
mod values;

pub use fault::{RulesFault, SettingsFault};
pub use file::settings_of;
pub use read::{MOST_SETTINGS_BYTES, read_settings};
pub use settings::Settings;
pub use values::sends_named;

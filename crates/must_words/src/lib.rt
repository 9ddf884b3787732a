//! The words of the command line, and what they ask for (README.md, "Commands").
//!
//! The words behind the first are read by `clap`, once it is known that they are canonical: `clap` takes others besides.
#![tactic(auto)]

mod command;
mod matches;
mod options;
mod readers;
#[cfg(test)]
mod tests;
mod values;
mod words;

pub use command::command_words;
pub use words::{CheckWords, CommandWords, OptionWords};

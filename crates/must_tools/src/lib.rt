//! The text of a stream, for people to read (docs/FORMAT.md, "The text of a stream").
//!
//! `dump` reads a stream of any rank to its end, and puts its text at once. Time and memory are in proportion to the text: each
//! number of a payload is asked for once, in constant time.
#![tactic(auto)]

mod fault;
mod putting;
mod reading;
#[cfg(test)]
mod tests;
mod text;

pub use fault::DumpFault;
pub use putting::dump;

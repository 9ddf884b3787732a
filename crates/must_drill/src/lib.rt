//! The streams of a generated run (docs/DRILL.md).
//!
//! `drill` makes the streams of all ranks from the number of ranks, the number of rounds and a number, which alone decides how
//! many items the messages of each round have. Time and memory are in proportion to the bytes of the streams: a rank has
//! 7 + 6 * rounds calls, and its first ones name half of the ranks.
#![tactic(auto)]

mod calls;
mod handles;
mod laws;
mod numbers;
mod round;
mod set;
mod stream;
#[cfg(test)]
mod tests;

pub use laws::{accepted_run, complete_run, streams_in_order};
pub use set::{StreamSet, drill};

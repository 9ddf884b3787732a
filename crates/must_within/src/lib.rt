//! Generated runs (docs/DRILL.md) reach no limit.
//!
//! The code of this crate is one law; it has no state and takes no memory.
#![tactic(auto)]

mod laws;
#[cfg(test)]
mod tests;

pub use laws::generated_runs_are_accepted;

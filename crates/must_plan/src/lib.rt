//! How a run is to be analysed: what words and rules files ask for, and what an analysis is given.
#![tactic(auto)]

mod plan;

pub use plan::{Plan, Sends};

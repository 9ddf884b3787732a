//! The tree of a run: nodes over its ranks, level by level, whose children run in threads of their own (docs/THREADS.md, "The tree").
//!
//! A leaf reads the batches of its rank from the part of that rank. Whatever the fan-in and however the threads run, the tree closes
//! with the rows and the facts of all batches.
//!
//! # Cost
//!
//! An entry is moved once for each level that it goes up, and never copied. Each node with its children takes an inbox and its node
//! machine; a run of `n` ranks has less than `n` nodes above the leaves, or one. A child may take a thread; its node looks into its inbox over
//! and over while the children run, and yields between two looks. Batches that a node hasn't taken yet stand in its inbox, without a bound.
#![tactic(auto)]

mod berth;
mod fault;
mod leaf;
mod ports;
mod reader;
mod results;
mod run;
mod shape;
mod spot;
mod taking;
#[cfg(test)]
mod tests;
mod tree;

pub use fault::RunFault;
pub use reader::RankReader;
pub use run::run_tree;
pub use shape::{levels, range};

//! The datatypes that the handles of a rank stand for (docs/TYPES.md; docs/RULES.md, "What a rank knows"), and the limits of
//! their weights and of their reach (docs/FORMAT.md, "Limits").
//!
//! # Cost
//!
//! A call that makes a type takes time and memory for its own numbers, since old types are shared; any other call takes constant
//! time. A handle takes four bytes beside its type, and keeps them after it was freed.
#![tactic(auto)]

mod datatypes;
mod numbers;
#[cfg(test)]
mod tests;

pub use datatypes::Datatypes;

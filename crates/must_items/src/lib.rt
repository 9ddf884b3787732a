//! What the calls of a rank give to the analysis of the run: so far what a collective call gives to its wave (docs/RULES.md,
//! "Waves").
//!
//! # Cost
//!
//! An item takes time and memory in proportion to the fields of its call and to the members of the communicator; a name, and the
//! runs of a signature that is repeated for each member, are shared.
#![tactic(auto)]

mod collective;
mod moved;
mod named;
mod signatures;

pub use collective::{Communicator, collective_item, operation_named};

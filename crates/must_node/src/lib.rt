//! The node machine: entries of several ranks go in, in any lawful interleaving; what is inner to the node's ranks is settled,
//! and the rest is handed up in order (docs/NODES.md).
//!
//! # Cost
//!
//! An entry takes what `Channels` and `Waves` take for it, and is moved, not copied. Memory is in proportion to the facts, one for
//! each message, collective call and need that is inner, to what waits for a partner, and to the batches that stand ready.
//!
//! `Closed::blocked` goes over the facts twice: each is put into ordered maps and looked up there, in time logarithmic in the facts.
//! A name is compared only with names that agree in all else, once or twice for each message, and once for each member of a wave that a call
//! waits for. The calls of a wave that wait for it alone share one list of its places, so the needs take memory in proportion to calls and
//! wants where waves are whole. A wave that lacks calls has a place for each member all the same.
#![tactic(auto)]

mod closed;
mod fact;
mod index;
mod inner;
mod keys;
mod laws;
mod needs;
mod node;
mod settled;
mod sharing;
#[cfg(test)]
mod tests;
mod waits;

pub use closed::Closed;
pub use fact::{Fact, FactList};
pub use laws::{
    children_are_apart, handed_up_is_lawful, level_settles, levels_settle, needs_are_free,
    needs_come_from_the_root, node_settles, one_node_settles, order_is_free, partners_are_matches,
    waves_are_told,
};
pub use node::Node;

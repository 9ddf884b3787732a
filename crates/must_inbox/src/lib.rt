//! Inboxes: children push batches, each by a port of its own and in a thread of its own, and one taker takes them.
//!
//! An inbox is one unbounded queue of batches with their children's numbers. A rule over the queue and over what each thread knows
//! is kept by every step (`specs/Rule`), so nothing is lost, nothing comes twice, and each child's batches come in its order
//! (docs/THREADS.md).
//!
//! # Cost
//!
//! A push and a take move one batch, copy nothing of it and take the same time however much is in the queue, but for waiting for a
//! thread that is in the middle of a step at the same place. Memory is in proportion to the batches that stand in the queue: the
//! queue takes a block for each 31 of them. What the taker and the ports know of the past takes no bytes: it exists in proofs
//! alone.
#![tactic(auto)]

mod inbox;
mod laws;
mod rule;
mod sending;
#[cfg(test)]
mod tests;
mod view;

pub use inbox::{Inbox, MOST_PORTS, Port, Taker};
pub use laws::{children_are_lawful_together, fronts_are_lawful, ranks_come_by_children};
pub use sending::batches_go_between_threads;
